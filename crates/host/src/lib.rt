// The host of one card, by value: each call takes it and hands back the next.
#![tactic(auto)]

pub mod host; // host.rt: the host, making one, and how a call ends
pub mod blocks; // blocks.rt: blocks of a read, from the script into the lent buffer
pub mod calls; // calls.rt: initialise, read, SD status

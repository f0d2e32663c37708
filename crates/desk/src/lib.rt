// What the programs at the desk share.
#![tactic(auto)]

pub mod input; // input.rt: all of standard input
pub mod pile; // pile.rt: standard input book by book
pub mod room; // room.rt: the argument, the rows of room that a call has

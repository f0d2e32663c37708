// A call under way fed from a script: what the firmware does with a controller, done with a list of words, so that a call taken
// one answer at a time can be held to the call on the script.
#![tactic(auto)]

pub mod turn; // turn.rt: one answer from the script, or one row into the list
pub mod feed; // feed.rt: the four calls, fed from their beginning to their end

// The four calls, one answer at a time: a call under way says which reading it wants or which row to write, takes that one
// answer, and goes on until it is over.
#![tactic(auto)]

pub mod call; // call.rt: a call under way, and where it stands
pub mod initialise; // initialise.rt: what follows each step of an initialisation
pub mod stands; // stands.rt: where a call stands after each of its steps

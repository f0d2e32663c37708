// The four calls, one answer at a time: a call under way says which reading it wants or which row to write, takes that one
// answer, and goes on until it is over.
#![tactic(auto)]

pub mod call; // call.rt: a call under way
pub mod rows; // rows.rt: the rows of an initialisation outside commands and data phases
pub mod steps; // steps.rt: what it waits for, and how it goes on after an answer
pub mod ends; // ends.rt: what a call has come to
pub mod begin; // begin.rt: the four calls at their start

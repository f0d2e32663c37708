// The steps of a call, one answer at a time: each says which reading it wants or which row to write, takes that one answer,
// and goes on.
#![tactic(auto)]

pub mod wants; // wants.rt: what a step waits for
pub mod why; // why.rt: why a step is refused
pub mod reset; // reset.rt: the rows that reset the controller
pub mod arm; // arm.rt: the rows that ready the data path, and those that stop it
pub mod command; // command.rt: a command
pub mod ready; // ready.rt: the wait until the card is ready
pub mod phase; // phase.rt: what a data phase is for
pub mod transfer; // transfer.rt: a data phase

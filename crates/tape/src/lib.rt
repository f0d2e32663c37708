// A call's script of readings, its row list, and how far it has come in both: the driver's smallest steps.
#![tactic(auto)]

pub mod progress; // progress.rt: how far a call has come, and why it stopped
pub mod pairs; // pairs.rt: rows in 32-bit words, two a row
pub mod rows; // rows.rt: the row list, and how rows are packed
pub mod script; // script.rt: the script of readings
pub mod send; // send.rt: the words of a write, each as a row
pub mod steps; // steps.rt: idle wait, reset rows, stop rows, the card clock, the guard

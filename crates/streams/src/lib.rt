// The streams that a program reads and writes, and its arguments: what the programs at the desk have of the world.
#![tactic(auto)]

pub mod arguments; // arguments.rt: the words that the program was started with
pub mod console; // console.rt: the three streams of a program
pub mod failure; // failure.rt: the line that says why a reading or a writing failed
pub mod sink; // sink.rt: where bytes are written
pub mod source; // source.rt: where bytes are read

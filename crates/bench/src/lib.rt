// A bench book served: its calls on a host, and what is printed of them.
#![tactic(auto, using(text::proofs::Pens::writing))]

pub mod serve; // serve.rt: a book's settings and calls
pub mod print; // print.rt: the lines of a book
pub mod trace; // trace.rt: what happened in each call

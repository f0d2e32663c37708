// The bench book: calls on a host with the scripts that they are served from, as words of one file, and the lines that are
// printed of it.
#![tactic(auto, using(text::proofs::Pens::writing))]

pub mod layout; // layout.rt: the book's words, whether they are a book, and what stands where
pub mod lines; // lines.rt: the lines that the program prints

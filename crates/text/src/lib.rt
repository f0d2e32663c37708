// Text in a lent buffer: a pen at a place lays bytes in as far as they fit, so no text overflows and a short buffer cuts it.
#![tactic(auto, using(crate::proofs::Pens::writing))]

pub mod pen; // pen.rt: bytes, and numbers in decimal and hexadecimal

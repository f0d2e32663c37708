// The lines of a call on their way to standard output: they gather on a sheet, which is handed over before a line might not
// fit on it.
#![tactic(auto, using(text::proofs::Pens::writing))]

pub mod sheet; // sheet.rt: so much of a lent buffer
pub mod lines; // lines.rt: the lines of a call

// One event of a call as text in a lent buffer: a reading with its word, or a row, and what it means for people. It is written
// with a pen (text/src/pen.rt says why not by `Display`).
#![tactic(auto, using(text::proofs::Pens::writing))]

pub mod said; // said.rt: two spaces and a text, a counted noun
pub mod flags; // flags.rt: what a status word has
pub mod row; // row.rt: what a row means
pub mod reading; // reading.rt: a reading's kind, and what its word means
pub mod event; // event.rt: an event's line

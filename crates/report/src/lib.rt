// What happened in a call, as text in a lent buffer: its rows, the word its answer carries, the host it left, and what it
// read. All of it is written with a pen (text/src/pen.rt says why not by `Display`).
#![tactic(auto, using(text::proofs::Pens::writing))]

pub mod rows; // rows.rt: the rows, and the word that the answer carries
pub mod status; // status.rt: the words of an SD status
pub mod record; // record.rt: the record of a card
pub mod state; // state.rt: the host that a call left
pub mod blocks; // blocks.rt: the blocks that a read laid down

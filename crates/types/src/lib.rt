// The plain types and functions of the driver (the Rust's v4x7_types.rs, and what it takes of sdio_host): no reading is
// taken here and no row written.
#![tactic(auto)]

pub mod error; // error.rt: why a call was refused, and the number of each answer
pub mod clock; // clock.rt: frequencies and the clock divisor
pub mod config; // config.rt: the settings of a host
pub mod register; // register.rt: the 128-bit registers, capacity and rate
pub mod card; // card.rt: the record of a card, its size and its addresses
pub mod status; // status.rt: status words of the controller and of the card, the SCR
pub mod words; // words.rt: words as bytes

// Initialisation of a card, as the driver's `blocking_init_card` has it: from the settings and the asked frequency alone.
#![tactic(auto)]

pub mod settings; // settings.rt: what a host is made with
pub mod begin; // begin.rt: power, CMD0, CMD8
pub mod identify; // identify.rt: power-up, CID, RCA, CSD, selection
pub mod lent; // lent.rt: data words where they lie in the script
pub mod speed; // speed.rt: bus width, clock, signalling
pub mod card; // card.rt: the SCR, and the whole of it under its guard

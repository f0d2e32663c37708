// Commands to the card over the controller, its clock, and the data phase.
#![tactic(auto)]

pub mod response; // response.rt: the kinds of response, and what each asks of its command
pub mod command; // command.rt: one command
pub mod ready; // ready.rt: the card's status, and the wait until the card is ready
pub mod clock; // clock.rt: the clock change and the delay by the card clock
pub mod poll; // poll.rt: the polls of a data phase
pub mod transfer; // transfer.rt: the data phase

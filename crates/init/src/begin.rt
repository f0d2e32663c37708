// The first steps of an initialisation: power, CMD0, CMD8.
ghost use Rattle.std.specs.Prelude.{◌≡◌, List, Bool, false, ℕ};
ghost use Rattle.tape.specs.Layout.{rows_in};
ghost use Rattle.tape.specs.Run.{left_at, value_of, Settled, Took, Went};
ghost use Rattle.bus.specs.Command.{first_of, zeros};
ghost use Rattle.init.specs.Initialise.{version, timed_out, late, card_version, power_on, begin_init};

use crate::settings::Settings;
use bus::response::Response;
use bus::{clock, command};
use tape::progress::{Halt, Head};
use tape::rows::Row;
use tape::{progress, rows, steps};
use types::clock::Clock;
use types::error::Error;
use types::status::CardStatus;

// What CMD8 asks for and a card of version 2 echoes: 2.7 to 3.6 V, and a check pattern.
#[derive(Clone, Copy)]
pub struct Interface {}

impl Interface {
    pub const CONDITION: u32 = 0x1aa;
    // A card of version 1 does not know the command.
    pub const ILLEGAL: u32 = 0x0040_0000;
}

// Whether the first word of an answer to CMD8 is that of a card of version 2; refuses where it is no known card's.
fn version(word: u32) -> Result<bool, Halt>
    ensures { (s : List ℕ) (h : Head) (l : List Row) → Took s Bool false (version word) h l result h l }
{
    if word == Interface::CONDITION {
        return Ok(true);
    }
    progress::ensure(
        word & CardStatus::ERRORS == Interface::ILLEGAL,
        Error::UnsupportedCardVersion,
    )?;
    Ok(false)
}

// Whether no answer came in time: Timeout, and no other error.
pub fn timed_out(e: Error) -> bool
    ensures { result ≡ timed_out e }
{
    match e {
        Error::Timeout => true,
        _ => false,
    }
}

// What an answer to CMD8 says: no answer in time is that of a card of version 1.
fn judge_version(answer: Result<[u32; 4], Halt>) -> Result<bool, Halt>
    ensures { (s : List ℕ) (h : Head) (l : List Row) → Settled s (List ℕ) Bool false (λ ws. version (first_of ws)) late (value_of zeros answer) (left_at answer h l) (value_of false result) (left_at result h l) }
{
    match answer {
        Ok(words) => version(words[0]),
        Err(halt) => match halt {
            Halt::Refused(e) => { if timed_out(e) { Ok(false) } else { Err(halt) } }
            Halt::ScriptEnded => Err(halt),
            Halt::TraceFull => Err(halt),
        },
    }
}

// Whether the card is of version 2.
fn card_version(head: &mut Head, script: &[u32], rows: &mut [u64], limit: u32) -> Result<bool, Halt>
    ensures { Took script.now Bool false (card_version limit) head.old (rows_in rows.old) result head.new (rows_in rows.new) }
{
    let asked = Interface::CONDITION;
    judge_version(command::send(head, script, rows, limit, 8, asked, Response::R7))
}

// Resets the controller, and gives the card power and 80 cycles of the initial clock.
fn power_on(
    head: &mut Head,
    script: &[u32],
    rows: &mut [u64],
    settings: Settings,
    initial: Clock,
) -> Result<(), Halt>
    ensures { Went script.now (power_on settings initial) head.old (rows_in rows.old) result head.new (rows_in rows.new) }
{
    let limit = settings.config.poll_limit;
    steps::reset_controller(head, rows)?;
    clock::configure_clock(head, script, rows, limit, initial, false, false)?;
    rows::write_row(head, rows, Row::POWER, 3)?;
    steps::set_clken(head, rows, true)?;
    clock::clock_delay(head, rows, settings.source, initial.frequency, 80)
}

// Begins an initialisation: whether the card is of version 2.
pub fn begin_init(
    head: &mut Head,
    script: &[u32],
    rows: &mut [u64],
    settings: Settings,
    initial: Clock,
) -> Result<bool, Halt>
    ensures { Took script.now Bool false (begin_init settings initial) head.old (rows_in rows.old) result head.new (rows_in rows.new) }
{
    let limit = settings.config.poll_limit;
    power_on(head, script, rows, settings, initial)?;
    command::send(head, script, rows, limit, 0, 0, Response::None)?;
    card_version(head, script, rows, limit)
}

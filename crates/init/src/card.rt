// The SCR, and the whole initialisation under its guard.
ghost use Rattle.std.specs.Prelude.{◌≡◌, ℕ};
ghost use Rattle.types.specs.declared.card.Card.{Card};
ghost use Rattle.tape.specs.Layout.{rows_in};
ghost use Rattle.tape.specs.Run.{Took, Went};
ghost use Rattle.init.specs.Initialise.{no_card, block_length, read_scr, scr_in, with_scr, settle_card, init_card, initialise};

use crate::settings::Settings;
use crate::{begin, identify, lent, speed};
use bus::response::Response;
use bus::transfer::Transfer;
use bus::{command, ready, transfer};
use tape::progress::{Halt, Head};
use tape::steps;
use types::card::{Card, CardCapacity};
use types::clock::{Clock, Hertz};
use types::status::Scr;
use types::words;

// Tells a card that counts in bytes how long a block is.
fn set_block_length(
    head: &mut Head,
    script: &[u32],
    rows: &mut [u64],
    limit: u32,
    card_type: CardCapacity,
) -> Result<(), Halt>
    ensures { Went script.now (block_length limit card_type) head.old (rows_in rows.old) result head.new (rows_in rows.new) }
{
    match card_type {
        CardCapacity::SDSC => {
            command::send(head, script, rows, limit, 16, 512, Response::R1)?;
            Ok(())
        }
        CardCapacity::SDHC => Ok(()),
    }
}

// Reads the SCR of a card that was just selected.
fn read_scr(
    head: &mut Head,
    script: &[u32],
    rows: &mut [u64],
    settings: Settings,
    card: Card,
) -> Result<Scr, Halt>
    ensures { Took script.now ℕ 0 (read_scr settings card) head.old (rows_in rows.old) (scr_in result) head.new (rows_in rows.new) }
{
    let source = settings.source;
    let config = settings.config;
    let limit = config.poll_limit;
    let rca = card.rca;
    let asked = Transfer {
        index: 51,
        argument: 0,
        block_size: 3,
        words: 2,
    };
    ready::wait_ready(head, script, rows, source, config, rca)?;
    set_block_length(head, script, rows, limit, card.card_type)?;
    command::app_command(head, script, rows, limit, rca)?;
    let read = transfer::blocking_data(head, script, rows, source, config, asked, rca)?;
    let first = lent::word(read, 0);
    let second = lent::word(read, 1);
    Ok(words::scr_value(first, second))
}

// The record with its SCR.
pub fn with_scr(card: Card, scr: Scr) -> Card
    ensures { result ≡ with_scr card scr.0 }
{
    let mut found = card;
    found.scr = scr;
    found
}

// What follows identification: the SCR, the bus width, the clock, the signalling.
fn settle_card(
    head: &mut Head,
    script: &[u32],
    rows: &mut [u64],
    settings: Settings,
    frequency: Hertz,
    card: Card,
) -> Result<Card, Halt>
    ensures { Took script.now Card no_card (settle_card settings frequency.0 card) head.old (rows_in rows.old) result head.new (rows_in rows.new) }
{
    let rca = card.rca;
    let csd = card.csd;
    let encoded = csd.transfer_rate();
    let scr = read_scr(head, script, rows, settings, card)?;
    speed::set_width(head, script, rows, settings, rca, scr)?;
    speed::transfer_clock(head, script, rows, settings, frequency, encoded)?;
    speed::switch_speed(head, script, rows, settings, frequency, rca, scr)?;
    Ok(with_scr(card, scr))
}

// An initialisation, its refusals as they come.
fn init_card(
    head: &mut Head,
    script: &[u32],
    rows: &mut [u64],
    settings: Settings,
    initial: Clock,
    frequency: Hertz,
) -> Result<Card, Halt>
    ensures { Took script.now Card no_card (init_card settings initial frequency.0) head.old (rows_in rows.old) result head.new (rows_in rows.new) }
{
    let limit = settings.config.poll_limit;
    let version2 = begin::begin_init(head, script, rows, settings, initial)?;
    let ocr = identify::wait_power_up(head, script, rows, settings, version2)?;
    let card = identify::identify(head, script, rows, limit, ocr)?;
    settle_card(head, script, rows, settings, frequency, card)
}

// An initialisation under its guard.
pub fn initialise(
    head: &mut Head,
    script: &[u32],
    rows: &mut [u64],
    settings: Settings,
    initial: Clock,
    frequency: Hertz,
) -> Result<Card, Halt>
    ensures { Took script.now Card no_card (initialise settings initial frequency.0) head.old (rows_in rows.old) result head.new (rows_in rows.new) }
{
    match init_card(head, script, rows, settings, initial, frequency) {
        Ok(card) => Ok(card),
        Err(halt) => Err(steps::close(head, rows, halt)),
    }
}

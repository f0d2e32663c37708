// Bus width, clock and signalling.
ghost use Rattle.std.specs.Prelude.{◌≡◌, cond, not, ◌&&◌, ◌||◌, List, ℕ, min, eqb, ltb};
ghost use Rattle.types.specs.declared.clock.Clock.{Clock};
ghost use Rattle.types.specs.Leaf.{clock_of, rate_of};
ghost use Rattle.types.specs.Sd.{one_line, four_lines, sd_spec};
ghost use Rattle.tape.specs.Layout.{rows_in};
ghost use Rattle.tape.specs.Run.{Went};
ghost use Rattle.init.specs.Initialise.{set_width, no_clock, clocked, set_clock, rated, transfer_clock, offered, switched, take_switch, ask_switch, switch_speed};

use crate::lent;
use crate::settings::Settings;
use bus::response::Response;
use bus::transfer::Transfer;
use bus::{clock, command, transfer};
use tape::progress::{Halt, Head};
use tape::{progress, steps};
use types::card::Signalling;
use types::clock::{Clock, Hertz, clock_setting};
use types::error::Error;
use types::register::transfer_rate;
use types::status::Scr;
use types::words;

// The function that CMD6 switches: SDR25, asked about and taken.
#[derive(Clone, Copy)]
pub struct Switch {}

impl Switch {
    pub const ASK: u32 = 0x00ff_fff1;

    pub const TAKE: u32 = 0x80ff_fff1;
    // The highest clocks of SDR12 and of SDR25.
    pub const SDR12: u32 = 25_000_000;

    pub const SDR25: u32 = 50_000_000;
    // In the bytes of a switch status that list functions of the first group: SDR25's bit.
    pub const SDR25_LISTED: u8 = 0x2;
    // In the byte that tells what was switched to, the first group's function: what lies below this, and SDR25's number.
    pub const GROUP: u8 = 0x10;

    pub const SDR25_TAKEN: u8 = 0x1;
}

// Whether the card has the lines that are connected.
pub fn fits(scr: Scr, wide: bool) -> bool
    ensures { result ≡ (one_line scr.0 && (not wide || four_lines scr.0)) }
{
    scr.bus_width_one() && (!wide || scr.bus_width_four())
}

// What ACMD6 asks for.
pub fn width(wide: bool) -> u32
    ensures { result ≡ cond wide 2 0 }
{
    if wide { 2 } else { 0 }
}

// Sets the bus width.
pub fn set_width(
    head: &mut Head,
    script: &[u32],
    rows: &mut [u64],
    settings: Settings,
    rca: u16,
    scr: Scr,
) -> Result<(), Halt>
    ensures { Went script.now (set_width settings rca scr.0) head.old (rows_in rows.old) result head.new (rows_in rows.new) }
{
    let limit = settings.config.poll_limit;
    let wide = settings.wide;
    progress::ensure(fits(scr, wide), Error::UnsupportedBusWidth)?;
    command::app_command(head, script, rows, limit, rca)?;
    command::send(head, script, rows, limit, 6, width(wide), Response::R1)?;
    Ok(())
}

// Sets the clock, which is gated from here on.
fn set_clock(
    head: &mut Head,
    script: &[u32],
    rows: &mut [u64],
    settings: Settings,
    requested: Hertz,
) -> Result<(), Halt>
    ensures { Went script.now (set_clock settings requested.0) head.old (rows_in rows.old) result head.new (rows_in rows.new) }
{
    let limit = settings.config.poll_limit;
    let bypass = settings.config.allow_clock_bypass;
    let clock = clock_setting(settings.source, requested, bypass)?;
    clock::configure_clock(head, script, rows, limit, clock, settings.wide, false)?;
    steps::hold_clock(head, clock.frequency);
    steps::hold_gated(head, true);
    Ok(())
}

// Sets the clock of SDR12: the least of what is asked for, 25 MHz and the card's rate.
pub fn transfer_clock(
    head: &mut Head,
    script: &[u32],
    rows: &mut [u64],
    settings: Settings,
    frequency: Hertz,
    encoded: u8,
) -> Result<(), Halt>
    ensures { Went script.now (transfer_clock settings frequency.0 encoded) head.old (rows_in rows.old) result head.new (rows_in rows.new) }
{
    let rate = transfer_rate(encoded)?;
    let requested = frequency.0.min(Switch::SDR12).min(rate);
    set_clock(head, script, rows, settings, Hertz(requested))
}

// Whether a switch status offers SDR25.
pub fn offers(words: [u32; 16]) -> bool
    ensures { result ≡ offered words }
{
    let bytes = words::status_bytes(words);
    bytes[13] & Switch::SDR25_LISTED != 0 && bytes[29] & Switch::SDR25_LISTED == 0
}

// Whether a switch status says that SDR25 was switched to.
pub fn took(words: [u32; 16]) -> bool
    ensures { result ≡ switched words }
{
    let bytes = words::status_bytes(words);
    bytes[16] % Switch::GROUP == Switch::SDR25_TAKEN
}

// Switches to SDR25, and to its clock.
fn take_switch(
    head: &mut Head,
    script: &[u32],
    rows: &mut [u64],
    settings: Settings,
    frequency: Hertz,
    rca: u16,
) -> Result<(), Halt>
    ensures { Went script.now (take_switch settings frequency.0 rca) head.old (rows_in rows.old) result head.new (rows_in rows.new) }
{
    let source = settings.source;
    let config = settings.config;
    let asked = Transfer {
        index: 6,
        argument: Switch::TAKE,
        block_size: 6,
        words: 16,
    };
    let read = transfer::blocking_data(head, script, rows, source, config, asked, rca)?;
    progress::ensure(took(lent::sixteen(read)), Error::SignalingSwitchFailed)?;
    let slow = head.line.clock;
    clock::clock_delay(head, rows, source, slow, 8)?;
    let requested = frequency.0.min(Switch::SDR25);
    set_clock(head, script, rows, settings, Hertz(requested))?;
    steps::hold_signalling(head, Signalling::SDR25);
    Ok(())
}

// Switches to SDR25 where the card has it.
fn ask_switch(
    head: &mut Head,
    script: &[u32],
    rows: &mut [u64],
    settings: Settings,
    frequency: Hertz,
    rca: u16,
) -> Result<(), Halt>
    ensures { Went script.now (ask_switch settings frequency.0 rca) head.old (rows_in rows.old) result head.new (rows_in rows.new) }
{
    let source = settings.source;
    let config = settings.config;
    let asked = Transfer {
        index: 6,
        argument: Switch::ASK,
        block_size: 6,
        words: 16,
    };
    let read = transfer::blocking_data(head, script, rows, source, config, asked, rca)?;
    if offers(lent::sixteen(read)) {
        return take_switch(head, script, rows, settings, frequency, rca);
    }
    Ok(())
}

// Whether more than SDR12 is asked for, of a card that has CMD6.
pub fn fast(frequency: Hertz, scr: Scr) -> bool
    ensures { result ≡ (ltb 25_000_000 frequency.0 && not (eqb (sd_spec scr.0) 0)) }
{
    frequency.0 > Switch::SDR12 && scr.version() != 0
}

// Switches to SDR25 where it is asked for and the card has it.
pub fn switch_speed(
    head: &mut Head,
    script: &[u32],
    rows: &mut [u64],
    settings: Settings,
    frequency: Hertz,
    rca: u16,
    scr: Scr,
) -> Result<(), Halt>
    ensures { Went script.now (switch_speed settings frequency.0 rca scr.0) head.old (rows_in rows.old) result head.new (rows_in rows.new) }
{
    if fast(frequency, scr) {
        return ask_switch(head, script, rows, settings, frequency, rca);
    }
    Ok(())
}

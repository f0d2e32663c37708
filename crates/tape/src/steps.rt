// The driver's smallest steps: idle wait, reset rows, stop rows, the card clock, the guard.
ghost use Rattle.std.specs.Prelude.{◌≡◌, List, ℕ, Ok, ◌+◌, ◌^◌, ◌<◌, length};
ghost use Rattle.tape.specs.Layout.{rows_in};
ghost use Rattle.tape.specs.Pace.{Stopped};
ghost use Rattle.tape.specs.Plan.{Nothing, give, refusing};
ghost use Rattle.tape.specs.Run.{at, stand, Behind, Settled, Went};
ghost use Rattle.tape.specs.Steps.{hold_gated, hold_clock, hold_signalling, idle_mask, wait_idle, reset_controller, stop_data, set_clken};

use crate::progress::{Halt, Head};
use crate::rows::{Icr, Row};
use crate::script::Sta;
use crate::{rows, script};
use types::card::Signalling;
use types::clock::Hertz;
use types::error::Error;

// What has to end before a command, or before a data phase or a clock change.
fn idle_mask(data: bool) -> u32
    ensures { result ≡ idle_mask «data» }
{
    if data { Sta::BUSY } else { Sta::COMMAND }
}

// Polls the status, at most `limit` times, until the controller is idle. `rest` is what is left of the script.
pub fn wait_idle(head: &mut Head, rest: &[u32], limit: u32, data: bool) -> Result<(), Halt>
    requires { head.old.used + length rest.now < 2 ^ 64 }
    ensures { (s : List ℕ) (l : List Row) → Behind head.old.used rest.now s → Went s (wait_idle limit «data») head.old l result head.new l }
{
    let start = head.used;
    let busy = script::busy(rest, limit, idle_mask(data));
    head.used += busy;
    if busy < limit as usize {
        script::read_word(head, rest, start)?;
        return Ok(());
    }
    Err(Halt::Refused(Error::SoftwareTimeout))
}

// The reset rows.
pub fn reset_controller(head: &mut Head, rows: &mut [u64]) -> Result<(), Halt>
    ensures { (s : List ℕ) → Went s reset_controller head.old (rows_in rows.old) result head.new (rows_in rows.new) }
{
    rows::write_row(head, rows, Row::MASK, 0)?;
    rows::write_row(head, rows, Row::DCTRL2, 0)?;
    rows::write_row(head, rows, Row::DCTRL, 0)?;
    rows::write_row(head, rows, Row::CMD, 0)?;
    rows::write_row(head, rows, Row::POWER, 0)?;
    rows::write_row(head, rows, Row::CLKCR, 0)?;
    rows::write_row(head, rows, Row::ARG, 0)?;
    rows::write_row(head, rows, Row::DTIMER, 0)?;
    rows::write_row(head, rows, Row::DLEN, 0)?;
    rows::write_row(head, rows, Row::ICR, Icr::ALL)
}

// The stop rows.
pub fn stop_data(head: &mut Head, rows: &mut [u64]) -> Result<(), Halt>
    ensures { (s : List ℕ) → Went s stop_data head.old (rows_in rows.old) result head.new (rows_in rows.new) }
{
    rows::write_row(head, rows, Row::MASK, 0)?;
    rows::write_row(head, rows, Row::DCTRL, 0)?;
    rows::write_row(head, rows, Row::ICR, Icr::DATA)
}

// Opens or closes the card clock: CLKCR as it was last written, on or off.
pub fn set_clken(head: &mut Head, rows: &mut [u64], on: bool) -> Result<(), Halt>
    ensures { (s : List ℕ) → Went s (set_clken on) head.old (rows_in rows.old) result head.new (rows_in rows.new) }
{
    let value = rows::with_clken(head.line.clkcr, on);
    rows::write_row(head, rows, Row::CLKCR, value)
}

// What a guard makes of a call that stopped: the reset rows, and why it stopped, unless there is no room.
pub fn close(head: &mut Head, rows: &mut [u64], halt: Halt) -> Halt
    ensures { (s : List ℕ) → Settled s Nothing Nothing tt give (refusing reset_controller) tt (at (stand (Stopped halt) head.old) (rows_in rows.old)) tt (at (stand (Stopped result) head.new) (rows_in rows.new)) }
{
    match halt {
        Halt::TraceFull => halt,
        _ => match reset_controller(head, rows) {
            Ok(()) => halt,
            Err(full) => full,
        },
    }
}

// The host is gated from here on, or is not: its clock runs only around a command or a data phase.
pub fn hold_gated(head: &mut Head, gated: bool)
    ensures { (s : List ℕ) (l : List Row) → Went s (hold_gated gated) head.old l (Ok tt) head.new l }
{
    head.line.gated = gated;
}

// The card clock's frequency from here on.
pub fn hold_clock(head: &mut Head, clock: Hertz)
    ensures { (s : List ℕ) (l : List Row) → Went s (hold_clock clock) head.old l (Ok tt) head.new l }
{
    head.line.clock = clock;
}

// The signalling from here on.
pub fn hold_signalling(head: &mut Head, signalling: Signalling)
    ensures { (s : List ℕ) (l : List Row) → Went s (hold_signalling signalling) head.old l (Ok tt) head.new l }
{
    head.line.signalling = signalling;
}

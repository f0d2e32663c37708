// The clock change, and the delay by the card clock.
ghost use Rattle.std.specs.Prelude.{◌≡◌, List, ℕ, ◌≤◌};
ghost use Rattle.tape.specs.Layout.{rows_in};
ghost use Rattle.tape.specs.Run.{Went};
ghost use Rattle.bus.specs.Clock.{configure_clock, spins_of, clock_delay, delayed};

use tape::progress::{Halt, Head};
use tape::rows::Row;
use tape::{rows, script, steps};
use types::clock::{Clock, Hertz};
use types::error::Error;

// Sets the card clock once nothing is under way.
pub fn configure_clock(
    head: &mut Head,
    script: &[u32],
    rows: &mut [u64],
    limit: u32,
    clock: Clock,
    wide: bool,
    clken: bool,
) -> Result<(), Halt>
    ensures { Went script.now (configure_clock limit clock wide clken) head.old (rows_in rows.old) result head.new (rows_in rows.new) }
{
    let value = rows::clkcr(clock, wide, clken);
    let rest = script::rest(script, head.used);
    steps::wait_idle(head, rest, limit, true)?;
    rows::write_row(head, rows, Row::CLKCR, value)
}

// So many cycles of the card clock, in spins of the source clock.
fn spins(source: Hertz, clock: Hertz, cycles: u32) -> u64
    requires { 1 ≤ clock.0 }
    ensures { result ≡ spins_of source.0 clock.0 cycles }
{
    (source.0 as u64 + (clock.0 as u64 - 1)) / clock.0 as u64 * cycles as u64
}

// The spins of so many cycles of the card clock, unless there is no clock or they are too many.
pub fn delay(source: Hertz, clock: Hertz, cycles: u32) -> Result<u32, Error>
    ensures { delayed result ≡ clock_delay source.0 clock.0 cycles }
{
    if clock.0 == 0 {
        return Err(Error::BadClock);
    }
    let count = spins(source, clock, cycles);
    if count < 0x1_0000_0000 {
        Ok(count as u32)
    } else {
        Err(Error::BadClock)
    }
}

// Waits for so many cycles of the card clock.
pub fn clock_delay(
    head: &mut Head,
    rows: &mut [u64],
    source: Hertz,
    clock: Hertz,
    cycles: u32,
) -> Result<(), Halt>
    ensures { (s : List ℕ) → Went s (clock_delay source.0 clock.0 cycles) head.old (rows_in rows.old) result head.new (rows_in rows.new) }
{
    let count = delay(source, clock, cycles)?;
    rows::write_row(head, rows, Row::DELAY, count)
}

// The card's status, and the wait until the card is ready.
ghost use Rattle.std.specs.Prelude.{◌≡◌, List, Bool, false, ℕ};
ghost use Rattle.types.specs.Leaf.{rounded_up};
ghost use Rattle.tape.specs.Layout.{rows_in};
ghost use Rattle.tape.specs.Run.{Took, Went};
ghost use Rattle.bus.specs.Ready.{retry_delay, read_status, try_ready, wait_ready};

use crate::command;
use crate::response::Response;
use tape::progress::{Halt, Head};
use tape::rows;
use tape::rows::Row;
use types::clock::Hertz;
use types::config::Config;
use types::error::Error;
use types::status::CardStatus;

// A thousandth of a second, in spins of the source clock, rounded up.
pub fn millisecond(source: Hertz) -> u32
    ensures { result ≡ rounded_up source.0 1000 }
{
    ((source.0 as u64 + 999) / 1000) as u32
}

// The delay before the next attempt.
pub fn retry_delay(head: &mut Head, rows: &mut [u64], source: Hertz) -> Result<(), Halt>
    ensures { (s : List ℕ) → Went s (retry_delay source.0) head.old (rows_in rows.old) result head.new (rows_in rows.new) }
{
    let spins = millisecond(source);
    rows::write_row(head, rows, Row::DELAY, spins)
}

// The card's status.
pub fn read_status(
    head: &mut Head,
    script: &[u32],
    rows: &mut [u64],
    limit: u32,
    rca: u16,
) -> Result<u32, Halt>
    ensures { Took script.now ℕ 0 (read_status limit rca) head.old (rows_in rows.old) result head.new (rows_in rows.new) }
{
    let argument = rca as u32 * 0x1_0000;
    let answer = command::send(head, script, rows, limit, 13, argument, Response::R1)?;
    Ok(answer[0])
}

// One attempt: the card's status, and a delay if it is not ready.
fn try_ready(
    head: &mut Head,
    script: &[u32],
    rows: &mut [u64],
    source: Hertz,
    limit: u32,
    rca: u16,
) -> Result<bool, Halt>
    ensures { Took script.now Bool false (try_ready source.0 limit rca) head.old (rows_in rows.old) result head.new (rows_in rows.new) }
{
    let status = read_status(head, script, rows, limit, rca)?;
    if CardStatus(status).ready() {
        return Ok(true);
    }
    retry_delay(head, rows, source)?;
    Ok(false)
}

// Tries until the card is ready.
pub fn wait_ready(
    head: &mut Head,
    script: &[u32],
    rows: &mut [u64],
    source: Hertz,
    config: Config,
    rca: u16,
) -> Result<(), Halt>
    ensures { Went script.now (wait_ready source.0 config rca) head.old (rows_in rows.old) result head.new (rows_in rows.new) }
{
    for _ in 0..config.card_ready_attempts {
        if try_ready(head, script, rows, source, config.poll_limit, rca)? {
            return Ok(());
        }
    }
    Err(Halt::Refused(Error::SoftwareTimeout))
}

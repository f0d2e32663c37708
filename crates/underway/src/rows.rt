// The rows of an initialisation outside commands and data phases.
ghost use Rattle.std.specs.Prelude.{◌≡◌, true};
ghost use Rattle.stepping.specs.Ahead.{line_set, clock_on, row_at};

use bus::ready;
use stepping::call::{Change, Job, Known, Writes};
use tape::progress::Line;
use tape::rows;
use tape::rows::Row;
use types::card::Signalling;
use types::clock::Hertz;

fn written(register: u32, value: u32) -> Row
    ensures { result ≡ record { register = register; value = value } }
{
    Row {
        register: register,
        value: value,
    }
}

// The clock of this source that is set next.
fn clock_row(job: Job, known: Known, change: Change) -> Row
    ensures { result ≡ clock_on job known change }
{
    let asked = job.asked;
    let clock = known.clock;
    let wide = job.host.settings.wide;
    match change {
        Change::Initial => written(Row::CLKCR, rows::clkcr(asked.initial(), false, false)),
        Change::Transfer => written(Row::CLKCR, rows::clkcr(clock, wide, false)),
        Change::Switch => written(Row::CLKCR, rows::clkcr(clock, wide, false)),
    }
}

// A row, where the host holds this line.
pub fn row(job: Job, known: Known, line: Line, writes: Writes) -> Row
    ensures { result ≡ row_at job known line writes }
{
    let source = job.host.settings.source;
    match writes {
        Writes::Reset(reset) => reset.row(),
        Writes::Clock(change) => clock_row(job, known, change),
        Writes::Power => written(Row::POWER, 3),
        Writes::Open => written(Row::CLKCR, rows::with_clken(line.clkcr, true)),
        Writes::Delay(spins) => written(Row::DELAY, spins),
        Writes::Retry(_) => written(Row::DELAY, ready::millisecond(source)),
        Writes::Settle(spins) => written(Row::DELAY, spins),
        Writes::Close(reset, _) => reset.row(),
    }
}

// A line whose clock is set, gated from there on.
fn clocked(line: Line, clock: Hertz, signalling: Signalling) -> Line
    ensures { result ≡ record { clkcr = line.clkcr; gated = true; clock = clock; signalling = signalling } }
{
    Line {
        clkcr: line.clkcr,
        clock: clock,
        gated: true,
        signalling: signalling,
    }
}

// What the host holds once a clock row is written; the initial clock is held from the start.
fn set(known: Known, line: Line, change: Change) -> Line
    ensures { result ≡ line_set known (Writes.Clock change) line }
{
    let clock = known.clock;
    let frequency = clock.frequency;
    let signalling = line.signalling;
    match change {
        Change::Initial => line,
        Change::Transfer => clocked(line, frequency, signalling),
        Change::Switch => clocked(line, frequency, Signalling::SDR25),
    }
}

// What the host holds once a row is written, but for CLKCR.
pub fn after(known: Known, line: Line, writes: Writes) -> Line
    ensures { result ≡ line_set known writes line }
{
    match writes {
        Writes::Reset(_) => line,
        Writes::Clock(change) => set(known, line, change),
        Writes::Power => line,
        Writes::Open => line,
        Writes::Delay(_) => line,
        Writes::Retry(_) => line,
        Writes::Settle(_) => line,
        Writes::Close(_, _) => line,
    }
}

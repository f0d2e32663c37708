// The four calls at their start. One that is refused before its first step is over at once.
ghost use Rattle.std.specs.Prelude.{◌≡◌, cond, List, ℕ, ◌*◌, ◌^◌};
ghost use Rattle.tape.specs.declared.progress.Line.{Line};
ghost use Rattle.bus.specs.Command.{command};
ghost use Rattle.bus.specs.Transfer.{incoming, outgoing};
ghost use Rattle.step.specs.Context.{plug};
ghost use Rattle.step.specs.Next.{next, Lent};
ghost use Rattle.step.specs.Transfer.{blocks_of};
ghost use Rattle.stepping.specs.Ahead.{at_plan, site_of};
ghost use Rattle.underway.specs.Under.{under};
ghost use Rattle.underway.specs.Whole.{init_call, blocks_from, blocks_call, status_call};
ghost use Rattle.underway.specs.First.{first_plan, asked_by, line_by};

use crate::call::Call;
use bus::response::Response;
use host::host::{Sdmmc, fresh_line};
use step::command::{Command, Words};
use step::reset::Reset;
use step::why::Why;
use stepping::call::{Asked, At, End, Job, Known, Site, Waiting, Writes};
use tape::progress::Line;
use types::clock::{Clock, Hertz, clock_setting};
use types::error::Error;
use types::register::BlockCount;
use types::status::Scr;

// What a call begins with: a refusal; the reset rows of an initialisation, by its clock of identification and the asked
// frequency; the ready wait of a read or of a write, by its address and blocks; or CMD55 of a status call. A refusal is one of
// these and no `Err`, since it makes a call too: one that is over.
#[derive(Clone, Copy)]
pub enum First {
    Refused(Error),
    Resets(Clock, u32),
    Reads(u32, u16),
    Sends(u32, u16),
    App,
}

fn init_first(host: Sdmmc, frequency: u32) -> First
    ensures { (sent : List ℕ) → first_plan host sent result ≡ init_call host frequency }
{
    let source = host.settings.source;
    if frequency == 0 {
        return First::Refused(Error::BadClock);
    }
    if frequency > Sdmmc::MOST {
        return First::Refused(Error::BadClock);
    }
    let answer = clock_setting(source, Hertz(Sdmmc::IDENTIFICATION), false);
    match answer {
        Ok(initial) => First::Resets(initial, frequency),
        Err(error) => First::Refused(error),
    }
}

// Blocks from an address on, read or sent.
fn moves(sends: bool, address: u32, blocks: u16) -> First
    ensures { (host : Sdmmc) (sent : List ℕ) → first_plan host sent result ≡ blocks_from host (cond sends (outgoing sent) incoming) address (blocks_of blocks) }
{
    if sends {
        First::Sends(address, blocks)
    } else {
        First::Reads(address, blocks)
    }
}

// A read or a write, judged as the host on a script judges it.
fn blocks_first(host: Sdmmc, sends: bool, index: u32, bytes: usize) -> First
    ensures { (sent : List ℕ) → first_plan host sent result ≡ blocks_call host (cond sends (outgoing sent) incoming) index bytes }
{
    let answer = host.judged(sends, index, bytes);
    match answer {
        Ok(address) => moves(sends, address, (bytes / 512) as u16),
        Err(error) => First::Refused(error),
    }
}

fn status_first(host: Sdmmc) -> First
    ensures { (sent : List ℕ) → first_plan host sent result ≡ status_call host }
{
    if host.known {
        First::App
    } else {
        First::Refused(Error::NoCard)
    }
}

fn asked(first: First) -> Asked
    ensures { result ≡ asked_by first }
{
    match first {
        First::Refused(_) => Asked::Status,
        First::Resets(clock, frequency) => Asked::Card(clock, frequency),
        First::Reads(address, blocks) => Asked::Blocks(address, blocks),
        First::Sends(address, blocks) => Asked::Sends(address, blocks),
        First::App => Asked::Status,
    }
}

// What the host holds from the start: an initialisation begins with a fresh line.
fn line(first: First, before: Line) -> Line
    ensures { result ≡ line_by first before }
{
    match first {
        First::Refused(_) => before,
        First::Resets(clock, _) => fresh_line(clock.frequency),
        First::Reads(_, _) => before,
        First::Sends(_, _) => before,
        First::App => before,
    }
}

// Nothing is known of a card yet.
fn unknown() -> Known {
    let zeros = Words {
        a: 0,
        b: 0,
        c: 0,
        d: 0,
    };
    Known {
        version2: false,
        ocr: 0,
        cid: zeros,
        rca: 0,
        csd: zeros,
        blocks: BlockCount(0),
        scr: Scr(0),
        clock: Clock {
            divisor: 0,
            bypass: false,
            frequency: Hertz(0),
        },
    }
}

// CMD55 of a status call.
fn app(limit: u32, rca: u16, gated: bool) -> At
    ensures { (j : Job) (k : Known) (held : List ℕ) (g : Lent) (h : Line) → h.gated ≡ gated → next (at_plan j k held g result) h ≡ next (plug (site_of j k g.sent Site.App) (command limit 55 (rca * 2 ^ 16) Response.R1)) h }
{
    let begun = Command::begin(limit, 55, rca as u32 * 0x1_0000, Response::R1, gated);
    match begun {
        Some(command) => At::Command(Site::App, command),
        None => At::Over(End::Keeping(Why::Failed(Error::SoftwareTimeout))),
    }
}

// Where a call stands at its start.
fn stands(job: Job, known: Known, gated: bool, first: First) -> At
    ensures { job.asked ≡ asked_by first → (held : List ℕ) (g : Lent) (h : Line) → h.gated ≡ gated → next (at_plan job known held g result) (line_by first h) ≡ next (first_plan job.host g.sent first) h }
{
    match first {
        First::Refused(error) => At::Over(End::Keeping(Why::Failed(error))),
        First::Resets(_, _) => At::Tells(Writes::Reset(Reset::Mask)),
        First::Reads(_, _) => job.waits(known, gated, Waiting::Blocks),
        First::Sends(_, _) => job.waits(known, gated, Waiting::Blocks),
        First::App => app(
            job.host.settings.config.poll_limit,
            job.host.card.rca,
            gated,
        ),
    }
}

// A call at its start.
fn begin(host: Sdmmc, first: First) -> Call
    ensures { (g : Lent) → under g result ≡ record { before = host; ahead = next (first_plan host g.sent first) host.line } }
{
    let before = host.line;
    let job = Job {
        host: host,
        asked: asked(first),
    };
    let known = unknown();
    let at = stands(job, known, before.gated, first);
    Call {
        job: job,
        line: line(first, before),
        held: [0; 16],
        known: known,
        at: at,
    }
}

impl Call {
    // Initialises the card: its record, and the clock and signalling for it.
    pub fn init_card(host: Sdmmc, frequency: Hertz) -> Call
        ensures { (g : Lent) → under g result ≡ record { before = host; ahead = next (init_call host frequency.0) host.line } }
    {
        let asked = frequency.0;
        begin(host, init_first(host, asked))
    }

    // Reads so many bytes, 512 for each block, from an index on; its words are handed out with their places.
    pub fn read_blocks(host: Sdmmc, index: u32, bytes: usize) -> Call
        ensures { (g : Lent) → under g result ≡ record { before = host; ahead = next (blocks_call host incoming index bytes) host.line } }
    {
        begin(host, blocks_first(host, false, index, bytes))
    }

    // Writes so many bytes, 512 for each block, from an index on; its words are asked for by their places.
    pub fn write_blocks(host: Sdmmc, index: u32, bytes: usize) -> Call
        ensures { (g : Lent) → under g result ≡ record { before = host; ahead = next (blocks_call host (outgoing g.sent) index bytes) host.line } }
    {
        begin(host, blocks_first(host, true, index, bytes))
    }

    // Reads the card's SD status, which is then in its record.
    pub fn read_sd_status(host: Sdmmc) -> Call
        ensures { (g : Lent) → under g result ≡ record { before = host; ahead = next (status_call host) host.line } }
    {
        begin(host, status_first(host))
    }
}

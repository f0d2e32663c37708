// What a call under way waits for, and how it goes on after an answer.
ghost use Rattle.std.specs.Prelude.{◌≡◌, List, ℕ};
ghost use Rattle.tape.specs.declared.progress.Line.{Line};
ghost use Rattle.step.specs.Next.{next, want_of, heard, told, missed, line_after, Lent, filled_in, HandedBy};
ghost use Rattle.stepping.specs.Ahead.{bus_with, rca_of, wait_rca, at_plan, stand_next};
ghost use Rattle.underway.specs.Under.{kept_at, KeptAt, line_at, under, answered, unanswered, written};

use crate::call::Call;
use crate::rows;
use step::ready::Bus;
use step::wants::Wants;
use step::why::Why;
use stepping::call::{Asked, At, Gets, Job, Known, Stand, Waiting};
use tape::progress::Line;
use tape::script::Reading;

// What a ready wait goes by, and what a data phase does.
fn wait_bus(job: Job, known: Known, waiting: Waiting) -> Bus
    ensures { result ≡ bus_with job (wait_rca job known waiting) }
{
    job.bus(job.wait_rca(known, waiting))
}

fn data_bus(job: Job, known: Known, gets: Gets) -> Bus
    ensures { result ≡ bus_with job (rca_of job known gets) }
{
    job.bus(job.rca(known, gets))
}

// The words that a call keeps after a word: a data word goes to its place among them.
fn kept(asked: Asked, at: At, held: [u32; 16], word: u32) -> [u32; 16]
    ensures set { result ≡ kept_at asked at held word }
    ensures handed { (j : Job) (k : Known) (h : Line) (g g' : Lent) → j.asked ≡ asked → HandedBy (want_of (next (at_plan j k held g at) h)) word g g' → KeptAt asked at word held g (kept_at asked at held word) g' }
{
    match at {
        At::Command(_, _) => held,
        At::Ready(_, _) => held,
        At::Data(gets, part) => part.keeps(asked.phase(gets), held, word),
        At::Idle(_, _) => held,
        At::Tells(_) => held,
        At::Over(_) => held,
    }
}

// Where a call stands after a word, which it keeps by now; unasked, where it stood.
fn heard(job: Job, known: Known, line: Line, held: [u32; 16], at: At, word: u32) -> Stand
    ensures { (before : List ℕ) (g g' : Lent) → KeptAt job.asked at word before g held g' → stand_next job held g' result line ≡ heard (next (at_plan job known before g at) line) word }
{
    let asked = job.asked;
    let gated = line.gated;
    match at {
        At::Command(site, command) => job.commanded(known, gated, site, command.fed(word)),
        At::Ready(waiting, ready) => {
            let step = ready.fed(wait_bus(job, known, waiting), word);
            job.waited(known, gated, waiting, step)
        }
        At::Data(gets, part) => {
            let step = part.fed(data_bus(job, known, gets), asked.phase(gets), gated, word);
            job.received(known, held, line, gets, step)
        }
        At::Idle(change, more) => job.idled(known, change, more, word),
        At::Tells(_) => known.at(at),
        At::Over(_) => known.at(at),
    }
}

// Where a call stands that no word will come for; unasked, where it stood.
fn unheard(job: Job, known: Known, line: Line, held: [u32; 16], at: At) -> Stand
    ensures { (g : Lent) → stand_next job held g result line ≡ missed (next (at_plan job known held g at) line) }
{
    let asked = job.asked;
    let gated = line.gated;
    match at {
        At::Command(site, command) => job.commanded(known, gated, site, command.missed()),
        At::Ready(waiting, ready) => {
            let step = ready.missed(wait_bus(job, known, waiting));
            job.waited(known, gated, waiting, step)
        }
        At::Data(gets, part) => {
            let step = part.missed(data_bus(job, known, gets), asked.phase(gets), gated);
            job.received(known, held, line, gets, step)
        }
        At::Idle(_, _) => known.at(job.closes(known, Why::NoWord)),
        At::Tells(_) => known.at(at),
        At::Over(_) => known.at(at),
    }
}

// What the host holds once a row is written, but for CLKCR.
fn line_after(known: Known, line: Line, at: At) -> Line
    ensures { result ≡ line_at known at line }
{
    match at {
        At::Command(_, _) => line,
        At::Ready(_, _) => line,
        At::Data(_, _) => line,
        At::Idle(_, _) => line,
        At::Tells(writes) => rows::after(known, line, writes),
        At::Over(_) => line,
    }
}

// Where a call stands after its row, which its line has noted by now; with none to write, where it stood.
fn moved(job: Job, known: Known, line: Line, held: [u32; 16], at: At) -> Stand
    ensures { (g : Lent) (h : Line) → line ≡ line_after (next (at_plan job known held g at) h) → stand_next job held g result (line_at known at line) ≡ told (next (at_plan job known held g at) h) }
{
    let asked = job.asked;
    let gate = line.gated;
    match at {
        At::Command(site, command) => job.commanded(known, gate, site, command.went()),
        At::Ready(waiting, ready) => {
            let step = ready.went(wait_bus(job, known, waiting), gate);
            job.waited(known, gate, waiting, step)
        }
        At::Data(gets, part) => {
            let step = part.went(data_bus(job, known, gets), asked.phase(gets), gate);
            job.received(known, held, line, gets, step)
        }
        At::Idle(_, _) => known.at(at),
        At::Tells(writes) => {
            let next = rows::after(known, line, writes);
            job.follows(next.gated, job.gone(known, writes))
        }
        At::Over(_) => known.at(at),
    }
}

impl Call {
    // What it waits for: a reading by its kind, a row to write, a word of the data by its place, or nothing, once it is over.
    pub fn wants(self) -> Wants
        ensures { (g : Lent) → filled_in g.sent result ≡ want_of (under g self).ahead }
    {
        let job = self.job;
        let asked = job.asked;
        let known = self.known;
        let line = self.line;
        let at = self.at;
        match at {
            At::Command(_, command) => command.wants(line),
            At::Ready(waiting, ready) => ready.wants(wait_bus(job, known, waiting), line),
            At::Data(gets, part) => part.wants(data_bus(job, known, gets), asked.phase(gets), line),
            At::Idle(_, _) => Wants::Read(Reading::Status),
            At::Tells(writes) => Wants::Write(rows::row(job, known, line, writes)),
            At::Over(_) => Wants::Nothing,
        }
    }

    // After the word that it asked for; unasked, as it was.
    pub fn fed(self, word: u32) -> Call
        ensures { (g g' : Lent) → HandedBy (want_of (under g self).ahead) word g g' → under g' result ≡ answered (under g self) word }
    {
        let job = self.job;
        let asked = job.asked;
        let line = self.line;
        let before = self.held;
        let at = self.at;
        let held = kept(asked, at, before, word);
        let stand = heard(job, self.known, line, held, at, word);
        let known = stand.known;
        let next = stand.at;
        Call {
            job: job,
            line: line,
            held: held,
            known: known,
            at: next,
        }
    }

    // Told that no word will come for its reading: it has its closing rows to write, and then ends with 21. Unasked, as it was.
    pub fn missed(self) -> Call
        ensures { (g : Lent) → under g result ≡ unanswered (under g self) }
    {
        let job = self.job;
        let line = self.line;
        let held = self.held;
        let at = self.at;
        let stand = unheard(job, self.known, line, held, at);
        let known = stand.known;
        let next = stand.at;
        Call {
            job: job,
            line: line,
            held: held,
            known: known,
            at: next,
        }
    }

    // With its row written, which it noted.
    fn noting(self, noted: Line) -> Call
        ensures { (g : Lent) → noted ≡ line_after (under g self).ahead → under g result ≡ written (under g self) }
    {
        let job = self.job;
        let held = self.held;
        let at = self.at;
        let line = line_after(self.known, noted, at);
        let stand = moved(job, self.known, noted, held, at);
        let known = stand.known;
        let next = stand.at;
        Call {
            job: job,
            line: line,
            held: held,
            known: known,
            at: next,
        }
    }

    // After its row was written; with none to write, as it was.
    pub fn went(self) -> Call
        ensures { (g : Lent) → under g result ≡ written (under g self) }
    {
        let line = self.line;
        let wants = self.wants();
        match wants {
            Wants::Read(_) => self,
            Wants::Write(row) => self.noting(line.noted(row.register, row.value)),
            Wants::Send(_) => self.noting(line),
            Wants::Nothing => self,
        }
    }
}

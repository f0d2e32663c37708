// What a call has come to: its answer and the next host.
ghost use Rattle.std.specs.Prelude.{◌≡◌, take};
ghost use Rattle.types.specs.Words.{sd_status_of};
ghost use Rattle.step.specs.Next.{next, Lent};
ghost use Rattle.host.specs.Calls.{answer_for};
ghost use Rattle.step.specs.Transfer.{all_of};
ghost use Rattle.step.specs.Why.{cause_of};
ghost use Rattle.stepping.specs.Ahead.{phase_by, host_by, words_in, end_plan};
ghost use Rattle.underway.specs.Under.{under, ends_at, closed_at, closed_of};

use crate::call::{Call, Closed};
use host::calls;
use host::host::Sdmmc;
use init::identify;
use step::why::Why;
use stepping::call::{Asked, At, End, Gets, Job, Known};
use tape::progress::Line;
use types::error::Answer;
use types::words;

// The SD status that sixteen words make.
fn status_of(held: [u32; 16]) -> [u32; 16]
    ensures { result ≡ sd_status_of (take 16 held) }
{
    words::sd_status(held)
}

// The next host of an accepted read, write or status call.
fn accepted(job: Job, held: [u32; 16], line: Line) -> Sdmmc
    ensures { (g : Lent) → result ≡ host_by job.asked job.host line (all_of (phase_by job.asked) (words_in job Gets.Asked held g)) }
{
    let host = job.host;
    let card = host.card;
    let asked = job.asked;
    match asked {
        Asked::Card(_, _) => host.with(line, true, calls::with_status(card, status_of(held))),
        Asked::Status => host.with(line, true, calls::with_status(card, status_of(held))),
        Asked::Blocks(_, _) => host.with(line, host.known, card),
        Asked::Sends(_, _) => host.with(line, host.known, card),
    }
}

// The answer of a call that is refused for this.
fn answer_for(why: Why) -> Answer
    ensures { result ≡ answer_for (cause_of why) }
{
    match why {
        Why::Failed(error) => Answer::Refused(error),
        Why::NoWord => Answer::ScriptEnded,
    }
}

fn closes(answer: Answer, host: Sdmmc) -> Closed
    ensures { result ≡ record { outcome = Some answer; host = host } }
{
    Closed {
        outcome: Some(answer),
        host: host,
    }
}

// A call that ended so.
fn ended(job: Job, known: Known, held: [u32; 16], line: Line, end: End) -> Closed
    ensures { (g : Lent) → result ≡ closed_at job.host (next (end_plan job known (words_in job Gets.Asked held g) end) line) }
{
    let host = job.host;
    let card = host.card;
    match end {
        End::Accepted => closes(Answer::Accepted, accepted(job, held, line)),
        End::Found => closes(Answer::Accepted, host.with(line, true, known.card())),
        End::Keeping(why) => closes(answer_for(why), host.with(line, host.known, card)),
        End::Dropping(why) => closes(answer_for(why), host.with(line, false, identify::no_card())),
    }
}

// How a call ended, once it is over.
fn end_of(at: At) -> Option<End>
    ensures { result ≡ ends_at at }
{
    match at {
        At::Command(_, _) => None,
        At::Ready(_, _) => None,
        At::Data(_, _) => None,
        At::Idle(_, _) => None,
        At::Tells(_) => None,
        At::Over(end) => Some(end),
    }
}

impl Call {
    // What it has come to.
    pub fn closed(self) -> Closed
        ensures { (g : Lent) → result ≡ closed_of (under g self) }
    {
        let job = self.job;
        let host = job.host;
        let held = self.held;
        let line = self.line;
        let at = self.at;
        match end_of(at) {
            Some(end) => ended(job, self.known, held, line, end),
            None => Closed {
                outcome: None,
                host: host,
            },
        }
    }
}

// The host, making one, and how a call ends.
ghost use Rattle.std.specs.Prelude.{◌≡◌, false, List, ℕ};
ghost use Rattle.types.specs.Leaf.{clock_of};
ghost use Rattle.tape.specs.Pace.{Stopped};
ghost use Rattle.tape.specs.Run.{at, stand};
ghost use Rattle.host.specs.Calls.{fresh_line, host_of, no_host, clocked_host, made, ends, called_of, untouched, held_of};

use init::identify;
use init::settings::Settings;
use tape::progress::{Halt, Head, Line};
use tape::rows::Row;
use types::card::{Card, Signalling};
use types::clock::{Hertz, clock_setting};
use types::config::Config;
use types::error::{Answer, Error};

// A host: its settings, what it holds of the line to the card, and the record of the card, zeros where it has none.
#[derive(Clone, Copy)]
pub struct Sdmmc {
    pub settings: Settings,
    pub line: Line,
    pub known: bool,
    pub card: Card,
}

// A host that was asked for, zeros where the answer is a refusal.
#[derive(Clone, Copy)]
pub struct Made {
    pub answer: Answer,
    pub host: Sdmmc,
}

// The record that a host holds, zeros where it holds none.
#[derive(Clone, Copy)]
pub struct Held {
    pub answer: Answer,
    pub card: Card,
}

// What a call comes to: its answer, the words it used of its script, the rows it wrote, and the next host. No `Result`, here and
// at a status call: a refusal hands back a next host too.
#[derive(Clone, Copy)]
pub struct Called {
    pub answer: Answer,
    pub words: usize,
    pub rows: usize,
    pub host: Sdmmc,
}

// What a status call comes to: as any call, and the SD status that was read, zeros unless the call was accepted.
#[derive(Clone, Copy)]
pub struct StatusRead {
    pub answer: Answer,
    pub words: usize,
    pub rows: usize,
    pub status: [u32; 16],
    pub host: Sdmmc,
}

// What a host holds before it speaks to a card.
pub fn fresh_line(clock: Hertz) -> Line
    ensures { result ≡ fresh_line clock }
{
    Line {
        clkcr: 0,
        gated: false,
        clock: clock,
        signalling: Signalling::SDR12,
    }
}

// The zeros that stand where there is no host.
fn no_host() -> Sdmmc
    ensures { result ≡ no_host }
{
    Sdmmc {
        settings: Settings {
            source: Hertz(0),
            config: Config {
                data_transfer_timeout: 0,
                software_timeout_ms: 0,
                poll_limit: 0,
                card_ready_attempts: 0,
                allow_clock_bypass: false,
            },
            wide: false,
        },
        line: fresh_line(Hertz(0)),
        known: false,
        card: identify::no_card(),
    }
}

// The head of the tape before the first step of a call.
pub fn start(line: Line) -> Head
    ensures { result ≡ record { used = 0; rows = 0; line = line } }
{
    Head {
        used: 0,
        rows: 0,
        line,
    }
}

// A host that has not spoken to a card, with the clock of identification.
fn clocked(settings: Settings) -> Made
    ensures { result ≡ clocked_host settings (clock_of settings.source.0 400_000 false) }
{
    let source = settings.source;
    let answer = clock_setting(source, Hertz(Sdmmc::IDENTIFICATION), false);
    match answer {
        Ok(clock) => {
            let frequency = clock.frequency;
            Made {
                answer: Answer::Accepted,
                host: Sdmmc {
                    settings: settings,
                    line: fresh_line(frequency),
                    known: false,
                    card: identify::no_card(),
                },
            }
        }
        Err(error) => Made {
            answer: Answer::Refused(error),
            host: no_host(),
        },
    }
}

impl Sdmmc {
    // The clock of identification, in hertz.
    pub const IDENTIFICATION: u32 = 400_000;
    // The highest frequency that an initialisation may ask for.
    pub const MOST: u32 = 50_000_000;

    // A host of these settings.
    pub fn new(settings: Settings) -> Made
        ensures { result ≡ made settings }
    {
        let source = settings.source;
        let config = settings.config;
        let answer = config.judge(source);
        match answer {
            Ok(()) => clocked(settings),
            Err(error) => Made {
                answer: Answer::Refused(error),
                host: no_host(),
            },
        }
    }

    // The record of the card.
    pub fn card(self) -> Held
        ensures { result ≡ held_of self }
    {
        let card = self.card;
        if self.known {
            Held {
                answer: Answer::Accepted,
                card: card,
            }
        } else {
            Held {
                answer: Answer::Refused(Error::NoCard),
                card: identify::no_card(),
            }
        }
    }

    // The frequency of the card clock.
    pub fn clock(self) -> Hertz
        ensures { result ≡ self.line.clock }
    {
        let line = self.line;
        line.clock
    }

    pub fn signalling(self) -> Signalling
        ensures { result ≡ self.line.signalling }
    {
        let line = self.line;
        line.signalling
    }

    // The host with this line and record.
    pub fn with(self, line: Line, known: bool, card: Card) -> Sdmmc
        ensures { result ≡ host_of self.settings line known card }
    {
        let settings = self.settings;
        Sdmmc {
            settings: settings,
            line: line,
            known: known,
            card: card,
        }
    }

    // A call that is refused before its first step.
    pub fn untouched(self, error: Error) -> Called
        ensures { (l : List Row) → result ≡ called_of (untouched self error l) }
    {
        Called {
            answer: Answer::Refused(error),
            words: 0,
            rows: 0,
            host: self,
        }
    }

    // How a call ends that stopped so: with another host if it was refused or the script ended, and with this one where there
    // was no room.
    pub fn ends(self, head: Head, halt: Halt, refused: Sdmmc) -> Called
        ensures { (accepted : Sdmmc) (words : List ℕ) (l : List Row) → result ≡ called_of (ends self refused accepted words (Stopped halt) (at (stand (Stopped halt) head) l)) }
    {
        match halt {
            Halt::Refused(e) => refused.called(Answer::Refused(e), head),
            Halt::ScriptEnded => refused.called(Answer::ScriptEnded, head),
            Halt::TraceFull => self.called(Answer::TraceFull, head),
        }
    }

    // A call that came so far, was answered so, and leaves this host.
    pub fn called(self, answer: Answer, head: Head) -> Called
        ensures { result ≡ record { answer = answer; words = head.used; rows = head.rows; host = self } }
    {
        Called {
            answer,
            words: head.used,
            rows: head.rows,
            host: self,
        }
    }
}

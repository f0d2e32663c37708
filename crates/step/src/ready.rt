// The wait until the card is ready, answer by answer.
ghost use Rattle.std.specs.Prelude.{◌≡◌};
ghost use Rattle.tape.specs.declared.progress.Line.{Line};
ghost use Rattle.tape.specs.Plan.{give};
ghost use Rattle.bus.specs.Ready.{wait_ready};
ghost use Rattle.step.specs.Next.{next, want_of, heard, told, missed, line_after};
ghost use Rattle.step.specs.Context.{plug, plug_next};
ghost use Rattle.step.specs.Command.{command_next, list_of};
ghost use Rattle.step.specs.Ready.{attempts, asked, ready_plan, ready_next, waits_next};

use crate::command::{Command, Words};
use crate::wants::Wants;
use crate::why::{Step, Why};
use bus::ready;
use bus::response::Response;
use tape::progress::Line;
use tape::rows::Row;
use types::clock::Hertz;
use types::config::Config;
use types::error::Error;
use types::status::CardStatus;

// What a step goes by: the source clock, the limits, and the card's address.
#[derive(Clone, Copy)]
pub struct Bus {
    pub source: Hertz,
    pub config: Config,
    pub rca: u16,
}

// A ready wait under way, with so many attempts left after this one: CMD13, or the delay behind it.
#[derive(Clone, Copy)]
pub enum Ready {
    Asks(u32, Command),
    Delay(u32),
}

impl Bus {
    // The wait with so many attempts, where the clock is gated or not; none where they, or the polls of CMD13, are spent at once.
    fn attempt(self, gated: bool, left: u32) -> Option<Ready>
        ensures { (h : Line) → h.gated ≡ gated → waits_next self result h ≡ next (attempts self left) h }
    {
        if left == 0 {
            return None;
        }
        let more = left - 1;
        let limit = self.config.poll_limit;
        let argument = self.rca as u32 * 0x1_0000;
        let command = Command::begin(limit, 13, argument, Response::R1, gated)?;
        Some(Ready::Asks(more, command))
    }

    // The wait at its start.
    pub fn wait_ready(self, gated: bool) -> Option<Ready>
        ensures { (h : Line) → h.gated ≡ gated → waits_next self result h ≡ next (wait_ready self.source.0 self.config self.rca) h }
    {
        let left = self.config.card_ready_attempts;
        self.attempt(gated, left as u32)
    }

    // A ready wait before an attempt, as one after an answer.
    pub fn tries(self, waits: Option<Ready>) -> Step<Ready, ()>
        ensures { (h : Line) → ready_next self result h ≡ waits_next self waits h }
    {
        match waits {
            Some(ready) => Step::On(ready),
            None => Step::Over(Err(Why::Failed(Error::SoftwareTimeout))),
        }
    }

    // The card's status came.
    fn answered(self, left: u32, words: Words) -> Step<Ready, ()>
        ensures { (h : Line) → ready_next self result h ≡ next (plug (asked self left) (give (list_of words))) h }
    {
        let status = CardStatus(words.a);
        if status.ready() {
            Step::Over(Ok(()))
        } else {
            Step::On(Ready::Delay(left))
        }
    }

    // CMD13 after an answer.
    fn asking(self, left: u32, step: Step<Command, Words>) -> Step<Ready, ()>
        ensures { (h : Line) → ready_next self result h ≡ plug_next (asked self left) (command_next step h) }
    {
        match step {
            Step::On(command) => Step::On(Ready::Asks(left, command)),
            Step::Over(ended) => match ended {
                Ok(words) => self.answered(left, words),
                Err(why) => Step::Over(Err(why)),
            },
        }
    }
}

impl Ready {
    // What it waits for.
    pub fn wants(self, bus: Bus, line: Line) -> Wants
        ensures { result ≡ want_of (next (ready_plan bus self) line) }
    {
        match self {
            Ready::Asks(_, command) => command.wants(line),
            Ready::Delay(_) => {
                let source = bus.source;
                Wants::Write(Row {
                    register: Row::DELAY,
                    value: ready::millisecond(source),
                })
            }
        }
    }

    // After the word that it asked for; unasked, as it was.
    pub fn fed(self, bus: Bus, word: u32) -> Step<Ready, ()>
        ensures { (h : Line) → ready_next bus result h ≡ heard (next (ready_plan bus self) h) word }
    {
        match self {
            Ready::Asks(left, command) => bus.asking(left, command.fed(word)),
            Ready::Delay(_) => Step::On(self),
        }
    }

    // Where no word will come; unasked, as it was.
    pub fn missed(self, bus: Bus) -> Step<Ready, ()>
        ensures { (h : Line) → ready_next bus result h ≡ missed (next (ready_plan bus self) h) }
    {
        match self {
            Ready::Asks(left, command) => bus.asking(left, command.missed()),
            Ready::Delay(_) => Step::On(self),
        }
    }

    // After its row was written; with none to write, as it was.
    pub fn went(self, bus: Bus, gated: bool) -> Step<Ready, ()>
        ensures { (h : Line) → h.gated ≡ gated → ready_next bus result (line_after (next (ready_plan bus self) h)) ≡ told (next (ready_plan bus self) h) }
    {
        match self {
            Ready::Asks(left, command) => bus.asking(left, command.went()),
            Ready::Delay(left) => bus.tries(bus.attempt(gated, left)),
        }
    }
}

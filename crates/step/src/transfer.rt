// A data phase, answer by answer: the idle wait, the rows that ready the data path, DCTRL and the command, or the command, DCTRL and
// the words that are sent, the polls, the data words that are read, the rows that stop it, CMD12 after CMD18 and CMD25, and the ready
// wait; and the reset rows of its guard.
ghost use Rattle.std.specs.Prelude.{◌≡◌, not, ◌||◌, ℕ, ◌+◌};
ghost use Rattle.types.specs.Bits.{clear};
ghost use Rattle.tape.specs.declared.progress.Line.{Line};
ghost use Rattle.tape.specs.Plan.{give};
ghost use Rattle.bus.specs.Transfer.{landed};
ghost use Rattle.step.specs.Next.{next, want_of, heard, told, missed, line_after, Lent, filled_in, Handed};
ghost use Rattle.step.specs.Context.{plug, plug_next};
ghost use Rattle.step.specs.Command.{command_next};
ghost use Rattle.step.specs.Ready.{ready_next};
ghost use Rattle.step.specs.Transfer.{transfer_of, buffer_of, place_of, after_of, words_by, held_by, phase_plan, refusal, idling, polling, armed, ordered, start_site, received, sending, stop_site, ending, stopped, unclocked, reads_plan, reading_at, told_plan, row_at, data_plan, data_next, HandedAt};

use crate::arm::{Arm, Stop};
use crate::command::{Command, Words};
use crate::phase::Phase;
use crate::ready::{Bus, Ready};
use crate::reset::Reset;
use crate::wants::Wants;
use crate::why::{Step, Why};
use bus::response::Response;
use bus::transfer::of_many;
use tape::progress::Line;
use tape::rows;
use tape::rows::Row;
use tape::script::{Dma, Reading, Sta};
use types::error::Error;
use types::status;

// Its readings, with how many polls are left after this one, or how many data words.
#[derive(Clone, Copy)]
pub enum Reads {
    Idle(u32),
    First(u32),
    FirstDma(u32, u32),
    Again(u32),
    AgainDma(u32, u32),
    Count(u32),
    Word(u16),
}

// Its rows outside commands. Those that reset the controller follow a refusal.
#[derive(Clone, Copy)]
pub enum Writes {
    Reset(Reset, Why),
    Arm(Arm),
    Control,
    Open,
    Stop(Stop),
    Gate,
}

// A data phase under way. A word that is sent is told by how many come after it.
#[derive(Clone, Copy)]
pub enum Data {
    Asks(Reads),
    Tells(Writes),
    Sends(u16),
    Start(Command),
    Stop(Command),
    Ready(Ready),
}

// Whether a status word says that the transfer is not over yet.
fn unfinished(status: u32) -> bool
    ensures { result ≡ (clear 0x100 status || not (clear 0x3000 status)) }
{
    if status & Sta::DATA_ENDED == 0 {
        true
    } else {
        status & Sta::TRANSFER != 0
    }
}

impl Phase {
    // What a reading of it reads.
    fn reading(self, reads: Reads) -> Reading
        ensures { result ≡ reading_at self reads }
    {
        match reads {
            Reads::Idle(_) => Reading::Status,
            Reads::First(_) => Reading::Status,
            Reads::FirstDma(_, _) => Reading::Dma,
            Reads::Again(_) => Reading::Status,
            Reads::AgainDma(_, _) => Reading::Dma,
            Reads::Count(_) => Reading::DCount,
            Reads::Word(after) => {
                let place = self.place(after);
                Reading::Data(place as u32)
            }
        }
    }
}

impl Bus {
    // A row of a data phase.
    fn row(self, phase: Phase, line: Line, writes: Writes) -> Row
        ensures { result ≡ row_at self phase line writes }
    {
        match writes {
            Writes::Reset(reset, _) => reset.row(),
            Writes::Arm(arm) => {
                let timeout = self.config.data_transfer_timeout;
                let transfer = phase.transfer();
                arm.row(timeout, transfer)
            }
            Writes::Control => {
                let transfer = phase.transfer();
                let sends = phase.sends();
                Row {
                    register: Row::DCTRL,
                    value: rows::dctrl(!sends, transfer.block_size),
                }
            }
            Writes::Open => Row {
                register: Row::CLKCR,
                value: rows::with_clken(line.clkcr, true),
            },
            Writes::Stop(stop) => stop.row(),
            Writes::Gate => Row {
                register: Row::CLKCR,
                value: rows::with_clken(line.clkcr, false),
            },
        }
    }

    // A refusal: the reset rows come first.
    fn drops(self, phase: Phase, why: Why) -> Data
        ensures { (ws : Lent) (h : Line) → next (data_plan self phase ws result) h ≡ next (refusal self phase why) h }
    {
        Data::Tells(Writes::Reset(Reset::Mask, why))
    }

    // The same with an error of its own.
    fn refuses(self, phase: Phase, error: Error) -> Data
        ensures { (ws : Lent) (h : Line) → next (data_plan self phase ws result) h ≡ next (refusal self phase (Why.Failed error)) h }
    {
        self.drops(phase, Why::Failed(error))
    }

    // The idle wait, with so many polls.
    fn idles(self, phase: Phase, polls: u32) -> Data
        ensures { (ws : Lent) (h : Line) → next (data_plan self phase ws result) h ≡ next (idling self phase ws polls) h }
    {
        if polls == 0 {
            self.refuses(phase, Error::SoftwareTimeout)
        } else {
            let more = polls - 1;
            Data::Asks(Reads::Idle(more))
        }
    }

    // The polls, with so many left. As there: not one with the wait before.
    fn polls(self, phase: Phase, polls: u32) -> Data
        ensures { (ws : Lent) (h : Line) → next (data_plan self phase ws result) h ≡ next (polling self phase ws polls) h }
    {
        if polls == 0 {
            self.refuses(phase, Error::SoftwareTimeout)
        } else {
            let more = polls - 1;
            Data::Asks(Reads::First(more))
        }
    }

    // A data phase at its start.
    pub fn begin_data(self, phase: Phase) -> Data
        ensures { (ws : Lent) (h : Line) → next (data_plan self phase ws result) h ≡ next (phase_plan self phase ws.sent) h }
    {
        let limit = self.config.poll_limit;
        self.idles(phase, limit)
    }

    // The data command, which opens no gate of its own.
    fn starts(self, phase: Phase) -> Data
        ensures { (ws : Lent) (h : Line) → next (data_plan self phase ws result) h ≡ next (told_plan self phase ws Writes.Open) h }
    {
        let transfer = phase.transfer();
        let limit = self.config.poll_limit;
        let begun = Command::begin(
            limit,
            transfer.index,
            transfer.argument,
            Response::R1,
            false,
        );
        match begun {
            Some(command) => Data::Start(command),
            None => self.refuses(phase, Error::SoftwareTimeout),
        }
    }

    // After the data command: the polls, or first DCTRL and the words that are sent.
    fn ordered(self, phase: Phase) -> Data
        ensures { (ws : Lent) (h : Line) → next (data_plan self phase ws result) h ≡ next (plug (ordered self phase ws) (give tt)) h }
    {
        if phase.sends() {
            Data::Tells(Writes::Control)
        } else {
            self.polls(phase, self.config.poll_limit)
        }
    }

    // The data command after an answer.
    fn starting(self, phase: Phase, step: Step<Command, Words>) -> Data
        ensures { (ws : Lent) (h : Line) → next (data_plan self phase ws result) h ≡ plug_next (start_site self phase ws) (command_next step h) }
    {
        match step {
            Step::On(command) => Data::Start(command),
            Step::Over(ended) => match ended {
                Ok(_) => self.ordered(phase),
                Err(why) => self.drops(phase, why),
            },
        }
    }

    // The closing ready wait after an answer.
    fn waiting(self, phase: Phase, step: Step<Ready, ()>) -> Step<Data, ()>
        ensures { (ws : Lent) (h : Line) → data_next self phase ws result h ≡ plug_next (ending self phase ws) (ready_next self step h) }
    {
        match step {
            Step::On(ready) => Step::On(Data::Ready(ready)),
            Step::Over(ended) => match ended {
                Ok(()) => Step::Over(Ok(())),
                Err(why) => Step::On(self.drops(phase, why)),
            },
        }
    }

    // CMD12 after an answer.
    fn stopping(self, phase: Phase, gated: bool, step: Step<Command, Words>) -> Step<Data, ()>
        ensures { (ws : Lent) (h : Line) → h.gated ≡ gated → data_next self phase ws result h ≡ plug_next (stop_site self phase ws) (command_next step h) }
    {
        match step {
            Step::On(command) => Step::On(Data::Stop(command)),
            Step::Over(ended) => match ended {
                Ok(_) => self.waiting(phase, self.tries(self.wait_ready(gated))),
                Err(why) => Step::On(self.drops(phase, why)),
            },
        }
    }

    // After the row that closes the clock: CMD12 after CMD18 and CMD25, and the ready wait.
    fn stops(self, phase: Phase, gated: bool) -> Step<Data, ()>
        ensures { (ws : Lent) (h : Line) → h.gated ≡ gated → data_next self phase ws result h ≡ next (plug (unclocked self phase ws) (give tt)) h }
    {
        let transfer = phase.transfer();
        if of_many(transfer.index) {
            let limit = self.config.poll_limit;
            let begun = Command::begin(limit, 12, 0, Response::R1, gated);
            return match begun {
                Some(command) => Step::On(Data::Stop(command)),
                None => Step::On(self.refuses(phase, Error::SoftwareTimeout)),
            };
        }
        self.waiting(phase, self.tries(self.wait_ready(gated)))
    }

    // After the rows that stop the data path: the clock is closed where it is gated.
    fn closes(self, phase: Phase, gated: bool) -> Step<Data, ()>
        ensures { (ws : Lent) (h : Line) → h.gated ≡ gated → data_next self phase ws result h ≡ next (stopped self phase ws) h }
    {
        if gated {
            Step::On(Data::Tells(Writes::Gate))
        } else {
            self.stops(phase, gated)
        }
    }

    // After the rows that ready the data path: DCTRL, or the data command.
    fn readied(self, phase: Phase) -> Data
        ensures { (ws : Lent) (h : Line) → next (data_plan self phase ws result) h ≡ next (plug (armed self phase ws) (give tt)) h }
    {
        if phase.sends() {
            Data::Tells(Writes::Open)
        } else {
            Data::Tells(Writes::Control)
        }
    }

    // After DCTRL: the data command, or the words that are sent.
    fn controls(self, phase: Phase) -> Data
        ensures { (ws : Lent) (h : Line) → next (data_plan self phase ws result) h ≡ next (told_plan self phase ws Writes.Control) h }
    {
        if phase.sends() {
            let top = phase.top();
            Data::Sends(top)
        } else {
            Data::Tells(Writes::Open)
        }
    }

    // After a word that was sent: the next one, or the polls.
    fn sent(self, phase: Phase, after: u16) -> Data
        ensures { (ws : Lent) (h : Line) → next (data_plan self phase ws result) h ≡ next (sending self phase ws (place_of phase after + 1) (after_of phase after)) h }
    {
        let place = phase.place(after);
        let top = phase.top();
        if place < top {
            let left = top - place - 1;
            Data::Sends(left)
        } else {
            self.polls(phase, self.config.poll_limit)
        }
    }

    // After a row.
    fn goes(self, phase: Phase, gated: bool, writes: Writes) -> Step<Data, ()>
        ensures { (ws : Lent) (h : Line) → h.gated ≡ gated → data_next self phase ws result h ≡ next (told_plan self phase ws writes) h }
    {
        match writes {
            Writes::Reset(reset, why) => {
                let step = reset.after();
                match step {
                    Some(reset) => Step::On(Data::Tells(Writes::Reset(reset, why))),
                    None => Step::Over(Err(why)),
                }
            }
            Writes::Arm(arm) => {
                let step = arm.after();
                match step {
                    Some(arm) => Step::On(Data::Tells(Writes::Arm(arm))),
                    None => Step::On(self.readied(phase)),
                }
            }
            Writes::Control => Step::On(self.controls(phase)),
            Writes::Open => Step::On(self.starts(phase)),
            Writes::Stop(stop) => {
                let step = stop.after();
                match step {
                    Some(stop) => Step::On(Data::Tells(Writes::Stop(stop))),
                    None => self.closes(phase, gated),
                }
            }
            Writes::Gate => self.stops(phase, gated),
        }
    }

    // After a data word: the next one, or the rows that stop the data path.
    fn takes(self, phase: Phase, after: u16) -> Data
        ensures { (ws ws' : Lent) (h : Line) (word : ℕ) → Handed (reading_at phase (Reads.Word after)) word ws ws' → next (data_plan self phase ws' result) h ≡ heard (next (reads_plan self phase ws (Reads.Word after)) h) word }
    {
        let place = phase.place(after);
        let top = phase.top();
        if place < top {
            let more = top - place - 1;
            Data::Asks(Reads::Word(more))
        } else {
            Data::Tells(Writes::Stop(Stop::Mask))
        }
    }

    // After the status word that opens a poll.
    fn opens(self, phase: Phase, more: u32, word: u32) -> Data
        ensures { (ws : Lent) (h : Line) → next (data_plan self phase ws result) h ≡ heard (next (reads_plan self phase ws (Reads.First more)) h) word }
    {
        let answer = status::data_error(word);
        match answer {
            Ok(()) => Data::Asks(Reads::FirstDma(more, word)),
            Err(error) => self.refuses(phase, error),
        }
    }

    // After its DMA word: while the channel runs it polls on.
    fn runs(self, phase: Phase, more: u32, status: u32, word: u32) -> Data
        ensures { (ws : Lent) (h : Line) → next (data_plan self phase ws result) h ≡ heard (next (reads_plan self phase ws (Reads.FirstDma more status)) h) word }
    {
        if word & Dma::ERROR != 0 {
            return self.refuses(phase, Error::Dma);
        }
        if word & Dma::RUNNING != 0 {
            self.polls(phase, more)
        } else {
            Data::Asks(Reads::Again(more))
        }
    }

    // After the second status word. Not one with the first: they go on to readings of their own.
    fn looks(self, phase: Phase, more: u32, word: u32) -> Data
        ensures { (ws : Lent) (h : Line) → next (data_plan self phase ws result) h ≡ heard (next (reads_plan self phase ws (Reads.Again more)) h) word }
    {
        let answer = status::data_error(word);
        match answer {
            Ok(()) => Data::Asks(Reads::AgainDma(more, word)),
            Err(error) => self.refuses(phase, error),
        }
    }

    // After the second DMA word: while the status says that the transfer is not over it polls on.
    fn settles(self, phase: Phase, more: u32, status: u32, word: u32) -> Data
        ensures { (ws : Lent) (h : Line) → next (data_plan self phase ws result) h ≡ heard (next (reads_plan self phase ws (Reads.AgainDma more status)) h) word }
    {
        if word & Dma::ERROR != 0 {
            return self.refuses(phase, Error::Dma);
        }
        if unfinished(status) {
            return self.polls(phase, more);
        }
        if word % Dma::REMAINING == 0 {
            Data::Asks(Reads::Count(more))
        } else {
            self.refuses(phase, Error::IncompleteTransfer)
        }
    }

    // After the poll that completes: the data words, or where they were sent the rows that stop the data path.
    fn lands(self, phase: Phase) -> Data
        ensures { (ws : Lent) (h : Line) → next (data_plan self phase ws result) h ≡ next (plug (received self phase) (landed (buffer_of phase ws.sent) (transfer_of phase).words)) h }
    {
        if phase.sends() {
            Data::Tells(Writes::Stop(Stop::Mask))
        } else {
            let top = phase.top();
            Data::Asks(Reads::Word(top))
        }
    }

    // After DCOUNT.
    fn counts(self, phase: Phase, more: u32, word: u32) -> Data
        ensures { (ws : Lent) (h : Line) → next (data_plan self phase ws result) h ≡ heard (next (reads_plan self phase ws (Reads.Count more)) h) word }
    {
        if word == 0 {
            self.lands(phase)
        } else {
            self.refuses(phase, Error::IncompleteTransfer)
        }
    }

    // After the word that a reading asked for.
    fn hears(self, phase: Phase, reads: Reads, word: u32) -> Data
        ensures { (ws ws' : Lent) (h : Line) → Handed (reading_at phase reads) word ws ws' → next (data_plan self phase ws' result) h ≡ heard (next (reads_plan self phase ws reads) h) word }
    {
        match reads {
            Reads::Idle(more) => {
                if word & Sta::BUSY == 0 {
                    Data::Tells(Writes::Arm(Arm::Dctrl2))
                } else {
                    self.idles(phase, more)
                }
            }
            Reads::First(more) => self.opens(phase, more, word),
            Reads::FirstDma(more, status) => self.runs(phase, more, status, word),
            Reads::Again(more) => self.looks(phase, more, word),
            Reads::AgainDma(more, status) => self.settles(phase, more, status, word),
            Reads::Count(more) => self.counts(phase, more, word),
            Reads::Word(after) => self.takes(phase, after),
        }
    }
}

impl Data {
    // The words that a call keeps, with this one where it is a data word.
    pub fn keeps(self, phase: Phase, held: [u32; 16], word: u32) -> [u32; 16]
        ensures kept { result ≡ held_by phase self held word }
        ensures handed { (g g' : Lent) → HandedAt phase self word g g' → HandedAt phase self word (words_by phase held g) (words_by phase (held_by phase self held word) g') }
    {
        match self {
            Data::Asks(reads) => match reads {
                Reads::Idle(_) => held,
                Reads::First(_) => held,
                Reads::FirstDma(_, _) => held,
                Reads::Again(_) => held,
                Reads::AgainDma(_, _) => held,
                Reads::Count(_) => held,
                Reads::Word(after) => phase.kept(phase.place(after), held, word),
            },
            Data::Tells(_) => held,
            Data::Sends(_) => held,
            Data::Start(_) => held,
            Data::Stop(_) => held,
            Data::Ready(_) => held,
        }
    }

    // What it waits for.
    pub fn wants(self, bus: Bus, phase: Phase, line: Line) -> Wants
        ensures { (ws : Lent) → filled_in ws.sent result ≡ want_of (next (data_plan bus phase ws self) line) }
    {
        match self {
            Data::Asks(reads) => Wants::Read(phase.reading(reads)),
            Data::Tells(writes) => Wants::Write(bus.row(phase, line, writes)),
            Data::Sends(after) => {
                let place = phase.place(after);
                Wants::Send(place as u32)
            }
            Data::Start(command) => command.wants(line),
            Data::Stop(command) => command.wants(line),
            Data::Ready(ready) => ready.wants(bus, line),
        }
    }

    // After the word that it asked for; unasked, as it was.
    pub fn fed(self, bus: Bus, phase: Phase, gated: bool, word: u32) -> Step<Data, ()>
        ensures { (ws ws' : Lent) (h : Line) → h.gated ≡ gated → HandedAt phase self word ws ws' → data_next bus phase ws' result h ≡ heard (next (data_plan bus phase ws self) h) word }
    {
        match self {
            Data::Asks(reads) => Step::On(bus.hears(phase, reads, word)),
            Data::Tells(_) => Step::On(self),
            Data::Sends(_) => Step::On(self),
            Data::Start(command) => Step::On(bus.starting(phase, command.fed(word))),
            Data::Stop(command) => bus.stopping(phase, gated, command.fed(word)),
            Data::Ready(ready) => bus.waiting(phase, ready.fed(bus, word)),
        }
    }

    // Where no word will come; unasked, as it was.
    pub fn missed(self, bus: Bus, phase: Phase, gated: bool) -> Step<Data, ()>
        ensures { (ws : Lent) (h : Line) → h.gated ≡ gated → data_next bus phase ws result h ≡ missed (next (data_plan bus phase ws self) h) }
    {
        match self {
            Data::Asks(_) => Step::On(bus.drops(phase, Why::NoWord)),
            Data::Tells(_) => Step::On(self),
            Data::Sends(_) => Step::On(self),
            Data::Start(command) => Step::On(bus.starting(phase, command.missed())),
            Data::Stop(command) => bus.stopping(phase, gated, command.missed()),
            Data::Ready(ready) => bus.waiting(phase, ready.missed(bus)),
        }
    }

    // After its row was written; with none to write, as it was.
    pub fn went(self, bus: Bus, phase: Phase, gated: bool) -> Step<Data, ()>
        ensures { (ws : Lent) (h : Line) → h.gated ≡ gated → data_next bus phase ws result (line_after (next (data_plan bus phase ws self) h)) ≡ told (next (data_plan bus phase ws self) h) }
    {
        match self {
            Data::Asks(_) => Step::On(self),
            Data::Tells(writes) => bus.goes(phase, gated, writes),
            Data::Sends(after) => Step::On(bus.sent(phase, after)),
            Data::Start(command) => Step::On(bus.starting(phase, command.went())),
            Data::Stop(command) => bus.stopping(phase, gated, command.went()),
            Data::Ready(ready) => bus.waiting(phase, ready.went(bus, gated)),
        }
    }
}

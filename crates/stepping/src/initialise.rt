// What follows each step of an initialisation, in the driver's order.
ghost use Rattle.std.specs.Prelude.{◌≡◌, ◌*◌, ◌^◌, take, get_or};
ghost use Rattle.types.specs.Leaf.{clock_of};
ghost use Rattle.types.specs.Words.{scr_of};
ghost use Rattle.tape.specs.declared.progress.Line.{Line};
ghost use Rattle.tape.specs.Plan.{give, refuse};
ghost use Rattle.init.specs.Initialise.{set_clock, offered, switched};
ghost use Rattle.step.specs.Command.{list_of};
ghost use Rattle.step.specs.Context.{plug};
ghost use Rattle.step.specs.Next.{next, Lent};
ghost use Rattle.step.specs.Transfer.{all_of};
ghost use Rattle.step.specs.Why.{cause_of};
ghost use Rattle.stepping.specs.Sites.{begun, opened, widened, clock_set, switch_delay};
ghost use Rattle.stepping.specs.Ahead.{card_by, initial_of, frequency_of, excused, forgiven, phase_of, sent_site, gets_site, powering, told_plan, line_set, reset_on, close_on, follow_plan, words_in, then_next};

use crate::call::{Change, End, Follow, Gets, Job, Known, Sent, Then, Waiting, Writes};
use bus::clock;
use bus::response::Response;
use init::begin::Interface;
use init::identify::Ocr;
use init::speed::Switch;
use init::{begin, identify, speed};
use step::command::Words;
use step::reset::Reset;
use step::why::Why;
use types::clock::{Clock, Hertz, clock_setting};
use types::error::{Error, Field};
use types::register::transfer_rate;
use types::status::{CardStatus, Scr};
use types::{register, words};

// Whether it was Timeout: that no word will come is not.
fn excused(why: Why) -> bool
    ensures { result ≡ excused why }
{
    match why {
        Why::Failed(error) => begin::timed_out(error),
        Why::NoWord => false,
    }
}

// Whether a command forgives a refusal: CMD8 does Timeout, which is a card of version 1.
fn forgives(sent: Sent, why: Why) -> bool
    ensures { result ≡ forgiven sent why }
{
    match sent {
        Sent::Cmd0 => false,
        Sent::Cmd8 => excused(why),
        Sent::Power55(_) => false,
        Sent::Power41(_) => false,
        Sent::Cmd2 => false,
        Sent::Cmd3 => false,
        Sent::Cmd9 => false,
        Sent::Cmd7 => false,
        Sent::Cmd16 => false,
        Sent::Scr55 => false,
        Sent::Width55 => false,
        Sent::Width6 => false,
    }
}

// A field's number, as a wider one.
fn wide(attempts: u16) -> u32
    ensures { result ≡ attempts }
{
    attempts as u32
}

// The SCR that the first two words make.
fn scr_of(held: [u32; 16]) -> Scr
    ensures { result.0 ≡ scr_of (get_or held 0 0) (get_or held 1 0) }
{
    words::scr_value(held[0], held[1])
}

// What sixteen words of a switch status say.
fn offers(held: [u32; 16]) -> bool
    ensures { result ≡ offered (take 16 held) }
{
    speed::offers(held)
}

fn took(held: [u32; 16]) -> bool
    ensures { result ≡ switched (take 16 held) }
{
    speed::took(held)
}

impl Known {
    // This is known, and that follows.
    pub fn and(self, follow: Follow) -> Then
        ensures { result ≡ record { known = self; follow = follow } }
    {
        Then {
            known: self,
            follow: follow,
        }
    }

    // CMD55, for an application command.
    pub fn tells_app(self, sent: Sent) -> Follow
        ensures { result ≡ Follow.Sends sent 55 (self.rca * 2 ^ 16) Response.R1 }
    {
        Follow::Sends(sent, 55, self.rca as u32 * 0x1_0000, Response::R1)
    }
}

impl Job {
    // So many attempts to power up.
    fn powers(self, known: Known, left: u32) -> Follow
        ensures { (ws : Lent) (h : Line) → next (follow_plan self known ws result) h ≡ next (powering self known.version2 left) h }
    {
        if left == 0 {
            return Follow::Refuses(Why::Failed(Error::SoftwareTimeout));
        }
        let more = left - 1;
        Follow::Sends(Sent::Power55(more), 55, 0, Response::R1)
    }

    // The card's version is known: all attempts to power up.
    fn versions(self, known: Known, version2: bool) -> Then
        ensures { (ws : Lent) (h : Line) → then_next self ws result h ≡ next (plug (begun self.host (initial_of self.asked) (frequency_of self.asked)) (give version2)) h }
    {
        let mut found = known;
        found.version2 = version2;
        let attempts = self.host.settings.config.card_ready_attempts;
        found.and(self.powers(found, wide(attempts)))
    }

    // The answer to CMD8.
    fn versioned(self, known: Known, words: Words) -> Then
        ensures { (ws : Lent) (h : Line) → then_next self ws result h ≡ next (plug (sent_site self known Sent.Cmd8) (give (list_of words))) h }
    {
        let word = words.a;
        if word == Interface::CONDITION {
            return self.versions(known, true);
        }
        if word & CardStatus::ERRORS == Interface::ILLEGAL {
            self.versions(known, false)
        } else {
            known.and(Follow::Refuses(Why::Failed(Error::UnsupportedCardVersion)))
        }
    }

    // The answer to CMD55: ACMD41.
    fn power_told(self, known: Known, left: u32, words: Words) -> Follow
        ensures { (ws : Lent) (h : Line) → next (follow_plan self known ws result) h ≡ next (plug (sent_site self known (Sent.Power55 left)) (give (list_of words))) h }
    {
        if words.a & CardStatus::APP_CMD == 0 {
            return Follow::Refuses(Why::Failed(Error::UnsupportedCardType(Field::AppCommand)));
        }
        let condition = identify::condition(known.version2);
        Follow::Sends(Sent::Power41(left), 41, condition, Response::R3)
    }

    // The answer to ACMD41: the card's OCR.
    fn power_known(self, known: Known, left: u32, words: Words) -> Then
        ensures { (ws : Lent) (h : Line) → then_next self ws result h ≡ next (plug (sent_site self known (Sent.Power41 left)) (give (list_of words))) h }
    {
        let ocr = words.a;
        if ocr & Ocr::VOLTAGE == 0 {
            return known.and(Follow::Refuses(Why::Failed(Error::UnsupportedCardType(
                Field::Voltage,
            ))));
        }
        if ocr & Ocr::POWERED_UP == 0 {
            return known.and(Follow::Tells(Writes::Retry(left)));
        }
        let mut found = known;
        found.ocr = ocr;
        found.and(Follow::Sends(Sent::Cmd2, 2, 0, Response::R2))
    }

    // The answer to CMD2: the card's CID.
    fn named(self, known: Known, words: Words) -> Then
        ensures { (ws : Lent) (h : Line) → then_next self ws result h ≡ next (plug (sent_site self known Sent.Cmd2) (give (list_of words))) h }
    {
        let mut found = known;
        found.cid = words;
        found.and(Follow::Sends(Sent::Cmd3, 3, 0, Response::R6))
    }

    // The answer to CMD3: the card's address.
    fn addressed(self, known: Known, words: Words) -> Then
        ensures { (ws : Lent) (h : Line) → then_next self ws result h ≡ next (plug (sent_site self known Sent.Cmd3) (give (list_of words))) h }
    {
        let rca = identify::address(words.a);
        if rca == 0 {
            return known.and(Follow::Refuses(Why::Failed(Error::ResponseMismatch)));
        }
        let mut found = known;
        found.rca = rca;
        found.and(Follow::Sends(Sent::Cmd9, 9, rca as u32 * 0x1_0000, Response::R2))
    }

    // The answer to CMD9: the card's CSD.
    fn described(self, known: Known, words: Words) -> Then
        ensures { (ws : Lent) (h : Line) → then_next self ws result h ≡ next (plug (sent_site self known Sent.Cmd9) (give (list_of words))) h }
    {
        let told = words::response_value(words.list());
        if identify::agree(known.ocr, told) {
            let answer = register::block_count(told);
            match answer {
                Ok(count) => {
                    let mut found = known;
                    found.csd = words;
                    found.blocks = count;
                    found.and(Follow::Sends(
                        Sent::Cmd7,
                        7,
                        known.rca as u32 * 0x1_0000,
                        Response::R1,
                    ))
                }
                Err(error) => known.and(Follow::Refuses(Why::Failed(error))),
            }
        } else {
            known.and(Follow::Refuses(Why::Failed(Error::UnsupportedCardType(Field::CsdAndOcr))))
        }
    }

    // The answer to CMD55: the SCR.
    fn scr_told(self, known: Known, words: Words) -> Follow
        ensures { (ws : Lent) (h : Line) → next (follow_plan self known ws result) h ≡ next (plug (sent_site self known Sent.Scr55) (give (list_of words))) h }
    {
        if words.a & CardStatus::APP_CMD == 0 {
            return Follow::Refuses(Why::Failed(Error::UnsupportedCardType(Field::AppCommand)));
        }
        Follow::Gets(Gets::Scr)
    }

    // The answer to CMD55: ACMD6.
    fn width_told(self, known: Known, words: Words) -> Follow
        ensures { (ws : Lent) (h : Line) → next (follow_plan self known ws result) h ≡ next (plug (sent_site self known Sent.Width55) (give (list_of words))) h }
    {
        if words.a & CardStatus::APP_CMD == 0 {
            return Follow::Refuses(Why::Failed(Error::UnsupportedCardType(Field::AppCommand)));
        }
        let width = speed::width(self.host.settings.wide);
        Follow::Sends(Sent::Width6, 6, width, Response::R1)
    }

    // The setting for a clock of at most this.
    fn clocks(self, requested: u32) -> Result<Clock, Error>
        ensures { result ≡ clock_of self.host.settings.source.0 requested self.host.settings.config.allow_clock_bypass }
    {
        let settings = self.host.settings;
        let source = settings.source;
        let bypass = settings.config.allow_clock_bypass;
        clock_setting(source, Hertz(requested), bypass)
    }

    // A transfer clock of at most this.
    fn transfers_at(self, known: Known, requested: u32) -> Then
        ensures { (ws : Lent) (h : Line) → then_next self ws result h ≡ next (plug (clock_set self.host (initial_of self.asked) (frequency_of self.asked) (card_by known) known.scr) (set_clock self.host.settings requested)) h }
    {
        let answer = self.clocks(requested);
        match answer {
            Ok(clock) => {
                let mut found = known;
                found.clock = clock;
                found.and(Follow::Idles(Change::Transfer))
            }
            Err(error) => known.and(Follow::Refuses(Why::Failed(error))),
        }
    }

    // The transfer clock: the least of what is asked for, 25 MHz and the card's rate.
    fn transfers(self, known: Known) -> Then
        ensures { (ws : Lent) (h : Line) → then_next self ws result h ≡ next (plug (widened self.host (initial_of self.asked) (frequency_of self.asked) (card_by known) known.scr) (give tt)) h }
    {
        let told = known.csd;
        let csd = words::response_value(told.list());
        let answer = transfer_rate(csd.transfer_rate());
        match answer {
            Ok(rate) => {
                let asked = self.asked;
                let slow = asked.frequency().min(Switch::SDR12);
                self.transfers_at(known, slow.min(rate))
            }
            Err(error) => known.and(Follow::Refuses(Why::Failed(error))),
        }
    }

    // The clock of SDR25, of at most what is asked for and 50 MHz.
    fn speeds(self, known: Known) -> Then
        ensures { (ws : Lent) (h : Line) → then_next self ws result h ≡ next (plug (switch_delay self.host (initial_of self.asked) (frequency_of self.asked) (card_by known) known.scr) (give tt)) h }
    {
        let asked = self.asked;
        let answer = self.clocks(asked.frequency().min(Switch::SDR25));
        match answer {
            Ok(clock) => {
                let mut found = known;
                found.clock = clock;
                found.and(Follow::Idles(Change::Switch))
            }
            Err(error) => known.and(Follow::Refuses(Why::Failed(error))),
        }
    }

    // The list of what follows each command of an initialisation.
    pub fn came(self, known: Known, sent: Sent, words: Words) -> Then
        ensures { (ws : Lent) (h : Line) → then_next self ws result h ≡ next (plug (sent_site self known sent) (give (list_of words))) h }
    {
        match sent {
            Sent::Cmd0 => known.and(Follow::Sends(
                Sent::Cmd8,
                8,
                Interface::CONDITION,
                Response::R7,
            )),
            Sent::Cmd8 => self.versioned(known, words),
            Sent::Power55(left) => known.and(self.power_told(known, left, words)),
            Sent::Power41(left) => self.power_known(known, left, words),
            Sent::Cmd2 => self.named(known, words),
            Sent::Cmd3 => self.addressed(known, words),
            Sent::Cmd9 => self.described(known, words),
            Sent::Cmd7 => known.and(Follow::Waits(Waiting::Selected)),
            Sent::Cmd16 => known.and(known.tells_app(Sent::Scr55)),
            Sent::Scr55 => known.and(self.scr_told(known, words)),
            Sent::Width55 => known.and(self.width_told(known, words)),
            Sent::Width6 => self.transfers(known),
        }
    }

    // A command of an initialisation failed: only CMD8 forgives, and Timeout alone.
    pub fn failed(self, known: Known, sent: Sent, why: Why) -> Then
        ensures { (ws : Lent) (h : Line) → then_next self ws result h ≡ next (plug (sent_site self known sent) (refuse (cause_of why))) h }
    {
        if forgives(sent, why) {
            self.versions(known, false)
        } else {
            known.and(Follow::Refuses(why))
        }
    }

    // The SCR was read: ACMD6, where the card has the lines that are connected.
    fn scr_read(self, known: Known, held: [u32; 16]) -> Then
        ensures { (ws : Lent) (h : Line) → then_next self ws result h ≡ next (plug (gets_site self known Gets.Scr) (give (take 2 held))) h }
    {
        let scr = scr_of(held);
        if speed::fits(scr, self.host.settings.wide) {
            let mut found = known;
            found.scr = scr;
            found.and(found.tells_app(Sent::Width55))
        } else {
            known.and(Follow::Refuses(Why::Failed(Error::UnsupportedBusWidth)))
        }
    }

    // A switch status was read: the switch, where the card has SDR25.
    fn checked(self, known: Known, held: [u32; 16]) -> Follow
        ensures { (ws : Lent) (h : Line) → next (follow_plan self known ws result) h ≡ next (plug (gets_site self known Gets.Check) (give (take 16 held))) h }
    {
        if offers(held) {
            Follow::Gets(Gets::Switch)
        } else {
            Follow::Over(End::Found)
        }
    }

    // The switch status after the switch was read: 8 cycles of the clock that is still set.
    fn switched(self, known: Known, held: [u32; 16], clock: Hertz) -> Follow
        ensures { (ws : Lent) (h : Line) → h.clock ≡ clock → next (follow_plan self known ws result) h ≡ next (plug (gets_site self known Gets.Switch) (give (take 16 held))) h }
    {
        if took(held) {
            let answer = clock::delay(self.host.settings.source, clock, 8);
            match answer {
                Ok(spins) => Follow::Tells(Writes::Settle(spins)),
                Err(error) => Follow::Refuses(Why::Failed(error)),
            }
        } else {
            Follow::Refuses(Why::Failed(Error::SignalingSwitchFailed))
        }
    }

    // The list of what follows each data phase, of which the call keeps these words.
    pub fn got(self, known: Known, held: [u32; 16], gets: Gets, clock: Hertz) -> Then
        ensures { (g : Lent) (h : Line) → h.clock ≡ clock → then_next self (words_in self Gets.Asked held g) result h ≡ next (plug (gets_site self known gets) (give (all_of (phase_of self.asked gets) (words_in self gets held g)))) h }
    {
        match gets {
            Gets::Asked => known.and(Follow::Over(End::Accepted)),
            Gets::Scr => self.scr_read(known, held),
            Gets::Check => known.and(self.checked(known, held)),
            Gets::Switch => known.and(self.switched(known, held, clock)),
        }
    }

    // A data phase was refused, behind its own reset rows: an initialisation's guard writes them once more.
    pub fn lost(self, known: Known, gets: Gets, why: Why) -> Follow
        ensures { (ws : Lent) (h : Line) → next (follow_plan self known ws result) h ≡ next (plug (gets_site self known gets) (refuse (cause_of why))) h }
    {
        match gets {
            Gets::Asked => Follow::Over(End::Dropping(why)),
            Gets::Scr => Follow::Refuses(why),
            Gets::Check => Follow::Refuses(why),
            Gets::Switch => Follow::Refuses(why),
        }
    }

    // The clock is on: 80 cycles of it.
    fn opens(self, known: Known) -> Follow
        ensures { (ws : Lent) (h : Line) → next (follow_plan self known ws result) h ≡ next (plug (opened self.host (initial_of self.asked) (frequency_of self.asked)) (give tt)) h }
    {
        let asked = self.asked;
        let initial = asked.initial();
        let answer = clock::delay(self.host.settings.source, initial.frequency, 80);
        match answer {
            Ok(spins) => Follow::Tells(Writes::Delay(spins)),
            Err(error) => Follow::Refuses(Why::Failed(error)),
        }
    }

    // A clock is set: power after the initial one; SDR25 after the transfer clock, where it is asked for and the card has it.
    fn clocked(self, known: Known, change: Change) -> Follow
        ensures { (ws : Lent) (h : Line) → next (follow_plan self known ws result) (line_set known (Writes.Clock change) h) ≡ next (told_plan self known (Writes.Clock change)) h }
    {
        match change {
            Change::Initial => Follow::Tells(Writes::Power),
            Change::Transfer => {
                let asked = self.asked;
                if speed::fast(Hertz(asked.frequency()), known.scr) {
                    Follow::Gets(Gets::Check)
                } else {
                    Follow::Over(End::Found)
                }
            }
            Change::Switch => Follow::Over(End::Found),
        }
    }

    // The list of what follows each row of an initialisation.
    pub fn gone(self, known: Known, writes: Writes) -> Then
        ensures { (ws : Lent) (h : Line) → then_next self ws result (line_set known writes h) ≡ next (told_plan self known writes) h }
    {
        match writes {
            Writes::Reset(reset) => known.and(reset_on(reset.after())),
            Writes::Clock(change) => known.and(self.clocked(known, change)),
            Writes::Power => known.and(Follow::Tells(Writes::Open)),
            Writes::Open => known.and(self.opens(known)),
            Writes::Delay(_) => known.and(Follow::Sends(Sent::Cmd0, 0, 0, Response::None)),
            Writes::Retry(left) => known.and(self.powers(known, left)),
            Writes::Settle(_) => self.speeds(known),
            Writes::Close(reset, why) => known.and(close_on(reset.after(), why)),
        }
    }
}

// After a row of the first reset: the next one, or the idle wait.
fn reset_on(step: Option<Reset>) -> Follow
    ensures { result ≡ reset_on step }
{
    match step {
        Some(reset) => Follow::Tells(Writes::Reset(reset)),
        None => Follow::Idles(Change::Initial),
    }
}

// After a row of the guard's reset: the next one, or the end.
fn close_on(step: Option<Reset>, why: Why) -> Follow
    ensures { result ≡ close_on step why }
{
    match step {
        Some(reset) => Follow::Tells(Writes::Close(reset, why)),
        None => Follow::Over(End::Dropping(why)),
    }
}

// Where a call stands after each of its steps.
ghost use Rattle.std.specs.Prelude.{◌≡◌, List, ℕ, suc};
ghost use Rattle.tape.specs.declared.progress.Line.{Line};
ghost use Rattle.tape.specs.Plan.{give, refuse};
ghost use Rattle.bus.specs.Command.{command};
ghost use Rattle.bus.specs.Ready.{wait_ready};
ghost use Rattle.step.specs.Command.{command_next, list_of};
ghost use Rattle.step.specs.Context.{plug, plug_next};
ghost use Rattle.step.specs.Next.{next, heard, Lent};
ghost use Rattle.step.specs.Ready.{ready_next};
ghost use Rattle.step.specs.Transfer.{phase_plan, data_next};
ghost use Rattle.step.specs.Why.{cause_of};
ghost use Rattle.stepping.specs.Ahead.{phase_of, limit_at, bus_with, refusal, words_in, rca_of, wait_rca, sent_site, site_of, wait_site, gets_site, idling, follow_plan, at_plan, then_next, stand_next};

use crate::call::{
    At, Change, End, Follow, Gets, Job, Known, Sent, Site, Stand, Then, Waiting, Writes,
};
use bus::response::Response;
use init::identify;
use step::command::{Command, Words};
use step::ready::Ready;
use step::reset::Reset;
use step::transfer::Data;
use step::why::{Step, Why};
use tape::progress::Line;
use tape::script::Sta;
use types::card::CardCapacity;
use types::error::{Error, Field};
use types::status::CardStatus;

impl Job {
    // The card is ready.
    fn readied(self, known: Known, waiting: Waiting) -> Follow
        ensures { (ws : Lent) (h : Line) → next (follow_plan self known ws result) h ≡ next (plug (wait_site self known ws.sent waiting) (give tt)) h }
    {
        match waiting {
            Waiting::Blocks => Follow::Gets(Gets::Asked),
            Waiting::Selected => {
                let class = identify::class(known.ocr);
                match class {
                    CardCapacity::SDSC => Follow::Sends(Sent::Cmd16, 16, 512, Response::R1),
                    CardCapacity::SDHC => known.tells_app(Sent::Scr55),
                }
            }
        }
    }

    // The card is not ready.
    fn unready(self, known: Known, waiting: Waiting, why: Why) -> Follow
        ensures { (ws : Lent) (h : Line) → next (follow_plan self known ws result) h ≡ next (plug (wait_site self known ws.sent waiting) (refuse (cause_of why))) h }
    {
        match waiting {
            Waiting::Blocks => Follow::Over(End::Keeping(why)),
            Waiting::Selected => Follow::Refuses(why),
        }
    }

    // A command came back: the SD status follows a status call's CMD55.
    fn answered(self, known: Known, site: Site, words: Words) -> Then
        ensures { (ws : Lent) (h : Line) → then_next self ws result h ≡ next (plug (site_of self known ws.sent site) (give (list_of words))) h }
    {
        match site {
            Site::App => {
                if words.a & CardStatus::APP_CMD == 0 {
                    known.and(Follow::Over(End::Keeping(Why::Failed(Error::UnsupportedCardType(
                        Field::AppCommand,
                    )))))
                } else {
                    known.and(Follow::Gets(Gets::Asked))
                }
            }
            Site::Init(sent) => self.came(known, sent, words),
        }
    }

    // A command failed.
    fn refused(self, known: Known, site: Site, why: Why) -> Then
        ensures { (ws : Lent) (h : Line) → then_next self ws result h ≡ next (plug (site_of self known ws.sent site) (refuse (cause_of why))) h }
    {
        match site {
            Site::App => known.and(Follow::Over(End::Keeping(why))),
            Site::Init(sent) => self.failed(known, sent, why),
        }
    }

    // A refusal: the reset rows of the guard come first.
    pub fn closes(self, known: Known, why: Why) -> At
        ensures { (held : List ℕ) (g : Lent) (h : Line) → next (at_plan self known held g result) h ≡ next (refusal self why) h }
    {
        At::Tells(Writes::Close(Reset::Mask, why))
    }

    // A command at its start.
    fn sends(
        self,
        known: Known,
        gated: bool,
        sent: Sent,
        index: u8,
        argument: u32,
        response: Response,
    ) -> At
        ensures { (held : List ℕ) (g : Lent) (h : Line) → h.gated ≡ gated → next (at_plan self known held g result) h ≡ next (plug (sent_site self known sent) (command (limit_at self) index argument response)) h }
    {
        let limit = self.host.settings.config.poll_limit;
        let begun = Command::begin(limit, index, argument, response, gated);
        match begun {
            Some(command) => At::Command(Site::Init(sent), command),
            None => self.closes(known, Why::Failed(Error::SoftwareTimeout)),
        }
    }

    // A ready wait at its start.
    pub fn waits(self, known: Known, gated: bool, waiting: Waiting) -> At
        ensures { (held : List ℕ) (g : Lent) (h : Line) → h.gated ≡ gated → next (at_plan self known held g result) h ≡ next (plug (wait_site self known g.sent waiting) (wait_ready self.host.settings.source.0 self.host.settings.config (wait_rca self known waiting))) h }
    {
        let bus = self.bus(self.wait_rca(known, waiting));
        let begun = bus.wait_ready(gated);
        match begun {
            Some(ready) => At::Ready(waiting, ready),
            None => match waiting {
                Waiting::Blocks => At::Over(End::Keeping(Why::Failed(Error::SoftwareTimeout))),
                Waiting::Selected => self.closes(known, Why::Failed(Error::SoftwareTimeout)),
            },
        }
    }

    // An idle wait before a clock row, with so many polls.
    fn idles(self, known: Known, change: Change, polls: u32) -> At
        ensures { (held : List ℕ) (g : Lent) (h : Line) → next (at_plan self known held g result) h ≡ next (idling self known change polls) h }
    {
        if polls == 0 {
            return self.closes(known, Why::Failed(Error::SoftwareTimeout));
        }
        let more = polls - 1;
        At::Idle(change, more)
    }

    // A data phase at its start.
    fn gets(self, known: Known, gets: Gets) -> At
        ensures { (held : List ℕ) (g : Lent) (h : Line) → next (at_plan self known held g result) h ≡ next (plug (gets_site self known gets) (phase_plan (bus_with self (rca_of self known gets)) (phase_of self.asked gets) g.sent)) h }
    {
        let asked = self.asked;
        let phase = asked.phase(gets);
        let bus = self.bus(self.rca(known, gets));
        At::Data(gets, bus.begin_data(phase))
    }

    // Where a call stands, by what follows.
    fn stands(self, known: Known, gated: bool, follow: Follow) -> At
        ensures { (held : List ℕ) (g : Lent) (h : Line) → h.gated ≡ gated → next (at_plan self known held g result) h ≡ next (follow_plan self known (words_in self Gets.Asked held g) follow) h }
    {
        match follow {
            Follow::Sends(sent, index, argument, response) => self.sends(
                known, gated, sent, index, argument, response,
            ),
            Follow::Waits(waiting) => self.waits(known, gated, waiting),
            Follow::Gets(gets) => self.gets(known, gets),
            Follow::Idles(change) => self.idles(
                known,
                change,
                self.host.settings.config.poll_limit,
            ),
            Follow::Tells(writes) => At::Tells(writes),
            Follow::Refuses(why) => self.closes(known, why),
            Follow::Over(end) => At::Over(end),
        }
    }

    // The same, with what is known by then.
    pub fn follows(self, gated: bool, after: Then) -> Stand
        ensures { (held : List ℕ) (g : Lent) (h : Line) → h.gated ≡ gated → stand_next self held g result h ≡ then_next self (words_in self Gets.Asked held g) after h }
    {
        let known = after.known;
        let follow = after.follow;
        Stand {
            known: known,
            at: self.stands(known, gated, follow),
        }
    }

    // A command after an answer.
    pub fn commanded(
        self,
        known: Known,
        gated: bool,
        site: Site,
        step: Step<Command, Words>,
    ) -> Stand
        ensures { (held : List ℕ) (g : Lent) (h : Line) → h.gated ≡ gated → stand_next self held g result h ≡ plug_next (site_of self known g.sent site) (command_next step h) }
    {
        match step {
            Step::On(command) => known.at(At::Command(site, command)),
            Step::Over(ended) => match ended {
                Ok(words) => self.follows(gated, self.answered(known, site, words)),
                Err(why) => self.follows(gated, self.refused(known, site, why)),
            },
        }
    }

    // A ready wait after an answer.
    pub fn waited(self, known: Known, gated: bool, waiting: Waiting, step: Step<Ready, ()>) -> Stand
        ensures { (held : List ℕ) (g : Lent) (h : Line) → h.gated ≡ gated → stand_next self held g result h ≡ plug_next (wait_site self known g.sent waiting) (ready_next (bus_with self (wait_rca self known waiting)) step h) }
    {
        match step {
            Step::On(ready) => known.at(At::Ready(waiting, ready)),
            Step::Over(ended) => match ended {
                Ok(()) => known.at(self.stands(known, gated, self.readied(known, waiting))),
                Err(why) => known.at(self.stands(known, gated, self.unready(known, waiting, why))),
            },
        }
    }

    // A data phase after an answer.
    pub fn received(
        self,
        known: Known,
        held: [u32; 16],
        line: Line,
        gets: Gets,
        step: Step<Data, ()>,
    ) -> Stand
        ensures { (g : Lent) → stand_next self held g result line ≡ plug_next (gets_site self known gets) (data_next (bus_with self (rca_of self known gets)) (phase_of self.asked gets) (words_in self gets held g) step line) }
    {
        let clock = line.clock;
        match step {
            Step::On(part) => known.at(At::Data(gets, part)),
            Step::Over(ended) => match ended {
                Ok(()) => self.follows(line.gated, self.got(known, held, gets, clock)),
                Err(why) => known.at(self.stands(known, line.gated, self.lost(known, gets, why))),
            },
        }
    }

    // After a status word of an idle wait: the clock's row once nothing is under way.
    pub fn idled(self, known: Known, change: Change, more: u32, word: u32) -> Stand
        ensures { (held : List ℕ) (g : Lent) (h : Line) → stand_next self held g result h ≡ heard (next (idling self known change (suc more)) h) word }
    {
        if word & Sta::BUSY == 0 {
            known.at(At::Tells(Writes::Clock(change)))
        } else {
            known.at(self.idles(known, change, more))
        }
    }
}

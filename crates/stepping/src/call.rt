// A call under way: what it goes by, and where it stands.
ghost use Rattle.std.specs.Prelude.{◌≡◌};
ghost use Rattle.init.specs.Initialise.{no_clock, with_scr};
ghost use Rattle.stepping.specs.Ahead.{card_by, initial_of, frequency_of, phase_of, bus_with, rca_of, wait_rca};

use bus::response::Response;
use host::host::Sdmmc;
use init::{card, identify};
use step::command::{Command, Words};
use step::phase::Phase;
use step::ready::{Bus, Ready};
use step::reset::Reset;
use step::transfer::Data;
use step::why::Why;
use types::card::Card;
use types::clock::{Clock, Hertz};
use types::register::BlockCount;
use types::status::Scr;

// What is asked for: a card, by the clock of identification and the asked frequency; its SD status; blocks from an address on;
// or that blocks be sent there.
#[derive(Clone, Copy)]
pub enum Asked {
    Card(Clock, u32),
    Status,
    Blocks(u32, u16),
    Sends(u32, u16),
}

// What a call goes by, from its start to its end: the host before it, and what is asked of it.
#[derive(Clone, Copy)]
pub struct Job {
    pub host: Sdmmc,
    pub asked: Asked,
}

// What an initialisation has come to know: the card's version, OCR, CID, address, CSD, blocks and SCR, and the clock to be set.
#[derive(Clone, Copy)]
pub struct Known {
    pub version2: bool,
    pub ocr: u32,
    pub cid: Words,
    pub rca: u16,
    pub csd: Words,
    pub blocks: BlockCount,
    pub scr: Scr,
    pub clock: Clock,
}

// The commands of an initialisation, in order; those of its power-up with how many attempts are left.
#[derive(Clone, Copy)]
pub enum Sent {
    Cmd0,
    Cmd8,
    Power55(u32),
    Power41(u32),
    Cmd2,
    Cmd3,
    Cmd9,
    Cmd7,
    Cmd16,
    Scr55,
    Width55,
    Width6,
}

// A command outside data phases: the CMD55 of a status call, or one of an initialisation.
#[derive(Clone, Copy)]
pub enum Site {
    App,
    Init(Sent),
}

// A ready wait outside data phases: before blocks are read or written, or after CMD7.
#[derive(Clone, Copy)]
pub enum Waiting {
    Blocks,
    Selected,
}

// A data phase: the call's own, or one of an initialisation.
#[derive(Clone, Copy)]
pub enum Gets {
    Asked,
    Scr,
    Check,
    Switch,
}

// A clock row, and the idle wait before it: the initial clock, the transfer clock, or that of SDR25.
#[derive(Clone, Copy)]
pub enum Change {
    Initial,
    Transfer,
    Switch,
}

// The rows of an initialisation outside commands and data phases, in order; those of its guard follow a refusal.
#[derive(Clone, Copy)]
pub enum Writes {
    Reset(Reset),
    Clock(Change),
    Power,
    Open,
    Delay(u32),
    Retry(u32),
    Settle(u32),
    Close(Reset, Why),
}

// How a call ended: a refusal keeps the record, or leaves none.
#[derive(Clone, Copy)]
pub enum End {
    Accepted,
    Found,
    Keeping(Why),
    Dropping(Why),
}

// What follows a step: a command, a ready wait, a data phase, the idle wait before a clock row, a row, a refusal, or the end.
#[derive(Clone, Copy)]
pub enum Follow {
    Sends(Sent, u8, u32, Response),
    Waits(Waiting),
    Gets(Gets),
    Idles(Change),
    Tells(Writes),
    Refuses(Why),
    Over(End),
}

// What follows a step, with what is known by then.
#[derive(Clone, Copy)]
pub struct Then {
    pub known: Known,
    pub follow: Follow,
}

// Where a call stands.
#[derive(Clone, Copy)]
pub enum At {
    Command(Site, Command),
    Ready(Waiting, Ready),
    Data(Gets, Data),
    Idle(Change, u32),
    Tells(Writes),
    Over(End),
}

// Where a call stands, and what it has come to know of the card.
#[derive(Clone, Copy)]
pub struct Stand {
    pub known: Known,
    pub at: At,
}

impl Known {
    // The record of a card that said this of itself, with its SCR.
    pub fn card(self) -> Card
        ensures { result ≡ with_scr (card_by self) self.scr.0 }
    {
        let cid = self.cid;
        let csd = self.csd;
        let blocks = self.blocks;
        let scr = self.scr;
        let card = identify::described(self.ocr, self.rca, cid.list(), csd.list(), blocks);
        card::with_scr(card, scr)
    }
}

impl Known {
    // This is known, and the call stands there.
    pub fn at(self, at: At) -> Stand
        ensures { result ≡ record { known = self; at = at } }
    {
        Stand {
            known: self,
            at: at,
        }
    }
}

impl Asked {
    // The clock of identification of an initialisation.
    pub fn initial(self) -> Clock
        ensures { result ≡ initial_of self }
    {
        match self {
            Asked::Card(clock, _) => clock,
            Asked::Status => no_clock(),
            Asked::Blocks(_, _) => no_clock(),
            Asked::Sends(_, _) => no_clock(),
        }
    }

    // The asked frequency of an initialisation.
    pub fn frequency(self) -> u32
        ensures { result ≡ frequency_of self }
    {
        match self {
            Asked::Card(_, frequency) => frequency,
            Asked::Status => 0,
            Asked::Blocks(_, _) => 0,
            Asked::Sends(_, _) => 0,
        }
    }

    // What a data phase reads, or sends.
    pub fn phase(self, gets: Gets) -> Phase
        ensures { result ≡ phase_of self gets }
    {
        match gets {
            Gets::Asked => match self {
                Asked::Card(_, _) => Phase::Status,
                Asked::Status => Phase::Status,
                Asked::Blocks(address, blocks) => Phase::Blocks(address, blocks),
                Asked::Sends(address, blocks) => Phase::Sends(address, blocks),
            },
            Gets::Scr => Phase::Scr,
            Gets::Check => Phase::Check,
            Gets::Switch => Phase::Switch,
        }
    }
}

fn no_clock() -> Clock
    ensures { result ≡ no_clock }
{
    Clock {
        divisor: 0,
        bypass: false,
        frequency: Hertz(0),
    }
}

impl Job {
    // What the steps behind a command go by, for the card of this address.
    pub fn bus(self, rca: u16) -> Bus
        ensures { result ≡ bus_with self rca }
    {
        let host = self.host;
        let settings = host.settings;
        let source = settings.source;
        let config = settings.config;
        Bus {
            source: source,
            config: config,
            rca: rca,
        }
    }

    // The card's address in a data phase.
    pub fn rca(self, known: Known, gets: Gets) -> u16
        ensures { result ≡ rca_of self known gets }
    {
        match gets {
            Gets::Asked => self.host.card.rca,
            Gets::Scr => known.rca,
            Gets::Check => known.rca,
            Gets::Switch => known.rca,
        }
    }

    // The card's address in a ready wait.
    pub fn wait_rca(self, known: Known, waiting: Waiting) -> u16
        ensures { result ≡ wait_rca self known waiting }
    {
        match waiting {
            Waiting::Blocks => self.host.card.rca,
            Waiting::Selected => known.rca,
        }
    }
}

// How far a call has come, and why it stopped.
ghost use Rattle.std.specs.Prelude.{◌≡◌, List, ℕ, Ok};
ghost use Rattle.tape.specs.declared.progress.Halt.TheVariants.{Refused};
ghost use Rattle.tape.specs.Plan.{ensure, hold, give};
ghost use Rattle.tape.specs.Run.{noted, Went};

use crate::rows::Row;
use types::card::Signalling;
use types::clock::Hertz;
use types::error::Error;

// Why a call stopped: an error of the driver, or no word, or no room for a row.
#[derive(Clone, Copy)]
pub enum Halt {
    Refused(Error),
    ScriptEnded,
    TraceFull,
}

impl From<Error> for Halt {
    ghost from_gives = { λ e halt. halt ≡ Refused e };

    fn from(e: Error) -> Halt {
        Halt::Refused(e)
    }
}

// What the host holds of the line to the card, as the last step left it.
#[derive(Clone, Copy)]
pub struct Line {
    pub clkcr: u32,
    pub clock: Hertz,
    pub gated: bool,
    pub signalling: Signalling,
}

// The head of the tape, which a call lends to its steps one after the other: the words taken of the script, the rows written,
// and what the host holds. A step that stops the call leaves it where it came to.
#[derive(Clone, Copy)]
pub struct Head {
    pub used: usize,
    pub rows: usize,
    pub line: Line,
}

impl Line {
    // The same, after a row: CLKCR reads back what was last written.
    pub fn noted(self, register: u32, value: u32) -> Line
        ensures { result ≡ noted (record { register = register; value = value }) self }
    {
        let mut line = self;
        if register == Row::CLKCR {
            line.clkcr = value;
        }
        line
    }
}

// Refuses, unless this holds.
pub fn ensure(holds: bool, e: Error) -> Result<(), Halt>
    ensures { (s : List ℕ) (h : Head) (l : List Row) → Went s (ensure holds e) h l result h l }
{
    if holds { Ok(()) } else { Err(Halt::Refused(e)) }
}

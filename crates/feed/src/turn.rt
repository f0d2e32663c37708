// One turn of a call that is fed from a script: the word that it wants, or the row that it has.
ghost use Rattle.std.specs.Prelude.{◌≡◌, List, ℕ, get_or};
ghost use Rattle.types.specs.Words.{words_of};
ghost use Rattle.tape.specs.Layout.{rows_in};
ghost use Rattle.step.specs.declared.wants.Wants.TheVariants as W;
ghost use Rattle.step.specs.Next.{want_of, Lent};
ghost use Rattle.underway.specs.Under.{under};
ghost use Rattle.feed.specs.Runs.{lies_at};
ghost use Rattle.feed.specs.Turns.{lent, way_of, turn_by, turn_of, turned_of, goes_on, called_at};

use host::host::Called;
use step::wants::Wants;
use tape::rows::Row;
use tape::script::Reading;
use types::error::Answer;
use types::words;
use underway::call::Call;

// A call that is fed: the words taken and the rows written so far, and where in the script the first data word of its last
// transfer lay.
#[derive(Clone, Copy)]
pub struct Feeding {
    pub call: Call,
    pub used: usize,
    pub rows: usize,
    pub place: usize,
}

// What came about: a reading took its word, or found none, and the call was told so; a row was written, or found no room; or the
// call is over.
#[derive(Clone, Copy)]
pub enum Event {
    Read(Reading, u32),
    Missed(Reading),
    Wrote(Row),
    Full(Row),
    Over,
}

impl Event {
    // Whether another turn follows.
    pub fn goes_on(self) -> bool
        ensures { result ≡ goes_on self }
    {
        match self {
            Event::Read(_, _) => true,
            Event::Missed(_) => true,
            Event::Wrote(_) => true,
            Event::Full(_) => false,
            Event::Over => false,
        }
    }
}

#[derive(Clone, Copy)]
pub struct Turn {
    pub event: Event,
    pub feeding: Feeding,
}

// Where the data words lie, after a reading of the word at `used`.
fn lies(reading: Reading, used: usize, place: usize) -> usize
    ensures { result ≡ lies_at reading used place }
{
    match reading {
        Reading::Status => place,
        Reading::RespCmd => place,
        Reading::Response(_) => place,
        Reading::Dma => place,
        Reading::DCount => place,
        Reading::Data(k) => if k == 0 { used } else { place },
    }
}

// Word k of the data, 0 where it has none.
fn word_at(data: &[u8], k: u32) -> u32
    ensures { result ≡ get_or (words_of «data».now) k 0 }
{
    let at = 4 * k as usize;
    if data.len() / 4 <= k as usize {
        return 0;
    }
    words::little(data[at], data[at + 1], data[at + 2], data[at + 3])
}

impl Feeding {
    // A call at its start.
    pub fn begin(call: Call) -> Feeding
        ensures { result ≡ record { call = call; used = 0; rows = 0; place = 0 } }
    {
        Feeding {
            call: call,
            used: 0,
            rows: 0,
            place: 0,
        }
    }

    // A reading: the next word of the script; where there is none, the call is told so.
    fn reads(self, script: &[u32], reading: Reading) -> Turn
        ensures { (g : Lent) (l : List Row) → W.Read reading ≡ want_of (under g self.call).ahead → turned_of g result l ≡ turn_by script.now (way_of g self) l (W.Read reading) }
    {
        let used = self.used;
        let call = self.call;
        if script.len() <= used {
            return Turn {
                event: Event::Missed(reading),
                feeding: Feeding {
                    call: call.missed(),
                    used: used,
                    rows: self.rows,
                    place: self.place,
                },
            };
        }
        let word = script[used];
        let next = used + 1;
        Turn {
            event: Event::Read(reading, word),
            feeding: Feeding {
                call: call.fed(word),
                used: next,
                rows: self.rows,
                place: lies(reading, used, self.place),
            },
        }
    }

    // A row: into the list, where there is room.
    fn writes(self, rows: &mut [u64], row: Row) -> Turn
        ensures { (g : Lent) (s : List ℕ) → W.Write row ≡ want_of (under g self.call).ahead → turned_of g result (rows_in rows.new) ≡ turn_by s (way_of g self) (rows_in rows.old) (W.Write row) }
    {
        let n = self.rows;
        if rows.len() <= n {
            return Turn {
                event: Event::Full(row),
                feeding: self,
            };
        }
        rows[n] = row.word();
        let next = n + 1;
        let call = self.call;
        Turn {
            event: Event::Wrote(row),
            feeding: Feeding {
                call: call.went(),
                used: self.used,
                rows: next,
                place: self.place,
            },
        }
    }

    // One turn. The data is what a write sends. By itself: where it is copied into the loop that takes the turns, the compiler
    // carries each field of the call from turn to turn, a fifth to a quarter more time (docs/LOOK-BACK.md).
    #[inline(never)]
    pub fn turn(self, script: &[u32], data: &[u8], rows: &mut [u64]) -> Turn
        ensures { (taken : List ℕ) → turned_of (lent (words_of «data».now) taken) result (rows_in rows.new) ≡ turn_of script.now (way_of (lent (words_of «data».now) taken) self) (rows_in rows.old) }
    {
        let call = self.call;
        let wants = call.wants();
        match wants {
            Wants::Read(reading) => self.reads(script, reading),
            Wants::Write(row) => self.writes(rows, row),
            Wants::Send(k) => {
                let row = Row {
                    register: Row::FIFO,
                    value: word_at(data, k),
                };
                self.writes(rows, row)
            }
            Wants::Nothing => Turn {
                event: Event::Over,
                feeding: self,
            },
        }
    }

    // What the call has come to, where no turn follows: it is over; or its row found no room, and the host before it is the one
    // to use.
    pub fn called(self) -> Called
        ensures { (g : Lent) → result ≡ called_at (way_of g self) }
    {
        let call = self.call;
        let job = call.job;
        let before = job.host;
        let closed = call.closed();
        let outcome = closed.outcome;
        let host = closed.host;
        match outcome {
            Some(answer) => Called {
                answer: answer,
                words: self.used,
                rows: self.rows,
                host: host,
            },
            None => Called {
                answer: Answer::TraceFull,
                words: self.used,
                rows: self.rows,
                host: before,
            },
        }
    }
}

// The argument of a program: how many rows of room a call has.
ghost use Rattle.std.specs.Prelude.{◌≡◌, ◌≤◌, length, take};
ghost use Rattle.text.specs.Ink.{Laid};
ghost use Rattle.desk.specs.Room.{room_of, wish_of, Wishes, Fits};
ghost use Rattle.desk.specs.Refusal.{name_text, error_text, refusal_text};

use std::env::Env;
use std::io::Write;
use streams::arguments;
use streams::sink::Sink;
use text::pen::Pen;

// A call has at most this room, and this where nothing else is asked for.
pub const MOST: usize = 4096;

// The longest word that can be a room.
pub const DIGITS: usize = 4;

// The programs that are asked for one.
#[derive(Clone, Copy, Debug)]
pub enum Program {
    Cardtrace,
    Cardpile,
    Cardsteps,
}

// What is wrong with the arguments: there are too many of them, or the one that there is names no room.
#[derive(Clone, Copy, Debug)]
enum ArgumentError {
    TooMany,
    NoRoom,
}

// The room that a word names, if it does.
pub fn read_room(word: &[u8]) -> Option<usize>
    ensures { result ≡ room_of word.now }
{
    if word.is_empty() || word.len() > DIGITS {
        return None;
    }
    let mut rows = 0;
    for b in word {
        let digit = match b {
            b'0'..=b'9' => b - b'0',
            _ => return None,
        };
        rows = rows * 10 + digit as usize;
        // more digits make it no smaller
        if rows > MOST {
            return None;
        }
    }
    Some(rows)
}

// What the arguments ask for, by their number, in which the program's name counts, and the first of them.
#[tactic(auto, using(crate::proofs::Rooms::wished), unfolding(crate::specs::Room::wish_of))]
fn judged(count: usize, word: &[u8]) -> Result<usize, ArgumentError>
    ensures { result ≡ wish_of count word.now }
{
    if count < 2 {
        return Ok(MOST);
    }
    if count > 2 {
        return Err(ArgumentError::TooMany);
    }
    read_room(word).ok_or(ArgumentError::NoRoom)
}

// What they ask for, by way of a buffer that holds any word that can be a room: a longer word counts as empty, which is no
// number either.
fn argument(count: usize, word: &mut [u8], env: &impl Env) -> Result<usize, ArgumentError>
    requires { 4 ≤ length word.old }
    ensures { Wishes count result }
{
    let n = arguments::word(env, 1, word).unwrap_or(0);
    judged(count, &word[..n])
}

impl Program {
    fn name(self) -> &'static [u8]
        ensures { result.now ≡ name_text self }
    {
        match self {
            Program::Cardtrace => b"cardtrace",
            Program::Cardpile => b"cardpile",
            Program::Cardsteps => b"cardsteps",
        }
    }
}

impl ArgumentError {
    // What is said of it behind the program's name.
    fn text(self) -> &'static [u8]
        ensures { result.now ≡ error_text self }
    {
        match self {
            ArgumentError::TooMany => b": at most one argument, the rows of room for a call\n",
            ArgumentError::NoRoom => b": room must be a number from 0 to 4096\n",
        }
    }
}

// The line on standard error where the arguments are wrong.
fn put_refusal(out: &mut [u8], program: Program, error: ArgumentError) -> usize
    requires { 64 ≤ length out.old }
    ensures whole { take result out.new ≡ refusal_text program error }
    ensures laid { Laid 0 (refusal_text program error) out.old result out.new }
{
    let mut pen = Pen::new(out, 0);
    pen.put(program.name());
    pen.put(error.text());
    pen.at
}

fn tell<W: Write>(program: Program, error: ArgumentError, errors: &mut Sink<W>) {
    let mut line = [0u8; 64];
    let n = put_refusal(&mut line, program, error);
    let _ = errors.put(&line[..n]);
}

// The room that a program is asked for, all of it where it has no argument. Where the arguments are wrong there is none, and
// that was said, in the program's name.
pub fn asked<W: Write>(program: Program, env: &impl Env, errors: &mut Sink<W>) -> Option<usize>
    ensures { Fits result }
{
    let mut word = [0u8; 8];
    argument(arguments::count(env), &mut word, env)
        .inspect_err(|error| tell(program, *error, errors))
        .ok()
}

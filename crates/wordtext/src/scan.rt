// The loop over the bytes.
ghost use Rattle.std.specs.Prelude.{◌≤◌, length};
ghost use Rattle.wordtext.specs.Text.{state_of, step, read_of, Holds};

use crate::token::{Cause, Token};

// How far a reading has come: what is in hand, where that began, and how many words there are.
#[derive(Clone, Copy)]
pub struct Scan {
    pub token: Token,
    pub start: usize,
    pub count: usize,
}

// One byte more, which stands at `at`. A word that it completes goes into the list, where that has room.
fn step(s: Scan, at: usize, b: u8, words: &mut [u32]) -> Scan
    requires { s.count ≤ length words.old }
    ensures grows { s.count ≤ result.count }
    ensures holds { Holds (step (length words.old) at (state_of s words.old) b) words.old result words.new }
{
    let token = s.token.after(b);
    let start = s.token.began(at, s.start);
    let Some(word) = s.token.completed(b) else {
        return Scan { token, start, ..s };
    };
    if s.count < words.len() {
        words[s.count] = word;
        return Scan {
            token,
            start,
            count: s.count + 1,
        };
    }
    Scan {
        token: Token::Wrong(Cause::TooMany),
        start,
        ..s
    }
}

// All bytes of a text, from the first on, and the end of its last line.
pub fn scan_text(text: &[u8], words: &mut [u32]) -> Scan
    ensures { Holds (read_of (length words.old) text.now) words.old result words.new }
{
    let mut s = Scan {
        token: Token::Nothing,
        start: 0,
        count: 0,
    };
    for (i, b) in text.iter().enumerate() {
        s = step(s, i, *b, words);
    }
    step(s, text.len(), b'\n', words)
}

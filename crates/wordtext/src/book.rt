// The words of a text, and those of a book as bytes.
ghost use Rattle.std.specs.Prelude.{◌≡◌, ◌≤◌, length};
ghost use Rattle.wordtext.specs.Text.{read_of, answer_of, laid, book_over, count_of};

use crate::place::Place;
use crate::token::Cause;
use crate::{place, scan};
use types::words;

// The first thing in a text that is no word: why, and its place.
#[derive(Clone, Copy, Debug, PartialEq, Eq)]
pub struct Refusal {
    pub cause: Cause,
    pub place: Place,
}

// A book holds at most this many words.
pub const WORDS: usize = 4096;

// Reads the words of a text into the start of a list, and answers how many they are; those of the list that are left over
// stay as they are.
pub fn read_words(text: &[u8], words: &mut [u32]) -> Result<usize, Refusal>
    ensures answer { result ≡ answer_of (length words.old) text.now }
    ensures list { words.new ≡ laid (read_of (length words.old) text.now).words words.old }
    ensures fits { (count_of result ≤ length words.old) × (length words.new ≡ length words.old) }
{
    let s = scan::scan_text(text, words);
    match s.token.verdict() {
        Ok(()) => Ok(s.count),
        Err(cause) => Err(Refusal {
            cause,
            place: place::place_at(text, s.start),
        }),
    }
}

// Reads a book's words into bytes, the lowest byte of each first. The bytes stay as they are where the text is refused.
pub fn read_book(text: &[u8], bytes: &mut [u8]) -> Result<usize, Refusal>
    ensures answer { result ≡ answer_of 4096 text.now }
    ensures bytes { bytes.new ≡ book_over result (read_of 4096 text.now).words bytes.old }
    ensures fits { (count_of result ≤ 4096) × (length bytes.new ≡ length bytes.old) }
{
    let mut list = [0u32; WORDS];
    let count = read_words(text, &mut list)?;
    words::fill(bytes, &list[..count]);
    Ok(count)
}

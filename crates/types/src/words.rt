// Words as bytes, and registers out of words.
ghost use Rattle.std.specs.Prelude.{◌≡◌, ◌+◌, ◌*◌, ◌^◌, min};
ghost use Rattle.types.specs.Words.{word4, filled, bytes_of, turned, sd_status_of, halves_of, scr_of};

use crate::register::Wide;
use crate::status::Scr;

// Four bytes as a word, the lowest first.
pub fn little(a: u8, b: u8, c: u8, d: u8) -> u32
    ensures { result ≡ word4 a b c d }
{
    u32::from_le_bytes([a, b, c, d])
}

// Lays words over the start of the bytes, the lowest byte first, as far as whole words go; the other bytes stay.
// By index and not by `chunks_exact_mut`: once a chunk's borrow is over, a proof knows none of its bytes.
pub fn fill(bytes: &mut [u8], words: &[u32])
    ensures { bytes.new ≡ filled words.now bytes.old }
{
    let n = words.len().min(bytes.len() / 4);
    for i in 0..n {
        bytes[4 * i..4 * i + 4].copy_from_slice(&words[i].to_le_bytes());
    }
}

// The 64 bytes of a switch status, in the order in which the card sends them.
pub fn status_bytes(words: [u32; 16]) -> [u8; 64]
    ensures { result ≡ bytes_of words }
{
    let mut bytes = [0u8; 64];
    fill(&mut bytes, &words);
    bytes
}

// The word with its bytes turned round.
pub fn from_be(word: u32) -> u32
    ensures { result ≡ turned word }
{
    word.swap_bytes()
}

// The SD status of the sixteen words of its data transfer: the last word first, each with its bytes turned round.
pub fn sd_status(words: [u32; 16]) -> [u32; 16]
    ensures { result ≡ sd_status_of words }
{
    let mut status = words.map(from_be);
    status.reverse();
    status
}

// Two words as one number, the first on top.
pub fn joined(first: u32, second: u32) -> u64
    ensures { result ≡ first * 2 ^ 32 + second }
{
    first as u64 * 0x1_0000_0000 + second as u64
}

// The four words of a long response as one register.
#[tactic(auto, unfolding(crate::specs::Words::halves_of))]
pub fn response_value(words: [u32; 4]) -> Wide
    ensures { result ≡ halves_of words }
{
    Wide {
        high: joined(words[0], words[1]),
        low: joined(words[2], words[3]),
    }
}

// The SCR of the two words of its data transfer.
#[tactic(auto, unfolding(crate::specs::Words::scr_of))]
pub fn scr_value(first: u32, second: u32) -> Scr
    ensures { result.0 ≡ scr_of first second }
{
    Scr(joined(from_be(first), from_be(second)))
}

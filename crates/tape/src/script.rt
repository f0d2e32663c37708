// The script of readings.
ghost use Rattle.std.specs.Prelude.{◌≡◌, not, ◌&&◌, List, [], ℕ, ◌+◌, ◌^◌, ◌<◌, ◌≤◌, min, length, take, drop};
ghost use Rattle.types.specs.Bits.{clear};
ghost use Rattle.tape.specs.Polls.{leading};
ghost use Rattle.tape.specs.Run.{Behind, Took, words_in, Lies};
ghost use Rattle.tape.specs.Steps.{word, data_words};

use crate::progress::{Halt, Head};
use crate::rows::Row;

// What a reading asks for: the controller's status, the index of the command that was answered, a response word, the
// state of the DMA, the count of bytes left, or a data word.
#[derive(Clone, Copy)]
pub enum Reading {
    Status,
    RespCmd,
    Response(u8),
    Dma,
    DCount,
    Data(u32),
}

// Bits of the controller's status.
#[derive(Clone, Copy)]
pub struct Sta {}

impl Sta {
    // The response came with a bad checksum.
    pub const CRC_FAILED: u32 = 0x1;
    // No response came in time.
    pub const TIMED_OUT: u32 = 0x4;
    // A response came, with a good checksum or a bad one.
    pub const RESPONDED: u32 = 0x41;
    // A command without response was sent.
    pub const SENT: u32 = 0x80;
    // All data has come.
    pub const DATA_ENDED: u32 = 0x100;
    // A command is under way.
    pub const COMMAND: u32 = 0x800;
    // A data transfer is under way.
    pub const TRANSFER: u32 = 0x3000;
    // A command or a data transfer is under way.
    pub const BUSY: u32 = 0x3800;
}

// Bits of a DMA word.
#[derive(Clone, Copy)]
pub struct Dma {}

impl Dma {
    pub const ERROR: u32 = 0x8000_0000;

    pub const RUNNING: u32 = 0x4000_0000;
    // The words that remain are what lies below this bit.
    pub const REMAINING: u32 = 0x1_0000;
}

// What is left of a script after its first `used` words.
pub fn rest(script: &[u32], used: usize) -> &[u32]
    ensures part { Behind used result.now script.now }
    ensures fits { used + length result.now < 2 ^ 64 }
{
    if used <= script.len() {
        &script[used..]
    } else {
        &script[..0]
    }
}

// Takes the next word of a script of which `rest` is what lies behind its first `start` words.
pub fn read_word(head: &mut Head, rest: &[u32], start: usize) -> Result<u32, Halt>
    requires { (start ≤ head.old.used) × (start + length rest.now < 2 ^ 64) }
    ensures { (kind : Reading) (s : List ℕ) (l : List Row) → Behind start rest.now s → Took s ℕ 0 (word kind) head.old l result head.new l }
{
    let Some(word) = reader::word(rest, head.used - start) else {
        return Err(Halt::ScriptEnded);
    };
    head.used += 1;
    Ok(word)
}

// At most so many of the words.
fn most(words: &[u32], limit: u32) -> usize
    ensures { result ≡ min limit (length words.now) }
{
    words.len().min(limit as usize)
}

// How many of the words in front, at most so many, have a bit of the mask: polls that find the controller busy. A loop over
// plain words, since a card may keep its host waiting for a million of them.
pub fn busy(words: &[u32], limit: u32, mask: u32) -> usize
    ensures { result ≡ leading limit (λ w. not (clear mask w)) words.now }
{
    let count = most(words, limit);
    for (i, &word) in words[..count].iter().enumerate() {
        if word & mask == 0 {
            return i;
        }
    }
    count
}

// How many of the words in front, at most so many, have no bit of either mask: polls that find nothing done and nothing wrong.
pub fn quiet(words: &[u32], limit: u32, done: u32, wrong: u32) -> usize
    ensures { result ≡ leading limit (λ w. clear done w && clear wrong w) words.now }
{
    let count = most(words, limit);
    for (i, &word) in words[..count].iter().enumerate() {
        if word & done != 0 {
            return i;
        }
        if word & wrong != 0 {
            return i;
        }
    }
    count
}

// Takes so many data words of a script of which `rest` is what lies behind its first `start` words: they are lent on, so
// nothing is copied, and it takes no longer for many than for one.
pub fn take_data<'a>(
    head: &mut Head,
    rest: &'a [u32],
    start: usize,
    count: usize,
) -> Result<&'a [u32], Halt>
    requires { (start ≤ head.old.used) × (start + length rest.now < 2 ^ 64) }
    ensures took { (s : List ℕ) (l : List Row) → Behind start rest.now s → Took s (List ℕ) [] (data_words count) head.old l (words_in result) head.new l }
    ensures lie { (s : List ℕ) → Behind start rest.now s → Lies s head.old.used count (words_in result) }
{
    let from = head.used - start;
    let more = reader::left_from(rest, from);
    if more < count {
        head.used += more;
        return Err(Halt::ScriptEnded);
    }
    head.used += count;
    let left = self::rest(rest, from);
    Ok(&left[..count])
}

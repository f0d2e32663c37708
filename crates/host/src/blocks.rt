// Blocks of a read, from the words that the script lends into the lent buffer.
ghost use Rattle.std.specs.Prelude.{◌≡◌, take, drop};
ghost use Rattle.host.specs.Calls.{blocks_filled};

use tape::script;
use types::words;

// So many of the words from a place on, as far as they go.
pub fn part(words: &[u32], place: usize, count: usize) -> &[u32]
    ensures { result.now ≡ take count (drop place words.now) }
{
    let left = script::rest(words, place);
    &left[..count.min(left.len())]
}

// Fills whole blocks of the buffer, as many as there are words for.
pub fn fill_blocks(buffer: &mut [u8], words: &[u32])
    ensures { buffer.new ≡ blocks_filled words.now buffer.old }
{
    let blocks = (words.len() / 128).min(buffer.len() / 512);
    for k in 0..blocks {
        let at = 512 * k;
        let from = 128 * k;
        words::fill(&mut buffer[at..at + 512], &words[from..from + 128]);
    }
}

// Standard input book by book. In a pile each book has its length in bytes in front, as a 32-bit little-endian word.
ghost use Rattle.std.specs.Prelude.{◌≡◌, OnOk, length};
ghost use Rattle.std.specs.Io.KnownBytes.{Consumes};
ghost use Rattle.desk.specs.Pile.{part_of, little_of, announced_of, Passes, Lengths, Books, Holds};

use crate::input;
use crate::input::InputError;
use std::io;
use std::io::Read;
use streams::source::Source;

// Why the next book does not come: the pile is cut short, or a reading failed.
#[derive(Clone, Copy, Debug)]
pub enum PileError {
    Cut,
    Failed(io::Error),
}

// So many bytes are read past at once.
const CHUNK: usize = 4096;

// A buffer was to be filled, by what a reading of it gave: an input that ends before is cut short.
fn part_of(read: Result<usize, InputError>) -> Result<(), PileError>
    ensures { result ≡ part_of read }
{
    match read {
        Err(InputError::Full) => Ok(()),
        Err(InputError::Failed(why)) => Err(PileError::Failed(why)),
        Ok(_) => Err(PileError::Cut),
    }
}

// Reads as many bytes as there is room for, and no fewer.
fn fill<R: Read>(buffer: &mut [u8], source: &mut Source<R>) -> Result<(), PileError>
    ensures whole { OnOk result (Consumes (R.remaining source.old.from) (R.remaining source.new.from) buffer.new) }
    ensures passes { Passes (R.remaining source.old.from) (R.remaining source.new.from) result (length buffer.new) }
{
    part_of(input::read_all(buffer, source))
}

// Reads past so many bytes.
fn skip<R: Read>(count: usize, source: &mut Source<R>) -> Result<(), PileError>
    ensures { Passes (R.remaining source.old.from) (R.remaining source.new.from) result count }
{
    let mut chunk = [0u8; CHUNK];
    let mut left = count;
    // a range over the chunks would leave the size of the last to be worked out beside it
    while left > 0 {
        let now = left.min(CHUNK);
        fill(&mut chunk[..now], source)?;
        left -= now;
    }
    Ok(())
}

// The length of the next book, by what a reading of its four bytes gave: none where the pile ended before them.
fn announced(read: Result<usize, InputError>, bytes: [u8; 4]) -> Result<Option<usize>, PileError>
    ensures { result ≡ announced_of read (little_of bytes) }
{
    match read {
        Ok(0) => Ok(None),
        _ => part_of(read).map(|()| Some(u32::from_le_bytes(bytes) as usize)),
    }
}

// The length of the next book; none at the pile's end.
fn read_length<R: Read>(source: &mut Source<R>) -> Result<Option<usize>, PileError>
    ensures { Lengths (R.remaining source.old.from) (R.remaining source.new.from) result }
{
    let mut bytes = [0u8; 4];
    let read = input::read_all(&mut bytes, source);
    announced(read, bytes)
}

// Reads the next book of the pile, and answers how many of its bytes are in the buffer: none at the pile's end. What the
// buffer has no room for is read past: whoever lends room for one word more than a book may have can tell by the first bytes
// that it is none.
pub fn next_book<R: Read>(
    buffer: &mut [u8],
    source: &mut Source<R>,
) -> Result<Option<usize>, PileError>
    ensures holds { Holds result (length buffer.new) }
    ensures bytes { Books (R.remaining source.old.from) (R.remaining source.new.from) result buffer.new }
{
    let Some(size) = read_length(source)? else {
        return Ok(None);
    };
    let held = size.min(buffer.len());
    fill(&mut buffer[..held], source)?;
    skip(size - held, source)?;
    Ok(Some(held))
}

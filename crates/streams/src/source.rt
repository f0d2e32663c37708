// Where bytes are read: standard input, or a reader of a test.
ghost use Rattle.std.specs.Prelude.{◌≡◌, length};
ghost use Rattle.std.specs.Io.KnownBytes.{ReadConsumes};
ghost use Rattle.streams.specs.Moved.{Moved};

use std::io;
use std::io::Read;

// A program reads through this alone: what a reading may answer stands in one place, whatever the reader.
#[derive(Drop)]
pub struct Source<R> {
    pub from: R,
}

impl<R: Read> Source<R> {
    pub fn new(from: R) -> Source<R>
        ensures { result.from ≡ from }
    {
        Source { from }
    }

    // Reads once, and answers how many bytes came: none at the end of the input.
    pub fn get(&mut self, buffer: &mut [u8]) -> io::Result<usize>
        ensures moved { Moved (length buffer.new) result }
        ensures bytes { ReadConsumes (R.remaining self.old.from) (R.remaining self.new.from) result buffer.new }
    {
        self.from.read(buffer)
    }
}

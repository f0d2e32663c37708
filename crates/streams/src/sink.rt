// Where bytes are written: standard output, standard error, or a writer of a test.
ghost use Rattle.std.specs.Prelude.{OnOk, ◌≡◌};
ghost use Rattle.std.specs.Io.KnownBytes.{Appends};

use std::io;
use std::io::Write;

// A program writes through this alone: what a writing answers stands in one place, whatever the writer.
#[derive(Drop)]
pub struct Sink<W> {
    pub to: W,
}

impl<W: Write> Sink<W> {
    pub fn new(to: W) -> Sink<W>
        ensures { result.to ≡ to }
    {
        Sink { to }
    }

    // Writes all of the bytes. Where that fails, some of them may have been written.
    pub fn put(&mut self, bytes: &[u8]) -> io::Result<()>
        ensures { OnOk result (Appends (W.contents self.old.to) (W.contents self.new.to) bytes.now) }
    {
        self.to.write_all(bytes)
    }
}

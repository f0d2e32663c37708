// A sheet: the text in a lent buffer that is still to be written.
ghost use Rattle.std.specs.Prelude.{IsOk, ◌≡◌, ◌≤◌, length};
ghost use Rattle.sheet.specs.Sheet.{place_for};

use std::io;
use std::io::Write;
use streams::sink::Sink;

// So much of the buffer is filled; and whether all that was in it before was written, or why not.
#[derive(Clone, Copy)]
pub struct Sheet {
    pub at: usize,
    pub written: io::Result<()>,
}

impl Sheet {
    // No line is longer.
    pub const LINE: usize = 512;

    // Writes what the buffer holds. Where something could not be written, nothing behind it is.
    pub fn handed<W: Write>(self, out: &[u8], output: &mut Sink<W>) -> Sheet
        requires { self.at ≤ length out.now }
        ensures empty { result.at ≡ 0 }
        ensures kept { IsOk result.written → IsOk self.written }
    {
        Sheet {
            at: 0,
            written: self.written.and_then(|()| output.put(&out[..self.at])),
        }
    }

    // With room for a line.
    pub fn turned<W: Write>(self, out: &[u8], output: &mut Sink<W>) -> Sheet
        requires { self.at ≤ length out.now }
        ensures roomy { result.at ≡ place_for (length out.now) self.at }
        ensures kept { IsOk result.written → IsOk self.written }
    {
        if Sheet::LINE <= out.len() - self.at {
            return self;
        }
        self.handed(out, output)
    }

    // After a line that ends at a place.
    pub fn filled(self, at: usize) -> Sheet
        ensures { result ≡ record { at = at; written = self.written } }
    {
        Sheet {
            at: at,
            written: self.written,
        }
    }
}

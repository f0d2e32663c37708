// All of standard input.
ghost use Rattle.std.specs.Prelude.{◌≡◌, length};
ghost use Rattle.desk.specs.declared.input.InputError.TheVariants.{Failed};
ghost use Rattle.desk.specs.Input.{came, Begins, Reads, Within};

use std::io;
use std::io::Read;
use streams::source::Source;

// Why an input did not come whole: there is more than there was room for, or a reading failed.
#[derive(Clone, Copy, Debug)]
pub enum InputError {
    Full,
    Failed(io::Error),
}

impl From<io::Error> for InputError {
    ghost from_gives = { λ why e. e ≡ Failed why };

    fn from(why: io::Error) -> InputError {
        InputError::Failed(why)
    }
}

// What a reading gave: so many bytes, or none at the end of the input. It fails where the reading did, and nowhere else.
fn came(got: io::Result<usize>) -> Result<Option<usize>, InputError>
    ensures { result ≡ came got }
{
    match got? {
        0 => Ok(None),
        more => Ok(Some(more)),
    }
}

// Reads to the end of the input, and answers how many bytes came. A buffer that is filled counts as too small, since more
// may come.
pub fn read_all<R: Read>(buffer: &mut [u8], source: &mut Source<R>) -> Result<usize, InputError>
    ensures within { Within result (length buffer.new) }
    ensures bytes { Reads (R.remaining source.old.from) (R.remaining source.new.from) result buffer.new }
{
    let mut done = 0;
    // how far a turn comes is what the reading says, so there is no range to go through
    while done < buffer.len() {
        let Some(more) = came(source.get(&mut buffer[done..]))? else {
            return Ok(done);
        };
        done += more;
    }
    Err(InputError::Full)
}

// Reads a book, and answers how many of its bytes are in the buffer. A buffer that was filled has more bytes than a book may
// have, so it is no book whatever follows, and all of it is handed on.
pub fn read_book<R: Read>(buffer: &mut [u8], source: &mut Source<R>) -> io::Result<usize>
    ensures { Begins (R.remaining source.old.from) (R.remaining source.new.from) result buffer.new }
{
    match read_all(buffer, source) {
        Err(InputError::Failed(why)) => Err(why),
        read => Ok(read.unwrap_or(buffer.len())),
    }
}

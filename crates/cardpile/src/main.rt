// cardpile [ROOM]: a pile of bench books on standard input, and on standard output for each `book K`, counted from 1, and
// what cardtrace prints of it. One book is held at a time, so a pile may be of any size.
#![tactic(auto)]

ghost use Rattle.std.specs.Prelude.{false, ◌≡◌};
ghost use Rattle.text.specs.Pens.{written};
ghost use Rattle.cardpile.specs.Said.{book_line, end_text};

use desk::pile::PileError;
use desk::room::Program;
use desk::{pile, room};
use std::io;
use std::io::Write;
use streams::console::{Console, Standard};
use streams::sink::Sink;
use text::pen::Pen;

// The line in front of a book.
fn put_line(pen: &mut Pen<'_>, k: u64)
    ensures { pen.new ≡ written (book_line k) pen.old }
{
    pen.put_named(b"book ", k);
    pen.put_byte(b'\n');
}

fn put_book<W: Write>(k: u64, out: &mut [u8], output: &mut Sink<W>) -> io::Result<()> {
    let mut pen = Pen::new(out, 0);
    put_line(&mut pen, k);
    let end = pen.at;
    output.put(&out[..end])
}

// What is said where no book comes next, though the pile is not at its end.
#[tactic(auto, unfolding(crate::specs::Said::end_text))]
fn end_text(error: PileError) -> &'static [u8]
    ensures { result.now ≡ end_text error }
{
    match error {
        PileError::Cut => b"cardpile: the pile is cut short\n",
        PileError::Failed(_) => b"",
    }
}

// Says why no book comes next, where that is not the pile's end, and answers not to go on.
fn end(error: Option<PileError>, console: &mut Standard) -> bool
    ensures { result ≡ false }
{
    if let Some(error) = error {
        let _ = console.errors.put(end_text(error));
        if let PileError::Failed(why) = error {
            console.tell(b"cardpile: standard input", why);
        }
    }
    false
}

// Writes book k.
fn trace<W: Write>(
    k: u64,
    bytes: &[u8],
    room: usize,
    words: &mut [u32],
    out: &mut [u8],
    output: &mut Sink<W>,
) -> io::Result<()> {
    put_book(k, out, output)?;
    tracing::trace_book(bytes, room, words, out, output)
}

// Traces book k, and answers whether to go on.
fn show(
    k: u64,
    bytes: &[u8],
    room: usize,
    words: &mut [u32],
    out: &mut [u8],
    console: &mut Standard,
) -> bool {
    match trace(k, bytes, room, words, out, &mut console.output) {
        Ok(()) => true,
        Err(why) => {
            console.tell(b"cardpile: standard output", why);
            false
        }
    }
}

// Reads and traces book k, and answers whether to go on.
fn step(
    k: u64,
    room: usize,
    buffer: &mut [u8],
    words: &mut [u32],
    out: &mut [u8],
    console: &mut Standard,
) -> bool {
    match pile::next_book(buffer, &mut console.input) {
        Ok(Some(count)) => show(k, &buffer[..count], room, words, out, console),
        Ok(None) => end(None, console),
        Err(error) => end(Some(error), console),
    }
}

// A proved loop has to end, and nothing says that a pile does. So the books are counted up to a number that no run
// reaches.
fn run(room: usize, buffer: &mut [u8], words: &mut [u32], out: &mut [u8], console: &mut Standard) {
    for k in 1..u64::MAX {
        if !step(k, room, buffer, words, out, console) {
            return;
        }
    }
}

// The book's buffer has room for one word more than a book may have, and the text's for the longest that a call has:
// 4,096 rows of 18 bytes, 16 blocks of 1,031, and a few lines.
fn main(rt: HostRuntime) {
    let mut console = Console::new(rt.stdin(), rt.stdout(), rt.stderr());
    let Some(rows) = room::asked(Program::Cardpile, &rt, &mut console.errors) else {
        return;
    };
    let mut buffer = [0u8; 16388];
    let mut words = [0u32; 4096];
    let mut out = [0u8; 131072];
    run(rows, &mut buffer, &mut words, &mut out, &mut console);
}

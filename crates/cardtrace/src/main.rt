// cardtrace [ROOM]: a bench book on standard input, and on standard output a line for its host and one for each call, each
// with what happened behind it. ROOM is how many rows a call may write, 4,096 if not given.
#![tactic(auto)]

use desk::room::Program;
use desk::{input, room};
use streams::console::{Console, Standard};

// Traces a book.
fn show(bytes: &[u8], room: usize, words: &mut [u32], out: &mut [u8], console: &mut Standard) {
    if let Err(why) = tracing::trace_book(bytes, room, words, out, &mut console.output) {
        console.tell(b"cardtrace: standard output", why);
    }
}

// Reads the book and traces it.
fn run(room: usize, buffer: &mut [u8], words: &mut [u32], out: &mut [u8], console: &mut Standard) {
    match input::read_book(buffer, &mut console.input) {
        Ok(count) => show(&buffer[..count], room, words, out, console),
        Err(why) => console.tell(b"cardtrace: standard input", why),
    }
}

// The book's buffer has room for one word more than a book may have. The text's holds the longest that a call has: 4,096 rows
// of 18 bytes, 16 blocks of 1,031, and a few lines.
fn main(rt: HostRuntime) {
    let mut console = Console::new(rt.stdin(), rt.stdout(), rt.stderr());
    let Some(rows) = room::asked(Program::Cardtrace, &rt, &mut console.errors) else {
        return;
    };
    let mut buffer = [0u8; 16388];
    let mut words = [0u32; 4096];
    let mut out = [0u8; 131072];
    run(rows, &mut buffer, &mut words, &mut out, &mut console);
}

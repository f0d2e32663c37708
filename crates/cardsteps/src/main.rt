// cardsteps [ROOM]: a bench book on standard input, and on standard output a line for its host and for each call its events
// in their order: each reading with the word that it took, and each row, with what they mean for people. ROOM is how many
// rows a call may write, 4,096 if not given.
#![tactic(auto)]

use desk::room::Program;
use desk::{input, room};
use streams::console::{Console, Standard};

// Tells a book. This and `run` are as in cardtrace but for what is called and said; shared, they would be told both.
fn show(bytes: &[u8], room: usize, words: &mut [u32], out: &mut [u8], console: &mut Standard) {
    if let Err(why) = telling::tell_book(bytes, room, words, out, &mut console.output) {
        console.tell(b"cardsteps: standard output", why);
    }
}

// Reads the book and tells it.
fn run(room: usize, buffer: &mut [u8], words: &mut [u32], out: &mut [u8], console: &mut Standard) {
    match input::read_book(buffer, &mut console.input) {
        Ok(count) => show(&buffer[..count], room, words, out, console),
        Err(why) => console.tell(b"cardsteps: standard input", why),
    }
}

// The book's buffer has room for one word more than a book may have. Lines gather in the text's buffer, and are written where
// the longest might not fit behind them.
fn main(rt: HostRuntime) {
    let mut console = Console::new(rt.stdin(), rt.stdout(), rt.stderr());
    let Some(rows) = room::asked(Program::Cardsteps, &rt, &mut console.errors) else {
        return;
    };
    let mut buffer = [0u8; 16388];
    let mut words = [0u32; 4096];
    let mut out = [0u8; 8192];
    run(rows, &mut buffer, &mut words, &mut out, &mut console);
}

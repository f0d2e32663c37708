// cardbook: a bench book on standard input, a line for its host and one for each call on standard output.
#![tactic(auto)]

ghost use Rattle.std.specs.Prelude.{◌≤◌, ◌≡◌, length, take};
ghost use Rattle.text.specs.Ink.{Laid};
ghost use Rattle.bench.specs.Bench.{printed};

use bench::print;
use desk::input;
use streams::console::{Console, Standard};

// Lays a book's lines in the buffer, all of them: no book has more than 4,096 bytes. Gives how many they are.
fn lay(bytes: &[u8], out: &mut [u8]) -> usize
    requires { 4096 ≤ length out.old }
    ensures whole { take result out.new ≡ printed bytes.now }
    ensures within { result ≤ length out.new }
    ensures laid { Laid 0 (printed bytes.now) out.old result out.new }
{
    print::print_book(bytes, out)
}

// Prints a book by way of a buffer.
fn show(bytes: &[u8], out: &mut [u8], console: &mut Standard)
    requires { 4096 ≤ length out.old }
{
    let n = lay(bytes, out);
    if let Err(why) = console.output.put(&out[..n]) {
        console.tell(b"cardbook: standard output", why);
    }
}

// Reads the book, by way of a buffer that has room for one word more than a book may have, and prints it.
fn run(buffer: &mut [u8], out: &mut [u8], console: &mut Standard)
    requires { 4096 ≤ length out.old }
{
    match input::read_book(buffer, &mut console.input) {
        Ok(count) => show(&buffer[..count], out, console),
        Err(why) => console.tell(b"cardbook: standard input", why),
    }
}

fn main(rt: HostRuntime) {
    let mut console = Console::new(rt.stdin(), rt.stdout(), rt.stderr());
    let mut buffer = [0u8; 16388];
    let mut out = [0u8; 4096];
    run(&mut buffer, &mut out, &mut console);
}

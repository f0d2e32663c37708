// bookwords: text on standard input to a bench book on standard output. The text is decimal or 0x-hexadecimal words,
// separated by white space or commas; `#` to the end of the line is a comment. Each word is written as 32 bits, the
// lowest byte first. The first thing that is no word gets one line on standard error, and then nothing is written.
#![tactic(auto)]

ghost use Rattle.std.specs.Prelude.{◌≡◌, ◌≤◌, length};
ghost use Rattle.text.specs.Pens.{written};
ghost use Rattle.bookwords.specs.Said.{cause_text, refusal_text};

use desk::input;
use desk::input::InputError;
use std::io::Write;
use streams::console::{Console, Standard};
use streams::sink::Sink;
use text::pen::Pen;
use wordtext::book;
use wordtext::book::Refusal;
use wordtext::token::Cause;

// Names the cause of a refusal.
fn cause_text(cause: Cause) -> &'static [u8]
    ensures { result.now ≡ cause_text cause }
{
    match cause {
        Cause::NotANumber => b"not a number, in decimal or with 0x in hexadecimal",
        Cause::TooLarge => b"too large for 32 bits",
        Cause::TooMany => b"one word too many, a book holds at most 4096",
    }
}

// One line: where, and what is wrong.
fn put_refusal(pen: &mut Pen<'_>, refusal: Refusal)
    ensures { pen.new ≡ written (refusal_text refusal) pen.old }
{
    pen.put_named(b"bookwords: line ", refusal.place.line as u64);
    pen.put_named(b", column ", refusal.place.column as u64);
    pen.put(b": ");
    pen.put(cause_text(refusal.cause));
    pen.put_byte(b'\n');
}

// Writes it on standard error, by way of a buffer.
fn refuse<W: Write>(refusal: Refusal, out: &mut [u8], errors: &mut Sink<W>) {
    let mut pen = Pen::new(out, 0);
    put_refusal(&mut pen, refusal);
    let end = pen.at;
    let _ = errors.put(&out[..end]);
}

// Writes the book of a text, by way of bytes that have room for it.
fn convert(text: &[u8], bytes: &mut [u8], console: &mut Standard)
    requires { 16384 ≤ length bytes.old }
{
    match book::read_book(text, bytes) {
        Ok(count) => {
            if let Err(why) = console.output.put(&bytes[..4 * count]) {
                console.tell(b"bookwords: standard output", why);
            }
        }
        Err(refusal) => refuse(refusal, bytes, &mut console.errors),
    }
}

// Reads the text into a buffer, which has one byte more than a text may have.
fn run(buffer: &mut [u8], bytes: &mut [u8], console: &mut Standard)
    requires { 16384 ≤ length bytes.old }
{
    match input::read_all(buffer, &mut console.input) {
        Ok(count) => convert(&buffer[..count], bytes, console),
        Err(InputError::Full) => {
            let _ = console
                .errors
                .put(b"bookwords: the text is longer than 262144 bytes\n");
        }
        Err(InputError::Failed(why)) => console.tell(b"bookwords: standard input", why),
    }
}

fn main(rt: HostRuntime) {
    let mut console = Console::new(rt.stdin(), rt.stdout(), rt.stderr());
    let mut buffer = [0u8; 262145];
    let mut bytes = [0u8; 16384];
    run(&mut buffer, &mut bytes, &mut console);
}

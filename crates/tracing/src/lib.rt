// A book traced on standard output, for the programs that trace books.
#![tactic(auto)]

ghost use Rattle.std.specs.Prelude.{◌≡◌, length};
ghost use Rattle.text.specs.Ink.{inked};
ghost use Rattle.types.specs.Words.{words_of};
ghost use Rattle.book.specs.Readers.{opened_of};
ghost use Rattle.tracing.specs.Traced.{Traces, start_of, calls_of};

use bench::print::Turn;
use bench::trace;
use std::io;
use std::io::Write;
use streams::sink::Sink;
use text::pen::Pen;

// Serves a book's calls one after the other, and writes what happened before the next is served: so much text is held at
// once as one call has. Where that could not be written, no further call is served.
fn trace_calls<W: Write>(
    start: Turn,
    words: &[u32],
    calls: u16,
    room: usize,
    out: &mut [u8],
    output: &mut Sink<W>,
) -> io::Result<()>
    ensures { Traces words.now room (record { host = start.host; place = start.body_at; out = out.old }) calls result out.new }
{
    let mut turn = start;
    for k in 0..calls {
        let mut pen = Pen::new(out, 0);
        turn = trace::trace_call(turn, words, k, room, &mut pen);
        let at = pen.at;
        output.put(&out[..at])?;
    }
    Ok(())
}

// Traces a file's bytes as a book, with so many rows of room for each call, by way of a list for its words and a buffer
// for the text of a call, and writes all of it.
pub fn trace_book<W: Write>(
    bytes: &[u8],
    room: usize,
    words: &mut [u32],
    out: &mut [u8],
    output: &mut Sink<W>,
) -> io::Result<()>
    ensures loaded { words.new ≡ inked 0 (words_of bytes.now) words.old }
    ensures traced { Traces (words_of bytes.now) room (start_of (opened_of bytes.now (length words.old)) (words_of bytes.now) out.old) (calls_of (opened_of bytes.now (length words.old)) (words_of bytes.now)) result out.new }
{
    let mut pen = Pen::new(out, 0);
    let opening = trace::open(bytes, words, &mut pen);
    let at = pen.at;
    output.put(&out[..at])?;
    let start = Turn {
        host: opening.host,
        body_at: opening.body_at,
    };
    let n = opening.words;
    trace_calls(start, &words[..n], opening.calls, room, out, output)
}

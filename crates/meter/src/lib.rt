// The host for a program in Rust or C, in one process: to measure what calls cost, and to compare what they come to, without
// a book's limits. A slice goes over as a pointer and a length.
#![tactic(auto)]

ghost use Rattle.std.specs.Prelude.{◌≡◌};
ghost use Rattle.tape.specs.Layout.{rows_in};
ghost use Rattle.text.specs.Ink.{Laid};
ghost use Rattle.host.specs.Calls.{called_of, status_came, blocks_filled, write_came};
ghost use Rattle.calls.specs.Serve.{comes};
ghost use Rattle.book.specs.Layout.{contents_of};
ghost use Rattle.bench.specs.Bench.{printed, asking, buffer_after};
ghost use Rattle.bench.specs.Trace.{place_after};
ghost use Rattle.meter.specs.Metered.{told_with, served_at, served_from, metered};

use bench::{print, serve, trace};
use book::layout;
use book::layout::{Asked, Kind};
use feed::feed::{init_card, read_blocks, read_sd_status, write_blocks};
use host::blocks;
use host::host::{Called, Sdmmc};
use types::clock::Hertz;
use types::error::Answer;

// A call was served: the next host, where the next body lies, and what the call came to, as one number.
#[derive(Clone, Copy)]
struct Turn {
    host: Sdmmc,
    place: usize,
    told: u64,
}

// What the C interface gives as one number: the answer's in the top byte, the rows in the three below, the words in the low
// four.
fn told(number: u8, rows: usize, words: usize) -> u64
    ensures { result ≡ told_with number rows words }
{
    let top = number as u64 * 0x100_0000_0000_0000;
    let middle = (rows % 0x100_0000) as u64 * 0x1_0000_0000;
    top + middle + (words % 0x1_0000_0000) as u64
}

// A status call, one answer at a time: told as any other.
fn feed_status(host: Sdmmc, script: &[u32], rows: &mut [u64]) -> Called
    ensures answered { result ≡ called_of (status_came host script.now (rows_in rows.old)) }
    ensures listed { rows_in rows.new ≡ (status_came host script.now (rows_in rows.old)).list }
{
    let read = read_sd_status(host, script, rows);
    let answer = read.answer;
    let next = read.host;
    Called {
        answer: answer,
        words: read.words,
        rows: read.rows,
        host: next,
    }
}

// A write as `serve::ask` has it, one answer at a time: its data words are laid into the buffer as the bytes that go out.
fn feed_write(
    host: Sdmmc,
    data: &[u32],
    script: &[u32],
    rows: &mut [u64],
    index: u32,
    buffer: &mut [u8],
) -> Called
    ensures answered { result ≡ called_of (write_came host index (blocks_filled «data».now buffer.old) script.now (rows_in rows.old)) }
    ensures listed { rows_in rows.new ≡ (write_came host index (blocks_filled «data».now buffer.old) script.now (rows_in rows.old)).list }
    ensures filled { buffer.new ≡ blocks_filled «data».now buffer.old }
{
    blocks::fill_blocks(buffer, data);
    write_blocks(host, script, rows, index, buffer)
}

// One call as `serve::ask` has it, one answer at a time. A trait over both would state the contracts of all four calls again,
// and be longer than these arms.
fn feed_call(
    host: Sdmmc,
    words: &[u32],
    asked: Asked,
    rows: &mut [u64],
    buffer: &mut [u8],
) -> Called
    ensures answered { result ≡ called_of (comes host (asking (rows_in rows.old) buffer.old words.now asked)) }
    ensures listed { rows_in rows.new ≡ (comes host (asking (rows_in rows.old) buffer.old words.now asked)).list }
    ensures filled { buffer.new ≡ buffer_after (asking (rows_in rows.old) buffer.old words.now asked) (comes host (asking (rows_in rows.old) buffer.old words.now asked)) buffer.old }
{
    let script = serve::script_of(words, asked);
    match Kind::of(asked.kind) {
        Some(Kind::Initialise) => init_card(host, script, rows, Hertz(asked.a)),
        Some(Kind::Read) => read_blocks(host, script, rows, asked.a, buffer),
        Some(Kind::Write) => {
            feed_write(
                host,
                serve::data_of(words, asked),
                script,
                rows,
                asked.a,
                buffer,
            )
        }
        Some(Kind::Status) => feed_status(host, script, rows),
        None => feed_status(host, script, rows),
    }
}

// A way to serve a call of words that are laid out as a book's.
trait Serves {
    fn ask(
        &self,
        host: Sdmmc,
        words: &[u32],
        asked: Asked,
        rows: &mut [u64],
        buffer: &mut [u8],
    ) -> Called
        ensures answered { result ≡ called_of (comes host (asking (rows_in rows.old) buffer.old words.now asked)) }
        ensures listed { rows_in rows.new ≡ (comes host (asking (rows_in rows.old) buffer.old words.now asked)).list }
        ensures filled { buffer.new ≡ buffer_after (asking (rows_in rows.old) buffer.old words.now asked) (comes host (asking (rows_in rows.old) buffer.old words.now asked)) buffer.old };
}

// On the script.
struct OnScript {}

impl Serves for OnScript {
    fn ask(
        &self,
        host: Sdmmc,
        words: &[u32],
        asked: Asked,
        rows: &mut [u64],
        buffer: &mut [u8],
    ) -> Called {
        serve::ask(host, words, asked, rows, buffer)
    }
}

// One answer at a time.
struct Stepped {}

impl Serves for Stepped {
    fn ask(
        &self,
        host: Sdmmc,
        words: &[u32],
        asked: Asked,
        rows: &mut [u64],
        buffer: &mut [u8],
    ) -> Called {
        feed_call(host, words, asked, rows, buffer)
    }
}

// Serves call k, counted from 0, in the lent list and buffer.
fn serve_call<S: Serves>(
    way: &S,
    turn: Turn,
    words: &[u32],
    k: u32,
    rows: &mut [u64],
    buffer: &mut [u8],
) -> Turn
    ensures served { record { host = result.host; list = rows_in rows.new; buffer = buffer.new; told = result.told } ≡ served_at words.now k turn.place turn.host (rows_in rows.old) buffer.old }
    ensures passed { result.place ≡ place_after words.now k turn.place }
{
    let asked = layout::call_at(words, k, turn.place);
    let called = way.ask(turn.host, words, asked, rows, buffer);
    Turn {
        host: called.host,
        place: trace::behind(words, asked.body_at, asked.body_len),
        told: told(called.answer.number(), called.rows, called.words),
    }
}

// Serves so many calls one after the other; gives what the last came to, and at first what was told before.
fn serve_calls<S: Serves>(
    way: &S,
    host: Sdmmc,
    words: &[u32],
    calls: u32,
    before: u64,
    rows: &mut [u64],
    buffer: &mut [u8],
) -> u64
    ensures told { result ≡ (served_from calls words.now 0 (contents_of words.now) (record { host = host; list = rows_in rows.old; buffer = buffer.old; told = before })).told }
    ensures listed { rows_in rows.new ≡ (served_from calls words.now 0 (contents_of words.now) (record { host = host; list = rows_in rows.old; buffer = buffer.old; told = before })).list }
    ensures filled { buffer.new ≡ (served_from calls words.now 0 (contents_of words.now) (record { host = host; list = rows_in rows.old; buffer = buffer.old; told = before })).buffer }
{
    let mut turn = Turn {
        host: host,
        place: layout::contents(words),
        told: before,
    };
    for k in 0..calls {
        turn = serve_call(way, turn, words, k, rows, buffer);
    }
    turn.told
}

// Makes the host of words that are laid out as a book's, however many, and serves their calls in the lent list and buffer;
// a read fills all of the buffer. Gives what the last call came to, or the host where there is none.
fn serve_list<S: Serves>(way: &S, words: &[u32], rows: &mut [u64], buffer: &mut [u8]) -> u64
    ensures told { result ≡ (metered words.now (rows_in rows.old) buffer.old).told }
    ensures listed { rows_in rows.new ≡ (metered words.now (rows_in rows.old) buffer.old).list }
    ensures filled { buffer.new ≡ (metered words.now (rows_in rows.old) buffer.old).buffer }
{
    let heading = layout::head(words);
    if heading.ready_attempts > 65535 {
        return told(Answer::BadBook.number(), 0, 0);
    }
    let made = Sdmmc::new(serve::settings(heading));
    let calls = trace::served(made.answer, heading.calls);
    let before = told(made.answer.number(), 0, 0);
    serve_calls(way, made.host, words, calls, before, rows, buffer)
}

// The calls of a list, on the script.
#[unsafe(no_mangle)]
pub extern "C" fn boresacu_meter_calls(words: &[u32], rows: &mut [u64], buffer: &mut [u8]) -> u64
    ensures told { result ≡ (metered words.now (rows_in rows.old) buffer.old).told }
    ensures listed { rows_in rows.new ≡ (metered words.now (rows_in rows.old) buffer.old).list }
    ensures filled { buffer.new ≡ (metered words.now (rows_in rows.old) buffer.old).buffer }
{
    serve_list(&OnScript {}, words, rows, buffer)
}

// The calls of a list, one answer at a time.
#[unsafe(no_mangle)]
pub extern "C" fn boresacu_meter_steps(words: &[u32], rows: &mut [u64], buffer: &mut [u8]) -> u64
    ensures told { result ≡ (metered words.now (rows_in rows.old) buffer.old).told }
    ensures listed { rows_in rows.new ≡ (metered words.now (rows_in rows.old) buffer.old).list }
    ensures filled { buffer.new ≡ (metered words.now (rows_in rows.old) buffer.old).buffer }
{
    serve_list(&Stepped {}, words, rows, buffer)
}

// What is printed of a file's bytes as a book, as far as it fits; gives how many bytes that is.
#[unsafe(no_mangle)]
pub extern "C" fn boresacu_meter_book(bytes: &[u8], out: &mut [u8]) -> usize
    ensures { Laid 0 (printed bytes.now) out.old result out.new }
{
    print::print_book(bytes, out)
}

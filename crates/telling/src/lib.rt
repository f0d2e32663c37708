// A book told event by event on standard output, its calls taken one answer at a time.
#![tactic(auto)]

ghost use Rattle.std.specs.Prelude.{◌≡◌, [], IsErr, ◌+◌, ◌*◌, ◌≤◌, ◌<◌, min, length, take, replicate, IfOk};
ghost use Rattle.tape.specs.Layout.{rows_in};
ghost use Rattle.text.specs.Ink.{inked};
ghost use Rattle.host.specs.Calls.{called_of};
ghost use Rattle.calls.specs.Serve.{comes};
ghost use Rattle.step.specs.Next.{Lent};
ghost use Rattle.underway.specs.Under.{under};
ghost use Rattle.feed.specs.Turns.{lent, way_of, starts, fed_from, called_at};
ghost use Rattle.types.specs.Words.{words_of};
ghost use Rattle.book.specs.Readers.{asked_at, call_asked, opened_of};
ghost use Rattle.bench.specs.Bench.{asking};
ghost use Rattle.bench.specs.Trace.{bytes_at, place_after, call_at};
ghost use Rattle.sheet.specs.Sheet.{Fits};
ghost use Rattle.tracing.specs.Traced.{start_of, calls_of};
ghost use Rattle.telling.specs.Told.{Tellings, leaf, evented, events_of, begun, begins, ends_on, call_out};

use bench::print::Turn;
use bench::{serve, trace};
use book::layout;
use book::layout::{Asked, Kind};
use events::event;
use feed::turn::{Event, Feeding};
use host::blocks;
use host::host::{Called, Sdmmc};
use sheet::lines;
use sheet::sheet::Sheet;
use std::io;
use std::io::Write;
use streams::sink::Sink;
use text::pen::Pen;
use types::clock::Hertz;
use underway::call::Call;

// What a call came to, and the sheet behind its lines so far.
#[derive(Clone, Copy)]
struct Told {
    called: Called,
    sheet: Sheet,
}

// A call at its start, a read or a write with so many bytes.
fn begin(host: Sdmmc, asked: Asked, bytes: usize) -> Call
    ensures { (g : Lent) → under g result ≡ begun host asked g.sent bytes }
{
    match Kind::of(asked.kind) {
        Some(Kind::Initialise) => Call::init_card(host, Hertz(asked.a)),
        Some(Kind::Read) => Call::read_blocks(host, asked.a, bytes),
        Some(Kind::Write) => Call::write_blocks(host, asked.a, bytes),
        Some(Kind::Status) => Call::read_sd_status(host),
        None => Call::read_sd_status(host),
    }
}

// What came about, where it has a line: a row that found no room was not written, and the end is no event.
fn tell_event<W: Write>(sheet: Sheet, event: Event, out: &mut [u8], output: &mut Sink<W>) -> Sheet
    requires { Fits sheet out.old }
    ensures fits { Fits result out.new }
    ensures told { leaf result.at out.new ≡ evented event (leaf sheet.at out.old) }
{
    match event {
        Event::Read(reading, word) => lines::tell_event(
            sheet,
            event::Event::Read(reading, word),
            out,
            output,
        ),
        Event::Missed(reading) => lines::tell_event(
            sheet,
            event::Event::Missed(reading),
            out,
            output,
        ),
        Event::Wrote(row) => lines::tell_event(sheet, event::Event::Wrote(row), out, output),
        Event::Full(_) => sheet,
        Event::Over => sheet,
    }
}

// A call whose last turn this was.
fn ended(feeding: Feeding, sheet: Sheet) -> Told
    ensures called { (g : Lent) → result.called ≡ called_at (way_of g feeding) }
    ensures sheet { result.sheet ≡ sheet }
{
    Told {
        called: feeding.called(),
        sheet: sheet,
    }
}

// Takes a call's turns until none follows, and tells each as it comes. The call goes its way whatever becomes of the text.
// The data is what a write sends.
fn take_turns<W: Write>(
    call: Call,
    script: &[u32],
    data: &[u8],
    rows: &mut [u64],
    sheet: Sheet,
    out: &mut [u8],
    output: &mut Sink<W>,
) -> Told
    requires { Fits sheet out.old }
    ensures answered { result.called ≡ called_of (fed_from script.now (starts (under (lent (words_of «data».now) []) call)) (rows_in rows.old)) }
    ensures fits { Fits result.sheet out.new }
    ensures told { leaf result.sheet.at out.new ≡ events_of script.now (starts (under (lent (words_of «data».now) []) call)) (rows_in rows.old) (leaf sheet.at out.old) }
{
    let mut feeding = Feeding::begin(call);
    let mut page = sheet;
    // a call's turns are as many as its script and its rows make them, so there is no range to go through
    loop {
        let turn = feeding.turn(script, data, rows);
        let event = turn.event;
        let next = turn.feeding;
        page = tell_event(page, event, out, output);
        if !event.goes_on() {
            return ended(next, page);
        }
        feeding = next;
    }
}

// A call's events, on the script that the book has for it. What a write sends is laid into the buffer.
fn tell_events<W: Write>(
    host: Sdmmc,
    words: &[u32],
    asked: Asked,
    buffer: &mut [u8],
    rows: &mut [u64],
    sheet: Sheet,
    out: &mut [u8],
    output: &mut Sink<W>,
) -> Told
    requires { Fits sheet out.old }
    ensures answered { result.called ≡ called_of (comes host (asking (rows_in rows.old) buffer.old words.now asked)) }
    ensures fits { Fits result.sheet out.new }
    ensures told { leaf result.sheet.at out.new ≡ events_of (call_asked words.now asked).script (starts (begins host words.now asked buffer.old)) (rows_in rows.old) (leaf sheet.at out.old) }
{
    let bytes = buffer.len();
    let script = serve::script_of(words, asked);
    blocks::fill_blocks(buffer, serve::data_of(words, asked));
    take_turns(
        begin(host, asked, bytes),
        script,
        buffer,
        rows,
        sheet,
        out,
        output,
    )
}

// The last two lines of a call; then the sheet is handed over.
fn tell_end<W: Write>(
    told: Told,
    number: u32,
    kind: u32,
    out: &mut [u8],
    output: &mut Sink<W>,
) -> Sheet
    requires { Fits told.sheet out.old }
    ensures { out.new ≡ (ends_on number kind told.called (leaf told.sheet.at out.old)).out }
{
    let called = told.called;
    let next = called.host;
    let line = lines::tell_called(told.sheet, number, kind, called, out, output);
    let state = lines::tell_state(line, next, out, output);
    state.handed(out, output)
}

// All of a call, with a row list and a buffer of its blocks' bytes. Gives the turn of the next call, where all text was
// written.
fn tell_exact<W: Write>(
    host: Sdmmc,
    words: &[u32],
    asked: Asked,
    number: u32,
    buffer: &mut [u8],
    rows: &mut [u64],
    out: &mut [u8],
    output: &mut Sink<W>,
) -> io::Result<Turn>
    requires { 512 ≤ length out.old }
    ensures next { IfOk result (λ t. (t.host ≡ (comes host (asking (rows_in rows.old) buffer.old words.now asked)).host) × (t.body_at ≡ min (asked.body_at + asked.body_len) (length words.now))) }
    ensures told { out.new ≡ call_out number host words.now asked buffer.old (rows_in rows.old) out.old }
{
    let blank = Sheet {
        at: 0,
        written: Ok(()),
    };
    let begins = lines::tell_begins(blank, number, asked, out, output);
    let told = tell_events(host, words, asked, buffer, rows, begins, out, output);
    let called = told.called;
    let sheet = tell_end(told, number, asked.kind, out, output);
    sheet.written?;
    Ok(Turn {
        host: called.host,
        body_at: trace::behind(words, asked.body_at, asked.body_len),
    })
}

// Call k in the parts of a row list and of a buffer that it may take.
fn tell_in<W: Write>(
    turn: Turn,
    words: &[u32],
    k: u16,
    room: usize,
    list: &mut [u64],
    buffer: &mut [u8],
    out: &mut [u8],
    output: &mut Sink<W>,
) -> io::Result<Turn>
    requires { (4096 ≤ length list.old) × (8192 ≤ length buffer.old) × (512 ≤ length out.old) }
    ensures next { IfOk result (λ t. (t.host ≡ (comes turn.host (asking (rows_in (take (min room 4096) list.old)) (take (bytes_at words.now k turn.body_at) buffer.old) words.now (asked_at words.now k turn.body_at))).host) × (t.body_at ≡ place_after words.now k turn.body_at)) }
    ensures told { out.new ≡ call_out (k + 1) turn.host words.now (asked_at words.now k turn.body_at) (take (bytes_at words.now k turn.body_at) buffer.old) (rows_in (take (min room 4096) list.old)) out.old }
{
    let asked = layout::call_at(words, k as u32, turn.body_at);
    let rows = room.min(4096);
    let bytes = 512 * (asked.b as usize).min(16);
    tell_exact(
        turn.host,
        words,
        asked,
        k as u32 + 1,
        &mut buffer[..bytes],
        &mut list[..rows],
        out,
        output,
    )
}

// Takes call k, counted from 0, with so many rows of room, and tells it.
fn tell_call<W: Write>(
    turn: Turn,
    words: &[u32],
    k: u16,
    room: usize,
    out: &mut [u8],
    output: &mut Sink<W>,
) -> io::Result<Turn>
    requires { 512 ≤ length out.old }
    ensures next { IfOk result (λ t. (t.host ≡ (comes turn.host (call_at words.now k turn.body_at room)).host) × (t.body_at ≡ place_after words.now k turn.body_at)) }
    ensures told { out.new ≡ call_out (k + 1) turn.host words.now (asked_at words.now k turn.body_at) (replicate (bytes_at words.now k turn.body_at) 0) (rows_in (replicate (min room 4096) 0)) out.old }
{
    let mut list = [0u64; 4096];
    let mut buffer = [0u8; 8192];
    tell_in(turn, words, k, room, &mut list, &mut buffer, out, output)
}

// Takes a book's calls one after the other. Where something could not be written, no further call is taken.
fn tell_calls<W: Write>(
    start: Turn,
    words: &[u32],
    calls: u16,
    room: usize,
    out: &mut [u8],
    output: &mut Sink<W>,
) -> io::Result<()>
    requires { 512 ≤ length out.old }
    ensures { Tellings words.now room (record { host = start.host; place = start.body_at; out = out.old }) calls result out.new }
{
    let mut turn = start;
    for k in 0..calls {
        turn = tell_call(turn, words, k, room, out, output)?;
    }
    Ok(())
}

// All of a book, in a buffer that has room for a line.
fn tell_all<W: Write>(
    bytes: &[u8],
    room: usize,
    words: &mut [u32],
    out: &mut [u8],
    output: &mut Sink<W>,
) -> io::Result<()>
    requires { 512 ≤ length out.old }
    ensures loaded { words.new ≡ inked 0 (words_of bytes.now) words.old }
    ensures told { Tellings (words_of bytes.now) room (start_of (opened_of bytes.now (length words.old)) (words_of bytes.now) out.old) (calls_of (opened_of bytes.now (length words.old)) (words_of bytes.now)) result out.new }
{
    let mut pen = Pen::new(out, 0);
    let opening = trace::open(bytes, words, &mut pen);
    let head = Sheet {
        at: pen.at,
        written: Ok(()),
    };
    let sheet = head.handed(out, output);
    sheet.written?;
    let start = Turn {
        host: opening.host,
        body_at: opening.body_at,
    };
    let n = opening.words;
    tell_calls(start, &words[..n], opening.calls, room, out, output)
}

// Tells a file's bytes as a book, with so many rows of room for each call, by way of a list for its words and a buffer for
// the lines. In a buffer with no room for a line nothing is told.
pub fn tell_book<W: Write>(
    bytes: &[u8],
    room: usize,
    words: &mut [u32],
    out: &mut [u8],
    output: &mut Sink<W>,
) -> io::Result<()>
    ensures loaded { 512 ≤ length out.old → words.new ≡ inked 0 (words_of bytes.now) words.old }
    ensures told { 512 ≤ length out.old → Tellings (words_of bytes.now) room (start_of (opened_of bytes.now (length words.old)) (words_of bytes.now) out.old) (calls_of (opened_of bytes.now (length words.old)) (words_of bytes.now)) result out.new }
    ensures short { length out.old < 512 → IsErr result × (words.new ≡ words.old) × (out.new ≡ out.old) }
{
    if out.len() < 512 {
        return Err(io::Error::from(io::ErrorKind::InvalidInput));
    }
    tell_all(bytes, room, words, out, output)
}

// What is printed of a book with what happened in each call, one call at a time: a call's text is bounded by its room, a
// book's is not.
ghost use Rattle.std.specs.Prelude.{false, ◌++◌, ◌≡◌, ◌+◌, ◌*◌, ◌≤◌, min, length, take};
ghost use Rattle.tape.specs.Layout.{rows_in};
ghost use Rattle.book.specs.Readers.{asked_at, opened_of};
ghost use Rattle.text.specs.Ink.{inked};
ghost use Rattle.text.specs.Pens.{written};
ghost use Rattle.types.specs.declared.error.Answer.TheVariants.{BadBook};
ghost use Rattle.report.specs.Report.{rows_text, carried_text, state_text};
ghost use Rattle.host.specs.Calls.{made};
ghost use Rattle.calls.specs.Serve.{comes};
ghost use Rattle.types.specs.Words.{words_of};
ghost use Rattle.book.specs.Layout.{bad_words, book_in};
ghost use Rattle.book.specs.Lines.{host_line};
ghost use Rattle.bench.specs.Bench.{settings_of, asking, number_of, where_accepted};
ghost use Rattle.bench.specs.Trace.{kind_text, traced_text, bytes_at, place_after, call_at, call_text, head_text, calls_served};
ghost use Rattle.bench.specs.Opens.{Opens, OpensNone, OpensAs, head_of};

use crate::print::Turn;
use crate::serve;
use book::layout::{Asked, Kind};
use book::{layout, lines};
use host::host::{Called, Made, Sdmmc};
use init::settings::Settings;
use report::{blocks, rows, state, status};
use text::pen::Pen;
use types::clock::Hertz;
use types::config::Config;
use types::error::Answer;

// The rows, the word that the answer carries, and the host's state.
fn put_happened(pen: &mut Pen<'_>, list: &[u64], called: Called)
    ensures { pen.new ≡ written (rows_text called.rows (rows_in list.now) ++ carried_text called.answer ++ state_text called.host) pen.old }
{
    rows::put_rows(pen, list, called.rows);
    rows::put_carried(pen, called.answer);
    state::put_state(pen, called.host);
}

// What an accepted call of this kind gave: a read its blocks, a status call the sixteen words.
fn put_kind(pen: &mut Pen<'_>, kind: u32, host: Sdmmc, buffer: &[u8], count: usize)
    ensures { pen.new ≡ written (kind_text kind host count buffer.now) pen.old }
{
    match Kind::of(kind) {
        Some(Kind::Read) => blocks::put_blocks(pen, buffer, count),
        Some(Kind::Status) | None => status::put_status(pen, host.card.status),
        Some(Kind::Initialise) | Some(Kind::Write) => {}
    }
}

// The same, only where the call was accepted.
fn put_given(pen: &mut Pen<'_>, kind: u32, answer: Answer, host: Sdmmc, buffer: &[u8], count: usize)
    ensures { pen.new ≡ written (where_accepted answer (kind_text kind host count buffer.now)) pen.old }
{
    if let Answer::Accepted = answer {
        put_kind(pen, kind, host, buffer, count);
    }
}

// One call, with a buffer of its blocks' bytes, and what is printed of it; gives the next host.
fn trace_exact(
    host: Sdmmc,
    words: &[u32],
    asked: Asked,
    number: u32,
    list: &mut [u64],
    buffer: &mut [u8],
    pen: &mut Pen<'_>,
) -> Sdmmc
    ensures served { result ≡ (comes host (asking (rows_in list.old) buffer.old words.now asked)).host }
    ensures traced { pen.new ≡ written (traced_text number host (rows_in list.old) buffer.old words.now asked) pen.old }
{
    let count = buffer.len() / 512;
    let called = serve::ask(host, words, asked, list, buffer);
    let next = called.host;
    lines::put_call(
        pen,
        number,
        asked.kind,
        called.answer,
        called.words,
        called.rows,
        next.card.protection,
    );
    put_happened(pen, list, called);
    put_given(pen, asked.kind, called.answer, next, buffer, count);
    next
}

// A place so many words on, as far as the words go.
pub fn behind(words: &[u32], place: usize, count: usize) -> usize
    ensures { result ≡ min (place + count) (length words.now) }
{
    place.saturating_add(count).min(words.len())
}

// Call k in the parts of a row list and of a buffer that it may take.
fn trace_in(
    turn: Turn,
    words: &[u32],
    k: u16,
    room: usize,
    list: &mut [u64],
    buffer: &mut [u8],
    pen: &mut Pen<'_>,
) -> Turn
    requires { (4096 ≤ length list.old) × (8192 ≤ length buffer.old) }
    ensures served { result.host ≡ (comes turn.host (asking (rows_in (take (min room 4096) list.old)) (take (bytes_at words.now k turn.body_at) buffer.old) words.now (asked_at words.now k turn.body_at))).host }
    ensures passed { result.body_at ≡ place_after words.now k turn.body_at }
    ensures traced { pen.new ≡ written (traced_text (k + 1) turn.host (rows_in (take (min room 4096) list.old)) (take (bytes_at words.now k turn.body_at) buffer.old) words.now (asked_at words.now k turn.body_at)) pen.old }
{
    let asked = layout::call_at(words, k as u32, turn.body_at);
    let rows = room.min(4096);
    let bytes = 512 * (asked.b as usize).min(16);
    let next = trace_exact(
        turn.host,
        words,
        asked,
        k as u32 + 1,
        &mut list[..rows],
        &mut buffer[..bytes],
        pen,
    );
    Turn {
        host: next,
        body_at: behind(words, asked.body_at, asked.body_len),
    }
}

// Serves call k, counted from 0, with so many rows of room, and prints what happened.
pub fn trace_call(turn: Turn, words: &[u32], k: u16, room: usize, pen: &mut Pen<'_>) -> Turn
    ensures served { result.host ≡ (comes turn.host (call_at words.now k turn.body_at room)).host }
    ensures passed { result.body_at ≡ place_after words.now k turn.body_at }
    ensures traced { pen.new ≡ written (call_text (k + 1) turn.host (bytes_at words.now k turn.body_at) (call_at words.now k turn.body_at room)) pen.old }
{
    let mut list = [0u64; 4096];
    let mut buffer = [0u8; 8192];
    trace_in(turn, words, k, room, &mut list, &mut buffer, pen)
}

// A book was opened: its host, its calls (none where there is no host), its words, and where the first body starts.
#[derive(Clone, Copy)]
pub struct Opening {
    pub host: Sdmmc,
    pub calls: u16,
    pub words: usize,
    pub body_at: usize,
}

// The host's line, and its state where there is one.
fn put_head(pen: &mut Pen<'_>, made: Made)
    ensures { pen.new ≡ written (head_text made) pen.old }
{
    lines::put_host(pen, made.answer.number());
    if let Answer::Accepted = made.answer {
        state::put_state(pen, made.host);
    }
}

// So many calls, none where there is no host.
pub fn served(answer: Answer, calls: u32) -> u32
    ensures { result ≡ calls_served answer calls }
{
    match answer {
        Answer::Accepted => calls,
        _ => 0,
    }
}

// Makes the host of a good book.
fn open_good(words: &[u32], pen: &mut Pen<'_>) -> Opening
    requires { bad_words words.now ≡ false }
    ensures opened { Opens words.now result }
    ensures printed { pen.new ≡ written (head_text (made (settings_of (book_in words.now)))) pen.old }
{
    let made = Sdmmc::new(serve::settings(layout::head(words)));
    put_head(pen, made);
    Opening {
        host: made.host,
        calls: served(made.answer, layout::word(words, 6)) as u16,
        words: words.len(),
        body_at: layout::contents(words),
    }
}

// What is no book: no host, and the line that says so.
fn open_bad(pen: &mut Pen<'_>) -> Opening
    ensures opened { OpensNone result }
    ensures printed { pen.new ≡ written (host_line (number_of BadBook)) pen.old }
{
    let none = Sdmmc::new(Settings {
        source: Hertz(0),
        config: Config {
            data_transfer_timeout: 0,
            software_timeout_ms: 0,
            poll_limit: 0,
            card_ready_attempts: 0,
            allow_clock_bypass: false,
        },
        wide: false,
    });
    lines::put_host(pen, Answer::BadBook.number());
    Opening {
        host: none.host,
        calls: 0,
        words: 0,
        body_at: 0,
    }
}

// Opens a file's bytes as a book, in a list with room for its words, makes its host, and prints the host's line and state.
pub fn open(bytes: &[u8], words: &mut [u32], pen: &mut Pen<'_>) -> Opening
    ensures laid { words.new ≡ inked 0 (words_of bytes.now) words.old }
    ensures opened { OpensAs (opened_of bytes.now (length words.old)) (words_of bytes.now) result }
    ensures printed { pen.new ≡ written (head_of (opened_of bytes.now (length words.old)) (words_of bytes.now)) pen.old }
{
    match layout::open(bytes, words) {
        Some(n) => open_good(&words[..n], pen),
        None => open_bad(pen),
    }
}

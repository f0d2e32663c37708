// What is printed of a book, by a pen (text/src/pen.rt says why not by `Display`): a line for its host, and one for each call.
ghost use Rattle.std.specs.Prelude.{false, map, ◌≡◌, ◌+◌, ◌*◌, ◌≤◌, ◌<◌, length, get_or};
ghost use Rattle.text.specs.Ink.{Laid};
ghost use Rattle.text.specs.Pens.{written};
ghost use Rattle.book.specs.Layout.{bad_words, book_in};
ghost use Rattle.bench.specs.Bench.{call_of, lines_served, line_of, host_after, book_lines, printed};

use crate::serve;
use book::{layout, lines};
use host::host::Sdmmc;
use text::pen::Pen;
use types::error::Answer;

// Before a book's next call: its host, and where its body lies.
#[derive(Clone, Copy)]
pub struct Turn {
    pub host: Sdmmc,
    pub body_at: usize,
}

// Serves call k, counted from 0, and prints its line.
fn serve_call(turn: Turn, words: &[u32], k: u32, pen: &mut Pen<'_>) -> Turn
    requires { (k < 64) × (get_or words.now (7 + 4 * k + 2) 0 ≤ 16) × (turn.body_at + get_or words.now (7 + 4 * k + 3) 0 ≤ length words.now) }
    ensures served { result.host ≡ host_after turn.host words.now k turn.body_at }
    ensures passed { result.body_at ≡ turn.body_at + get_or words.now (7 + 4 * k + 3) 0 }
    ensures printed { pen.new ≡ written (line_of turn.host words.now k turn.body_at) pen.old }
{
    let mut rows = [0u64; 4096];
    let mut buffer = [0u8; 8192];
    let asked = layout::call_at(words, k, turn.body_at);
    let called = serve::ask_in(turn.host, words, asked, &mut rows, &mut buffer);
    let next = called.host;
    lines::put_call(
        pen,
        k + 1,
        asked.kind,
        called.answer,
        called.words,
        called.rows,
        next.card.protection,
    );
    Turn {
        host: next,
        body_at: asked.body_at + asked.body_len,
    }
}

// Serves the calls of a good book, and prints their lines.
fn serve_calls(words: &[u32], host: Sdmmc, pen: &mut Pen<'_>)
    requires { bad_words words.now ≡ false }
    ensures { pen.new ≡ written (lines_served 1 host (map (call_of 4096) (book_in words.now).calls)) pen.old }
{
    let mut turn = Turn {
        host: host,
        body_at: layout::contents(words),
    };
    for k in 0..layout::word(words, 6) {
        turn = serve_call(turn, words, k, pen);
    }
}

// Makes the host of a good book, prints its line, and serves the calls where there is one.
fn serve_book(words: &[u32], pen: &mut Pen<'_>)
    requires { bad_words words.now ≡ false }
    ensures { pen.new ≡ written (book_lines (book_in words.now)) pen.old }
{
    let made = Sdmmc::new(serve::settings(layout::head(words)));
    lines::put_host(pen, made.answer.number());
    if let Answer::Accepted = made.answer {
        serve_calls(words, made.host, pen);
    }
}

// Prints a file's bytes as a book, in a list that has room for every book's words.
fn print_in(bytes: &[u8], words: &mut [u32], pen: &mut Pen<'_>)
    requires { 4096 ≤ length words.old }
    ensures { pen.new ≡ written (printed bytes.now) pen.old }
{
    match layout::open(bytes, words) {
        Some(n) => serve_book(&words[..n], pen),
        None => lines::put_host(pen, Answer::BadBook.number()),
    }
}

// What is printed of a file's bytes, as far as it fits; gives how many bytes that is.
pub fn print_book(bytes: &[u8], out: &mut [u8]) -> usize
    ensures { Laid 0 (printed bytes.now) out.old result out.new }
{
    let mut words = [0u32; 4096];
    let mut pen = Pen::new(out, 0);
    print_in(bytes, &mut words, &mut pen);
    pen.at
}

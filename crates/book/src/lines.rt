// The lines that the program prints of a book, by a pen (text/src/pen.rt says why not by `Display`).
ghost use Rattle.std.specs.Prelude.{◌≡◌};
ghost use Rattle.text.specs.Pens.{written};
ghost use Rattle.types.specs.declared.error.Answer.TheVariants.{Refused};
ghost use Rattle.book.specs.Lines.{host_line, field_text, answer_text, protect_text, call_line};

use crate::layout::Kind;
use text::pen::Pen;
use types::error::{Answer, Error};
use types::register::Protection;

// The first line: the answer at making the host, or of a book that is none.
pub fn put_host(pen: &mut Pen<'_>, answer: u8)
    ensures { pen.new ≡ written (host_line answer) pen.old }
{
    pen.put_named(b"host answer ", answer as u64);
    pen.put_byte(b'\n');
}

// The field that made a card unsupported; nothing of any other error.
fn put_field(pen: &mut Pen<'_>, error: Error)
    ensures { pen.new ≡ written (field_text (Refused error)) pen.old }
{
    match error {
        Error::UnsupportedCardType(field) => pen.put_named(b" field ", field.number() as u64),
        _ => {}
    }
}

// An answer's number, and what is told of the error that it refuses with.
fn put_answer(pen: &mut Pen<'_>, answer: Answer)
    ensures { pen.new ≡ written (answer_text answer) pen.old }
{
    pen.put_named(b" answer ", answer.number() as u64);
    match answer {
        Answer::Refused(error) => put_field(pen, error),
        _ => {}
    }
}

// How the card is protected against writing, told of an accepted initialisation, and of no other call.
fn put_protect(pen: &mut Pen<'_>, kind: u32, answer: Answer, protection: Protection)
    ensures { pen.new ≡ written (protect_text kind answer protection) pen.old }
{
    if kind == Kind::Initialise as u32 && answer.number() == 0 {
        pen.put_named(b" protect ", protection.number() as u64);
    }
}

// A call's line: its number, counted from 1, its answer, the words it used and the rows it wrote, and of an accepted
// initialisation how the card is protected.
pub fn put_call(
    pen: &mut Pen<'_>,
    call: u32,
    kind: u32,
    answer: Answer,
    words: usize,
    rows: usize,
    protection: Protection,
)
    ensures { pen.new ≡ written (call_line call kind answer words rows protection) pen.old }
{
    pen.put_decimal(call as u64);
    put_answer(pen, answer);
    pen.put_named(b" words ", words as u64);
    pen.put_named(b" rows ", rows as u64);
    put_protect(pen, kind, answer, protection);
    pen.put_byte(b'\n');
}

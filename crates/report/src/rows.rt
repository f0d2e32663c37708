// The rows that a call wrote, and the word that its answer carries.
ghost use Rattle.std.specs.Prelude.{◌≡◌, get_or};
ghost use Rattle.text.specs.Pens.{written};
ghost use Rattle.tape.specs.Layout.{row_of, rows_in};
ghost use Rattle.types.specs.declared.error.Answer.TheVariants.{Refused};
ghost use Rattle.report.specs.Report.{row_text, row_line, rows_text, carried_text};

use tape::rows::Row;
use text::pen::Pen;
use types::error::{Answer, Error};

// Row i, of zeros where it is past the list.
fn row_at(rows: &[u64], i: usize) -> Row
    ensures { result ≡ get_or (rows_in rows.now) i (row_of 0) }
{
    // not `get`, as in reader
    if rows.len() <= i {
        return Row::of(0);
    }
    Row::of(rows[i])
}

pub fn put_row(pen: &mut Pen<'_>, register: u32, value: u32)
    ensures { pen.new ≡ written (row_text register value) pen.old }
{
    pen.put_named(b"row ", register as u64);
    pen.put_named(b" ", value as u64);
}

fn put_line(pen: &mut Pen<'_>, row: Row)
    ensures { pen.new ≡ written (row_line row.register row.value) pen.old }
{
    put_row(pen, row.register, row.value);
    pen.put_byte(b'\n');
}

// The first n rows of the list.
#[tactic(auto, using(text::proofs::Pens::writing, crate::proofs::Lines::more))]
pub fn put_rows(pen: &mut Pen<'_>, rows: &[u64], n: usize)
    ensures { pen.new ≡ written (rows_text n (rows_in rows.now)) pen.old }
{
    for i in 0..n {
        put_line(pen, row_at(rows, i));
    }
}

// The card's status word, where it is the error; nothing of any other.
fn put_error(pen: &mut Pen<'_>, error: Error)
    ensures { pen.new ≡ written (carried_text (Refused error)) pen.old }
{
    match error {
        Error::CardStatus(word) => {
            pen.put(b"carried ");
            pen.put_hex(8, word as u64);
            pen.put_byte(b'\n');
        }
        _ => {}
    }
}

// The word that an answer carries, where it refuses with the card's status.
pub fn put_carried(pen: &mut Pen<'_>, answer: Answer)
    ensures { pen.new ≡ written (carried_text answer) pen.old }
{
    match answer {
        Answer::Refused(error) => put_error(pen, error),
        _ => {}
    }
}

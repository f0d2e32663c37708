// The words of a write: each is a row of FIFO, in order.
ghost use Rattle.std.specs.Prelude.{List, ℕ, ◌+◌, ◌*◌, ◌-◌, ◌/◌, ◌≤◌, ◌≡◌, length};
ghost use Rattle.types.specs.Words.{words_of};
ghost use Rattle.tape.specs.Layout.{rows_in, sent_over};
ghost use Rattle.tape.specs.Run.{Went};
ghost use Rattle.tape.specs.Steps.{send_words};

use crate::progress::{Halt, Head};
use crate::rows::Row;
use types::words;

// Words of these bytes over the rows from a place on: so many, which both have.
fn lay(rows: &mut [u64], place: usize, bytes: &[u8], count: usize)
    requires count_in_bounds { count ≤ length rows.old - place }
    requires count_in_bounds_2 { 4 * count ≤ length bytes.now }
    ensures { rows_in rows.new ≡ sent_over (words_of bytes.now) 0 count place (rows_in rows.old) }
{
    for i in 0..count {
        let at = 4 * i;
        let row = Row {
            register: Row::FIFO,
            value: words::little(bytes[at], bytes[at + 1], bytes[at + 2], bytes[at + 3]),
        };
        rows[place + i] = row.word();
    }
}

// Sends the words of these bytes, as many as there is room for. A loop over plain words, since a write may have 65,408 of them.
fn send_block(head: &mut Head, rows: &mut [u64], bytes: &[u8]) -> Result<(), Halt>
    ensures { (s : List ℕ) → Went s (send_words (words_of bytes.now) (length bytes.now / 4)) head.old (rows_in rows.old) result head.new (rows_in rows.new) }
{
    let count = bytes.len() / 4;
    let left = rows.len().saturating_sub(head.rows);
    if left < count {
        lay(rows, head.rows, bytes, left);
        head.rows += left;
        return Err(Halt::TraceFull);
    }
    lay(rows, head.rows, bytes, count);
    head.rows += count;
    Ok(())
}

// Sends the words of the data, block after block.
pub fn send_data(head: &mut Head, rows: &mut [u64], data: &[u8]) -> Result<(), Halt>
    ensures { (s : List ℕ) → Went s (send_words (words_of «data».now) (128 * (length «data».now / 512))) head.old (rows_in rows.old) result head.new (rows_in rows.new) }
{
    for k in 0..data.len() / 512 {
        let at = 512 * k;
        send_block(head, rows, &data[at..at + 512])?;
    }
    Ok(())
}

// Rows for those who keep them in 32-bit words: two words a row, register and value.
ghost use Rattle.std.specs.Prelude.{◌≡◌, cond, ◌*◌, ◌≤◌, length};
ghost use Rattle.tape.specs.Layout.{rows_in, pairs_over, too_short};

use crate::rows::Row;
use types::error::Answer;

// The first `count` rows over the start of the target.
fn lay(rows: &[u64], count: usize, target: &mut [u32])
    requires count_in_bounds { count ≤ length rows.now }
    requires count_in_bounds_2 { 2 * count ≤ length target.old }
    ensures { target.new ≡ pairs_over count (rows_in rows.now) target.old }
{
    for k in 0..count {
        let row = Row::of(rows[k]);
        target[2 * k] = row.register;
        target[2 * k + 1] = row.value;
    }
}

// The first `count` rows of a list into a list of 32-bit words, of which those past the rows stay. Refused, before a word of it is
// written, where there are fewer rows, or it has fewer than two words for each: an `Answer`, whose number 22 is what it is told by.
pub fn convert(rows: &[u64], count: usize, target: &mut [u32]) -> Answer
    ensures answered { result ≡ cond (too_short count (rows_in rows.now) target.old) Answer.TraceFull Answer.Accepted }
    ensures laid { target.new ≡ cond (too_short count (rows_in rows.now) target.old) target.old (pairs_over count (rows_in rows.now) target.old) }
{
    if rows.len() < count {
        return Answer::TraceFull;
    }
    if target.len() / 2 < count {
        return Answer::TraceFull;
    }
    lay(rows, count, target);
    Answer::Accepted
}

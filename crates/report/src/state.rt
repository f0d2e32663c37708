// The host that a call left: its line, and the record of its card.
ghost use Rattle.std.specs.Prelude.{◌≡◌, ◌++◌};
ghost use Rattle.text.specs.Pens.{written};
ghost use Rattle.text.specs.Typed.{typed};
ghost use Rattle.report.specs.Report.{signalling_text, line_text, held_text, state_text};

use crate::record;
use host::host::Sdmmc;
use tape::progress::Line;
use text::pen::Pen;
use types::card::{Card, Signalling};

// Beside `put_class`, which it is like: two texts of another enum.
fn put_signalling(pen: &mut Pen<'_>, signalling: Signalling)
    ensures { pen.new ≡ written (typed " signalling=" ++ signalling_text signalling) pen.old }
{
    match signalling {
        Signalling::SDR12 => pen.put(b" signalling=SDR12"),
        Signalling::SDR25 => pen.put(b" signalling=SDR25"),
    }
}

fn put_line(pen: &mut Pen<'_>, line: Line)
    ensures { pen.new ≡ written (line_text line) pen.old }
{
    pen.put_named(b"state clock=", line.clock.0 as u64);
    put_signalling(pen, line.signalling);
    pen.put_named(b" gated=", line.gated as u64);
    pen.put_named(b" clkcr=", line.clkcr as u64);
}

fn put_held(pen: &mut Pen<'_>, known: bool, card: Card)
    ensures { pen.new ≡ written (held_text known card) pen.old }
{
    pen.put(b" record=");
    if known {
        record::put_record(pen, card);
    } else {
        pen.put(b"none");
    }
}

pub fn put_state(pen: &mut Pen<'_>, host: Sdmmc)
    ensures { pen.new ≡ written (state_text host) pen.old }
{
    put_line(pen, host.line);
    put_held(pen, host.known, host.card);
    pen.put_byte(b'\n');
}

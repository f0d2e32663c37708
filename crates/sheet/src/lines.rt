// The lines of a call, each on a sheet that has room for it.
ghost use Rattle.std.specs.Prelude.{◌≡◌};
ghost use Rattle.text.specs.Pens.{written};
ghost use Rattle.book.specs.Lines.{call_line};
ghost use Rattle.report.specs.Report.{state_text};
ghost use Rattle.events.specs.Event.{event_text};
ghost use Rattle.sheet.specs.Sheet.{Fits, Tells};
ghost use Rattle.sheet.specs.Lines.{begins_text};

use crate::sheet::Sheet;
use book::layout::Asked;
use book::lines;
use events::event;
use events::event::Event;
use host::host::{Called, Sdmmc};
use report::state;
use std::io::Write;
use streams::sink::Sink;
use text::pen::Pen;

// Number, kind, a and b: what a call begins with.
fn put_begins(pen: &mut Pen<'_>, number: u32, asked: Asked)
    ensures { pen.new ≡ written (begins_text number asked) pen.old }
{
    pen.put_decimal(number as u64);
    pen.put_named(b" ", asked.kind as u64);
    pen.put_named(b" ", asked.a as u64);
    pen.put_named(b" ", asked.b as u64);
    pen.put_byte(b'\n');
}

pub fn tell_begins<W: Write>(
    sheet: Sheet,
    number: u32,
    asked: Asked,
    out: &mut [u8],
    output: &mut Sink<W>,
) -> Sheet
    requires { Fits sheet out.old }
    ensures { Tells (begins_text number asked) sheet out.old result out.new }
{
    let turned = sheet.turned(out, output);
    let mut pen = Pen::new(out, turned.at);
    put_begins(&mut pen, number, asked);
    turned.filled(pen.at)
}

pub fn tell_event<W: Write>(
    sheet: Sheet,
    event: Event,
    out: &mut [u8],
    output: &mut Sink<W>,
) -> Sheet
    requires { Fits sheet out.old }
    ensures { Tells (event_text event) sheet out.old result out.new }
{
    let turned = sheet.turned(out, output);
    let mut pen = Pen::new(out, turned.at);
    event::put_event(&mut pen, event);
    turned.filled(pen.at)
}

// The line of a call of this kind that came to this.
pub fn tell_called<W: Write>(
    sheet: Sheet,
    number: u32,
    kind: u32,
    called: Called,
    out: &mut [u8],
    output: &mut Sink<W>,
) -> Sheet
    requires { Fits sheet out.old }
    ensures { Tells (call_line number kind called.answer called.words called.rows called.host.card.protection) sheet out.old result out.new }
{
    let turned = sheet.turned(out, output);
    let mut pen = Pen::new(out, turned.at);
    lines::put_call(
        &mut pen,
        number,
        kind,
        called.answer,
        called.words,
        called.rows,
        called.host.card.protection,
    );
    turned.filled(pen.at)
}

// As the other three: what turns the sheet is shared, and what is written is the line of each.
pub fn tell_state<W: Write>(
    sheet: Sheet,
    host: Sdmmc,
    out: &mut [u8],
    output: &mut Sink<W>,
) -> Sheet
    requires { Fits sheet out.old }
    ensures { Tells (state_text host) sheet out.old result out.new }
{
    let turned = sheet.turned(out, output);
    let mut pen = Pen::new(out, turned.at);
    state::put_state(&mut pen, host);
    turned.filled(pen.at)
}

// What a row means.
#![tactic(auto, using(text::proofs::Pens::writing), unfolding(crate::specs::Meaning::row_table, crate::specs::Meaning::first_line, crate::specs::Meaning::row_meaning))]

ghost use Rattle.std.specs.Prelude.{◌≡◌, ◌^◌};
ghost use Rattle.types.specs.Bits.{bits};
ghost use Rattle.text.specs.Pens.{written};
ghost use Rattle.tape.specs.Rows.{POWER, CLKCR, ARG, CMD, DLEN, DCTRL, MASK, DELAY};
ghost use Rattle.events.specs.Meaning.{waits, row_meaning};

use crate::said;
use tape::rows::{ClockControl, CommandControl, DataControl, Row};
use text::pen::Pen;

fn put_power(pen: &mut Pen<'_>, value: u32)
    ensures { pen.new ≡ written (row_meaning POWER value) pen.old }
{
    match value {
        3 => said::put_said(pen, b"power on"),
        0 => said::put_said(pen, b"power off"),
        _ => {}
    }
}

fn put_clock(pen: &mut Pen<'_>, value: u32)
    ensures { pen.new ≡ written (row_meaning CLKCR value) pen.old }
{
    if value / ClockControl::ENABLED % 2 == 1 {
        said::put_said(pen, b"clock on");
    } else {
        said::put_said(pen, b"clock off");
    }
}

fn put_argument(pen: &mut Pen<'_>, value: u32)
    ensures { pen.new ≡ written (row_meaning ARG value) pen.old }
{
    said::put_said(pen, b"argument 0x");
    pen.put_hex(8, value as u64);
}

// How a command waits, by the register's two bits for it.
fn put_wait(pen: &mut Pen<'_>, kind: u32)
    ensures { pen.new ≡ written (waits kind) pen.old }
{
    match kind {
        0 => pen.put(b", no response"),
        1 => pen.put(b", short response"),
        3 => pen.put(b", long response"),
        _ => {}
    }
}

fn put_command(pen: &mut Pen<'_>, value: u32)
    ensures { pen.new ≡ written (row_meaning CMD value) pen.old }
{
    if value / CommandControl::ENABLED % 2 == 1 {
        pen.put_named(b"  CMD", (value % CommandControl::WAIT) as u64);
        put_wait(pen, value / CommandControl::WAIT % 4);
    } else {
        said::put_said(pen, b"no command");
    }
}

fn put_length(pen: &mut Pen<'_>, value: u32)
    ensures { pen.new ≡ written (row_meaning DLEN value) pen.old }
{
    pen.put(b"  ");
    said::put_counted(pen, value as u64, b" byte");
}

// The bytes of a block, of which DCTRL has the power of two.
fn block_bytes(value: u32) -> u64
    ensures { result ≡ 2 ^ bits value 7 4 }
{
    1u64 << (value / DataControl::BLOCK_SIZE % 16)
}

fn put_data(pen: &mut Pen<'_>, value: u32)
    ensures { pen.new ≡ written (row_meaning DCTRL value) pen.old }
{
    if value / DataControl::ENABLED % 2 != 1 {
        said::put_said(pen, b"data path off");
    } else if value / DataControl::READING % 2 == 1 {
        said::put_said(pen, b"reads blocks of ");
        said::put_counted(pen, block_bytes(value), b" byte");
    } else {
        said::put_said(pen, b"writes blocks of ");
        said::put_counted(pen, block_bytes(value), b" byte");
    }
}

fn put_mask(pen: &mut Pen<'_>, value: u32)
    ensures { pen.new ≡ written (row_meaning MASK value) pen.old }
{
    if value == 0 {
        said::put_said(pen, b"interrupts off");
    }
}

fn put_delay(pen: &mut Pen<'_>, value: u32)
    ensures { pen.new ≡ written (row_meaning DELAY value) pen.old }
{
    said::put_said(pen, b"waits ");
    said::put_counted(pen, value as u64, b" spin");
}

pub fn put_meaning(pen: &mut Pen<'_>, register: u32, value: u32)
    ensures { pen.new ≡ written (row_meaning register value) pen.old }
{
    match register {
        Row::POWER => put_power(pen, value),
        Row::CLKCR => put_clock(pen, value),
        Row::ARG => put_argument(pen, value),
        Row::CMD => put_command(pen, value),
        Row::DTIMER => said::put_said(pen, b"data timeout"),
        Row::DLEN => put_length(pen, value),
        Row::DCTRL => put_data(pen, value),
        Row::ICR => said::put_said(pen, b"flags cleared"),
        Row::MASK => put_mask(pen, value),
        Row::DELAY => put_delay(pen, value),
        Row::FIFO => said::put_said(pen, b"data to the card"),
        _ => {}
    }
}

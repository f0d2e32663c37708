// The row list, and how rows are packed.
ghost use Rattle.std.specs.Prelude.{◌≡◌, List, cond, ℕ, ◌≤◌};
ghost use Rattle.tape.specs.Layout.{word_of, row_of, rows_in};
ghost use Rattle.tape.specs.Rows.{clken_of, clkcr_of, cmd_of, dctrl_of};
ghost use Rattle.tape.specs.Run.{Went};
ghost use Rattle.tape.specs.Steps.{row};

use crate::progress::{Halt, Head};
use types::clock::Clock;

// A row: a register and the value written to it.
#[derive(Clone, Copy)]
pub struct Row {
    pub register: u32,
    pub value: u32,
}

impl Row {
    pub const POWER: u32 = 1;

    pub const CLKCR: u32 = 2;

    pub const ARG: u32 = 3;

    pub const CMD: u32 = 4;

    pub const DTIMER: u32 = 5;

    pub const DLEN: u32 = 6;

    pub const DCTRL: u32 = 7;

    pub const ICR: u32 = 8;

    pub const MASK: u32 = 9;

    pub const DCTRL2: u32 = 10;
    // The spin count of a delay.
    pub const DELAY: u32 = 11;
    // A word sent to the card.
    pub const FIFO: u32 = 12;
    // In its word the register lies above the value.
    pub const ABOVE: u64 = 0x1_0000_0000;

    // The row that lies in this word. Not `From`, here and below: a call says which of a row's two words is meant.
    pub fn of(word: u64) -> Row
        ensures { result ≡ row_of word }
    {
        Row {
            register: (word / Row::ABOVE) as u32,
            value: (word % Row::ABOVE) as u32,
        }
    }

    // The word of 64 bits that it lies in.
    pub fn word(self) -> u64
        ensures { result ≡ word_of self }
    {
        self.register as u64 * Row::ABOVE + self.value as u64
    }
}

// The flags that are cleared at once in the controller's status.
#[derive(Clone, Copy)]
pub struct Icr {}

impl Icr {
    pub const COMMAND: u32 = 0xc5;

    pub const DATA: u32 = 0x73a;

    pub const ALL: u32 = 0x00c0_07ff;
}

// Bits of CLKCR; the divisor's field lies below them.
#[derive(Clone, Copy)]
pub struct ClockControl {}

impl ClockControl {
    pub const ENABLED: u32 = 0x100;
    // The bits above that one are multiples of this.
    pub const ABOVE: u32 = 0x200;

    pub const BYPASS: u32 = 0x400;

    pub const WIDE: u32 = 0x800;
    // The bypass needs it.
    pub const FLOW_CONTROL: u32 = 0x4000;
}

// Bits of CMD; the command's index lies below them, and the wait kind counts in steps of WAIT.
#[derive(Clone, Copy)]
pub struct CommandControl {}

impl CommandControl {
    pub const WAIT: u32 = 0x40;

    pub const ENABLED: u32 = 0x400;
}

// Bits of DCTRL; the block size, as a power of two, counts in steps of BLOCK_SIZE.
#[derive(Clone, Copy)]
pub struct DataControl {}

impl DataControl {
    pub const ENABLED: u32 = 0x1;

    pub const READING: u32 = 0x2;

    pub const DMA: u32 = 0x8;

    pub const BLOCK_SIZE: u32 = 0x10;
}

// Writes one row.
pub fn write_row(head: &mut Head, rows: &mut [u64], register: u32, value: u32) -> Result<(), Halt>
    ensures { (s : List ℕ) → Went s (row register value) head.old (rows_in rows.old) result head.new (rows_in rows.new) }
{
    let row = Row { register, value };
    if head.rows < rows.len() {
        rows[head.rows] = row.word();
        head.rows += 1;
        head.line = head.line.noted(register, value);
        Ok(())
    } else {
        Err(Halt::TraceFull)
    }
}

// These bits, where they are asked for.
fn flag(on: bool, bits: u32) -> u32
    ensures { (result ≡ cond on bits 0) × (result ≤ bits) }
{
    if on { bits } else { 0 }
}

// A CLKCR value with its bit 8 as asked, the others as they are.
pub fn with_clken(value: u32, on: bool) -> u32
    ensures { result ≡ clken_of value on }
{
    value / ClockControl::ABOVE * ClockControl::ABOVE
        + value % ClockControl::ENABLED
        + flag(on, ClockControl::ENABLED)
}

// CLKCR: the divisor's field, and bits for the clock's being on, for four data lines, and for the bypass, which needs
// flow control.
pub fn clkcr(clock: Clock, wide: bool, on: bool) -> u32
    ensures { result ≡ clkcr_of clock wide on }
{
    clock.divisor as u32
        + flag(on, ClockControl::ENABLED)
        + flag(wide, ClockControl::WIDE)
        + flag(
            clock.bypass,
            ClockControl::BYPASS + ClockControl::FLOW_CONTROL,
        )
}

// CMD: the command's index, and how it waits for its response.
pub fn cmd(index: u8, wait: u8) -> u32
    ensures { result ≡ cmd_of index wait }
{
    index as u32 + CommandControl::WAIT * wait as u32 + CommandControl::ENABLED
}

// DCTRL: the data path and its DMA on, the direction, and the block size as a power of two.
pub fn dctrl(reading: bool, block_size: u8) -> u32
    ensures { result ≡ dctrl_of reading block_size }
{
    DataControl::ENABLED
        + DataControl::DMA
        + flag(reading, DataControl::READING)
        + DataControl::BLOCK_SIZE * block_size as u32
}

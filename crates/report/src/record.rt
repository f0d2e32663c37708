// The record of a card: class,ocr,rca,cid,csd,scr,status,blocks,protect=N.
ghost use Rattle.std.specs.Prelude.{◌≡◌, ◌++◌};
ghost use Rattle.types.specs.Sd.{wide_of};
ghost use Rattle.text.specs.Digits.{decimal_of, hex_of};
ghost use Rattle.text.specs.Pens.{written};
ghost use Rattle.report.specs.Report.{words_text, class_text, comma, record_text};

use crate::status;
use text::pen::Pen;
use types::card::{Card, CardCapacity};
use types::register::{BlockCount, Wide};
use types::status::Scr;

fn put_class(pen: &mut Pen<'_>, class: CardCapacity)
    ensures { pen.new ≡ written (class_text class) pen.old }
{
    match class {
        CardCapacity::SDSC => pen.put(b"SDSC"),
        CardCapacity::SDHC => pen.put(b"SDHC"),
    }
}

fn put_number(pen: &mut Pen<'_>, digits: u8, n: u64)
    ensures { pen.new ≡ written (comma (hex_of digits n)) pen.old }
{
    pen.put_byte(b',');
    pen.put_hex(digits, n);
}

// A register of 128 bits: its upper half, then its lower one.
fn put_wide(pen: &mut Pen<'_>, wide: Wide)
    ensures { pen.new ≡ written (comma (hex_of 32 (wide_of wide))) pen.old }
{
    put_number(pen, 16, wide.high);
    pen.put_hex(16, wide.low);
}

fn put_identity(pen: &mut Pen<'_>, class: CardCapacity, ocr: u32, rca: u16)
    ensures { pen.new ≡ written (class_text class ++ comma (hex_of 8 ocr) ++ comma (hex_of 4 rca)) pen.old }
{
    put_class(pen, class);
    put_number(pen, 8, ocr as u64);
    put_number(pen, 4, rca as u64);
}

fn put_registers(pen: &mut Pen<'_>, cid: Wide, csd: Wide, scr: Scr)
    ensures { pen.new ≡ written (comma (hex_of 32 (wide_of cid)) ++ comma (hex_of 32 (wide_of csd)) ++ comma (hex_of 16 scr.0)) pen.old }
{
    put_wide(pen, cid);
    put_wide(pen, csd);
    put_number(pen, 16, scr.0);
}

fn put_contents(pen: &mut Pen<'_>, status: [u32; 16], blocks: BlockCount)
    ensures { pen.new ≡ written (comma (words_text 15 status) ++ comma (decimal_of blocks.0)) pen.old }
{
    pen.put_byte(b',');
    status::put_words(pen, &status);
    pen.put_named(b",", blocks.0);
}

pub fn put_record(pen: &mut Pen<'_>, card: Card)
    ensures { pen.new ≡ written (record_text card) pen.old }
{
    put_identity(pen, card.card_type, card.ocr, card.rca);
    put_registers(pen, card.cid, card.csd, card.scr);
    put_contents(pen, card.status, card.block_count);
    pen.put_named(b",protect=", card.protection.number() as u64);
}

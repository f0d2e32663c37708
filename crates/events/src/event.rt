// An event's line.
ghost use Rattle.std.specs.Prelude.{◌≡◌};
ghost use Rattle.text.specs.Pens.{written};
ghost use Rattle.events.specs.Event.{word_text, read_text, missed_text, wrote_text, event_text};

use crate::{reading, row};
use report::rows;
use tape::rows::Row;
use tape::script::Reading;
use text::pen::Pen;

// What comes about in a call: a reading and the word that it took, a reading for which the script had no word, a row.
#[derive(Clone, Copy)]
pub enum Event {
    Read(Reading, u32),
    Missed(Reading),
    Wrote(Row),
}

fn put_word(pen: &mut Pen<'_>, word: u32)
    ensures { pen.new ≡ written (word_text word) pen.old }
{
    pen.put(b" 0x");
    pen.put_hex(8, word as u64);
}

fn put_read(pen: &mut Pen<'_>, reading: Reading, word: u32)
    ensures { pen.new ≡ written (read_text reading word) pen.old }
{
    reading::put_kind(pen, reading);
    put_word(pen, word);
    reading::put_meaning(pen, reading, word);
    pen.put_byte(b'\n');
}

fn put_missed(pen: &mut Pen<'_>, reading: Reading)
    ensures { pen.new ≡ written (missed_text reading) pen.old }
{
    reading::put_kind(pen, reading);
    pen.put(b" none  the script ended\n");
}

fn put_wrote(pen: &mut Pen<'_>, row: Row)
    ensures { pen.new ≡ written (wrote_text row) pen.old }
{
    rows::put_row(pen, row.register, row.value);
    row::put_meaning(pen, row.register, row.value);
    pen.put_byte(b'\n');
}

#[tactic(auto, unfolding(crate::specs::Event::event_text))]
pub fn put_event(pen: &mut Pen<'_>, event: Event)
    ensures { pen.new ≡ written (event_text event) pen.old }
{
    match event {
        Event::Read(reading, word) => put_read(pen, reading, word),
        Event::Missed(reading) => put_missed(pen, reading),
        Event::Wrote(row) => put_wrote(pen, row),
    }
}

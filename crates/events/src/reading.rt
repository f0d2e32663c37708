// A reading's kind, and what its word means.
ghost use Rattle.std.specs.Prelude.{◌≡◌, ◌++◌};
ghost use Rattle.tape.specs.declared.script.Reading.TheVariants as Reading;
ghost use Rattle.text.specs.Pens.{written};
ghost use Rattle.text.specs.Typed.{typed};
ghost use Rattle.events.specs.Event.{kind_text};
ghost use Rattle.events.specs.Meaning.{channel, remain, reading_meaning};

use crate::{flags, said};
use tape::script::{Dma, Reading};
use text::pen::Pen;

pub fn put_kind(pen: &mut Pen<'_>, reading: Reading)
    ensures { pen.new ≡ written (typed "read " ++ kind_text reading) pen.old }
{
    match reading {
        Reading::Status => pen.put(b"read status"),
        Reading::RespCmd => pen.put(b"read respcmd"),
        Reading::Response(n) => pen.put_named(b"read response ", n as u64),
        Reading::Dma => pen.put(b"read dma"),
        Reading::DCount => pen.put(b"read dcount"),
        Reading::Data(k) => pen.put_named(b"read data ", k as u64),
    }
}

fn put_channel(pen: &mut Pen<'_>, word: u32)
    ensures { pen.new ≡ written (typed "  " ++ channel word) pen.old }
{
    if word & Dma::ERROR != 0 {
        said::put_said(pen, b"channel error");
    } else if word & Dma::RUNNING != 0 {
        said::put_said(pen, b"channel running");
    } else {
        said::put_said(pen, b"channel stopped");
    }
}

// The words that remain, where some do.
fn put_remain(pen: &mut Pen<'_>, n: u32)
    ensures { pen.new ≡ written (remain n) pen.old }
{
    if n != 0 {
        pen.put(b", ");
        said::put_counted(pen, n as u64, b" word");
        pen.put(b" left");
    }
}

fn put_dma(pen: &mut Pen<'_>, word: u32)
    ensures { pen.new ≡ written (reading_meaning Reading.Dma word) pen.old }
{
    put_channel(pen, word);
    put_remain(pen, word % Dma::REMAINING);
}

fn put_count(pen: &mut Pen<'_>, word: u32)
    ensures { pen.new ≡ written (reading_meaning Reading.DCount word) pen.old }
{
    if word != 0 {
        pen.put(b"  ");
        said::put_counted(pen, word as u64, b" byte");
        pen.put(b" left");
    }
}

#[tactic(auto, using(text::proofs::Pens::writing), unfolding(crate::specs::Meaning::reading_meaning))]
pub fn put_meaning(pen: &mut Pen<'_>, reading: Reading, word: u32)
    ensures { pen.new ≡ written (reading_meaning reading word) pen.old }
{
    match reading {
        Reading::Status => flags::put_flags(pen, word),
        Reading::RespCmd => pen.put_named(b"  answers CMD", (word % 64) as u64),
        Reading::Dma => put_dma(pen, word),
        Reading::DCount => put_count(pen, word),
        Reading::Response(_) | Reading::Data(_) => {}
    }
}

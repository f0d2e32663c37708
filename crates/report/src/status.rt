// The words of an SD status.
ghost use Rattle.std.specs.Prelude.{◌≡◌};
ghost use Rattle.text.specs.Pens.{written};
ghost use Rattle.report.specs.Report.{words_text, status_text};

use book::layout;
use text::pen::Pen;

// Sixteen words, eight digits each, joined by colons.
#[tactic(auto, using(text::proofs::Pens::writing, crate::proofs::Lines::more))]
pub fn put_words(pen: &mut Pen<'_>, words: &[u32])
    ensures { pen.new ≡ written (words_text 15 words.now) pen.old }
{
    pen.put_hex(8, layout::word(words, 0) as u64);
    for i in 1..16 {
        pen.put_byte(b':');
        pen.put_hex(8, layout::word(words, i) as u64);
    }
}

pub fn put_status(pen: &mut Pen<'_>, status: [u32; 16])
    ensures { pen.new ≡ written (status_text status) pen.old }
{
    pen.put(b"status ");
    put_words(pen, &status);
    pen.put_byte(b'\n');
}

// Pieces of what is said of an event.
ghost use Rattle.std.specs.Prelude.{◌≡◌};
ghost use Rattle.text.specs.Pens.{written};
ghost use Rattle.events.specs.Meaning.{says, plural, counted};

use text::pen::Pen;

// Two spaces, and the text behind them.
pub fn put_said(pen: &mut Pen<'_>, text: &[u8])
    ensures { pen.new ≡ written (says text.now) pen.old }
{
    pen.put(b"  ");
    pen.put(text);
}

fn put_plural(pen: &mut Pen<'_>, n: u64)
    ensures { pen.new ≡ written (plural n) pen.old }
{
    if n != 1 {
        pen.put_byte(b's');
    }
}

// So many of a noun, which comes with the space before it.
pub fn put_counted(pen: &mut Pen<'_>, n: u64, noun: &[u8])
    ensures { pen.new ≡ written (counted n noun.now) pen.old }
{
    pen.put_decimal(n);
    pen.put(noun);
    put_plural(pen, n);
}

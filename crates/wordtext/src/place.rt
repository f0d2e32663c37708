// Lines and columns.
ghost use Rattle.std.specs.Prelude.{◌≡◌, ◌+◌, ◌<◌, ◌^◌};
ghost use Rattle.wordtext.specs.Text.{moved, place_of};

// A line and a column, each counted from 1.
#[derive(Clone, Copy, Debug, PartialEq, Eq)]
pub struct Place {
    pub line: usize,
    pub column: usize,
}

// The place after a byte.
fn moved(p: Place, b: u8) -> Place
    requires { (p.line + 1 < 2 ^ 64) × (p.column + 1 < 2 ^ 64) }
    ensures { result ≡ moved p b }
{
    if b == b'\n' {
        Place {
            line: p.line + 1,
            column: 1,
        }
    } else {
        Place {
            line: p.line,
            column: p.column + 1,
        }
    }
}

// The place of the byte that stands at `at`.
pub fn place_at(text: &[u8], at: usize) -> Place
    ensures { result ≡ place_of text.now at }
{
    let mut p = Place { line: 1, column: 1 };
    for b in &text[..at.min(text.len())] {
        p = moved(p, *b);
    }
    p
}

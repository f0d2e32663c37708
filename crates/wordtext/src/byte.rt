// What a byte is to a word.
ghost use Rattle.std.specs.Prelude.{◌≡◌};
ghost use Rattle.wordtext.specs.Token.{digit_of, ends_at};

// The value of a digit. The arms say themselves which signs are digits; `char::to_digit` would ask for a char and a base.
#[tactic(auto, using(crate::proofs::Tests::tests), unfolding(crate::specs::Token::digit_of))]
pub fn digit(b: u8) -> Option<u8>
    ensures { result ≡ digit_of b }
{
    match b {
        b'0'..=b'9' => Some(b - b'0'),
        b'A'..=b'F' => Some(b - b'A' + 10),
        b'a'..=b'f' => Some(b - b'a' + 10),
        _ => None,
    }
}

// Whether a word ends before this byte: white space, a comma, or the sign of a comment.
#[tactic(auto, using(crate::proofs::Tests::tests), unfolding(crate::specs::Token::ends_at))]
pub fn ends(b: u8) -> bool
    ensures { result ≡ ends_at b }
{
    matches!(b, b'\t'..=b'\r' | b' ' | b',' | b'#')
}

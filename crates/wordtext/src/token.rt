// The word in hand, as far as it has come.
ghost use Rattle.std.specs.Prelude.{◌≡◌};
ghost use Rattle.wordtext.specs.Token.{with_digit, decimal_of, hexadecimal_of, gone_on, opened, closed, after, word_of, completed, began_at, verdict_of};

use crate::byte;

// Why something in a text is no word of the book.
#[derive(Clone, Copy, Debug, PartialEq, Eq)]
pub enum Cause {
    NotANumber,
    TooLarge,
    TooMany,
}

// What is in hand: nothing, between two words; a comment; `0`, which may become `0x`; `0x` without a digit; a number in
// decimal or hexadecimal; what is no word, for good.
#[derive(Clone, Copy)]
pub enum Token {
    Nothing,
    Comment,
    Zero,
    Prefix,
    Decimal(u32),
    Hexadecimal(u32),
    Wrong(Cause),
}

// A number with one digit more.
#[tactic(auto, using(crate::proofs::Tests::tests), unfolding(crate::specs::Token::with_digit))]
fn with_digit(base: u8, value: u32, b: u8) -> Result<u32, Cause>
    ensures { result ≡ with_digit base value b }
{
    let digit = byte::digit(b)
        .filter(|digit| *digit < base)
        .ok_or(Cause::NotANumber)?;
    let next = u64::from(value) * u64::from(base) + u64::from(digit);
    u32::try_from(next).map_err(|_| Cause::TooLarge)
}

// The next two differ in their base and variant alone: one function for both would be told both at each of its calls.
fn decimal(value: u32, b: u8) -> Token
    ensures { result ≡ decimal_of value b }
{
    with_digit(10, value, b).map_or_else(Token::Wrong, Token::Decimal)
}

fn hexadecimal(value: u32, b: u8) -> Token
    ensures { result ≡ hexadecimal_of value b }
{
    with_digit(16, value, b).map_or_else(Token::Wrong, Token::Hexadecimal)
}

// What is in hand after a word: a comment, or nothing.
fn opened(b: u8) -> Token
    ensures { result ≡ opened b }
{
    if b == b'#' {
        Token::Comment
    } else {
        Token::Nothing
    }
}

impl Token {
    // The word in hand with one byte more, which does not end it.
    #[tactic(auto, using(crate::proofs::Tests::tests), unfolding(crate::specs::Token::gone_on))]
    fn gone_on(self, b: u8) -> Token
        ensures { result ≡ gone_on self b }
    {
        match self {
            Token::Nothing if b == b'0' => Token::Zero,
            Token::Zero if b == b'x' => Token::Prefix,
            Token::Nothing | Token::Zero => decimal(0, b),
            Token::Prefix => hexadecimal(0, b),
            Token::Decimal(value) => decimal(value, b),
            Token::Hexadecimal(value) => hexadecimal(value, b),
            Token::Comment | Token::Wrong(_) => self,
        }
    }

    // What a byte that ends a word leaves in hand. A comment ends with its line; `0x` alone is no number.
    #[tactic(auto, using(crate::proofs::Tests::tests), unfolding(crate::specs::Token::closed))]
    fn closed(self, b: u8) -> Token
        ensures { result ≡ closed self b }
    {
        match self {
            Token::Comment if b == b'\n' => Token::Nothing,
            Token::Comment | Token::Wrong(_) => self,
            Token::Prefix => Token::Wrong(Cause::NotANumber),
            Token::Nothing | Token::Zero | Token::Decimal(_) | Token::Hexadecimal(_) => opened(b),
        }
    }

    // What is in hand after one byte more.
    #[tactic(auto, unfolding(crate::specs::Token::after))]
    pub fn after(self, b: u8) -> Token
        ensures { result ≡ after self b }
    {
        if byte::ends(b) {
            self.closed(b)
        } else {
            self.gone_on(b)
        }
    }

    // The word that is in hand.
    fn word(self) -> Option<u32>
        ensures { result ≡ word_of self }
    {
        match self {
            Token::Zero => Some(0),
            Token::Decimal(value) | Token::Hexadecimal(value) => Some(value),
            Token::Nothing | Token::Comment | Token::Prefix | Token::Wrong(_) => None,
        }
    }

    // The word that a byte completes.
    #[tactic(auto, unfolding(crate::specs::Token::completed))]
    pub fn completed(self, b: u8) -> Option<u32>
        ensures { result ≡ completed self b }
    {
        if byte::ends(b) { self.word() } else { None }
    }

    // Where what is in hand began: here, where nothing was.
    #[tactic(auto, unfolding(crate::specs::Token::began_at))]
    pub fn began(self, at: usize, start: usize) -> usize
        ensures { result ≡ began_at self at start }
    {
        match self {
            Token::Nothing => at,
            _ => start,
        }
    }

    // Whether all was right up to here.
    pub fn verdict(self) -> Result<(), Cause>
        ensures { result ≡ verdict_of self }
    {
        match self {
            Token::Wrong(cause) => Err(cause),
            _ => Ok(()),
        }
    }
}

// The words of a bench book: loaded from bytes, judged, and read call by call. A word that is not there reads as 0, so no
// reader asks anything of the words.
ghost use Rattle.std.specs.Prelude.{◌||◌, ◌≡◌, ◌*◌, ltb, length, get_or, drop};
ghost use Rattle.text.specs.Ink.{inked, Laid};
ghost use Rattle.types.specs.Words.{words_of};
ghost use Rattle.book.specs.Layout.{data_count, contents_of, bad_row, bad_rows, body_words, bad_words};
ghost use Rattle.book.specs.Readers.{kind_in, heading_of, asked_at, opened_of};

// The contents before the rows of the calls.
#[derive(Clone, Copy)]
pub struct Heading {
    pub source: u32,
    pub poll_limit: u32,
    pub ready_attempts: u32,
    pub data_timeout: u32,
    pub software_timeout: u32,
    pub flags: u32,
    pub calls: u32,
}

// What a call does. A row has its number.
#[derive(Clone, Copy, PartialEq, Eq, Debug)]
pub enum Kind {
    Initialise = 1,
    Read = 2,
    Status = 3,
    Write = 4,
}

impl Kind {
    // The kind of a number, none of another.
    pub fn of(n: u32) -> Option<Kind>
        ensures { result ≡ kind_in n }
    {
        match n {
            1 => Some(Kind::Initialise),
            2 => Some(Kind::Read),
            3 => Some(Kind::Status),
            4 => Some(Kind::Write),
            _ => None,
        }
    }
}

// A call's row, and where its body lies: the data words of a write, and the script. It is as the words have it, judged or not,
// so its kind is a number, which may be no kind's.
#[derive(Clone, Copy)]
pub struct Asked {
    pub kind: u32,
    pub a: u32,
    pub b: u32,
    pub body_at: usize,
    pub body_len: usize,
}

// Lays the bytes' words into the list, as far as they fit; gives how many.
pub fn load(bytes: &[u8], words: &mut [u32]) -> usize
    ensures { Laid 0 (words_of bytes.now) words.old result words.new }
{
    let n = words.len().min(bytes.len() / 4);
    for i in 0..n {
        let at = 4 * i;
        words[i] = u32::from_le_bytes([bytes[at], bytes[at + 1], bytes[at + 2], bytes[at + 3]]);
    }
    n
}

pub fn word(words: &[u32], i: usize) -> u32
    ensures { result ≡ get_or words.now i 0 }
{
    // not `get`: as in `Reader::here`, for the module's sake
    if i < words.len() { words[i] } else { 0 }
}

pub fn head(words: &[u32]) -> Heading
    ensures { result ≡ heading_of words.now }
{
    Heading {
        source: word(words, 0),
        poll_limit: word(words, 1),
        ready_attempts: word(words, 2),
        data_timeout: word(words, 3),
        software_timeout: word(words, 4),
        flags: word(words, 5),
        calls: word(words, 6),
    }
}

// The call of row k, counted from 0, whose body starts at a place.
pub fn call_at(words: &[u32], k: u32, place: usize) -> Asked
    ensures { result ≡ asked_at words.now k place }
{
    let row = 7 + 4 * k as usize;
    Asked {
        kind: word(words, row),
        a: word(words, row + 1),
        b: word(words, row + 2),
        body_at: place,
        body_len: word(words, row + 3) as usize,
    }
}

// Where the bodies begin: behind the contents.
pub fn contents(words: &[u32]) -> usize
    ensures { result ≡ contents_of words.now }
{
    let calls = word(words, 6);
    7 + 4 * calls as usize
}

// How many of a body's words are data: 128 a block of a write.
#[tactic(auto, unfolding(crate::specs::Layout::data_count))]
pub fn data_count(kind: u32, b: u32) -> usize
    ensures { result ≡ data_count kind b }
{
    if kind == Kind::Write as u32 {
        128 * b as usize
    } else {
        0
    }
}

// An unknown kind, a or b nonzero where 0 is due, over 16 blocks, or a write's body shorter than its data.
#[tactic(auto, unfolding(crate::specs::Layout::bad_row))]
fn row_is_bad(row: Asked) -> bool
    ensures { result ≡ bad_row row.kind row.a row.b row.body_len }
{
    match Kind::of(row.kind) {
        Some(Kind::Initialise) => row.b != 0,
        Some(Kind::Read) => row.b > 16,
        Some(Kind::Status) => row.a != 0 || row.b != 0,
        Some(Kind::Write) => row.b > 16 || row.body_len < 128 * row.b as usize,
        None => true,
    }
}

// Whether one of the first n rows is bad.
fn rows_are_bad(words: &[u32], n: u32) -> bool
    ensures { result ≡ bad_rows n (drop 7 words.now) }
{
    for k in 0..n {
        if row_is_bad(call_at(words, k, 0)) {
            return true;
        }
    }
    false
}

// The words of the bodies of the first n rows.
fn body_words(words: &[u32], n: u32) -> usize
    ensures { result ≡ body_words n (drop 7 words.now) }
{
    let mut sum = 0;
    for k in 0..n {
        sum += call_at(words, k, 0).body_len;
    }
    sum
}

// Whether the words are no book: document 01's causes for answer 23, in its order.
pub fn is_bad(words: &[u32]) -> bool
    ensures { result ≡ bad_words words.now }
{
    let rest_at = contents(words);
    let attempts = word(words, 2);
    let flags = word(words, 5);
    let calls = word(words, 6);
    if words.len() > 4096 {
        return true;
    }
    if words.len() < rest_at {
        return true;
    }
    if flags > 3 {
        return true;
    }
    if attempts > 65535 {
        return true;
    }
    if calls == 0 {
        return true;
    }
    if calls > 64 {
        return true;
    }
    if rows_are_bad(words, calls) {
        return true;
    }
    body_words(words, calls) != words.len() - rest_at
}

// Loads a book, and judges it: so many words of the list, or none. A list of 4,096 words has room for every book.
pub fn open(bytes: &[u8], words: &mut [u32]) -> Option<usize>
    ensures answered { result ≡ opened_of bytes.now (length words.old) }
    ensures laid { words.new ≡ inked 0 (words_of bytes.now) words.old }
{
    let n = load(bytes, words);
    if bytes.len() % 4 != 0 {
        return None;
    }
    if n < bytes.len() / 4 {
        return None;
    }
    if is_bad(&words[..n]) {
        return None;
    }
    Some(n)
}

// The line that says why a reading or a writing failed.
use crate::sink::Sink;
use arrayvec::ArrayString;
use std::fmt::Write as Format;
use std::io;
use std::io::Write;

// An error's text without the number that std puts behind the system's words.
fn without_number(text: &str) -> &str {
    text.rsplit_once(" (os error ")
        .map_or(text, |(words, _number)| words)
}

// Writes the line: what failed, a colon and the system's words for why. Where that fails too, nobody is left to be told.
pub fn tell<W: Write>(what: &[u8], why: io::Error, errors: &mut Sink<W>) {
    let mut text = ArrayString::<320>::new();
    let _ = write!(text, "{why}");
    let words = without_number(text.as_str());
    for part in [what, b": ", words.as_bytes(), b"\n"] {
        let _ = errors.put(part);
    }
}

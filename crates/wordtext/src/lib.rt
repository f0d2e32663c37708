// Text to words: decimal or 0x-hexadecimal words, separated by white space or commas; `#` to the end of the line is a
// comment.
#![tactic(auto)]

pub mod book; // book.rt: the words of a text, and those of a book as bytes
mod byte; // byte.rt: what a byte is to a word
pub mod place; // place.rt: lines and columns
mod scan; // scan.rt: the loop over the bytes
pub mod token; // token.rt: the word in hand

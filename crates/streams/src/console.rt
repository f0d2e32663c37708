// The three streams of a program.
ghost use Rattle.std.specs.Prelude.{◌≡◌};

use crate::failure;
use crate::sink::Sink;
use crate::source::Source;
use std::io;
use std::io::{Read, Stderr, Stdin, Stdout, Write};

// What a program reads from, what it writes to, and where it says what is wrong.
#[derive(Drop)]
pub struct Console<R, W, E> {
    pub input: Source<R>,
    pub output: Sink<W>,
    pub errors: Sink<E>,
}

// A program's own: standard input, standard output and standard error.
pub type Standard = Console<Stdin, Stdout, Stderr>;

impl<R: Read, W: Write, E: Write> Console<R, W, E> {
    pub fn new(input: R, output: W, errors: E) -> Console<R, W, E>
        ensures input { result.input.from ≡ input }
        ensures output { result.output.to ≡ output }
        ensures errors { result.errors.to ≡ errors }
    {
        Console {
            input: Source::new(input),
            output: Sink::new(output),
            errors: Sink::new(errors),
        }
    }

    // Says what failed, and why.
    pub fn tell(&mut self, what: &[u8], why: io::Error) {
        failure::tell(what, why, &mut self.errors);
    }
}

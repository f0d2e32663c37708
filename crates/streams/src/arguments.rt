// The words that a program was started with, its own name first.
ghost use Rattle.std.specs.Io.{WritesAtMost};

use std::env::{Env, FillError};

// How many they are.
pub fn count(env: &impl Env) -> usize {
    (0..usize::MAX)
        .position(|i| matches!(env.arg(i, &mut [0u8; 1]), Err(FillError::NotPresent)))
        .unwrap_or(usize::MAX)
}

// Puts word i at the start of the buffer, and answers its length, unless there is none or it is longer than the buffer.
pub fn word(env: &impl Env, i: usize, buffer: &mut [u8]) -> Result<usize, FillError>
    ensures { WritesAtMost result buffer.new }
{
    env.arg(i, buffer)
}

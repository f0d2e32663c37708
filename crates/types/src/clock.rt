// Frequencies, and the clock divisor.
ghost use Rattle.std.specs.Prelude.{◌≡◌, ◌&&◌, ◌/◌, ◌≤◌, leb};
ghost use Rattle.types.specs.Leaf.{clock_of};
ghost use Rattle.types.specs.Least.{Searched};

use crate::error::Error;

// A frequency in hertz, as in the Rust: never a count of blocks or of words.
#[derive(Clone, Copy)]
pub struct Hertz(pub u32);

// What the clock register is to be set to, and the frequency that comes of it.
#[derive(Clone, Copy)]
pub struct Clock {
    pub divisor: u8,
    pub bypass: bool,
    pub frequency: Hertz,
}

impl Clock {
    // The highest frequency that may be asked for.
    pub const MOST: u32 = 80_000_000;
    // The largest divisor of the source: the register's field is two less, and has eight bits.
    pub const LARGEST_DIVISOR: u32 = 257;
}

// The least divisor that brings a source down to a request, or none that the register has room for.
// The request is added up until it reaches the source, at most 256 times: the boot stage links no division routine.
// A `find` over the multiples, or `checked_add`, takes 26 to 34 bytes more of its flash.
fn divisor_for(source: Hertz, requested: Hertz) -> Option<u32>
    ensures { Searched source.0 requested.0 result }
{
    let mut sum = requested.0;
    for divisor in 2..=Clock::LARGEST_DIVISOR {
        let next = sum as u64 + requested.0 as u64;
        // what is over 32 bits is over every source
        if next > 0xffff_ffff {
            return Some(divisor);
        }
        sum = next as u32;
        if source.0 <= sum {
            return Some(divisor);
        }
    }
    None
}

// A whole quotient in 32 steps, as by hand in base 2: the number is doubled into the upper half, the divisor is taken away
// there wherever it fits, and the quotient's bits follow in the lower half.
// The steps are counted by hand: a `for` over 0..32 takes two bytes more of the boot stage's flash.
fn quotient(number: u32, divisor: u32) -> u32
    requires { (1 ≤ divisor) × (divisor ≤ 257) }
    ensures { result ≡ number / divisor }
{
    let place = (divisor as u64) << 32;
    let mut both = number as u64;
    let mut left: u32 = 32;
    loop {
        both = both + both;
        if place <= both {
            both = both - place + 1;
        }
        left -= 1;
        if left == 0 {
            return (both & 0xffff_ffff) as u32;
        }
    }
}

// Whether the source itself may be the clock.
fn may_bypass(source: Hertz, requested: Hertz, allowed: bool) -> bool
    ensures { result ≡ (allowed && leb source.0 requested.0) }
{
    allowed && source.0 <= requested.0
}

// The least divisor from 2 to 257 that brings the source down to the requested frequency.
#[tactic(auto, using(std::proofs::lemmas::Bool::Decides::nat_tests), unfolding(crate::specs::Leaf::clock_of, crate::specs::Least::Searched))]
pub fn clock_setting(source: Hertz, requested: Hertz, allow_bypass: bool) -> Result<Clock, Error>
    ensures { result ≡ clock_of source.0 requested.0 allow_bypass }
{
    let s = source.0;
    // a request of 0 is refused by the search: no multiple of it reaches a source
    if s == 0 || requested.0 > Clock::MOST {
        return Err(Error::BadClock);
    }
    if may_bypass(source, requested, allow_bypass) {
        return Ok(Clock {
            divisor: 0,
            bypass: true,
            frequency: source,
        });
    }
    // not by `?`, which takes 14 bytes more of the boot stage's flash
    let Some(divisor) = divisor_for(source, requested) else {
        return Err(Error::BadClock);
    };
    Ok(Clock {
        divisor: (divisor - 2) as u8,
        bypass: false,
        frequency: Hertz(quotient(s, divisor)),
    })
}

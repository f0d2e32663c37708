// The C boundary: clock, capacity, rate and address for firmware that stays Rust or C, on plain numbers. Each answer is one
// number: the answer's number in the top byte, the value in the other seven; of a refusal the field at 13, 0 at any other
// (include/boresacu.h).
#![tactic(auto)]

ghost use Rattle.std.specs.Prelude.{◌≡◌, not, ◌+◌, ◌*◌, ◌^◌, eqb};
ghost use Rattle.types.specs.Leaf.{clock_of, count_of, address_of};
ghost use Rattle.boundary.specs.Packed.{refused_word, clock_word, clock_value, count_word, rate_word, rate_at, address_word, class_of};

use types::card::{CardCapacity, block_address};
use types::clock::{Clock, Hertz, clock_setting};
use types::error::{Error, Field};
use types::register::{BlockCount, Wide, block_count, transfer_rate};

fn refused(error: Error) -> u64
    ensures { result ≡ refused_word error }
{
    error.number() as u64 * 0x100_0000_0000_0000 + error.word() as u64
}

#[tactic(auto, using(std::proofs::lemmas::Bool::Decides::nat_tests))]
fn clock_value(clock: Clock) -> u64
    ensures { result ≡ clock_value clock }
{
    let rest = clock.divisor as u64 * 0x1_0000_0000 + clock.frequency.0 as u64;
    if clock.bypass {
        0x100_0000_0000 + rest
    } else {
        rest
    }
}

#[tactic(auto, using(std::proofs::lemmas::Bool::Decides::nat_tests))]
fn class(high_capacity: u32) -> CardCapacity
    ensures { result ≡ class_of high_capacity }
{
    if high_capacity == 0 {
        CardCapacity::SDSC
    } else {
        CardCapacity::SDHC
    }
}

#[tactic(auto, unfolding(crate::specs::Packed::clock_word))]
#[unsafe(no_mangle)]
pub extern "C" fn boresacu_clock_setting(source: u32, requested: u32, allow_bypass: u32) -> u64
    ensures { result ≡ clock_word (clock_of source requested (not (eqb allow_bypass 0))) }
{
    let answer = clock_setting(Hertz(source), Hertz(requested), allow_bypass != 0);
    match answer {
        Ok(clock) => clock_value(clock),
        Err(error) => refused(error),
    }
}

#[tactic(auto, unfolding(crate::specs::Packed::count_word))]
#[unsafe(no_mangle)]
pub extern "C" fn boresacu_block_count(csd_high: u64, csd_low: u64) -> u64
    ensures { result ≡ count_word (count_of (csd_high * 2 ^ 64 + csd_low)) }
{
    let answer = block_count(Wide {
        high: csd_high,
        low: csd_low,
    });
    match answer {
        Ok(count) => count.0,
        Err(error) => refused(error),
    }
}

// A number over 255 is no byte: it is refused like the byte's reserved bit.
#[tactic(auto, using(std::proofs::lemmas::Bool::Decides::nat_tests), unfolding(crate::specs::Packed::rate_word, crate::specs::Packed::rate_at))]
#[unsafe(no_mangle)]
pub extern "C" fn boresacu_transfer_rate(encoded: u32) -> u64
    ensures { result ≡ rate_word (rate_at encoded) }
{
    if encoded > 255 {
        return refused(Error::UnsupportedCardType(Field::RateReservedBit));
    }
    let answer = transfer_rate(encoded as u8);
    match answer {
        Ok(rate) => rate as u64,
        Err(error) => refused(error),
    }
}

#[tactic(auto, unfolding(crate::specs::Packed::address_word))]
#[unsafe(no_mangle)]
pub extern "C" fn boresacu_block_address(
    high_capacity: u32,
    block_count: u64,
    index: u32,
    count: u64,
) -> u64
    ensures { result ≡ address_word (address_of (class_of high_capacity) block_count index count) }
{
    let answer = block_address(
        class(high_capacity),
        BlockCount(block_count),
        index,
        count as usize,
    );
    match answer {
        Ok(address) => address as u64,
        Err(error) => refused(error),
    }
}

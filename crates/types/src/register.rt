// The 128-bit registers of a card as two 64-bit halves, the first word on top; the capacity, the rate and
// the write protection in its CSD.
ghost use Rattle.std.specs.Prelude.{◌≡◌};
ghost use Rattle.types.specs.Bits.{bits};
ghost use Rattle.types.specs.Sd.{wide_of};
ghost use Rattle.types.specs.Leaf.{count_of, rate_of, size_of, protection_of, stops_writes, protect_number};

use crate::error::{Error, Field};

// CID and CSD: bit 127 is the top bit of `high`, bit 0 the lowest of `low`.
#[derive(Clone, Copy)]
pub struct Wide {
    pub high: u64,
    pub low: u64,
}

// A count of blocks of 512 bytes: never a frequency, and more than 32 bits hold.
#[derive(Clone, Copy)]
pub struct BlockCount(pub u64);

// How a card is protected against writing: for good, or for the time being.
#[derive(Clone, Copy)]
pub struct Protection {
    pub permanent: bool,
    pub temporary: bool,
}

// A tenth of what each unit of TRAN_SPEED stands for, in bits a second: so nothing is divided.
const UNIT_TENTHS: [u32; 4] = [10_000, 100_000, 1_000_000, 10_000_000];

// What each value of TRAN_SPEED stands for, in tenths.
const TENTHS: [u32; 16] = [
    0, 10, 12, 13, 15, 20, 25, 30, 35, 40, 45, 50, 55, 60, 70, 80,
];

impl Wide {
    // Bits 127:126, CSD_STRUCTURE.
    pub fn structure(self) -> u64
        ensures { result ≡ bits (wide_of self) 127 126 }
    {
        self.high / 0x4000_0000_0000_0000
    }

    // Bits 83:80, READ_BL_LEN.
    fn block_length(self) -> u64
        ensures { result ≡ bits (wide_of self) 83 80 }
    {
        self.high / 0x1_0000 % 16
    }

    // Bits 73:62, C_SIZE of version 1: ten bits above bit 64 and two below it.
    fn size_1(self) -> u64
        ensures { result ≡ bits (wide_of self) 73 62 }
    {
        self.high % 0x400 * 4 + self.low / 0x4000_0000_0000_0000
    }

    // Bits 49:47, C_SIZE_MULT.
    fn multiplier(self) -> u64
        ensures { result ≡ bits (wide_of self) 49 47 }
    {
        self.low / 0x8000_0000_0000 % 8
    }

    // Bits 69:48, C_SIZE of version 2: six bits above bit 64 and sixteen below it.
    fn size_2(self) -> u64
        ensures { result ≡ bits (wide_of self) 69 48 }
    {
        self.high % 0x40 * 0x1_0000 + self.low / 0x1_0000_0000_0000
    }

    // Bits 103:96, TRAN_SPEED.
    pub fn transfer_rate(self) -> u8
        ensures { result ≡ bits (wide_of self) 103 96 }
    {
        (self.high / 0x1_0000_0000 % 256) as u8
    }
}

impl BlockCount {
    // Bytes in a block.
    pub const BLOCK: u64 = 512;
    // The most blocks that a card can have, 2 TiB of them.
    pub const MOST: u64 = 4_294_967_296;

    // The bytes of so many blocks.
    #[tactic(auto, using(std::proofs::lemmas::Bool::Decides::nat_tests), unfolding(crate::specs::Leaf::size_of))]
    pub fn bytes(self) -> Result<u64, Error>
        ensures { result ≡ size_of self.0 }
    {
        let count = self.0;
        if count > BlockCount::MOST {
            return Err(Error::AddressOutOfRange);
        }
        Ok(BlockCount::BLOCK * count)
    }
}

impl Protection {
    // Bit 13 of a CSD, PERM_WRITE_PROTECT, and bit 12, TMP_WRITE_PROTECT.
    // No From: any register would convert then, a CID too, and only a CSD has the two bits.
    #[tactic(auto, using(std::proofs::lemmas::Bool::Decides::nat_tests), unfolding(crate::specs::Leaf::protection_of))]
    pub fn of(csd: Wide) -> Protection
        ensures { result ≡ protection_of (wide_of csd) }
    {
        let low = csd.low;
        Protection {
            permanent: low / 0x2000 % 2 == 1,
            temporary: low / 0x1000 % 2 == 1,
        }
    }

    // Whether the card is not to be written to.
    pub fn stops_writes(self) -> bool
        ensures { result ≡ stops_writes self }
    {
        self.permanent || self.temporary
    }

    // 2 if permanent, plus 1 if temporary.
    pub fn number(self) -> u8
        ensures { result ≡ protect_number self }
    {
        2 * self.permanent as u8 + self.temporary as u8
    }
}

// The blocks of 512 bytes that a CSD tells.
#[tactic(auto, using(std::proofs::lemmas::Bool::Decides::nat_tests), unfolding(crate::specs::Leaf::count_of))]
pub fn block_count(csd: Wide) -> Result<BlockCount, Error>
    ensures { result ≡ count_of (wide_of csd) }
{
    let version = csd.structure();
    if version == 0 {
        let length = csd.block_length();
        if length < 9 {
            return Err(Error::UnsupportedCardType(Field::BlockLength));
        }
        if 11 < length {
            return Err(Error::UnsupportedCardType(Field::BlockLength));
        }
        let size = csd.size_1() + 1;
        let shift = csd.multiplier() + 2 + (length - 9);
        return Ok(BlockCount(size << shift));
    }
    if version == 1 {
        // SD fixes it there; the Rust does not look.
        if csd.block_length() != 9 {
            return Err(Error::UnsupportedCardType(Field::BlockLength));
        }
        let size = csd.size_2() + 1;
        return Ok(BlockCount(size * 1024));
    }
    Err(Error::UnsupportedCardType(Field::CsdVersion))
}

// The rate in bits a second that a TRAN_SPEED byte encodes.
#[tactic(auto, using(std::proofs::lemmas::Bool::Decides::nat_tests), unfolding(crate::specs::Leaf::rate_of))]
pub fn transfer_rate(encoded: u8) -> Result<u32, Error>
    ensures { result ≡ rate_of encoded }
{
    if encoded / 128 % 2 == 1 {
        return Err(Error::UnsupportedCardType(Field::RateReservedBit));
    }
    let unit = encoded % 8;
    if unit > 3 {
        return Err(Error::UnsupportedCardType(Field::RateUnit));
    }
    let value = encoded / 8 % 16;
    if value == 0 {
        return Err(Error::UnsupportedCardType(Field::RateValue));
    }
    Ok(UNIT_TENTHS[unit as usize] * TENTHS[value as usize])
}

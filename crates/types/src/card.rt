// The record of a card, its size and its addresses.
ghost use Rattle.std.specs.Prelude.{◌≡◌};
ghost use Rattle.types.specs.Leaf.{address_of, units_of, size_of};
ghost use Rattle.types.specs.declared.card.CardCapacity.TheVariants.{SDSC};

use crate::error::Error;
use crate::register::{BlockCount, Protection, Wide};
use crate::status::Scr;

// SDSC cards are addressed by byte, all later ones (SDHC, SDXC) by block.
#[derive(Clone, Copy, Debug, PartialEq, Eq)]
pub enum CardCapacity {
    SDSC,
    SDHC,
}

#[derive(Clone, Copy, Debug, PartialEq, Eq)]
pub enum Signalling {
    SDR12,
    SDR25,
}

#[derive(Clone, Copy)]
pub struct Card {
    pub card_type: CardCapacity,
    pub ocr: u32,
    pub rca: u16,
    pub cid: Wide,
    pub csd: Wide,
    pub scr: Scr,
    pub status: [u32; 16],
    pub block_count: BlockCount,
    pub protection: Protection,
}

impl Card {
    // The most blocks that one read may ask for.
    pub const MOST_BLOCKS: usize = 511;

    pub fn size(self) -> Result<u64, Error>
        ensures { result ≡ size_of self.block_count.0 }
    {
        self.block_count.bytes()
    }
}

// The address of a block in bytes, for a card that counts so.
#[tactic(auto, using(std::proofs::lemmas::Bool::Decides::nat_tests), unfolding(crate::specs::Leaf::units_of))]
fn byte_address(index: u32) -> Result<u32, Error>
    ensures { result ≡ units_of SDSC index }
{
    let address = BlockCount::BLOCK * index as u64;
    if address < 0x1_0000_0000 {
        Ok(address as u32)
    } else {
        Err(Error::AddressOutOfRange)
    }
}

// The argument of a read of `count` blocks from `index` on. It takes what it reads of a card: its class and its blocks.
#[tactic(auto, using(std::proofs::lemmas::Bool::Decides::nat_tests), unfolding(crate::specs::Leaf::address_of, crate::specs::Leaf::units_of))]
pub fn block_address(
    card_type: CardCapacity,
    block_count: BlockCount,
    index: u32,
    count: usize,
) -> Result<u32, Error>
    ensures { result ≡ address_of card_type block_count.0 index count }
{
    let blocks = block_count.0;
    if count == 0 || count > Card::MOST_BLOCKS {
        return Err(Error::InvalidBufferLength);
    }
    if blocks < index as u64 + count as u64 {
        return Err(Error::AddressOutOfRange);
    }
    match card_type {
        CardCapacity::SDSC => byte_address(index),
        CardCapacity::SDHC => Ok(index),
    }
}

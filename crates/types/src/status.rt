// Status words: the controller's of a data transfer, the card's own, and the SCR.
ghost use Rattle.std.specs.Prelude.{◌≡◌};
ghost use Rattle.types.specs.Leaf.{data_of};
ghost use Rattle.types.specs.Bits.{bits, bit};
ghost use Rattle.types.specs.Sd.{ready_of};

use crate::error::Error;

// Bits of the controller's status that say that a data transfer failed, in the order in which they are looked at.
#[derive(Clone, Copy)]
pub struct DataFault {}

// The card's own status, as it answers commands with it.
#[derive(Clone, Copy)]
pub struct CardStatus(pub u32);

// The card's configuration register.
#[derive(Clone, Copy)]
pub struct Scr(pub u64);

impl DataFault {
    pub const TIMEOUT: u32 = 0x8;

    pub const CRC: u32 = 0x2;

    pub const OVERRUN: u32 = 0x20;

    pub const UNDERRUN: u32 = 0x10;
    // No start bit on one of the data lines.
    pub const START_BIT: u32 = 0x200;
}

// Whether a status word says that its data transfer failed, and with what.
#[tactic(auto, using(std::proofs::lemmas::Bool::Decides::nat_tests), unfolding(crate::specs::Leaf::data_of, crate::specs::Leaf::first_match))]
pub fn data_error(status: u32) -> Result<(), Error>
    ensures { result ≡ data_of status }
{
    if status & DataFault::TIMEOUT != 0 {
        return Err(Error::Timeout);
    }
    if status & DataFault::CRC != 0 {
        return Err(Error::Crc);
    }
    if status & DataFault::OVERRUN != 0 {
        return Err(Error::Overrun);
    }
    if status & DataFault::UNDERRUN != 0 {
        return Err(Error::Underrun);
    }
    if status & DataFault::START_BIT != 0 {
        return Err(Error::StBitErr);
    }
    Ok(())
}

impl CardStatus {
    // The bits that make a status an error, in a response of kind R1.
    pub const ERRORS: u32 = 0xfdff_e008;
    // The same in the short form of it that R6 has.
    pub const R6_ERRORS: u32 = 0xe000;

    pub const LOCKED: u32 = 0x0200_0000;
    // The next command is taken as an application command.
    pub const APP_CMD: u32 = 0x20;

    // Whether the card takes data: READY_FOR_DATA, in the transfer state.
    pub fn ready(self) -> bool
        ensures { result ≡ ready_of self.0 }
    {
        let status = self.0;
        status / 256 % 2 == 1 && status / 512 % 16 == 4
    }
}

impl Scr {
    // Bits 59:56, SD_SPEC.
    pub fn version(self) -> u64
        ensures { result ≡ bits self.0 59 56 }
    {
        self.0 / 0x100_0000_0000_0000 % 16
    }

    // Bit 48: the card has one data line.
    pub fn bus_width_one(self) -> bool
        ensures { result ≡ bit self.0 48 }
    {
        self.0 / 0x1_0000_0000_0000 % 2 == 1
    }

    // Bit 50: the card has four data lines.
    pub fn bus_width_four(self) -> bool
        ensures { result ≡ bit self.0 50 }
    {
        self.0 / 0x4_0000_0000_0000 % 2 == 1
    }
}

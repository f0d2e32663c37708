// Why the driver refuses, and the number that each answer has.
ghost use Rattle.std.specs.Prelude.{◌≡◌};
ghost use Rattle.types.specs.Answer.{field_number, error_told, answer_told, carried};

// What made a card unsupported: a field of its CSD, its CSD and OCR, its voltages, or that it takes no application command.
#[derive(Clone, Copy, Debug, PartialEq, Eq)]
pub enum Field {
    CsdVersion = 1,
    BlockLength,
    RateUnit,
    RateValue,
    RateReservedBit,
    CsdAndOcr,
    Voltage,
    AppCommand,
}

#[derive(Clone, Copy, Debug, PartialEq, Eq)]
pub enum Error {
    Timeout,
    SoftwareTimeout,
    Crc,
    StBitErr,
    Overrun,
    Underrun,
    Dma,
    IncompleteTransfer,
    ResponseMismatch,
    CardStatus(u32),
    CardLocked,
    UnsupportedCardVersion,
    UnsupportedCardType(Field),
    UnsupportedBusWidth,
    SignalingSwitchFailed,
    NoCard,
    BadClock,
    InvalidConfig,
    InvalidBufferLength,
    AddressOutOfRange,
    // The driver does not have it: a write to a card that is protected against writing.
    WriteProtected,
}

// What a call comes to. The last three are not the driver's: the script had no word left, the row list no room, or the
// book that holds the call is none.
#[derive(Clone, Copy, Debug, PartialEq, Eq)]
pub enum Answer {
    Accepted,
    Refused(Error),
    ScriptEnded,
    TraceFull,
    BadBook,
}

#[tactic(auto, unfolding(crate::specs::Answer::field_number))]
impl Field {
    pub fn number(self) -> u8
        ensures { result ≡ field_number self }
    {
        self as u8
    }
}

impl Error {
    // The number of each of the driver's errors is its place among them, so a compiler needs no table. What the driver does
    // not have has a number of its own, and here a place behind them.
    #[tactic(auto, unfolding(crate::specs::Answer::error_told))]
    fn place(self) -> u8
        ensures { ((error_told self).number ≡ 26 → ⊥) → result ≡ (error_told self).number }
    {
        match self {
            Error::Timeout => 1,
            Error::SoftwareTimeout => 2,
            Error::Crc => 3,
            Error::StBitErr => 4,
            Error::Overrun => 5,
            Error::Underrun => 6,
            Error::Dma => 7,
            Error::IncompleteTransfer => 8,
            Error::ResponseMismatch => 9,
            Error::CardStatus(_) => 10,
            Error::CardLocked => 11,
            Error::UnsupportedCardVersion => 12,
            Error::UnsupportedCardType(_) => 13,
            Error::UnsupportedBusWidth => 14,
            Error::SignalingSwitchFailed => 15,
            Error::NoCard => 16,
            Error::BadClock => 17,
            Error::InvalidConfig => 18,
            Error::InvalidBufferLength => 19,
            Error::AddressOutOfRange => 20,
            Error::WriteProtected => 21,
        }
    }

    pub fn number(self) -> u8
        ensures { result ≡ (error_told self).number }
    {
        match self {
            Error::WriteProtected => 26,
            _ => self.place(),
        }
    }

    // The card's status word at CardStatus, the field's number at UnsupportedCardType; 0 elsewhere.
    pub fn word(self) -> u32
        ensures { result ≡ carried (error_told self) }
    {
        match self {
            Error::CardStatus(word) => word,
            Error::UnsupportedCardType(field) => field.number() as u32,
            _ => 0,
        }
    }
}

#[tactic(auto, unfolding(crate::specs::Answer::answer_told))]
impl Answer {
    pub fn number(self) -> u8
        ensures { result ≡ (answer_told self).number }
    {
        match self {
            Answer::Accepted => 0,
            Answer::Refused(error) => error.number(),
            Answer::ScriptEnded => 21,
            Answer::TraceFull => 22,
            Answer::BadBook => 23,
        }
    }

    // The word that the answer carries: the card's status at CardStatus, the field at UnsupportedCardType, 0 elsewhere.
    pub fn word(self) -> u32
        ensures { result ≡ carried (answer_told self) }
    {
        match self {
            Answer::Refused(error) => error.word(),
            Answer::Accepted => 0,
            Answer::ScriptEnded => 0,
            Answer::TraceFull => 0,
            Answer::BadBook => 0,
        }
    }
}

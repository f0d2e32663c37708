// Power-up, and what the card says of itself: CID, address, CSD.
ghost use Rattle.std.specs.Prelude.{◌≡◌, List, cond, ℕ, ◌+◌, ◌/◌, ◌^◌, eqb};
ghost use Rattle.types.specs.declared.card.Card.{Card};
ghost use Rattle.types.specs.declared.register.BlockCount.{BlockCount};
ghost use Rattle.types.specs.Bits.{bits};
ghost use Rattle.types.specs.Leaf.{count_of};
ghost use Rattle.types.specs.Sd.{wide_of};
ghost use Rattle.tape.specs.Layout.{rows_in};
ghost use Rattle.tape.specs.Run.{Took};
ghost use Rattle.init.specs.Initialise.{power_up, try_power_up, wait_power_up, high_capacity, class_of, same, no_card, card_of, no_blocks, counted, select, publish, identify};

use crate::settings::Settings;
use bus::response::Response;
use bus::{command, ready};
use tape::progress;
use tape::progress::{Halt, Head};
use types::card::{Card, CardCapacity};
use types::error::{Error, Field};
use types::register::{BlockCount, Protection, Wide};
use types::status::Scr;
use types::{register, words};

// The operating conditions register, as ACMD41 asks for it and the card answers.
#[derive(Clone, Copy)]
pub struct Ocr {}

impl Ocr {
    // 3.2 to 3.4 V.
    pub const VOLTAGE: u32 = 0x0030_0000;

    pub const HIGH_CAPACITY: u32 = 0x4000_0000;

    pub const POWERED_UP: u32 = 0x8000_0000;
}

// What ACMD41 asks for.
pub fn condition(version2: bool) -> u32
    ensures { result ≡ 0x0030_0000 + cond version2 0x4000_0000 0 }
{
    if version2 {
        Ocr::VOLTAGE + Ocr::HIGH_CAPACITY
    } else {
        Ocr::VOLTAGE
    }
}

// One ACMD41: the card's OCR.
fn power_up(
    head: &mut Head,
    script: &[u32],
    rows: &mut [u64],
    limit: u32,
    version2: bool,
) -> Result<u32, Halt>
    ensures { Took script.now ℕ 0 (power_up limit version2) head.old (rows_in rows.old) result head.new (rows_in rows.new) }
{
    let asked = condition(version2);
    command::app_command(head, script, rows, limit, 0)?;
    let answer = command::send(head, script, rows, limit, 41, asked, Response::R3)?;
    let ocr = answer[0];
    progress::ensure(
        ocr & Ocr::VOLTAGE != 0,
        Error::UnsupportedCardType(Field::Voltage),
    )?;
    Ok(ocr)
}

// One attempt, and a delay if the card has not powered up.
fn try_power_up(
    head: &mut Head,
    script: &[u32],
    rows: &mut [u64],
    settings: Settings,
    version2: bool,
) -> Result<u32, Halt>
    ensures { Took script.now ℕ 0 (try_power_up settings version2) head.old (rows_in rows.old) result head.new (rows_in rows.new) }
{
    let limit = settings.config.poll_limit;
    let ocr = power_up(head, script, rows, limit, version2)?;
    if ocr & Ocr::POWERED_UP != 0 {
        return Ok(ocr);
    }
    ready::retry_delay(head, rows, settings.source)?;
    Ok(ocr)
}

// Tries until the card has powered up: its OCR.
pub fn wait_power_up(
    head: &mut Head,
    script: &[u32],
    rows: &mut [u64],
    settings: Settings,
    version2: bool,
) -> Result<u32, Halt>
    ensures { Took script.now ℕ 0 (wait_power_up settings version2) head.old (rows_in rows.old) result head.new (rows_in rows.new) }
{
    for _ in 0..settings.config.card_ready_attempts {
        let ocr = try_power_up(head, script, rows, settings, version2)?;
        if ocr & Ocr::POWERED_UP != 0 {
            return Ok(ocr);
        }
    }
    Err(Halt::Refused(Error::SoftwareTimeout))
}

// The class of a card by its OCR.
pub fn class(ocr: u32) -> CardCapacity
    ensures { result ≡ class_of (high_capacity ocr) }
{
    if ocr & Ocr::HIGH_CAPACITY != 0 {
        CardCapacity::SDHC
    } else {
        CardCapacity::SDSC
    }
}

// The record before a card is known, and where there is none.
pub fn no_card() -> Card
    ensures { result ≡ no_card }
{
    Card {
        card_type: CardCapacity::SDSC,
        ocr: 0,
        rca: 0,
        cid: Wide { high: 0, low: 0 },
        csd: Wide { high: 0, low: 0 },
        scr: Scr(0),
        status: [0; 16],
        block_count: BlockCount(0),
        protection: Protection {
            permanent: false,
            temporary: false,
        },
    }
}

// The record of a card that said this of itself.
pub fn described(ocr: u32, rca: u16, cid: [u32; 4], csd: [u32; 4], blocks: BlockCount) -> Card
    ensures { result ≡ card_of ocr rca cid csd blocks }
{
    let told = words::response_value(csd);
    Card {
        card_type: class(ocr),
        ocr: ocr,
        rca: rca,
        cid: words::response_value(cid),
        csd: told,
        scr: Scr(0),
        status: [0; 16],
        block_count: blocks,
        protection: Protection::of(told),
    }
}

// Whether CSD and OCR tell of the same kind of card.
pub fn agree(ocr: u32, csd: Wide) -> bool
    ensures { result ≡ same (high_capacity ocr) (eqb (bits (wide_of csd) 127 126) 1) }
{
    if ocr & Ocr::HIGH_CAPACITY != 0 {
        csd.structure() == 1
    } else {
        csd.structure() != 1
    }
}

// Judges the CSD, and selects the card.
fn select(
    head: &mut Head,
    script: &[u32],
    rows: &mut [u64],
    limit: u32,
    ocr: u32,
    rca: u16,
    cid: [u32; 4],
    csd: [u32; 4],
) -> Result<Card, Halt>
    ensures { Took script.now Card no_card (select limit ocr rca cid csd) head.old (rows_in rows.old) result head.new (rows_in rows.new) }
{
    let told = words::response_value(csd);
    let argument = rca as u32 * 0x1_0000;
    progress::ensure(
        agree(ocr, told),
        Error::UnsupportedCardType(Field::CsdAndOcr),
    )?;
    let count = register::block_count(told)?;
    command::send(head, script, rows, limit, 7, argument, Response::R1)?;
    Ok(described(ocr, rca, cid, csd, count))
}

// The address that a card has given itself, in the answer to CMD3.
pub fn address(published: u32) -> u16
    ensures { result ≡ published / 2 ^ 16 }
{
    (published / 0x1_0000) as u16
}

// Has the card give itself an address.
fn publish(head: &mut Head, script: &[u32], rows: &mut [u64], limit: u32) -> Result<u16, Halt>
    ensures { Took script.now ℕ 0 (publish limit) head.old (rows_in rows.old) result head.new (rows_in rows.new) }
{
    let answer = command::send(head, script, rows, limit, 3, 0, Response::R6)?;
    Ok(address(answer[0]))
}

// Has the card tell its CID, its address and its CSD, and selects it.
pub fn identify(
    head: &mut Head,
    script: &[u32],
    rows: &mut [u64],
    limit: u32,
    ocr: u32,
) -> Result<Card, Halt>
    ensures { Took script.now Card no_card (identify limit ocr) head.old (rows_in rows.old) result head.new (rows_in rows.new) }
{
    let cid = command::send(head, script, rows, limit, 2, 0, Response::R2)?;
    let rca = publish(head, script, rows, limit)?;
    progress::ensure(rca != 0, Error::ResponseMismatch)?;
    let argument = rca as u32 * 0x1_0000;
    let csd = command::send(head, script, rows, limit, 9, argument, Response::R2)?;
    select(head, script, rows, limit, ocr, rca, cid, csd)
}

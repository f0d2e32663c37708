// The calls on a host: initialise, SD status, read and write blocks.
ghost use Rattle.std.specs.Prelude.{◌≡◌, List, [], ◌&&◌, cond, ℕ, ◌*◌, ◌≤◌, length, Ok};
ghost use Rattle.types.specs.Leaf.{stops_writes};
ghost use Rattle.types.specs.Words.{words_of};
ghost use Rattle.tape.specs.Layout.{rows_in};
ghost use Rattle.tape.specs.Pace.{Stopped};
ghost use Rattle.tape.specs.Run.{at, stand, going_at};
ghost use Rattle.bus.specs.Transfer.{incoming, outgoing};
ghost use Rattle.host.specs.Calls.{called_of, kept, dropped, ends, init_from, initialised, blocks_index, blocks_transfer, blocks_data, blocks_from, blocks_judged, read_came, buffer_of, write_came, with_status, status_data, status_from, status_came, status_given, status_read_of};

use crate::host::{Called, Sdmmc, StatusRead};
use crate::{blocks, host};
use bus::transfer::Transfer;
use bus::{command, ready, transfer};
use init::{card, identify, lent};
use tape::progress::{Halt, Head};
use tape::rows::Row;
use types::card::{Card, block_address};
use types::clock::{Clock, Hertz, clock_setting};
use types::error::{Answer, Error};
use types::register::Protection;
use types::words;

// The record with another SD status.
pub fn with_status(card: Card, status: [u32; 16]) -> Card
    ensures { result ≡ with_status card status }
{
    let mut read = card;
    read.status = status;
    read
}

// The status of a call that was answered so, where its record's status is this one: zeros unless it was accepted.
pub fn given_status(answer: Answer, status: [u32; 16]) -> [u32; 16]
    ensures { result ≡ status_given answer status }
{
    match answer {
        Answer::Accepted => status,
        Answer::Refused(_) => [0; 16],
        Answer::ScriptEnded => [0; 16],
        Answer::TraceFull => [0; 16],
        Answer::BadBook => [0; 16],
    }
}

// CMD17 for one block, CMD18 for more; of a write CMD24 and CMD25.
fn blocks_index(sends: bool, blocks: u16) -> u8
    ensures { (ws : List ℕ) → result ≡ blocks_index (cond sends (outgoing ws) incoming) blocks }
{
    match (sends, blocks == 1) {
        (false, true) => 17,
        (false, false) => 18,
        (true, true) => 24,
        (true, false) => 25,
    }
}

// A card that is protected bars a write, and nothing else.
fn barred(sends: bool, protection: Protection) -> bool
    ensures { result ≡ (sends && stops_writes protection) }
{
    sends && protection.stops_writes()
}

// What a read or a write of so many blocks asks for.
fn blocks_transfer(sends: bool, address: u32, blocks: u16) -> Transfer
    requires { blocks ≤ 511 }
    ensures { (ws : List ℕ) → result ≡ blocks_transfer (cond sends (outgoing ws) incoming) address blocks }
{
    Transfer {
        index: blocks_index(sends, blocks),
        argument: address,
        block_size: 9,
        words: 128 * blocks,
    }
}

impl Sdmmc {
    // How a call ends that began with the card itself and did not come through: a refusal leaves no record.
    fn ends_without(self, head: Head, halt: Halt) -> Called
        ensures { (accepted : Sdmmc) (words : List ℕ) (l : List Row) → result ≡ called_of (ends self (dropped self (at (stand (Stopped halt) head) l)) accepted words (Stopped halt) (at (stand (Stopped halt) head) l)) }
    {
        let none = self.with(head.line, false, identify::no_card());
        self.ends(head, halt, none)
    }

    // An initialisation with this clock of identification.
    fn init_from(self, script: &[u32], rows: &mut [u64], frequency: Hertz, initial: Clock) -> Called
        ensures answered { result ≡ called_of (init_from self frequency.0 (Ok initial) script.now (rows_in rows.old)) }
        ensures listed { rows_in rows.new ≡ (init_from self frequency.0 (Ok initial) script.now (rows_in rows.old)).list }
    {
        let mut head = host::start(host::fresh_line(initial.frequency));
        match card::initialise(&mut head, script, rows, self.settings, initial, frequency) {
            Ok(found) => self
                .with(head.line, true, found)
                .called(Answer::Accepted, head),
            Err(halt) => self.ends_without(head, halt),
        }
    }

    // Initialises the card: its record, and the clock and signalling for it.
    pub fn blocking_init_card(self, script: &[u32], rows: &mut [u64], frequency: Hertz) -> Called
        ensures answered { result ≡ called_of (initialised self frequency.0 script.now (rows_in rows.old)) }
        ensures listed { rows_in rows.new ≡ (initialised self frequency.0 script.now (rows_in rows.old)).list }
    {
        let asked = frequency.0;
        let source = self.settings.source;
        if asked == 0 {
            return self.untouched(Error::BadClock);
        }
        if asked > Sdmmc::MOST {
            return self.untouched(Error::BadClock);
        }
        let answer = clock_setting(source, Hertz(Sdmmc::IDENTIFICATION), false);
        match answer {
            Ok(initial) => self.init_from(script, rows, frequency, initial),
            Err(error) => self.untouched(error),
        }
    }

    // A call that stopped before its data phase: the record stays.
    fn ends_before(self, head: Head, halt: Halt) -> Called
        ensures { (l : List Row) → result ≡ called_of (ends self (kept self (at (stand (Stopped halt) head) l)) self [] (Stopped halt) (at (stand (Stopped halt) head) l)) }
    {
        let kept = self.with(head.line, self.known, self.card);
        self.ends(head, halt, kept)
    }

    // The data phase of a status call.
    fn status_data(self, mut head: Head, script: &[u32], rows: &mut [u64]) -> Called
        ensures answered { result ≡ called_of (status_data self script.now (going_at head (rows_in rows.old))) }
        ensures listed { rows_in rows.new ≡ (status_data self script.now (going_at head (rows_in rows.old))).list }
    {
        let source = self.settings.source;
        let config = self.settings.config;
        let card = self.card;
        let asked = Transfer {
            index: 13,
            argument: 0,
            block_size: 6,
            words: 16,
        };
        match transfer::blocking_data(&mut head, script, rows, source, config, asked, card.rca) {
            Ok(words) => {
                let status = words::sd_status(lent::sixteen(words));
                let next = self.with(head.line, true, with_status(card, status));
                next.called(Answer::Accepted, head)
            }
            Err(halt) => self.ends_without(head, halt),
        }
    }

    // A status call on a host that has a card.
    fn status_from(self, script: &[u32], rows: &mut [u64]) -> Called
        ensures answered { result ≡ called_of (status_from self script.now (rows_in rows.old)) }
        ensures listed { rows_in rows.new ≡ (status_from self script.now (rows_in rows.old)).list }
    {
        let limit = self.settings.config.poll_limit;
        let mut head = host::start(self.line);
        match command::app_command(&mut head, script, rows, limit, self.card.rca) {
            Ok(()) => self.status_data(head, script, rows),
            Err(halt) => self.ends_before(head, halt),
        }
    }

    // A status call, but for the status that it gives.
    fn status_called(self, script: &[u32], rows: &mut [u64]) -> Called
        ensures answered { result ≡ called_of (status_came self script.now (rows_in rows.old)) }
        ensures listed { rows_in rows.new ≡ (status_came self script.now (rows_in rows.old)).list }
    {
        if self.known {
            self.status_from(script, rows)
        } else {
            self.untouched(Error::NoCard)
        }
    }

    // Reads the card's SD status, which is then in its record too.
    pub fn blocking_read_sd_status(self, script: &[u32], rows: &mut [u64]) -> StatusRead
        ensures answered { result ≡ status_read_of (status_came self script.now (rows_in rows.old)) }
        ensures listed { rows_in rows.new ≡ (status_came self script.now (rows_in rows.old)).list }
    {
        let called = self.status_called(script, rows);
        let host = called.host;
        let card = host.card;
        StatusRead {
            answer: called.answer,
            words: called.words,
            rows: called.rows,
            status: given_status(called.answer, card.status),
            host,
        }
    }

    // The data phase of a read; the buffer is filled from the words that it took, and it takes none unless it is accepted.
    fn read_data(
        self,
        mut head: Head,
        script: &[u32],
        rows: &mut [u64],
        buffer: &mut [u8],
        address: u32,
        blocks: u16,
    ) -> Called
        requires { blocks ≤ 511 }
        ensures answered { result ≡ called_of (blocks_data self incoming address blocks script.now (going_at head (rows_in rows.old))) }
        ensures listed { rows_in rows.new ≡ (blocks_data self incoming address blocks script.now (going_at head (rows_in rows.old))).list }
        ensures filled { buffer.new ≡ buffer_of (blocks_data self incoming address blocks script.now (going_at head (rows_in rows.old))) buffer.old }
    {
        let source = self.settings.source;
        let config = self.settings.config;
        let card = self.card;
        let asked = blocks_transfer(false, address, blocks);
        match transfer::blocking_data(&mut head, script, rows, source, config, asked, card.rca) {
            Ok(words) => {
                blocks::fill_blocks(buffer, words);
                self.with(head.line, self.known, card)
                    .called(Answer::Accepted, head)
            }
            Err(halt) => self.ends_without(head, halt),
        }
    }

    // A read from an address that was judged, of so many blocks.
    fn read_from(
        self,
        script: &[u32],
        rows: &mut [u64],
        buffer: &mut [u8],
        address: u32,
        blocks: u16,
    ) -> Called
        requires { blocks ≤ 511 }
        ensures answered { result ≡ called_of (blocks_from self incoming blocks (Ok address) script.now (rows_in rows.old)) }
        ensures listed { rows_in rows.new ≡ (blocks_from self incoming blocks (Ok address) script.now (rows_in rows.old)).list }
        ensures filled { buffer.new ≡ buffer_of (blocks_from self incoming blocks (Ok address) script.now (rows_in rows.old)) buffer.old }
    {
        let source = self.settings.source;
        let config = self.settings.config;
        let mut head = host::start(self.line);
        match ready::wait_ready(&mut head, script, rows, source, config, self.card.rca) {
            Ok(()) => self.read_data(head, script, rows, buffer, address, blocks),
            Err(halt) => self.ends_before(head, halt),
        }
    }

    // The checks of a read or a write of so many bytes from a block on, before anything reaches the card: there is a card, it
    // may be written to, and it has that many whole blocks there, 1 to 511. Then the address of the first.
    pub fn judged(self, sends: bool, index: u32, bytes: usize) -> Result<u32, Error>
        ensures { result ≡ blocks_judged self sends index bytes }
    {
        let card = self.card;
        let class = card.card_type;
        let count = card.block_count;
        let protection = card.protection;
        if !self.known {
            return Err(Error::NoCard);
        }
        if barred(sends, protection) {
            return Err(Error::WriteProtected);
        }
        if bytes % 512 != 0 {
            return Err(Error::InvalidBufferLength);
        }
        block_address(class, count, index, bytes / 512)
    }

    // Reads blocks from an index on into the buffer, which has 512 bytes for each.
    pub fn blocking_read_blocks(
        self,
        script: &[u32],
        rows: &mut [u64],
        index: u32,
        buffer: &mut [u8],
    ) -> Called
        ensures answered { result ≡ called_of (read_came self index (length buffer.old) script.now (rows_in rows.old)) }
        ensures listed { rows_in rows.new ≡ (read_came self index (length buffer.old) script.now (rows_in rows.old)).list }
        ensures filled { buffer.new ≡ buffer_of (read_came self index (length buffer.old) script.now (rows_in rows.old)) buffer.old }
    {
        let bytes = buffer.len();
        let answer = self.judged(false, index, bytes);
        match answer {
            Ok(address) => self.read_from(script, rows, buffer, address, (bytes / 512) as u16),
            Err(error) => self.untouched(error),
        }
    }

    // The data phase of a write.
    fn write_data(
        self,
        mut head: Head,
        script: &[u32],
        rows: &mut [u64],
        data: &[u8],
        address: u32,
        blocks: u16,
    ) -> Called
        requires { (blocks ≤ 511) × (length «data».now ≡ 512 * blocks) }
        ensures answered { result ≡ called_of (blocks_data self (outgoing (words_of «data».now)) address blocks script.now (going_at head (rows_in rows.old))) }
        ensures listed { rows_in rows.new ≡ (blocks_data self (outgoing (words_of «data».now)) address blocks script.now (going_at head (rows_in rows.old))).list }
    {
        let source = self.settings.source;
        let config = self.settings.config;
        let card = self.card;
        let asked = blocks_transfer(true, address, blocks);
        match transfer::blocking_send(
            &mut head, script, rows, source, config, asked, card.rca, data,
        ) {
            Ok(()) => self
                .with(head.line, self.known, card)
                .called(Answer::Accepted, head),
            Err(halt) => self.ends_without(head, halt),
        }
    }

    // A write to an address that was judged, of so many blocks. It is not one with a read: a buffer that is lent to be filled and
    // data that is lent to be sent have no type in common but one that holds the borrow, which each contract would have to name.
    fn write_from(
        self,
        script: &[u32],
        rows: &mut [u64],
        data: &[u8],
        address: u32,
        blocks: u16,
    ) -> Called
        requires { (blocks ≤ 511) × (length «data».now ≡ 512 * blocks) }
        ensures answered { result ≡ called_of (blocks_from self (outgoing (words_of «data».now)) blocks (Ok address) script.now (rows_in rows.old)) }
        ensures listed { rows_in rows.new ≡ (blocks_from self (outgoing (words_of «data».now)) blocks (Ok address) script.now (rows_in rows.old)).list }
    {
        let source = self.settings.source;
        let config = self.settings.config;
        let mut head = host::start(self.line);
        match ready::wait_ready(&mut head, script, rows, source, config, self.card.rca) {
            Ok(()) => self.write_data(head, script, rows, data, address, blocks),
            Err(halt) => self.ends_before(head, halt),
        }
    }

    // Writes the data, 512 bytes for each block, to the blocks from an index on.
    pub fn blocking_write_blocks(
        self,
        script: &[u32],
        rows: &mut [u64],
        index: u32,
        data: &[u8],
    ) -> Called
        ensures answered { result ≡ called_of (write_came self index «data».now script.now (rows_in rows.old)) }
        ensures listed { rows_in rows.new ≡ (write_came self index «data».now script.now (rows_in rows.old)).list }
    {
        let bytes = data.len();
        let answer = self.judged(true, index, bytes);
        match answer {
            Ok(address) => self.write_from(script, rows, data, address, (bytes / 512) as u16),
            Err(error) => self.untouched(error),
        }
    }
}

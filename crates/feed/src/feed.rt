// The four calls, fed from their beginning to their end. Their contracts are those of the calls on the script.
ghost use Rattle.std.specs.Prelude.{◌≡◌, [], length};
ghost use Rattle.types.specs.Words.{words_of};
ghost use Rattle.tape.specs.Layout.{rows_in};
ghost use Rattle.host.specs.Calls.{called_of, initialised, read_came, buffer_of, write_came, status_came, status_read_of};
ghost use Rattle.step.specs.Next.{Lent};
ghost use Rattle.underway.specs.Under.{under};
ghost use Rattle.feed.specs.Runs.{count_of};
ghost use Rattle.feed.specs.Turns.{lent, way_of, starts, fed_from, place_from, called_at};

use crate::turn::Feeding;
use host::blocks;
use host::calls::given_status;
use host::host::{Called, Sdmmc, StatusRead};
use types::clock::Hertz;
use types::error::Answer;
use underway::call::Call;

// A call that was fed to its end: what it came to, and where in the script the first data word of its last transfer lay.
#[derive(Clone, Copy)]
pub struct Fed {
    pub called: Called,
    pub place: usize,
}

fn ended(feeding: Feeding) -> Fed
    ensures { (g : Lent) → result ≡ record { called = called_at (way_of g feeding); place = feeding.place } }
{
    let place = feeding.place;
    Fed {
        called: feeding.called(),
        place: place,
    }
}

// Feeds a call to its end, or to the end of the list. The data is what a write sends.
pub fn feed(call: Call, script: &[u32], data: &[u8], rows: &mut [u64]) -> Fed
    ensures answered { result.called ≡ called_of (fed_from script.now (starts (under (lent (words_of «data».now) []) call)) (rows_in rows.old)) }
    ensures listed { rows_in rows.new ≡ (fed_from script.now (starts (under (lent (words_of «data».now) []) call)) (rows_in rows.old)).list }
    ensures placed { result.place ≡ place_from script.now (starts (under (lent (words_of «data».now) []) call)) (rows_in rows.old) }
{
    let mut feeding = Feeding::begin(call);
    // a call's turns are as many as its script and its rows make them, so there is no range to go through
    loop {
        let turn = feeding.turn(script, data, rows);
        let event = turn.event;
        let next = turn.feeding;
        if !event.goes_on() {
            return ended(next);
        }
        feeding = next;
    }
}

// Initialises the card: its record, and the clock and signalling for it.
pub fn init_card(host: Sdmmc, script: &[u32], rows: &mut [u64], frequency: Hertz) -> Called
    ensures answered { result ≡ called_of (initialised host frequency.0 script.now (rows_in rows.old)) }
    ensures listed { rows_in rows.new ≡ (initialised host frequency.0 script.now (rows_in rows.old)).list }
{
    let none = [0u8; 0];
    let fed = feed(Call::init_card(host, frequency), script, &none, rows);
    fed.called
}

// Reads the card's SD status, which is then in its record too.
pub fn read_sd_status(host: Sdmmc, script: &[u32], rows: &mut [u64]) -> StatusRead
    ensures answered { result ≡ status_read_of (status_came host script.now (rows_in rows.old)) }
    ensures listed { rows_in rows.new ≡ (status_came host script.now (rows_in rows.old)).list }
{
    let none = [0u8; 0];
    let fed = feed(Call::read_sd_status(host), script, &none, rows);
    let called = fed.called;
    let answer = called.answer;
    let next = called.host;
    let card = next.card;
    let read = card.status;
    let status = given_status(answer, read);
    StatusRead {
        answer: answer,
        words: called.words,
        rows: called.rows,
        status: status,
        host: next,
    }
}

// How many words a read of so many bytes takes: 128 for each block, none unless it was accepted.
fn count(answer: Answer, bytes: usize) -> usize
    ensures { result ≡ count_of answer bytes }
{
    match answer {
        Answer::Accepted => 128 * (bytes / 512),
        Answer::Refused(_) => 0,
        Answer::ScriptEnded => 0,
        Answer::TraceFull => 0,
        Answer::BadBook => 0,
    }
}

// Reads blocks from an index on into the buffer, which has 512 bytes for each: its words are those that were handed out.
pub fn read_blocks(
    host: Sdmmc,
    script: &[u32],
    rows: &mut [u64],
    index: u32,
    buffer: &mut [u8],
) -> Called
    ensures answered { result ≡ called_of (read_came host index (length buffer.old) script.now (rows_in rows.old)) }
    ensures listed { rows_in rows.new ≡ (read_came host index (length buffer.old) script.now (rows_in rows.old)).list }
    ensures filled { buffer.new ≡ buffer_of (read_came host index (length buffer.old) script.now (rows_in rows.old)) buffer.old }
{
    let bytes = buffer.len();
    let none = [0u8; 0];
    let fed = feed(Call::read_blocks(host, index, bytes), script, &none, rows);
    let called = fed.called;
    let answer = called.answer;
    let words = blocks::part(script, fed.place, count(answer, bytes));
    blocks::fill_blocks(buffer, words);
    called
}

// Writes the data, 512 bytes for each block, to the blocks from an index on.
pub fn write_blocks(
    host: Sdmmc,
    script: &[u32],
    rows: &mut [u64],
    index: u32,
    data: &[u8],
) -> Called
    ensures answered { result ≡ called_of (write_came host index «data».now script.now (rows_in rows.old)) }
    ensures listed { rows_in rows.new ≡ (write_came host index «data».now script.now (rows_in rows.old)).list }
{
    let bytes = data.len();
    let fed = feed(Call::write_blocks(host, index, bytes), script, data, rows);
    fed.called
}

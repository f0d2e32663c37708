// The polls of a data phase.
ghost use Rattle.std.specs.Prelude.{◌≡◌, List, Bool, false, not, ◌||◌, ℕ, ◌+◌, ◌^◌, ◌<◌, ◌≤◌, length};
ghost use Rattle.types.specs.Bits.{clear};
ghost use Rattle.tape.specs.Run.{Behind, Took, Went};
ghost use Rattle.bus.specs.Transfer.{Polled, nothing_polled, clean, poll_transfer, drained, settle, data_complete, wait_data};

use tape::progress::{Halt, Head};
use tape::rows::Row;
use tape::script::{Dma, Sta};
use tape::{progress, script};
use types::error::Error;
use types::status;

// A status word and a DMA word.
#[derive(Clone, Copy)]
pub struct Poll {
    pub status: u32,
    pub dma: u32,
}

// Refuses where a status word says that the transfer failed.
fn clean(word: u32) -> Result<(), Halt>
    ensures { (s : List ℕ) (h : Head) (l : List Row) → Went s (clean word) h l result h l }
{
    status::data_error(word)?;
    Ok(())
}

// One status word and one DMA word, neither of which says that the transfer failed.
fn poll_transfer(head: &mut Head, rest: &[u32], start: usize) -> Result<Poll, Halt>
    requires { (start ≤ head.old.used) × (start + length rest.now < 2 ^ 64) }
    ensures { (s : List ℕ) (l : List Row) → Behind start rest.now s → Took s Polled nothing_polled poll_transfer head.old l result head.new l }
{
    let status = script::read_word(head, rest, start)?;
    clean(status)?;
    let dma = script::read_word(head, rest, start)?;
    progress::ensure(dma & Dma::ERROR == 0, Error::Dma)?;
    Ok(Poll { status, dma })
}

// No word remains in the DMA, and no byte in the controller, which is asked only then.
fn drained(head: &mut Head, rest: &[u32], start: usize, dma: u32) -> Result<(), Halt>
    requires { (start ≤ head.old.used) × (start + length rest.now < 2 ^ 64) }
    ensures { (s : List ℕ) (l : List Row) → Behind start rest.now s → Went s (drained dma) head.old l result head.new l }
{
    progress::ensure(dma % Dma::REMAINING == 0, Error::IncompleteTransfer)?;
    let count = script::read_word(head, rest, start)?;
    progress::ensure(count == 0, Error::IncompleteTransfer)
}

// Whether a status word says that the transfer is not over yet.
fn unfinished(status: u32) -> bool
    ensures { result ≡ (clear 0x100 status || not (clear 0x3000 status)) }
{
    status & Sta::DATA_ENDED == 0 || status & Sta::TRANSFER != 0
}

// The second half of a poll, once the DMA no longer runs.
fn settle(head: &mut Head, rest: &[u32], start: usize) -> Result<bool, Halt>
    requires { (start ≤ head.old.used) × (start + length rest.now < 2 ^ 64) }
    ensures { (s : List ℕ) (l : List Row) → Behind start rest.now s → Took s Bool false settle head.old l result head.new l }
{
    let again = poll_transfer(head, rest, start)?;
    if unfinished(again.status) {
        return Ok(false);
    }
    drained(head, rest, start, again.dma)?;
    Ok(true)
}

// One poll: whether the transfer is complete. `rest` is what is left of the script.
pub fn data_complete(head: &mut Head, rest: &[u32]) -> Result<bool, Halt>
    requires { head.old.used + length rest.now < 2 ^ 64 }
    ensures { (s : List ℕ) (l : List Row) → Behind head.old.used rest.now s → Took s Bool false data_complete head.old l result head.new l }
{
    let start = head.used;
    let first = poll_transfer(head, rest, start)?;
    if first.dma & Dma::RUNNING == 0 {
        settle(head, rest, start)
    } else {
        Ok(false)
    }
}

// Polls, at most `limit` times, until the transfer is complete. `rest` is what is left of the script.
pub fn wait_data(head: &mut Head, rest: &[u32], limit: u32) -> Result<(), Halt>
    requires { head.old.used + length rest.now < 2 ^ 64 }
    ensures { (s : List ℕ) (l : List Row) → Behind head.old.used rest.now s → Went s (wait_data limit) head.old l result head.new l }
{
    let start = head.used;
    for _ in 0..limit {
        let left = script::rest(rest, head.used - start);
        if data_complete(head, left)? {
            return Ok(());
        }
    }
    Err(Halt::Refused(Error::SoftwareTimeout))
}

// The data phase.
ghost use Rattle.std.specs.Prelude.{◌≡◌, List, [], ℕ, ◌*◌, ◌/◌, length};
ghost use Rattle.types.specs.Words.{words_of};
ghost use Rattle.tape.specs.Layout.{rows_in};
ghost use Rattle.tape.specs.Rows.{DCTRL, dctrl_of};
ghost use Rattle.tape.specs.Run.{going_at, words_in, Took, Went, Lies};
ghost use Rattle.tape.specs.Steps.{row};
ghost use Rattle.bus.specs.Transfer.{incoming, outgoing, sent_in, arm, ready_data, order_data, start_data, wait_data, receive, close_gate, of_many, stop_transmission, end_data, transfer_data, place_after, data_place, blocking_data};

use crate::response::Response;
use crate::{command, poll, ready};
use tape::progress::{Halt, Head};
use tape::rows::Row;
use tape::{rows, script, send, steps};
use types::clock::Hertz;
use types::config::Config;

// What is to be moved: the command and its argument, the block size as a power of two, and the number of words.
#[derive(Clone, Copy)]
pub struct Transfer {
    pub index: u8,
    pub argument: u32,
    pub block_size: u8,
    pub words: u16,
}

// Readies the data path.
fn arm(head: &mut Head, rows: &mut [u64], timeout: u32, transfer: Transfer) -> Result<(), Halt>
    ensures { (s : List ℕ) → Went s (arm timeout transfer) head.old (rows_in rows.old) result head.new (rows_in rows.new) }
{
    let bytes = 4 * transfer.words as u32;
    rows::write_row(head, rows, Row::DCTRL2, 0)?;
    steps::stop_data(head, rows)?;
    rows::write_row(head, rows, Row::DTIMER, timeout)?;
    rows::write_row(head, rows, Row::DLEN, bytes)
}

// Waits until the controller is idle, and readies the data path.
fn ready_data(
    head: &mut Head,
    script: &[u32],
    rows: &mut [u64],
    config: Config,
    transfer: Transfer,
) -> Result<(), Halt>
    ensures { Went script.now (ready_data config transfer) head.old (rows_in rows.old) result head.new (rows_in rows.new) }
{
    let rest = script::rest(script, head.used);
    steps::wait_idle(head, rest, config.poll_limit, true)?;
    arm(head, rows, config.data_transfer_timeout, transfer)
}

// The data path on, with its direction.
fn control(head: &mut Head, rows: &mut [u64], reading: bool, transfer: Transfer) -> Result<(), Halt>
    ensures { (s : List ℕ) → Went s (row DCTRL (dctrl_of reading transfer.block_size)) head.old (rows_in rows.old) result head.new (rows_in rows.new) }
{
    let value = rows::dctrl(reading, transfer.block_size);
    rows::write_row(head, rows, Row::DCTRL, value)
}

// Sends the command of a data phase: the clock stays open from there on.
fn order_data(
    head: &mut Head,
    script: &[u32],
    rows: &mut [u64],
    config: Config,
    transfer: Transfer,
) -> Result<(), Halt>
    ensures { Went script.now (order_data config transfer) head.old (rows_in rows.old) result head.new (rows_in rows.new) }
{
    steps::set_clken(head, rows, true)?;
    let left = script::rest(script, head.used);
    command::command_inner(
        head,
        left,
        rows,
        config.poll_limit,
        transfer.index,
        transfer.argument,
        Response::R1,
    )?;
    Ok(())
}

// Begins a data phase that reads.
fn start_data(
    head: &mut Head,
    script: &[u32],
    rows: &mut [u64],
    config: Config,
    transfer: Transfer,
) -> Result<(), Halt>
    ensures { Went script.now (start_data config incoming transfer) head.old (rows_in rows.old) result head.new (rows_in rows.new) }
{
    ready_data(head, script, rows, config, transfer)?;
    control(head, rows, true, transfer)?;
    order_data(head, script, rows, config, transfer)
}

// Begins a data phase that writes, and sends the data's words.
fn start_sending(
    head: &mut Head,
    script: &[u32],
    rows: &mut [u64],
    config: Config,
    transfer: Transfer,
    data: &[u8],
) -> Result<(), Halt>
    requires { transfer.words ≡ 128 * (length «data».now / 512) }
    ensures { Went script.now (start_data config (outgoing (words_of «data».now)) transfer) head.old (rows_in rows.old) result head.new (rows_in rows.new) }
{
    ready_data(head, script, rows, config, transfer)?;
    order_data(head, script, rows, config, transfer)?;
    control(head, rows, false, transfer)?;
    send::send_data(head, rows, data)
}

// Waits until the transfer is complete, and takes its words.
fn receive<'a>(
    head: &mut Head,
    script: &'a [u32],
    limit: u32,
    count: u16,
) -> Result<&'a [u32], Halt>
    ensures took { (l : List Row) → Took script.now (List ℕ) [] (receive limit incoming count) head.old l (words_in result) head.new l }
    ensures lie { (l : List Row) → Lies script.now (place_after script.now (wait_data limit) (going_at head.old l)) count (words_in result) }
{
    let start = head.used;
    let rest = script::rest(script, start);
    poll::wait_data(head, rest, limit)?;
    script::take_data(head, rest, start, count as usize)
}

// Closes the card clock of a gated host.
fn close_gate(head: &mut Head, rows: &mut [u64]) -> Result<(), Halt>
    ensures { (s : List ℕ) → Went s close_gate head.old (rows_in rows.old) result head.new (rows_in rows.new) }
{
    if head.line.gated {
        return steps::set_clken(head, rows, false);
    }
    Ok(())
}

// Whether a command moves many blocks, until it is told to stop.
pub fn of_many(index: u8) -> bool
    ensures { result ≡ of_many index }
{
    index == 18 || index == 25
}

// Ends a transfer of many blocks.
fn stop_transmission(
    head: &mut Head,
    script: &[u32],
    rows: &mut [u64],
    limit: u32,
    index: u8,
) -> Result<(), Halt>
    ensures { Went script.now (stop_transmission limit index) head.old (rows_in rows.old) result head.new (rows_in rows.new) }
{
    if of_many(index) {
        command::send(head, script, rows, limit, 12, 0, Response::R1)?;
    }
    Ok(())
}

// What follows the poll that completes, and a read's data words.
fn end_data(
    head: &mut Head,
    script: &[u32],
    rows: &mut [u64],
    source: Hertz,
    config: Config,
    index: u8,
    rca: u16,
) -> Result<(), Halt>
    ensures { Went script.now (end_data source.0 config index rca) head.old (rows_in rows.old) result head.new (rows_in rows.new) }
{
    steps::stop_data(head, rows)?;
    close_gate(head, rows)?;
    stop_transmission(head, script, rows, config.poll_limit, index)?;
    ready::wait_ready(head, script, rows, source, config, rca)
}

// A data phase that reads, its refusals as they come.
fn transfer_data<'a>(
    head: &mut Head,
    script: &'a [u32],
    rows: &mut [u64],
    source: Hertz,
    config: Config,
    transfer: Transfer,
    rca: u16,
) -> Result<&'a [u32], Halt>
    ensures took { Took script.now (List ℕ) [] (transfer_data source.0 config incoming transfer rca) head.old (rows_in rows.old) (words_in result) head.new (rows_in rows.new) }
    ensures lie { Lies script.now (data_place script.now config transfer (going_at head.old (rows_in rows.old))) transfer.words (words_in result) }
{
    start_data(head, script, rows, config, transfer)?;
    let words = receive(head, script, config.poll_limit, transfer.words)?;
    end_data(head, script, rows, source, config, transfer.index, rca)?;
    Ok(words)
}

// A data phase that reads, under its guard: the words that were read, lent on from the script.
pub fn blocking_data<'a>(
    head: &mut Head,
    script: &'a [u32],
    rows: &mut [u64],
    source: Hertz,
    config: Config,
    transfer: Transfer,
    rca: u16,
) -> Result<&'a [u32], Halt>
    ensures took { Took script.now (List ℕ) [] (blocking_data source.0 config incoming transfer rca) head.old (rows_in rows.old) (words_in result) head.new (rows_in rows.new) }
    ensures lie { Lies script.now (data_place script.now config transfer (going_at head.old (rows_in rows.old))) transfer.words (words_in result) }
{
    match transfer_data(head, script, rows, source, config, transfer, rca) {
        Ok(words) => Ok(words),
        Err(halt) => Err(steps::close(head, rows, halt)),
    }
}

// A data phase that writes, its refusals as they come.
fn send_data(
    head: &mut Head,
    script: &[u32],
    rows: &mut [u64],
    source: Hertz,
    config: Config,
    transfer: Transfer,
    rca: u16,
    data: &[u8],
) -> Result<(), Halt>
    requires { transfer.words ≡ 128 * (length «data».now / 512) }
    ensures { Took script.now (List ℕ) [] (transfer_data source.0 config (outgoing (words_of «data».now)) transfer rca) head.old (rows_in rows.old) (sent_in result) head.new (rows_in rows.new) }
{
    start_sending(head, script, rows, config, transfer, data)?;
    let rest = script::rest(script, head.used);
    poll::wait_data(head, rest, config.poll_limit)?;
    end_data(head, script, rows, source, config, transfer.index, rca)
}

// A data phase that writes, under its guard. The data has 512 bytes for each 128 words.
pub fn blocking_send(
    head: &mut Head,
    script: &[u32],
    rows: &mut [u64],
    source: Hertz,
    config: Config,
    transfer: Transfer,
    rca: u16,
    data: &[u8],
) -> Result<(), Halt>
    requires { transfer.words ≡ 128 * (length «data».now / 512) }
    ensures { Took script.now (List ℕ) [] (blocking_data source.0 config (outgoing (words_of «data».now)) transfer rca) head.old (rows_in rows.old) (sent_in result) head.new (rows_in rows.new) }
{
    match send_data(head, script, rows, source, config, transfer, rca, data) {
        Ok(()) => Ok(()),
        Err(halt) => Err(steps::close(head, rows, halt)),
    }
}

// A book's settings, and a call of it on a host.
ghost use Rattle.std.specs.Prelude.{◌≡◌, ◌++◌, ◌*◌, ◌≤◌, length, take, drop};
ghost use Rattle.tape.specs.Layout.{rows_in};
ghost use Rattle.host.specs.Calls.{called_of, status_came, blocks_filled, write_came};
ghost use Rattle.calls.specs.Serve.{comes};
ghost use Rattle.book.specs.Readers.{call_asked};
ghost use Rattle.bench.specs.Bench.{settings_in, asking, buffer_after};

use book::layout;
use book::layout::{Asked, Heading, Kind};
use host::blocks;
use host::host::{Called, Sdmmc};
use init::settings::Settings;
use types::clock::Hertz;
use types::config::Config;

// The words of a call's body.
fn body_of(words: &[u32], asked: Asked) -> &[u32]
    ensures { result.now ≡ take asked.body_len (drop asked.body_at words.now) }
{
    blocks::part(words, asked.body_at, asked.body_len)
}

// The data words of a call, the first words of its body: none but of a write.
pub fn data_of(words: &[u32], asked: Asked) -> &[u32]
    ensures { result.now ≡ (call_asked words.now asked).«data» }
{
    let count = layout::data_count(asked.kind, asked.b);
    blocks::part(body_of(words, asked), 0, count)
}

// The script of a call: the words of its body behind its data.
pub fn script_of(words: &[u32], asked: Asked) -> &[u32]
    ensures { result.now ≡ (call_asked words.now asked).script }
{
    let body = body_of(words, asked);
    let count = layout::data_count(asked.kind, asked.b);
    blocks::part(body, count, body.len())
}

// A write of data words, which are laid into the buffer as the bytes that go out.
fn ask_write(
    host: Sdmmc,
    data: &[u32],
    script: &[u32],
    rows: &mut [u64],
    index: u32,
    buffer: &mut [u8],
) -> Called
    ensures answered { result ≡ called_of (write_came host index (blocks_filled «data».now buffer.old) script.now (rows_in rows.old)) }
    ensures listed { rows_in rows.new ≡ (write_came host index (blocks_filled «data».now buffer.old) script.now (rows_in rows.old)).list }
    ensures filled { buffer.new ≡ blocks_filled «data».now buffer.old }
{
    blocks::fill_blocks(buffer, data);
    host.blocking_write_blocks(script, rows, index, buffer)
}

// A status call, told as any other: the status that it gives is in the next host's record too, where a book's trace has it.
fn ask_status(host: Sdmmc, script: &[u32], rows: &mut [u64]) -> Called
    ensures answered { result ≡ called_of (status_came host script.now (rows_in rows.old)) }
    ensures listed { rows_in rows.new ≡ (status_came host script.now (rows_in rows.old)).list }
{
    let read = host.blocking_read_sd_status(script, rows);
    let answer = read.answer;
    let next = read.host;
    Called {
        answer: answer,
        words: read.words,
        rows: read.rows,
        host: next,
    }
}

// One call, with a buffer of its blocks' bytes; a row of no kind is served as a status call.
pub fn ask(host: Sdmmc, words: &[u32], asked: Asked, rows: &mut [u64], buffer: &mut [u8]) -> Called
    ensures answered { result ≡ called_of (comes host (asking (rows_in rows.old) buffer.old words.now asked)) }
    ensures listed { rows_in rows.new ≡ (comes host (asking (rows_in rows.old) buffer.old words.now asked)).list }
    ensures filled { buffer.new ≡ buffer_after (asking (rows_in rows.old) buffer.old words.now asked) (comes host (asking (rows_in rows.old) buffer.old words.now asked)) buffer.old }
{
    let script = script_of(words, asked);
    match Kind::of(asked.kind) {
        Some(Kind::Initialise) => host.blocking_init_card(script, rows, Hertz(asked.a)),
        Some(Kind::Read) => host.blocking_read_blocks(script, rows, asked.a, buffer),
        Some(Kind::Write) => ask_write(host, data_of(words, asked), script, rows, asked.a, buffer),
        Some(Kind::Status) => ask_status(host, script, rows),
        None => ask_status(host, script, rows),
    }
}

// One call, in the part of the buffer that its blocks take.
pub fn ask_in(
    host: Sdmmc,
    words: &[u32],
    asked: Asked,
    rows: &mut [u64],
    buffer: &mut [u8],
) -> Called
    requires { 512 * asked.b ≤ length buffer.old }
    ensures answered { result ≡ called_of (comes host (asking (rows_in rows.old) (take (512 * asked.b) buffer.old) words.now asked)) }
    ensures listed { rows_in rows.new ≡ (comes host (asking (rows_in rows.old) (take (512 * asked.b) buffer.old) words.now asked)).list }
    ensures filled { buffer.new ≡ buffer_after (asking (rows_in rows.old) (take (512 * asked.b) buffer.old) words.now asked) (comes host (asking (rows_in rows.old) (take (512 * asked.b) buffer.old) words.now asked)) (take (512 * asked.b) buffer.old) ++ drop (512 * asked.b) buffer.old }
{
    let bytes = 512 * asked.b as usize;
    ask(host, words, asked, rows, &mut buffer[..bytes])
}

// The settings of a book.
pub fn settings(heading: Heading) -> Settings
    requires { heading.ready_attempts ≤ 65535 }
    ensures { result ≡ settings_in heading }
{
    let flags = heading.flags;
    Settings {
        source: Hertz(heading.source),
        config: Config {
            data_transfer_timeout: heading.data_timeout,
            software_timeout_ms: heading.software_timeout,
            poll_limit: heading.poll_limit,
            card_ready_attempts: heading.ready_attempts as u16,
            allow_clock_bypass: flags % 2 == 1,
        },
        wide: flags / 2 == 1,
    }
}

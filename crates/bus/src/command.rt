// One command to the card.
ghost use Rattle.std.specs.Prelude.{◌≡◌, List, false, ℕ, ◌+◌, ◌^◌, ◌<◌, ◌≤◌, length};
ghost use Rattle.tape.specs.Layout.{rows_in};
ghost use Rattle.tape.specs.Plan.{finally, giving, refusing};
ghost use Rattle.tape.specs.Run.{left_at, value_of, Behind, Settled, Took, Went};
ghost use Rattle.tape.specs.Steps.{set_clken};
ghost use Rattle.bus.specs.Command.{zeros, issue, poll_completion, wait_completion, echo, response_words, judge, answer, complete, command_inner, command, app_command};

use crate::response::{Form, Response};
use tape::progress::{Halt, Head};
use tape::rows::{Icr, Row};
use tape::script::Sta;
use tape::{progress, rows, script, steps};
use types::error::{Error, Field};
use types::status::CardStatus;

// The three rows of a command.
fn issue(
    head: &mut Head,
    rows: &mut [u64],
    index: u8,
    argument: u32,
    form: Form,
) -> Result<(), Halt>
    ensures { (s : List ℕ) → Went s (issue index argument form) head.old (rows_in rows.old) result head.new (rows_in rows.new) }
{
    let order = rows::cmd(index, form.wait);
    rows::write_row(head, rows, Row::ICR, Icr::COMMAND)?;
    rows::write_row(head, rows, Row::ARG, argument)?;
    rows::write_row(head, rows, Row::CMD, order)
}

// One status word, of a script of which `rest` lies behind its first `start` words; refuses where the card is late.
fn poll_completion(head: &mut Head, rest: &[u32], start: usize) -> Result<u32, Halt>
    requires { (start ≤ head.old.used) × (start + length rest.now < 2 ^ 64) }
    ensures { (s : List ℕ) (l : List Row) → Behind start rest.now s → Took s ℕ 0 poll_completion head.old l result head.new l }
{
    let status = script::read_word(head, rest, start)?;
    progress::ensure(status & Sta::TIMED_OUT == 0, Error::Timeout)?;
    Ok(status)
}

// Polls the status, at most `limit` times, until it has a bit that completes the command.
fn wait_completion(
    head: &mut Head,
    rest: &[u32],
    start: usize,
    limit: u32,
    form: Form,
) -> Result<u32, Halt>
    requires { (start ≤ head.old.used) × (start + length rest.now < 2 ^ 64) }
    ensures { (s : List ℕ) (l : List Row) → Behind start rest.now s → Took s ℕ 0 (wait_completion limit form) head.old l result head.new l }
{
    let left = script::rest(rest, head.used - start);
    let waiting = script::quiet(left, limit, form.completion, Sta::TIMED_OUT);
    head.used += waiting;
    if waiting < limit as usize {
        return poll_completion(head, rest, start);
    }
    Err(Halt::Refused(Error::SoftwareTimeout))
}

// The index of the command that the card answers, where the response has it.
fn check_echo(
    head: &mut Head,
    rest: &[u32],
    start: usize,
    index: u8,
    form: Form,
) -> Result<(), Halt>
    requires { (start ≤ head.old.used) × (start + length rest.now < 2 ^ 64) }
    ensures { (s : List ℕ) (l : List Row) → Behind start rest.now s → Went s (echo index form) head.old l result head.new l }
{
    if form.echoes {
        let echo = script::read_word(head, rest, start)?;
        return progress::ensure(echo % 64 == index as u32, Error::ResponseMismatch);
    }
    Ok(())
}

// The four response words, taken in one go.
fn take_words(head: &mut Head, rest: &[u32], start: usize) -> Result<[u32; 4], Halt>
    requires { (start ≤ head.old.used) × (start + length rest.now < 2 ^ 64) }
    ensures { (s : List ℕ) (l : List Row) → Behind start rest.now s → Took s (List ℕ) zeros response_words head.old l result head.new l }
{
    let words = script::take_data(head, rest, start, 4)?;
    Ok([words[0], words[1], words[2], words[3]])
}

// What the first word says of the card.
fn judge(words: [u32; 4], form: Form) -> Result<[u32; 4], Halt>
    ensures { (s : List ℕ) (h : Head) (l : List Row) → Took s (List ℕ) zeros (judge form words) h l result h l }
{
    let status = words[0];
    progress::ensure(status & form.errors == 0, Error::CardStatus(status))?;
    progress::ensure(status & form.locked == 0, Error::CardLocked)?;
    Ok(words)
}

// The response, after the status word that completed the command.
fn take_answer(
    head: &mut Head,
    rest: &[u32],
    start: usize,
    index: u8,
    form: Form,
    status: u32,
) -> Result<[u32; 4], Halt>
    requires { (start ≤ head.old.used) × (start + length rest.now < 2 ^ 64) }
    ensures { (s : List ℕ) (l : List Row) → Behind start rest.now s → Took s (List ℕ) zeros (answer index form status) head.old l result head.new l }
{
    if form.silent {
        return Ok([0; 4]);
    }
    progress::ensure(status & form.crc == 0, Error::Crc)?;
    check_echo(head, rest, start, index, form)?;
    let words = take_words(head, rest, start)?;
    judge(words, form)
}

// Waits until the command is complete, and takes its response.
fn complete(
    head: &mut Head,
    rest: &[u32],
    start: usize,
    limit: u32,
    index: u8,
    form: Form,
) -> Result<[u32; 4], Halt>
    requires { (start ≤ head.old.used) × (start + length rest.now < 2 ^ 64) }
    ensures { (s : List ℕ) (l : List Row) → Behind start rest.now s → Took s (List ℕ) zeros (complete limit index form) head.old l result head.new l }
{
    let status = wait_completion(head, rest, start, limit, form)?;
    take_answer(head, rest, start, index, form, status)
}

// Sends one command, whatever the gate. `rest` is what is left of the script.
pub fn command_inner(
    head: &mut Head,
    rest: &[u32],
    rows: &mut [u64],
    limit: u32,
    index: u8,
    argument: u32,
    response: Response,
) -> Result<[u32; 4], Halt>
    requires { head.old.used + length rest.now < 2 ^ 64 }
    ensures { (s : List ℕ) → Behind head.old.used rest.now s → Took s (List ℕ) zeros (command_inner limit index argument response) head.old (rows_in rows.old) result head.new (rows_in rows.new) }
{
    let start = head.used;
    let form = response.form();
    steps::wait_idle(head, rest, limit, false)?;
    issue(head, rows, index, argument, form)?;
    complete(head, rest, start, limit, index, form)
}

// What the gate makes of a command's answer: the clock off, after a value and after a stop alike, unless there is no room.
fn close_clock(
    head: &mut Head,
    rows: &mut [u64],
    answer: Result<[u32; 4], Halt>,
) -> Result<[u32; 4], Halt>
    ensures { (s : List ℕ) → Settled s (List ℕ) (List ℕ) zeros (giving (set_clken false)) (refusing (set_clken false)) (value_of zeros answer) (left_at answer head.old (rows_in rows.old)) (value_of zeros result) (left_at result head.new (rows_in rows.new)) }
{
    match answer {
        Ok(words) => {
            steps::set_clken(head, rows, false)?;
            Ok(words)
        }
        Err(halt) => match halt {
            Halt::TraceFull => answer,
            _ => {
                steps::set_clken(head, rows, false)?;
                answer
            }
        },
    }
}

// Sends one command over a clock that was opened for it, and closes the clock.
fn command_closing(
    head: &mut Head,
    rest: &[u32],
    rows: &mut [u64],
    limit: u32,
    index: u8,
    argument: u32,
    response: Response,
) -> Result<[u32; 4], Halt>
    requires { head.old.used + length rest.now < 2 ^ 64 }
    ensures { (s : List ℕ) → Behind head.old.used rest.now s → Took s (List ℕ) zeros (finally (set_clken false) (command_inner limit index argument response)) head.old (rows_in rows.old) result head.new (rows_in rows.new) }
{
    let answer = command_inner(head, rest, rows, limit, index, argument, response);
    close_clock(head, rows, answer)
}

// Sends one command; a gated clock is opened for it. `rest` is what is left of the script.
pub fn command(
    head: &mut Head,
    rest: &[u32],
    rows: &mut [u64],
    limit: u32,
    index: u8,
    argument: u32,
    response: Response,
) -> Result<[u32; 4], Halt>
    requires { head.old.used + length rest.now < 2 ^ 64 }
    ensures { (s : List ℕ) → Behind head.old.used rest.now s → Took s (List ℕ) zeros (command limit index argument response) head.old (rows_in rows.old) result head.new (rows_in rows.new) }
{
    if head.line.gated {
        steps::set_clken(head, rows, true)?;
        return command_closing(head, rest, rows, limit, index, argument, response);
    }
    command_inner(head, rest, rows, limit, index, argument, response)
}

// Sends one command from where the call has come in its script.
pub fn send(
    head: &mut Head,
    script: &[u32],
    rows: &mut [u64],
    limit: u32,
    index: u8,
    argument: u32,
    response: Response,
) -> Result<[u32; 4], Halt>
    ensures { Took script.now (List ℕ) zeros (command limit index argument response) head.old (rows_in rows.old) result head.new (rows_in rows.new) }
{
    let rest = script::rest(script, head.used);
    command(head, rest, rows, limit, index, argument, response)
}

// Tells the card that an application command follows.
pub fn app_command(
    head: &mut Head,
    script: &[u32],
    rows: &mut [u64],
    limit: u32,
    rca: u16,
) -> Result<(), Halt>
    ensures { Went script.now (app_command limit rca) head.old (rows_in rows.old) result head.new (rows_in rows.new) }
{
    let argument = rca as u32 * 0x1_0000;
    let told = send(head, script, rows, limit, 55, argument, Response::R1)?;
    progress::ensure(
        told[0] & CardStatus::APP_CMD != 0,
        Error::UnsupportedCardType(Field::AppCommand),
    )
}

// The refusals of the calls: the accepted table, or the first check before 16 that catches. The table's
// checks come first, so what stands behind them judges an accepted table.
#![tactic(auto)]

ghost use Rattle.std.specs.Prelude.{◌≡◌, IfOk, leb};
ghost use Rattle.call_checks.specs.CallChecks.{checkpoint_call_checks, full_of_checkpoints, full_of_messages};
ghost use Rattle.call_checks.specs.CallChecks.{keep_sheet_checks, line_of_set_checks, line_under_checks};
ghost use Rattle.call_checks.specs.CallChecks.{marked_line_checks};
ghost use Rattle.call_checks.specs.CallChecks.{receipt_call_checks, send_call_checks, short_of_lines};
ghost use Rattle.call_checks.specs.CallChecks.{stand_together_checks};
ghost use Rattle.tables.specs.Checks.{first_caught};
ghost use Rattle.tables.specs.Format.{decode};
ghost use Rattle.tables.specs.Refusals.{refusal_in};
ghost use Rattle.tables.specs.Table.{process_count};

use chosen_ceilings::above_counts;
use list_checks::passing::passes_over;
use list_checks::positions::{bad_position, not_rising};
use marks::marks_size;
use named_checkpoints::{NamedCheckpoints, not_below_counts, unknown_process};
use process_set::has_high_bit;
use run_table::checks::check;
use tables::format::{MOST_CHECKPOINTS, MOST_MESSAGES};
use tables::lookups;
use tables::parts::RunTable;
use tables::refusal::Refusal;

// Whether a table has no such process.
fn unknown(table: RunTable<'_>, process: u16) -> bool
    ensures { result ≡ leb (process_count (decode table.entry.bytes.now)) process }
{
    table.process_count() <= process as usize
}

// Whether a table is full of messages.
fn full_of_messages(table: RunTable<'_>) -> bool
    ensures { result ≡ full_of_messages (decode table.entry.bytes.now) }
{
    MOST_MESSAGES <= table.message_count()
}

// Whether a process is full of checkpoints.
fn full_of_checkpoints(table: RunTable<'_>, process: u16) -> bool
    ensures { result ≡ full_of_checkpoints (decode table.entry.bytes.now) process }
{
    MOST_CHECKPOINTS <= lookups::count(table.bytes, process as usize)
}

// Whether a scratch of so many numbers is short of the lines of single holders.
pub fn short_of_lines(table: RunTable<'_>, numbers: usize) -> bool
    ensures { result ≡ short_of_lines (decode table.entry.bytes.now) numbers }
{
    let n = table.process_count();
    numbers < n * n
}

// The line of a set: the table's checks, 12.
pub fn set_refusal(bytes: &[u8], set: u32) -> Result<RunTable<'_>, Refusal>
    ensures refusal { refusal_in result ≡ first_caught (line_of_set_checks bytes.now set) }
    ensures table { IfOk result (λ table. table.bytes.now ≡ bytes.now) }
{
    let table = check(bytes)?;
    if has_high_bit(set, table.process_count()) {
        return Err(Refusal::UnknownProcessInSet);
    }
    Ok(table)
}

// The line under ceilings: the table's checks, 17, 18.
pub fn ceilings_refusal<'a>(bytes: &'a [u8], ceilings: &[u16]) -> Result<RunTable<'a>, Refusal>
    ensures refusal { refusal_in result ≡ first_caught (line_under_checks bytes.now ceilings.now) }
    ensures table { IfOk result (λ table. table.bytes.now ≡ bytes.now) }
{
    let table = check(bytes)?;
    if ceilings.len() != table.process_count() {
        return Err(Refusal::WrongCeilingCount);
    }
    if above_counts(table, ceilings) {
        return Err(Refusal::CeilingTooHigh);
    }
    Ok(table)
}

// The line under ceilings by marking, given the length of the mark buffer: the table's checks, 17, 18, 19.
pub fn marking_refusal<'a>(
    bytes: &'a [u8],
    ceilings: &[u16],
    marks: usize,
) -> Result<RunTable<'a>, Refusal>
    ensures refusal { refusal_in result
        ≡ first_caught (marked_line_checks bytes.now ceilings.now marks) }
    ensures table { IfOk result (λ table. table.bytes.now ≡ bytes.now) }
{
    let table = ceilings_refusal(bytes, ceilings)?;
    if marks < marks_size(table) {
        return Err(Refusal::MarksTooShort);
    }
    Ok(table)
}

// Named checkpoints that stand together: the table's checks, 20, 21, 22.
pub fn names_refusal<'a>(
    bytes: &'a [u8],
    processes: &[u16],
    states: &[u16],
) -> Result<RunTable<'a>, Refusal>
    ensures refusal { refusal_in result ≡ first_caught
        (stand_together_checks bytes.now processes.now states.now) }
    ensures table { IfOk result (λ table. table.bytes.now ≡ bytes.now) }
{
    let table = check(bytes)?;
    if processes.len() != states.len() {
        return Err(Refusal::UnequalLists);
    }
    if unknown_process(table, processes) || not_rising(processes) {
        return Err(Refusal::BadNamedProcess);
    }
    let names = NamedCheckpoints {
        table,
        processes,
        states,
    };
    if not_below_counts(names) {
        return Err(Refusal::NamedStateTooHigh);
    }
    Ok(table)
}

// A send: the table's checks, 10, 11, 14.
pub fn send_refusal(bytes: &[u8], from: u16, to: u16) -> Result<RunTable<'_>, Refusal>
    ensures refusal { refusal_in result ≡ first_caught (send_call_checks bytes.now from to) }
    ensures table { IfOk result (λ table. table.bytes.now ≡ bytes.now) }
{
    let table = check(bytes)?;
    if unknown(table, from) || unknown(table, to) {
        return Err(Refusal::UnknownProcess);
    }
    if from == to {
        return Err(Refusal::SendToItself);
    }
    if full_of_messages(table) {
        return Err(Refusal::TableFull);
    }
    Ok(table)
}

// A receipt: the table's checks, 10, 13, 24.
pub fn receipt_refusal<'a>(
    bytes: &'a [u8],
    process: u16,
    list: &[u16],
) -> Result<RunTable<'a>, Refusal>
    ensures refusal { refusal_in result
        ≡ first_caught (receipt_call_checks bytes.now process list.now) }
    ensures table { IfOk result (λ table. table.bytes.now ≡ bytes.now) }
{
    let table = check(bytes)?;
    if unknown(table, process) {
        return Err(Refusal::UnknownProcess);
    }
    if bad_position(table, process, list) || not_rising(list) {
        return Err(Refusal::BadList);
    }
    if passes_over(table, process, list) {
        return Err(Refusal::MessagePassedOver);
    }
    Ok(table)
}

// A checkpoint: the table's checks, 10, 13, 24, 14.
pub fn checkpoint_refusal<'a>(
    bytes: &'a [u8],
    process: u16,
    list: &[u16],
) -> Result<RunTable<'a>, Refusal>
    ensures refusal { refusal_in result
        ≡ first_caught (checkpoint_call_checks bytes.now process list.now) }
    ensures table { IfOk result (λ table. table.bytes.now ≡ bytes.now) }
{
    let table = receipt_refusal(bytes, process, list)?;
    if full_of_checkpoints(table, process) {
        return Err(Refusal::TableFull);
    }
    Ok(table)
}

// The keep sheet, given the length of the scratch: the table's checks, 15.
pub fn sheet_refusal(bytes: &[u8], numbers: usize) -> Result<RunTable<'_>, Refusal>
    ensures refusal { refusal_in result ≡ first_caught (keep_sheet_checks bytes.now numbers) }
    ensures table { IfOk result (λ table. table.bytes.now ≡ bytes.now) }
{
    let table = check(bytes)?;
    if short_of_lines(table, numbers) {
        return Err(Refusal::ScratchTooShort);
    }
    Ok(table)
}

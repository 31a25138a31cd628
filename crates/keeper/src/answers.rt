// What each call answers, by name: the length of its answer, which stands at the front of the answer buffer, or
// its refusal.
//
// Each reads alike: its refusal by the checks before 16, the size of its answer, 16, the answer. A no of
// `stand_together` has no bytes, and comes before 16.
ghost use Rattle.std.specs.Prelude.{true, ◌≡◌, ℕ, length, IfOk, OnOk};
ghost use Rattle.consistency.specs.Ceilings.{ceiling_of};
ghost use Rattle.steps.specs.Steps.{checkpoint, receive, rollback, send, step};
ghost use Rattle.calls.specs.Calls.{HoldsLatest, HoldsLineOfEach, HoldsSheet, HoldsTable, TellsTogether};
ghost use Rattle.calls.specs.Calls.{YieldsByMarking, checkpoint_answer, keep_sheet_answer, line_of_set_answer};
ghost use Rattle.calls.specs.Calls.{line_under_answer, lines_of_sets_answer, marked_line_answer, marks_after};
ghost use Rattle.calls.specs.Calls.{receipt_answer, recovery_line_answer, rollback_answer, scratch_after};
ghost use Rattle.calls.specs.Calls.{scratch_of_sets, send_answer, stand_together_answer};
ghost use Rattle.process_set.specs.Sets.{member};
ghost use Rattle.call_checks.specs.CallChecks.{stand_together_checks};
ghost use Rattle.keeper.specs.Outcomes.{Outcome, length_in};
ghost use Rattle.tables.specs.Checks.{first_caught};
ghost use Rattle.tables.specs.Format.{decode};
ghost use Rattle.tables.specs.Refusals.{refusal_in};

use crate::sizes::{
    fitting, line_size, lines_size, rollback_size, same_size, send_size, sheet_size,
};
use chosen_ceilings::put_line_under;
use holder_lines::fill_lines;
use holder_lines::scratch::HolderLines;
use marked_line::put_marked_line;
use named_checkpoints::{NamedCheckpoints, misses_named, named_line};
use refusals::{
    ceilings_refusal, checkpoint_refusal, marking_refusal, names_refusal, receipt_refusal,
    send_refusal, set_refusal, sheet_refusal,
};
use rollback::Rollback;
use run_table::checks::check;
use set_lines::put_lines_of_sets;
use set_refusals::sets_refusal;
use sheet_writer::{count_checkpoints, count_messages, put_sheet};
use step_writer::receipts::Receipt;
use step_writer::send::put_send;
use tables::refusal::Refusal;

// Tells an outcome as a call does: returns its number, and writes the length of its answer.
pub fn told(outcome: Result<usize, Refusal>, written: &mut usize) -> u32
    ensures number { result ≡ refusal_in outcome }
    ensures length { written.new ≡ length_in outcome written.old }
{
    match outcome {
        Ok(size) => {
            *written = size;
            0
        }
        Err(refusal) => u32::from(refusal),
    }
}

// The recovery line.
pub(crate) fn recovery_line(bytes: &[u8], answer: &mut [u8]) -> Result<usize, Refusal>
    ensures outcome { Outcome (recovery_line_answer bytes.now (length answer.old)) result
        answer.old answer.new }
    ensures latest { OnOk result (HoldsLatest bytes.now
        (ceiling_of (decode bytes.now) (λ p. true)) answer.new) }
{
    let table = check(bytes)?;
    let size = fitting(line_size(table), answer.len())?;
    lines::put_line_of_set(table, process_set::ALL, answer);
    Ok(size)
}

// The line of a set.
pub(crate) fn line_of_set(bytes: &[u8], set: u32, answer: &mut [u8]) -> Result<usize, Refusal>
    ensures outcome { Outcome (line_of_set_answer bytes.now set (length answer.old)) result
        answer.old answer.new }
    ensures latest { OnOk result (HoldsLatest bytes.now
        (ceiling_of (decode bytes.now) (member set)) answer.new) }
{
    let table = set_refusal(bytes, set)?;
    let size = fitting(line_size(table), answer.len())?;
    lines::put_line_of_set(table, set, answer);
    Ok(size)
}

// The lines of many sets.
pub(crate) fn lines_of_sets(
    bytes: &[u8],
    sets: &[u32],
    scratch: &mut [u16],
    answer: &mut [u8],
) -> Result<usize, Refusal>
    ensures outcome { Outcome (lines_of_sets_answer bytes.now sets.now
        (length scratch.old) (length answer.old)) result answer.old answer.new }
    ensures holders { scratch.new
        ≡ scratch_of_sets (refusal_in result) bytes.now scratch.old }
    ensures each { OnOk result (HoldsLineOfEach bytes.now sets.now answer.new) }
{
    let table = sets_refusal(bytes, sets, scratch.len())?;
    let size = fitting(lines_size(table, sets.len()), answer.len())?;
    put_lines_of_sets(table, sets, scratch, answer);
    Ok(size)
}

// The line under ceilings.
pub(crate) fn line_under(
    bytes: &[u8],
    ceilings: &[u16],
    answer: &mut [u8],
) -> Result<usize, Refusal>
    ensures outcome { Outcome
        (line_under_answer bytes.now ceilings.now (length answer.old)) result
        answer.old answer.new }
    ensures latest { OnOk result (HoldsLatest bytes.now ceilings.now answer.new) }
{
    let table = ceilings_refusal(bytes, ceilings)?;
    let size = fitting(line_size(table), answer.len())?;
    put_line_under(table, ceilings, answer);
    Ok(size)
}

// The line under ceilings, by marking.
pub(crate) fn marked_line(
    bytes: &[u8],
    ceilings: &[u16],
    marks: &mut [u8],
    answer: &mut [u8],
) -> Result<usize, Refusal>
    ensures outcome { (before : ℕ) → YieldsByMarking bytes.now ceilings.now
        (length marks.old) (length answer.old) (refusal_in result)
        answer.old answer.new before (length_in result before) }
    ensures marks { marks.new ≡ marks_after (refusal_in result) bytes.now marks.old }
    ensures same { Outcome (marked_line_answer bytes.now ceilings.now
        (length marks.old) (length answer.old)) result answer.old answer.new }
    ensures latest { OnOk result (HoldsLatest bytes.now ceilings.now answer.new) }
{
    let table = marking_refusal(bytes, ceilings, marks.len())?;
    let size = fitting(line_size(table), answer.len())?;
    put_marked_line(table, ceilings, marks, answer);
    Ok(size)
}

// Whether named checkpoints stand together.
pub(crate) fn stand_together(
    bytes: &[u8],
    processes: &[u16],
    states: &[u16],
    answer: &mut [u8],
) -> Result<usize, Refusal>
    ensures outcome { Outcome
        (stand_together_answer bytes.now processes.now states.now (length answer.old)) result
        answer.old answer.new }
    ensures zigzag { first_caught (stand_together_checks bytes.now processes.now states.now) ≡ 0
        → (before : ℕ) → TellsTogether (decode bytes.now) processes.now states.now (refusal_in result)
        answer.new (length_in result before) }
{
    let table = names_refusal(bytes, processes, states)?;
    let names = NamedCheckpoints {
        table,
        processes,
        states,
    };
    let line = named_line(names);
    if misses_named(line, names) {
        return Ok(0);
    }
    let size = fitting(line_size(table), answer.len())?;
    lines::put_line(table, line, answer);
    Ok(size)
}

// The table after a send.
pub(crate) fn send(bytes: &[u8], from: u16, to: u16, answer: &mut [u8]) -> Result<usize, Refusal>
    ensures outcome { Outcome (send_answer bytes.now from to (length answer.old)) result
        answer.old answer.new }
    ensures table { IfOk result (λ size. HoldsTable (step (decode bytes.now) (send from to))
        answer.new size) }
{
    let table = send_refusal(bytes, from, to)?;
    let size = fitting(send_size(table), answer.len())?;
    put_send(table, from, to, answer);
    Ok(size)
}

// The table after a receipt.
pub(crate) fn receive(
    bytes: &[u8],
    process: u16,
    list: &[u16],
    answer: &mut [u8],
) -> Result<usize, Refusal>
    ensures outcome { Outcome
        (receipt_answer bytes.now process list.now (length answer.old)) result
        answer.old answer.new }
    ensures table { IfOk result (λ size. HoldsTable
        (step (decode bytes.now) (receive process list.now)) answer.new size) }
{
    let table = receipt_refusal(bytes, process, list)?;
    let size = fitting(same_size(table), answer.len())?;
    let receipt = Receipt {
        table,
        process,
        list,
    };
    receipt.put_receipt(answer);
    Ok(size)
}

// The table after a checkpoint.
pub(crate) fn save(
    bytes: &[u8],
    process: u16,
    list: &[u16],
    answer: &mut [u8],
) -> Result<usize, Refusal>
    ensures outcome { Outcome
        (checkpoint_answer bytes.now process list.now (length answer.old)) result
        answer.old answer.new }
    ensures table { IfOk result (λ size. HoldsTable
        (step (decode bytes.now) (checkpoint process list.now)) answer.new size) }
{
    let table = checkpoint_refusal(bytes, process, list)?;
    let size = fitting(same_size(table), answer.len())?;
    let receipt = Receipt {
        table,
        process,
        list,
    };
    receipt.put_checkpoint(answer);
    Ok(size)
}

// The table after a rollback.
pub(crate) fn fall_back(bytes: &[u8], answer: &mut [u8]) -> Result<usize, Refusal>
    ensures outcome { Outcome (rollback_answer bytes.now (length answer.old)) result
        answer.old answer.new }
    ensures table { IfOk result (λ size. HoldsTable (step (decode bytes.now) rollback)
        answer.new size) }
{
    let table = check(bytes)?;
    let line = lines::recovery_line(table);
    let rollback = Rollback { table, line };
    let m = rollback.count_remaining();
    let size = fitting(rollback_size(table, m), answer.len())?;
    rollback.put(m, answer);
    Ok(size)
}

// The keep sheet.
pub fn keep_sheet(bytes: &[u8], scratch: &mut [u16], answer: &mut [u8]) -> Result<usize, Refusal>
    ensures outcome { Outcome
        (keep_sheet_answer bytes.now (length scratch.old) (length answer.old)) result
        answer.old answer.new }
    ensures lines { scratch.new ≡ scratch_after bytes.now scratch.old }
    ensures demand { OnOk result (HoldsSheet (decode bytes.now) answer.new) }
{
    let table = sheet_refusal(bytes, scratch.len())?;
    fill_lines(table, scratch);
    let holders = HolderLines { table, scratch };
    let kept = count_checkpoints(holders);
    let logged = count_messages(holders);
    let size = fitting(sheet_size(kept, logged), answer.len())?;
    put_sheet(holders, kept, logged, answer);
    Ok(size)
}

// The keeper: every call that a user makes, with a C name and no requires. A call answers 0, or the
// number of the first check that catches. On success the answer stands at the front of the answer
// buffer and its length in `written`; on a refusal nothing lent is changed, but that under 16 the
// scratch of a keep sheet holds the lines.
//
// Each call finds its outcome by name, in `answers`, and tells it as numbers; the check of a table is `run_table`'s.
#![tactic(auto)]

pub mod answers;
pub mod sizes;

ghost use Rattle.std.specs.Prelude.{true, ◌≡◌, ℕ, length};
ghost use Rattle.consistency.specs.Ceilings.{ceiling_of};
ghost use Rattle.steps.specs.Steps.{checkpoint, receive, rollback, send, step};
ghost use Rattle.calls.specs.Answers.{Yields};
ghost use Rattle.calls.specs.Calls.{HoldsLatest, HoldsLineOfEach, HoldsSheet, HoldsTable, TellsTogether};
ghost use Rattle.calls.specs.Calls.{YieldsByMarking, checkpoint_answer, keep_sheet_answer, line_of_set_answer};
ghost use Rattle.calls.specs.Calls.{line_under_answer, lines_of_sets_answer, marked_line_answer, marks_after};
ghost use Rattle.calls.specs.Calls.{receipt_answer, recovery_line_answer, rollback_answer, scratch_after};
ghost use Rattle.calls.specs.Calls.{scratch_of_sets, send_answer, stand_together_answer};
ghost use Rattle.process_set.specs.Sets.{member};
ghost use Rattle.call_checks.specs.CallChecks.{stand_together_checks};
ghost use Rattle.tables.specs.Checks.{first_caught, table_refusal};
ghost use Rattle.tables.specs.Format.{decode};

use answers::told;
use run_table::checks::check;

// The refusal of a table: the number of the first of its checks that catches, or 0.
#[unsafe(no_mangle)]
pub extern "C" fn keeper_check_table(table: &[u8]) -> u32
    ensures { result ≡ table_refusal table.now }
{
    match check(table) {
        Ok(_) => 0,
        Err(refusal) => u32::from(refusal),
    }
}

// The recovery line of the run: N numbers by process.
#[unsafe(no_mangle)]
pub extern "C" fn keeper_recovery_line(table: &[u8], answer: &mut [u8], written: &mut usize) -> u32
    ensures outcome { Yields (recovery_line_answer table.now (length answer.old)) result
        answer.old answer.new written.old written.new }
    ensures latest { result ≡ 0 → HoldsLatest table.now
        (ceiling_of (decode table.now) (λ p. true)) answer.new }
{
    told(answers::recovery_line(table, answer), written)
}

// The line of a set of processes that hold: N numbers by process.
#[unsafe(no_mangle)]
pub extern "C" fn keeper_line_of_set(
    table: &[u8],
    set: u32,
    answer: &mut [u8],
    written: &mut usize,
) -> u32
    ensures outcome { Yields (line_of_set_answer table.now set (length answer.old)) result
        answer.old answer.new written.old written.new }
    ensures latest { result ≡ 0 → HoldsLatest table.now
        (ceiling_of (decode table.now) (member set)) answer.new }
{
    told(answers::line_of_set(table, set, answer), written)
}

// The lines of many sets of processes that hold, one after another, N numbers by process each. The scratch
// takes N × N numbers, the lines of single holders; every other line is their minimum over the set's members.
#[unsafe(no_mangle)]
pub extern "C" fn keeper_lines_of_sets(
    table: &[u8],
    sets: &[u32],
    scratch: &mut [u16],
    answer: &mut [u8],
    written: &mut usize,
) -> u32
    ensures outcome { Yields (lines_of_sets_answer table.now sets.now
        (length scratch.old) (length answer.old)) result
        answer.old answer.new written.old written.new }
    ensures holders { scratch.new
        ≡ scratch_of_sets result table.now scratch.old }
    ensures each { result ≡ 0 → HoldsLineOfEach table.now sets.now
        answer.new }
{
    told(
        answers::lines_of_sets(table, sets, scratch, answer),
        written,
    )
}

// The line under ceilings: N numbers by process. The list has a ceiling for each process, at most its
// count, which stands for its virtual checkpoint.
#[unsafe(no_mangle)]
pub extern "C" fn keeper_line_under(
    table: &[u8],
    ceilings: &[u16],
    answer: &mut [u8],
    written: &mut usize,
) -> u32
    ensures outcome { Yields
        (line_under_answer table.now ceilings.now (length answer.old)) result
        answer.old answer.new written.old written.new }
    ensures latest { result ≡ 0 → HoldsLatest table.now ceilings.now
        answer.new }
{
    told(answers::line_under(table, ceilings, answer), written)
}

// The line under ceilings, by the marking procedure on the checkpoint graph: N numbers by process. Its marks take one
// bit a state of the mark buffer.
#[unsafe(no_mangle)]
pub extern "C" fn keeper_marked_line(
    table: &[u8],
    ceilings: &[u16],
    marks: &mut [u8],
    answer: &mut [u8],
    written: &mut usize,
) -> u32
    ensures outcome { YieldsByMarking table.now ceilings.now
        (length marks.old) (length answer.old) result
        answer.old answer.new written.old written.new }
    ensures marks { marks.new ≡ marks_after result table.now marks.old }
    ensures same { Yields (marked_line_answer table.now ceilings.now
        (length marks.old) (length answer.old)) result
        answer.old answer.new written.old written.new }
    ensures latest { result ≡ 0 → HoldsLatest table.now ceilings.now
        answer.new }
{
    told(
        answers::marked_line(table, ceilings, marks, answer),
        written,
    )
}

// Whether named checkpoints stand together, checkpoint `states[k]` of process `processes[k]` for each k:
// yes, with the latest consistent line that has them all, N numbers by process; or no, with no bytes. It is
// a no exactly when a zigzag path leads from one of them to another or to itself.
#[unsafe(no_mangle)]
pub extern "C" fn keeper_stand_together(
    table: &[u8],
    processes: &[u16],
    states: &[u16],
    answer: &mut [u8],
    written: &mut usize,
) -> u32
    ensures outcome { Yields
        (stand_together_answer table.now processes.now states.now
        (length answer.old)) result
        answer.old answer.new written.old written.new }
    ensures zigzag { first_caught (stand_together_checks table.now processes.now states.now) ≡ 0
        → TellsTogether (decode table.now) processes.now states.now result
        answer.new written.new }
{
    told(
        answers::stand_together(table, processes, states, answer),
        written,
    )
}

// The table after a send.
#[unsafe(no_mangle)]
pub extern "C" fn keeper_send(
    table: &[u8],
    from: u16,
    to: u16,
    answer: &mut [u8],
    written: &mut usize,
) -> u32
    ensures outcome { Yields (send_answer table.now from to (length answer.old)) result
        answer.old answer.new written.old written.new }
    ensures table { result ≡ 0 → HoldsTable (step (decode table.now) (send from to))
        answer.new written.new }
{
    told(answers::send(table, from, to, answer), written)
}

// The table after a receipt: a process receives the messages at the listed positions, and takes no
// checkpoint.
#[unsafe(no_mangle)]
pub extern "C" fn keeper_receive(
    table: &[u8],
    process: u16,
    list: &[u16],
    answer: &mut [u8],
    written: &mut usize,
) -> u32
    ensures outcome { Yields
        (receipt_answer table.now process list.now (length answer.old)) result
        answer.old answer.new written.old written.new }
    ensures table { result ≡ 0 → HoldsTable
        (step (decode table.now) (receive process list.now))
        answer.new written.new }
{
    told(answers::receive(table, process, list, answer), written)
}

// The table after a checkpoint (save) of a process, which first receives the messages at the listed
// positions.
#[unsafe(no_mangle)]
pub extern "C" fn keeper_save(
    table: &[u8],
    process: u16,
    list: &[u16],
    answer: &mut [u8],
    written: &mut usize,
) -> u32
    ensures outcome { Yields
        (checkpoint_answer table.now process list.now (length answer.old)) result
        answer.old answer.new written.old written.new }
    ensures table { result ≡ 0 → HoldsTable
        (step (decode table.now) (checkpoint process list.now))
        answer.new written.new }
{
    told(answers::save(table, process, list, answer), written)
}

// The table after a rollback (fall back) of the whole run to its recovery line.
#[unsafe(no_mangle)]
pub extern "C" fn keeper_fall_back(table: &[u8], answer: &mut [u8], written: &mut usize) -> u32
    ensures outcome { Yields (rollback_answer table.now (length answer.old)) result
        answer.old answer.new written.old written.new }
    ensures table { result ≡ 0 → HoldsTable (step (decode table.now) rollback)
        answer.new written.new }
{
    told(answers::fall_back(table, answer), written)
}

// The keep sheet: what must be kept, and nothing more. The scratch takes N × N numbers, the lines of
// single holders. On success the bytes in the buffer list a checkpoint, or a message, exactly when some
// future of the run needs it.
#[unsafe(no_mangle)]
pub extern "C" fn keeper_keep_sheet(
    table: &[u8],
    scratch: &mut [u16],
    answer: &mut [u8],
    written: &mut usize,
) -> u32
    ensures outcome { Yields
        (keep_sheet_answer table.now (length scratch.old) (length answer.old)) result
        answer.old answer.new written.old written.new }
    ensures lines { scratch.new ≡ scratch_after table.now scratch.old }
    ensures demand { result ≡ 0 → HoldsSheet (decode table.now) answer.new }
{
    told(answers::keep_sheet(table, scratch, answer), written)
}

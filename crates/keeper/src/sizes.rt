// The sizes of the answers, in bytes, and room for them.
ghost use Rattle.std.specs.Prelude.{◌≡◌, ℕ, ◌+◌, ◌*◌, ◌<◌, ◌≤◌, MatchResult};
ghost use Rattle.call_checks.specs.CallChecks.{most_sets};
ghost use Rattle.tables.specs.Format.{decode, table_length};
ghost use Rattle.tables.specs.Table.{message_count, most_messages, process_count};

use tables::format::table_length;
use tables::parts::RunTable;
use tables::refusal::Refusal;

// A line of N numbers.
pub fn line_size(table: RunTable<'_>) -> usize
    ensures { result ≡ 2 * process_count (decode table.entry.bytes.now) }
{
    2 * table.process_count()
}

// The lines of so many sets, one after another.
pub fn lines_size(table: RunTable<'_>, sets: usize) -> usize
    requires { sets ≤ most_sets }
    ensures { result ≡ 2 * process_count (decode table.entry.bytes.now) * sets }
{
    2 * table.process_count() * sets
}

// The table after a send: one message more.
pub fn send_size(table: RunTable<'_>) -> usize
    ensures { result ≡ table_length (process_count (decode table.entry.bytes.now))
        (message_count (decode table.entry.bytes.now) + 1) }
{
    table_length(table.process_count(), table.message_count() + 1)
}

// A table with as many processes and messages, as a receipt and a checkpoint leave it.
pub fn same_size(table: RunTable<'_>) -> usize
    ensures { result ≡ table_length (process_count (decode table.entry.bytes.now))
        (message_count (decode table.entry.bytes.now)) }
{
    table.bytes.len()
}

// The table after a rollback: m messages stay.
pub fn rollback_size(table: RunTable<'_>, m: usize) -> usize
    requires { m ≤ most_messages }
    ensures { result ≡ table_length (process_count (decode table.entry.bytes.now)) m }
{
    table_length(table.process_count(), m)
}

// A keep sheet of K checkpoints and Q messages.
pub fn sheet_size(kept: usize, logged: usize) -> usize
    requires kept_bound { kept < 65536 }
    requires logged_bound { logged < 65536 }
    ensures { result ≡ 4 + 4 * kept + 2 * logged }
{
    4 + 4 * kept + 2 * logged
}

// The size of an answer, where it fits an answer buffer of so many bytes.
pub(crate) fn fitting(size: usize, room: usize) -> Result<usize, Refusal>
    ensures { MatchResult result (λ length. (length ≡ size) × (size ≤ room))
        (λ refusal. (refusal ≡ Refusal.AnswerTooShort) × (room < size)) }
{
    if room < size {
        return Err(Refusal::AnswerTooShort);
    }
    Ok(size)
}

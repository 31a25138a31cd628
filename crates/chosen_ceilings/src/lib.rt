// Ceilings that a caller chooses: a number for each process, the latest at which it may stand. A
// checkpoint's number is below the process's count; the count stands for its virtual checkpoint.
#![tactic(auto)]

ghost use Rattle.std.specs.Prelude.{◌≡◌, ◌*◌, ◌≤◌, length};
ghost use Rattle.consistency.specs.Ceilings.{above_counts};
ghost use Rattle.consistency.specs.Lowering.{line_under};
ghost use Rattle.tables.specs.Format.{decode};
ghost use Rattle.tables.specs.Numbers.{put_at, u16s};
ghost use Rattle.tables.specs.Table.{most_processes, process_count};

use lines::{line_under, put_line};
use tables::parts::{RunTable, number_array};

// Whether one of N ceilings is above the count of its process in an accepted table.
pub fn above_counts(table: RunTable, ceilings: &[u16]) -> bool
    requires ceilings_len { length ceilings.now ≡ process_count (decode table.bytes.now) }
    ensures { result ≡ above_counts (decode table.entry.bytes.now) ceilings.now }
{
    let counts = table.count_array();
    ceilings
        .iter()
        .zip(&counts)
        .any(|(&ceiling, &count)| count < ceiling)
}

// Writes the line under N ceilings in an accepted table to the front of a buffer that has room for it.
pub fn put_line_under(table: RunTable, ceilings: &[u16], answer: &mut [u8])
    requires ceilings_len { length ceilings.now ≡ process_count (decode table.bytes.now) }
    requires table_in_bounds { 2 * process_count (decode table.bytes.now) ≤ length answer.old }
    ensures { answer.new ≡ put_at answer.old 0
        (u16s (line_under (decode table.entry.bytes.now).messages ceilings.now)) }
{
    put_line(table, line_under(table, number_array(ceilings)), answer);
}

// Lines of a run table: the latest consistent line under a ceiling, and the ceiling of a process set. A
// line is an array of 32 numbers by value; its entries at N and above are 0, and so are a ceiling's.
#![tactic(auto)]

pub mod ceilings;
pub mod settling;

ghost use Rattle.std.specs.Prelude.{◌≡◌, ◌*◌, ◌≤◌, length, take};
ghost use Rattle.consistency.specs.Ceilings.{ceiling_of, line_of, recovery_line};
ghost use Rattle.consistency.specs.Lowering.{line_under};
ghost use Rattle.process_set.specs.Sets.{member};
ghost use Rattle.tables.specs.Arrays.{array_of};
ghost use Rattle.tables.specs.Format.{decode};
ghost use Rattle.tables.specs.Numbers.{put_at, u16s};
ghost use Rattle.tables.specs.Table.{process_count};

use number_writer::put_numbers;
use settling::settle;
use tables::parts::RunTable;

// The line under a ceiling in an accepted table. A few passes are tried first where `few` says so; it
// says afterwards whether they are worth another try: not once they did not settle a line. It goes on from
// line to line, and is no answer beside this one.
pub fn settled_line(table: RunTable, ceiling: [u16; 32], few: &mut bool) -> [u16; 32]
    ensures { result ≡ line_under (decode table.entry.bytes.now).messages ceiling }
{
    settle(ceiling, table.process_count(), table.messages(), few)
}

// The line under a ceiling in an accepted table.
pub fn line_under(table: RunTable, ceiling: [u16; 32]) -> [u16; 32]
    ensures { result ≡ line_under (decode table.entry.bytes.now).messages ceiling }
{
    let mut few = true;
    settled_line(table, ceiling, &mut few)
}

// The ceiling of a set in an accepted table.
pub fn ceiling_of_set(table: RunTable, set: u32) -> [u16; 32]
    ensures { result ≡ array_of (ceiling_of (decode table.entry.bytes.now) (member set)) }
{
    ceilings::ceiling(table.counts(), table.process_count(), set)
}

// The line of a set in an accepted table: the one under its ceiling.
pub fn line_of_set(table: RunTable, set: u32) -> [u16; 32]
    ensures { result ≡ array_of (line_of (decode table.entry.bytes.now) (member set)) }
{
    line_under(table, ceiling_of_set(table, set))
}

// The recovery line of an accepted table: the line of all processes.
pub fn recovery_line(table: RunTable) -> [u16; 32]
    ensures { result ≡ array_of (recovery_line (decode table.entry.bytes.now)) }
{
    line_of_set(table, process_set::ALL)
}

// Writes a line of an accepted table, N numbers, to the front of a buffer that has room for it. Room in a lent
// buffer is a clause here and elsewhere: a ghost field beside a `&mut` is not covered by the prover.
pub fn put_line(table: RunTable, line: [u16; 32], answer: &mut [u8])
    requires table_in_bounds { 2 * process_count (decode table.bytes.now) ≤ length answer.old }
    ensures { answer.new
        ≡ put_at answer.old 0 (u16s (take (process_count (decode table.entry.bytes.now)) line)) }
{
    let n = table.process_count();
    put_numbers(answer, 0, &line[..n]);
}

// Writes the line of a set in an accepted table to the front of a buffer that has room for it.
pub fn put_line_of_set(table: RunTable, set: u32, answer: &mut [u8])
    requires table_in_bounds { 2 * process_count (decode table.bytes.now) ≤ length answer.old }
    ensures { answer.new
        ≡ put_at answer.old 0 (u16s (line_of (decode table.entry.bytes.now) (member set))) }
{
    put_line(table, line_of_set(table, set), answer);
}

// The lines of many sets: the lines of single holders are found once, and the line of each set is their
// place-by-place minimum over its members. That of the empty set is the counts.
#![tactic(auto)]

ghost use Rattle.std.specs.Prelude.{◌≡◌, ◌*◌, ◌≤◌, get_or, length};
ghost use Rattle.consistency.specs.Ceilings.{holder_lines, line_of};
ghost use Rattle.process_set.specs.Sets.{member};
ghost use Rattle.tables.specs.Format.{decode};
ghost use Rattle.tables.specs.Lists.{rows};
ghost use Rattle.tables.specs.Numbers.{put_at, u16s};
ghost use Rattle.tables.specs.Table.{process_count};

use holder_lines::fill_lines;
use holder_lines::scratch::HolderLines;
use member_lines::line_of_members;
use number_writer::put_numbers;
use tables::parts::RunTable;

// Writes the lines of sets of an accepted table, one after another, to the front of a buffer that has room
// for them, from the lines of its single holders.
fn put_each(holders: HolderLines, sets: &[u32], answer: &mut [u8])
    requires sets_in_bounds { 2 * process_count (decode holders.table.bytes.now) * length sets.now
        ≤ length answer.old }
    ensures { answer.new ≡ put_at answer.old 0 (u16s (rows
        (λ k. line_of (decode holders.entry.table.bytes.now) (member (get_or sets.now k 0)))
        (length sets.now))) }
{
    let counts = holders.table.count_array();
    let lines = holders.lines();
    let mut at = 0;
    for set in sets {
        let line = line_of_members(lines, counts, *set);
        put_numbers(answer, at, &line[..lines.n]);
        at += 2 * lines.n;
    }
}

// Writes the lines of single holders to the front of a scratch that has room for them, and those of sets, one
// after another, to the front of a buffer that has room for them.
pub fn put_lines_of_sets(table: RunTable, sets: &[u32], scratch: &mut [u16], answer: &mut [u8])
    requires table_in_bounds { process_count (decode table.bytes.now) * process_count (decode table.bytes.now)
        ≤ length scratch.old }
    requires sets_in_bounds { 2 * process_count (decode table.bytes.now) * length sets.now ≤ length answer.old }
    ensures holders { scratch.new
        ≡ put_at scratch.old 0 (holder_lines (decode table.entry.bytes.now)) }
    ensures lines { answer.new ≡ put_at answer.old 0 (u16s (rows
        (λ k. line_of (decode table.entry.bytes.now) (member (get_or sets.now k 0)))
        (length sets.now))) }
{
    fill_lines(table, scratch);
    put_each(HolderLines { table, scratch }, sets, answer);
}

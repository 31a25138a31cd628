// The lines of single holders: the line of one process that takes no further checkpoint, and all N of them
// in a scratch, one after another.
#![tactic(auto)]

pub mod propagation;
pub mod scratch;

ghost use Rattle.std.specs.Prelude.{◌≡◌, ◌*◌, ◌^◌, ◌≤◌, ◌<◌, length};
ghost use Rattle.consistency.specs.Ceilings.{holder_lines, line_of};
ghost use Rattle.holder_lines.specs.Propagation.{propagates_from};
ghost use Rattle.process_set.specs.Sets.{member};
ghost use Rattle.tables.specs.Arrays.{array_of};
ghost use Rattle.tables.specs.Format.{decode};
ghost use Rattle.tables.specs.Lists.{tabulate};
ghost use Rattle.tables.specs.Numbers.{put_at};
ghost use Rattle.tables.specs.Table.{process_count};

use lines::{ceiling_of_set, settled_line};
use number_writer::store_numbers;
use process_set::bit;
use tables::parts::RunTable;

// Whether a rollback of each process of an accepted table to its last checkpoint propagates.
pub fn propagating(table: RunTable) -> [bool; 32]
    ensures { result ≡ tabulate 32 (propagates_from (decode table.entry.bytes.now)) }
{
    propagation::propagating(table.counts(), table.messages())
}

// The line of process k alone in an accepted table. Where a rollback of k does not propagate, it is the
// ceiling, and nothing is looked at. Else a few passes are tried first where `few` says so, and it says
// afterwards whether they are worth another try; it goes on to the next line, and is no answer beside this one.
pub fn line_of_holder(table: RunTable, k: usize, propagates: bool, few: &mut bool) -> [u16; 32]
    requires k_bound { k < 32 }
    requires propagates_value { propagates ≡ propagates_from (decode table.bytes.now) k }
    ensures { result ≡ array_of (line_of (decode table.entry.bytes.now) (member (2 ^ k))) }
{
    let ceiling = ceiling_of_set(table, bit(k));
    if !propagates {
        return ceiling;
    }
    settled_line(table, ceiling, few)
}

// Writes the lines of all single holders to the front of a scratch that has room for N × N numbers. Once
// a few passes did not settle a line, they are not tried for the next ones.
pub fn fill_lines(table: RunTable, scratch: &mut [u16])
    requires table_in_bounds { process_count (decode table.bytes.now) * process_count (decode table.bytes.now)
        ≤ length scratch.old }
    ensures { scratch.new
        ≡ put_at scratch.old 0 (holder_lines (decode table.entry.bytes.now)) }
{
    let n = table.process_count();
    let propagates = propagating(table);
    let mut few = true;
    for k in 0..n {
        let line = line_of_holder(table, k, propagates[k], &mut few);
        store_numbers(scratch, n * k, &line[..n]);
    }
}

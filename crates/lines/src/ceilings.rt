// The ceiling of a process set.
ghost use Rattle.std.specs.Prelude.{cond, ◌≡◌, ◌-◌, ◌<◌};
ghost use Rattle.lines.specs.Arrays.{height_at};
ghost use Rattle.tables.specs.Lists.{tabulate};
ghost use Rattle.tables.specs.Parts.{Counts};

use process_set::is_member;
use tables::numbers::u16_at;

// How high a process of so many checkpoints may stand: at its last one where it holds, and else at
// its virtual one.
fn height(count: u16, holds: bool) -> u16
    requires { 0 < count }
    ensures { result ≡ cond holds (count - 1) count }
{
    if holds {
        return count - 1;
    }
    count
}

// The ceiling of a set, from a part of n counts of which none is 0: callers have N, which would be a division here.
pub fn ceiling(counts: &[u8], n: usize, set: u32) -> [u16; 32]
    requires { Counts n counts.now }
    ensures { result ≡ tabulate 32 (height_at n set counts.now) }
{
    let mut line = [0u16; 32];
    for p in 0..n {
        line[p] = height(u16_at(counts, 2 * p), is_member(set, p));
    }
    line
}

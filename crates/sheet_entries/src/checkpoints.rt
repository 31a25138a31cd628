// The kept checkpoints: those below a process's count that some line has there.
ghost use Rattle.std.specs.Prelude.{◌≡◌, ◌<◌, ◌≤◌, length};
ghost use Rattle.holder_lines.specs.Held.{line_held};
ghost use Rattle.sheet_entries.specs.Kept.{FirstBelow, checkpoints_of, kept_of, shows};
ghost use Rattle.tables.specs.Parts.{Counts};

use holder_lines::scratch::HeldLines;
use tables::numbers::u16_at;

// The first checkpoint from a start on, below a count, that some line has at process i.
pub fn next_kept(lines: HeldLines, i: usize, from: u16, count: u16) -> Option<u16>
    requires i_lt_n { i < lines.n }
    requires from_le_count { from ≤ count }
    ensures { FirstBelow (shows lines.entry.n (line_held lines.entry) i) from count result }
{
    // By a loop: as `map`, `filter` and `min` a sheet of 32 processes takes 1.3 times the instructions.
    let mut least = count;
    for k in 0..lines.n {
        let checkpoint = lines.number(k, i);
        if from <= checkpoint && checkpoint < least {
            least = checkpoint;
        }
    }
    if least < count { Some(least) } else { None }
}

// How many checkpoints of process i are kept.
fn count_kept_of(lines: HeldLines, i: usize, count: u16) -> usize
    requires { i < lines.n }
    ensures { result ≡ length (kept_of lines.entry.n (line_held lines.entry) i count) }
{
    let mut kept = 0;
    let mut from = 0;
    while let Some(checkpoint) = next_kept(lines, i, from, count) {
        kept += 1;
        from = checkpoint + 1;
    }
    kept
}

// How many checkpoints are kept of the processes, from a part of their counts.
pub fn count_kept(lines: HeldLines, counts: &[u8]) -> usize
    requires { Counts lines.n counts.now }
    ensures { result ≡ length (checkpoints_of lines.entry.n (line_held lines.entry) counts.now) }
{
    (0..lines.n)
        .map(|i| count_kept_of(lines, i, u16_at(counts, 2 * i)))
        .sum()
}

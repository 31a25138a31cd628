// The minimum, place by place, of the lines of a set's members.
#![tactic(auto)]

ghost use Rattle.std.specs.Prelude.{◌≡◌, ◌≤◌, min, get_or, length};
ghost use Rattle.consistency.specs.Ceilings.{smallest};
ghost use Rattle.consistency.specs.Lines.{as_line};
ghost use Rattle.holder_lines.specs.Held.{line_held};
ghost use Rattle.process_set.specs.Sets.{member};
ghost use Rattle.tables.specs.Arrays.{Filled};

use holder_lines::scratch::HeldLines;
use process_set::is_member;

// Lowers a line to numbers: at each place of these the smaller one stays.
fn lower_to(line: &mut [u16], numbers: &[u16])
    requires { length numbers.now ≤ length line.old }
    ensures { Filled (λ i. min (get_or numbers.now i 0) (get_or line.old i 0))
        (length numbers.now) line.old line.new }
{
    // By its index: of `line.iter_mut().zip(numbers)` a proof is not told what the line is afterwards.
    for (i, number) in numbers.iter().enumerate() {
        line[i] = (*number).min(line[i]);
    }
}

// The minimum of the counts of n processes and of the members' lines.
pub fn line_of_members(lines: HeldLines, counts: [u16; 32], set: u32) -> [u16; 32]
    ensures { Filled (smallest lines.entry.n (member set) (line_held lines.entry) (as_line counts))
        lines.entry.n counts result }
{
    let mut line = counts;
    for k in 0..lines.n {
        if is_member(set, k) {
            lower_to(&mut line, lines.line(k));
        }
    }
    line
}

// The line under ceilings by the marking procedure: its root set is an array by value, its marks are the bits
// of a lent buffer.
#![tactic(auto)]

ghost use Rattle.std.specs.Prelude.{false, ◌||◌, ◌≡◌, ◌+◌, ◌*◌, ◌≤◌, ◌<◌, eqb};
ghost use Rattle.std.specs.Prelude.{get_or, length, take};
ghost use Rattle.consistency.specs.Ceilings.{Ceiling};
ghost use Rattle.marked_line.specs.Marking.{GaveWay, Given, Kept, LatestUnset, Lent, OnlyBehind};
ghost use Rattle.marked_line.specs.Marking.{PassMade, PutByMarking, Reached, Ready, RoundMade, Running};
ghost use Rattle.marked_line.specs.Marking.{RoundReady, Unmarked, ZeroUnmarked};
ghost use Rattle.marking.specs.Procedure.{EndsWith};
ghost use Rattle.marks.specs.Bits.{first_bit, marked_in};
ghost use Rattle.marks.specs.Room.{cleared, marks_size};
ghost use Rattle.tables.specs.Format.{decode};
ghost use Rattle.tables.specs.Lists.{any_below};
ghost use Rattle.tables.specs.Table.{count_of, process_count};

use lines::put_line;
use marks::{Layout, clear};
use tables::parts::{RunTable, number_array};

// Marks the states behind the roots, where nothing is marked. Layout, roots and marks go together through what
// follows, and `Lent` stays a clause: a ghost field beside a `&mut` is not covered by the prover.
fn mark_behind(layout: &Layout, roots: &[u16], marks: &mut [u8])
    requires lent { Lent (decode layout.now.table.bytes.now) roots.now marks.old }
    requires unmarked { Unmarked (decode layout.now.table.bytes.now) marks.old }
    ensures kept { Kept (decode layout.now.table.bytes.now) marks.old marks.new }
    ensures only_behind { OnlyBehind (decode layout.now.table.bytes.now) roots.now marks.new }
{
    let n = layout.table.process_count();
    for p in 0..n {
        layout.mark_from(marks, p, usize::from(roots[p]) + 1);
    }
}

// Whether state y of process p is its root, or is marked.
fn is_root_or_marked(layout: &Layout, roots: &[u16], marks: &[u8], p: usize, y: u16) -> bool
    requires lent { Lent (decode layout.now.table.bytes.now) roots.now marks.now }
    requires known { p < process_count (decode layout.now.table.bytes.now) }
    requires there { y ≤ count_of (decode layout.now.table.bytes.now) p }
    ensures { result ≡ (eqb y (get_or roots.now p 0)
        || marked_in (decode layout.now.table.bytes.now) marks.now p y) }
{
    y == roots[p] || layout.is_marked(marks, p, y)
}

// A pass over the messages, from the last to the first: where a message was sent from a root or from a marked
// state, marks the state of its receipt and those behind it. Says whether it marked any.
fn pass(layout: &Layout, roots: &[u16], marks: &mut [u8]) -> bool
    requires lent { Lent (decode layout.now.table.bytes.now) roots.now marks.old }
    requires ready { Ready (decode layout.now.table.bytes.now) roots.now marks.old }
    ensures { PassMade (decode layout.now.table.bytes.now) roots.now marks.old marks.new result }
{
    let messages = layout.table.messages();
    let mut marked = false;
    for k in (0..messages.count).rev() {
        let received = messages.received(k);
        if received == 0 {
            continue;
        }
        let receiver = messages.receiver(k);
        if layout.is_marked(marks, receiver, received) {
            continue;
        }
        let sender = messages.sender(k);
        let sent = messages.sent(k);
        if !is_root_or_marked(layout, roots, marks, sender, sent) {
            continue;
        }
        layout.mark_from(marks, receiver, usize::from(received));
        marked = true;
    }
    marked
}

// Marks all that is strictly reachable from the roots.
fn mark_reachable(layout: &Layout, roots: &[u16], marks: &mut [u8])
    requires lent { Lent (decode layout.now.table.bytes.now) roots.now marks.old }
    requires ready { Ready (decode layout.now.table.bytes.now) roots.now marks.old }
    ensures { Reached (decode layout.now.table.bytes.now) roots.now marks.old marks.new }
{
    while pass(layout, roots, marks) {}
}

// Whether a root is marked.
fn root_marked(layout: &Layout, roots: &[u16], marks: &[u8]) -> bool
    requires { Lent (decode layout.now.table.bytes.now) roots.now marks.now }
    ensures { result ≡ any_below (process_count (decode layout.now.table.bytes.now))
        (λ p. marked_in (decode layout.now.table.bytes.now) marks.now p (get_or roots.now p 0)) }
{
    let n = layout.table.process_count();
    (0..n).any(|p| layout.is_marked(marks, p, roots[p]))
}

// The latest unmarked state at or below the root of process p, whose state 0 is not marked.
fn latest_unmarked(layout: &Layout, marks: &[u8], p: usize, root: u16) -> u16
    requires known { p < process_count (decode layout.now.table.bytes.now) }
    requires there { root ≤ count_of (decode layout.now.table.bytes.now) p }
    requires room { marks_size (decode layout.now.table.bytes.now) ≤ length marks.now }
    requires zero_unmarked { marked_in (decode layout.now.table.bytes.now) marks.now p 0 ≡ false }
    ensures { LatestUnset marks.now (first_bit (decode layout.now.table.bytes.now).counts p) root result }
{
    (1..=root)
        .rev()
        .find(|y| !layout.is_marked(marks, p, *y))
        .unwrap_or(0)
}

// The roots after each gave way to the latest unmarked state at or below it.
fn give_way(layout: &Layout, roots: &[u16], marks: &[u8]) -> [u16; 32]
    requires lent { Lent (decode layout.now.table.bytes.now) roots.now marks.now }
    requires zero_unmarked { ZeroUnmarked (decode layout.now.table.bytes.now) marks.now }
    ensures { GaveWay (decode layout.now.table.bytes.now) roots.now marks.now result }
{
    let n = layout.table.process_count();
    let mut next = [0u16; 32];
    for p in 0..n {
        next[p] = latest_unmarked(layout, marks, p, roots[p]);
    }
    next
}

// Starts the procedure: the roots are at N ceilings, and all that is reachable from them is marked, whatever
// stood in the buffer.
fn start(layout: &Layout, ceilings: &[u16], marks: &mut [u8]) -> [u16; 32]
    requires { Given (decode layout.now.table.bytes.now) ceilings.now marks.old }
    ensures { Running (decode layout.now.table.bytes.now) ceilings.now result marks.old marks.new }
{
    let roots = number_array(ceilings);
    clear(marks, layout.size());
    mark_behind(layout, &roots, marks);
    mark_reachable(layout, &roots, marks);
    roots
}

// A round: each marked root gives way, and all that is reachable from the new roots is marked.
fn next_round(layout: &Layout, roots: &[u16], marks: &mut [u8]) -> [u16; 32]
    requires { RoundReady (decode layout.now.table.bytes.now) roots.now marks.old }
    ensures { RoundMade (decode layout.now.table.bytes.now) roots.now marks.old result marks.new }
{
    let next = give_way(layout, roots, marks);
    mark_reachable(layout, &next, marks);
    next
}

// Runs the procedure from N ceilings until no root is marked: its last roots.
fn last_roots(layout: &Layout, ceilings: &[u16], marks: &mut [u8]) -> [u16; 32]
    requires { Given (decode layout.now.table.bytes.now) ceilings.now marks.old }
    ensures ends_with { EndsWith (decode layout.now.table.bytes.now) ceilings.now
        (take (process_count (decode layout.now.table.bytes.now)) result) }
    ensures kept { Kept (decode layout.now.table.bytes.now) marks.old marks.new }
{
    let mut roots = start(layout, ceilings, marks);
    while root_marked(layout, &roots, marks) {
        roots = next_round(layout, &roots, marks);
    }
    roots
}

// The line under N ceilings in an accepted table, by marking. The marks take the first bytes of the buffer, and
// leave them cleared.
fn marked_line(table: RunTable, ceilings: &[u16], marks: &mut [u8]) -> [u16; 32]
    requires ceiling { Ceiling (decode table.bytes.now) ceilings.now }
    requires table_in_bounds { marks_size (decode table.bytes.now) ≤ length marks.old }
    ensures ends_with { EndsWith (decode table.entry.bytes.now) ceilings.now
        (take (process_count (decode table.entry.bytes.now)) result) }
    ensures marks_after { marks.new ≡ cleared (marks_size (decode table.entry.bytes.now)) marks.old }
{
    let layout = Layout::of(table);
    let roots = last_roots(&layout, ceilings, marks);
    let size = layout.size();
    clear(marks, size);
    roots
}

// Writes the line under N ceilings in an accepted table, by marking, to the front of a buffer that has room for it.
pub fn put_marked_line(table: RunTable, ceilings: &[u16], marks: &mut [u8], answer: &mut [u8])
    requires ceiling { Ceiling (decode table.bytes.now) ceilings.now }
    requires table_in_bounds { marks_size (decode table.bytes.now) ≤ length marks.old }
    requires table_in_bounds_2 { 2 * process_count (decode table.bytes.now) ≤ length answer.old }
    ensures put_by_marking { PutByMarking (decode table.entry.bytes.now) ceilings.now answer.old
        answer.new }
    ensures marks_after { marks.new ≡ cleared (marks_size (decode table.entry.bytes.now)) marks.old }
{
    let line = marked_line(table, ceilings, marks);
    put_line(table, line, answer);
}

// A chase of rollbacks from process to process, in front of the passes: each process goes back over its own
// messages as far as its line has fallen, and no further. In a table that a run writes, the send numbers of
// a process never fall with the position, and a chase leaves no orphan.
#![tactic(auto)]

ghost use Rattle.std.specs.Prelude.{◌≡◌, ◌+◌, ◌≤◌, ◌<◌, IfSome, MatchOption};
ghost use Rattle.lowering.specs.Lowered.{BroughtDown, all_messages};
ghost use Rattle.tables.specs.Format.{message_at};
ghost use Rattle.tables.specs.Lists.{tabulate};
ghost use Rattle.tables.specs.Table.{most_messages, most_processes};

use std::array;
use sweep::sweep;
use tables::messages::MessageParts;

// The last of the k messages at the front that process p sent. Eight at a time, which was measured to be
// quicker than one by one: counted from 0, so that the compiler writes the eight out.
fn last_sent(messages: MessageParts, p: usize, k: usize) -> Option<usize>
    requires { k ≤ messages.count }
    ensures { IfSome result (λ j. (j < k)
        × ((message_at messages.entry.sends.now messages.entry.receipts.now j).sender ≡ p)) }
{
    let mut at = k;
    'eights: while 8 <= at {
        for b in 0..8 {
            if messages.sender(at - b - 1) == p {
                return Some(at - b - 1);
            }
        }
        at -= 8;
    }
    (0..at).rev().find(|j| messages.sender(*j) == p)
}

// Each process at its own place.
fn every_process() -> [u16; 32]
    ensures { result ≡ tabulate 32 (λ p. p) }
{
    array::from_fn(|p| p as u16)
}

// The cursor that stands behind a message, or in front of all where there is none.
fn behind(message: Option<usize>) -> u16
    requires { IfSome message (λ k. k < most_messages) }
    ensures { MatchOption message (result ≡ 0) (λ k. result ≡ k + 1) }
{
    match message {
        Some(k) => (k + 1) as u16,
        None => 0,
    }
}

// A start, brought down by the messages between n processes: by a sweep, and then by one process after
// another that goes back from its cursor. On the stack are those whose line may have fallen since they last
// went back: at first all. It is an array with a height, since the library has no heap.
pub fn chase(start: [u16; 32], n: usize, messages: MessageParts) -> [u16; 32]
    requires n_le_most_processes { n ≤ most_processes }
    ensures { BroughtDown (all_messages messages.entry) start result }
{
    let mut line = start;
    let mut cursors = [0u16; 32];
    sweep(&mut line, &mut cursors, n, messages);
    let mut stack = every_process();
    let mut stacked = [true; 32];
    let mut height = n;
    'chase: while 0 < height {
        height -= 1;
        let p = stack[height] as usize;
        stacked[p] = false;
        let fallen = line[p];
        let mut next = last_sent(messages, p, cursors[p] as usize);
        'back: while let Some(k) = next {
            if messages.sent(k) < fallen {
                break 'back;
            }
            let receiver = messages.receiver(k);
            let received = messages.received(k);
            next = last_sent(messages, p, k);
            if received == 0 {
                continue;
            }
            if line[receiver] < received {
                continue;
            }
            line[receiver] = received - 1;
            if stacked[receiver] {
                continue;
            }
            stacked[receiver] = true;
            stack[height] = receiver as u16;
            height += 1;
        }
        cursors[p] = behind(next);
    }
    line
}

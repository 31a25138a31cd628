// The sweep that begins a chase: one for all processes, from the last message to the first.
#![tactic(auto)]

ghost use Rattle.sweep.specs.Cursors.{Placed};
ghost use Rattle.lowering.specs.Lowered.{BroughtDown, all_messages};

use tables::messages::MessageParts;

// Brings a line down, by the messages between n processes. A process stops at the first message of its own
// that was sent before the line, and its cursor is left behind that message; what it sent behind it puts
// receivers back. The sweep ends where all n have stopped. A cursor is how many messages are in front of
// it: 0 is that of a process that has not stopped, and has none left.
pub fn sweep(line: &mut [u16; 32], cursors: &mut [u16; 32], n: usize, messages: MessageParts)
    requires placed { Placed messages.count cursors.old }
    ensures brought_down { BroughtDown (all_messages messages.entry) line.old line.new }
    ensures placed_2 { Placed messages.entry.count cursors.new }
{
    let mut stopped = 0;
    for k in (0..messages.count).rev() {
        let sender = messages.sender(k);
        if cursors[sender] != 0 {
            continue;
        }
        let sent = messages.sent(k);
        if sent < line[sender] {
            cursors[sender] = (k + 1) as u16;
            stopped += 1;
            if stopped == n {
                return;
            }
            continue;
        }
        let receiver = messages.receiver(k);
        let received = messages.received(k);
        if received == 0 {
            continue;
        }
        if line[receiver] < received {
            continue;
        }
        line[receiver] = received - 1;
    }
}

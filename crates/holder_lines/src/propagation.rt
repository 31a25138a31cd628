// Which processes propagate a rollback to their last checkpoint.
ghost use Rattle.std.specs.Prelude.{◌≡◌};
ghost use Rattle.holder_lines.specs.Propagation.{CountedMessages, propagates_at};
ghost use Rattle.tables.specs.Lists.{tabulate};

use tables::messages::MessageParts;
use tables::numbers::u16_at;

// Whether a rollback of each process to its last checkpoint propagates, from a part of counts and the
// messages between those processes: whether a message that it sent since then was received.
pub fn propagating(counts: &[u8], messages: MessageParts) -> [bool; 32]
    requires { CountedMessages messages.count counts.now messages.sends.now messages.receipts.now }
    ensures { result
        ≡ tabulate 32 (propagates_at messages.entry.count counts.now messages.entry.sends.now
        messages.entry.receipts.now) }
{
    let mut propagates = [false; 32];
    for k in 0..messages.count {
        let sender = messages.sender(k);
        let sent = messages.sent(k);
        let last = u16_at(counts, 2 * sender) - 1;
        if sent < last {
            continue;
        }
        if messages.received(k) == 0 {
            continue;
        }
        propagates[sender] = true;
    }
    propagates
}

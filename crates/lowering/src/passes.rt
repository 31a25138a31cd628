// Rollback propagation: passes over the messages, from the last to the first, until one finds no
// orphan.
ghost use Rattle.std.specs.Prelude.{◌≡◌};
ghost use Rattle.consistency.specs.Lowering.{line_under};
ghost use Rattle.lowering.specs.Lowered.{all_messages};

use tables::messages::MessageParts;

// The line under a ceiling. An orphan of the line puts its receiver back to the checkpoint before the
// receipt.
pub fn lower(ceiling: [u16; 32], messages: MessageParts) -> [u16; 32]
    ensures { result ≡ line_under (all_messages messages.entry) ceiling }
{
    let mut line = ceiling;
    'passes: loop {
        let mut lowered = false;
        for k in (0..messages.count).rev() {
            let sender = messages.sender(k);
            let sent = messages.sent(k);
            let receiver = messages.receiver(k);
            let received = messages.received(k);
            if received == 0 {
                continue;
            }
            if sent < line[sender] {
                continue;
            }
            if line[receiver] < received {
                continue;
            }
            line[receiver] = received - 1;
            lowered = true;
        }
        if !lowered {
            break 'passes;
        }
    }
    line
}

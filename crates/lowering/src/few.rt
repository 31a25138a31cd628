// A few passes over the messages, from the last to the first.
ghost use Rattle.std.specs.Prelude.{◌≡◌, ◌≤◌, IfErr, IfOk};
ghost use Rattle.consistency.specs.Lowering.{line_under};
ghost use Rattle.lowering.specs.Lowered.{BroughtDown, all_messages};
ghost use Rattle.tables.specs.Table.{most_processes};

use tables::messages::MessageParts;

// A ceiling, brought down by a few passes over the messages between n processes: as many as cost about
// what a chase does, ten at most. Ok where they settled the line, and else Err with how far they came.
pub fn few_passes(
    ceiling: [u16; 32],
    n: usize,
    messages: MessageParts,
) -> Result<[u16; 32], [u16; 32]>
    requires n_le_most_processes { n ≤ most_processes }
    ensures settled { IfOk result (λ line. (BroughtDown (all_messages messages.entry) ceiling line)
        × (line ≡ line_under (all_messages messages.entry) ceiling)) }
    ensures brought_down { IfErr result (BroughtDown (all_messages messages.entry) ceiling) }
{
    let mut line = ceiling;
    'passes: for _ in 0..n / 4 + 2 {
        // As in `passes::lower`, which stays one nested loop, left by label, as the document wants it.
        let mut lowered = false;
        for k in (0..messages.count).rev() {
            let sender = messages.sender(k);
            let sent = messages.sent(k);
            let receiver = messages.receiver(k);
            let received = messages.received(k);
            if received == 0 {
                continue;
            }
            if sent < line[sender] {
                continue;
            }
            if line[receiver] < received {
                continue;
            }
            line[receiver] = received - 1;
            lowered = true;
        }
        if !lowered {
            return Ok(line);
        }
    }
    Err(line)
}

// Lines settled by messages: by a few passes, and where these are not enough, by a chase and then passes to
// the end.
ghost use Rattle.std.specs.Prelude.{◌≡◌, ◌≤◌};
ghost use Rattle.consistency.specs.Lowering.{line_under};
ghost use Rattle.lowering.specs.Lowered.{all_messages};
ghost use Rattle.tables.specs.Table.{most_processes};

use chase::chase;
use lowering::few::few_passes;
use lowering::passes::lower;
use tables::messages::MessageParts;

// The line under a start, of the messages between n processes: a chase, and the passes that it leaves.
fn chase_and_lower(start: [u16; 32], n: usize, messages: MessageParts) -> [u16; 32]
    requires n_le_most_processes { n ≤ most_processes }
    ensures { result ≡ line_under (all_messages messages.entry) start }
{
    lower(chase(start, n, messages), messages)
}

// The line under a ceiling, of the messages between n processes. A few passes are tried first where `few`
// says so; it says afterwards whether they are worth another try: not once they did not settle a line.
// It is no answer beside the line, which is settled either way, but goes on from line to line. N stands beside
// the messages, since most functions that read messages have no use for it.
pub fn settle(ceiling: [u16; 32], n: usize, messages: MessageParts, few: &mut bool) -> [u16; 32]
    requires n_le_most_processes { n ≤ most_processes }
    ensures { result ≡ line_under (all_messages messages.entry) ceiling }
{
    if !*few {
        return chase_and_lower(ceiling, n, messages);
    }
    match few_passes(ceiling, n, messages) {
        Ok(line) => line,
        Err(line) => {
            *few = false;
            chase_and_lower(line, n, messages)
        }
    }
}

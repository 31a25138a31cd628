// The kept messages: undelivered, or crossing some line.
ghost use Rattle.std.specs.Prelude.{◌≡◌, ◌<◌, length};
ghost use Rattle.holder_lines.specs.Held.{line_held};
ghost use Rattle.sheet_entries.specs.Kept.{crosses_line, is_kept, lowest_line, positions_of};
ghost use Rattle.tables.specs.Format.{message_at};
ghost use Rattle.tables.specs.Parts.{MessageThere, Messages};

use crate::checkpoints::next_kept;
use holder_lines::scratch::HeldLines;
use tables::messages::MessageParts;

// The lowest line: at each process the least number that any of the lines has there.
pub fn lowest_line(lines: HeldLines) -> [u16; 32]
    ensures { result ≡ lowest_line lines.entry.n (line_held lines.entry) }
{
    let mut lowest = [0u16; 32];
    for i in 0..lines.n {
        // None stands below 65535 where each stands at it.
        lowest[i] = next_kept(lines, i, 0, 65535).unwrap_or(65535);
    }
    lowest
}

// Whether a message crosses some line: sent before the line of its sender, and received after that of
// its receiver. Most messages were received at or before most lines, so that is asked first.
fn crosses_line(lines: HeldLines, sender: usize, sent: u16, receiver: usize, received: u16) -> bool
    requires sender_lt_n { sender < lines.n }
    requires receiver_lt_n { receiver < lines.n }
    ensures { result ≡ crosses_line lines.entry.n (line_held lines.entry)
        (record { sender = sender; sent = sent; receiver = receiver; received = received }) }
{
    (0..lines.n).any(|k| lines.number(k, receiver) < received && sent < lines.number(k, sender))
}

// Lines in a scratch, and the lowest line beside them.
#[derive(Clone, Copy)]
pub struct LinesWithLowest<'a> {
    pub lines: HeldLines<'a>,
    lowest: [u16; 32],
    ghost lowest_is: { lowest ≡ lowest_line lines.n (line_held lines) },
}

impl<'a> LinesWithLowest<'a> {
    // Lines with their lowest line, which is found.
    pub fn of(lines: HeldLines<'a>) -> Self
        ensures { result.lines ≡ lines.entry }
    {
        LinesWithLowest {
            lines,
            lowest: lowest_line(lines),
        }
    }

    // Whether message k is kept: one received at or before the lowest line crosses no line.
    pub fn is_kept(&self, messages: MessageParts, k: usize) -> bool
        requires { MessageThere self.now.lines.n k messages.sends.now messages.receipts.now }
        ensures { result ≡ is_kept self.now.lines.n (line_held self.now.lines)
            (message_at messages.entry.sends.now messages.entry.receipts.now k) }
    {
        let received = messages.received(k);
        if received == 0 {
            return true;
        }
        let receiver = messages.receiver(k);
        if received <= self.lowest[receiver] {
            return false;
        }
        crosses_line(
            self.lines,
            messages.sender(k),
            messages.sent(k),
            receiver,
            received,
        )
    }
}

// How many of the messages are kept.
pub fn count_kept(lines: HeldLines, messages: MessageParts) -> usize
    requires { Messages lines.n messages.count messages.sends.now messages.receipts.now }
    ensures { result ≡ length (positions_of lines.entry.n (line_held lines.entry)
        messages.entry.sends.now messages.entry.receipts.now messages.entry.count) }
{
    let with_lowest = LinesWithLowest::of(lines);
    (0..messages.count)
        .filter(|k| with_lowest.is_kept(messages, *k))
        .count()
}

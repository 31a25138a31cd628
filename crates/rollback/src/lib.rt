// A rollback of the run to its recovery line: how many messages stay, and the table that it leaves.
#![tactic(auto)]

ghost use Rattle.std.specs.Prelude.{◌≡◌, ◌+◌, ◌*◌, ◌≤◌, length};
ghost use Rattle.steps.specs.Steps.{after_rollback};
ghost use Rattle.tables.specs.Arrays.{array_of};
ghost use Rattle.tables.specs.Format.{decode, encode, receipts_of, sends_of, table_length};
ghost use Rattle.tables.specs.Numbers.{put_at, u16s};
ghost use Rattle.tables.specs.Table.{message_count, process_count};
ghost use Rattle.rollback.specs.Rollback.{AtLine, receipt_left};

use table_writer::{put_entry, put_head};
use tables::format::sends_at;
use tables::numbers::u16_at;
use tables::parts::RunTable;

// The receipt number that a message is left with, beside the line's number at its receiver: 0 where it
// is after the line.
fn receipt_left(received: u16, height: u16) -> u16
    ensures { result ≡ receipt_left height received }
{
    if height < received {
        return 0;
    }
    received
}

// A rollback of an accepted table: the table, and its recovery line, to which it rolls back.
#[derive(Clone, Copy)]
pub struct Rollback<'a> {
    pub table: RunTable<'a>,
    pub line: [u16; 32],
    pub ghost at_line: { AtLine table.bytes.now line },
}

impl<'a> Rollback<'a> {
    // How many messages stay.
    pub fn count_remaining(&self) -> usize
        ensures { result ≡ message_count (after_rollback (decode self.now.table.bytes.now)) }
    {
        let messages = self.table.messages();
        let mut remaining = 0;
        for k in 0..messages.count {
            if messages.sent(k) < self.line[messages.sender(k)] {
                remaining += 1;
            }
        }
        remaining
    }

    // The counts that it leaves: L + 1 at each process.
    fn counts_left(&self) -> [u16; 32]
        ensures { result ≡ array_of (after_rollback (decode self.now.table.bytes.now)).counts }
    {
        let n = self.table.process_count();
        let mut counts = [0u16; 32];
        for p in 0..n {
            counts[p] = self.line[p] + 1;
        }
        counts
    }

    // Writes the sends of the m messages that stay, at a place of a buffer that has room for them, and
    // behind these their receipts. Processes are read as the u16 that they are written as, which the methods of
    // `MessageParts` do not give. A table is written at two places at once, so the place is an argument, here and
    // where numbers are put.
    fn put_messages(&self, m: usize, buffer: &mut [u8], at: usize)
        requires m_value { m ≡ message_count (after_rollback (decode self.now.table.bytes.now)) }
        requires m_in_bounds { at + 8 * m ≤ length buffer.old }
        ensures { buffer.new
            ≡ put_at (put_at buffer.old at
            (u16s (sends_of (after_rollback (decode self.now.table.bytes.now)).messages)))
            (at + 4 * m) (u16s (receipts_of (after_rollback (decode self.now.table.bytes.now)).messages)) }
    {
        let sends = self.table.sends();
        let receipts = self.table.receipts();
        let mut place = at;
        for k in 0..self.table.message_count() {
            let sender = u16_at(sends, 4 * k);
            let sent = u16_at(sends, 4 * k + 2);
            if self.line[sender as usize] <= sent {
                continue;
            }
            let receiver = u16_at(receipts, 4 * k);
            let received = u16_at(receipts, 4 * k + 2);
            put_entry(buffer, place, sender, sent);
            put_entry(
                buffer,
                place + 4 * m,
                receiver,
                receipt_left(received, self.line[receiver as usize]),
            );
            place += 4;
        }
    }

    // Writes the table that it leaves, given how many messages stay, to the front of a buffer that has room
    // for it.
    pub fn put(&self, m: usize, answer: &mut [u8])
        requires m_value { m ≡ message_count (after_rollback (decode self.now.table.bytes.now)) }
        requires m_in_bounds { table_length (process_count (decode self.now.table.bytes.now)) m
            ≤ length answer.old }
        ensures { answer.new
            ≡ put_at answer.old 0 (encode (after_rollback (decode self.now.table.bytes.now))) }
    {
        let n = self.table.process_count();
        let counts = self.counts_left();
        put_head(answer, &counts[..n], m);
        self.put_messages(m, answer, sends_at(n));
    }
}

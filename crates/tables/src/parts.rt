// An accepted table, its sizes and its parts. Counts, sends and receipts are lent on as parts of the table's
// slice that start in its middle.
ghost use Rattle.std.specs.Prelude.{◌≡◌, ◌≤◌, length};
ghost use Rattle.tables.specs.Arrays.{array_of};
ghost use Rattle.tables.specs.Checks.{table_refusal};
ghost use Rattle.tables.specs.Format.{counts_part, decode, receipts_part, sends_part};
ghost use Rattle.tables.specs.Table.{message_count, most_processes, process_count};

use crate::format::{COUNTS_AT, receipts_at, sends_at};
use crate::messages::MessageParts;
use crate::numbers::u16_at;

// An accepted table: its bytes, in which no check of a table catches. Only bytes that pass the checks make one.
#[derive(Clone, Copy)]
pub struct RunTable<'a> {
    pub bytes: &'a [u8],
    ghost accepted: { table_refusal bytes.now ≡ 0 },
}

impl<'a> RunTable<'a> {
    // N.
    pub fn process_count(self) -> usize
        ensures { result ≡ process_count (decode self.entry.bytes.now) }
    {
        u16_at(self.bytes, 0) as usize
    }

    // M.
    pub fn message_count(self) -> usize
        ensures { result ≡ message_count (decode self.entry.bytes.now) }
    {
        u16_at(self.bytes, 2) as usize
    }

    // The counts.
    pub fn counts(self) -> &'a [u8]
        ensures { result.now ≡ counts_part self.entry.bytes.now }
    {
        let end = sends_at(self.process_count());
        &self.bytes[COUNTS_AT..end]
    }

    // The counts as an array, of which the first N are the table's.
    pub fn count_array(self) -> [u16; 32]
        ensures { result ≡ array_of (decode self.entry.bytes.now).counts }
    {
        let n = self.process_count();
        let part = self.counts();
        let mut counts = [0; 32];
        for p in 0..n {
            counts[p] = u16_at(part, 2 * p);
        }
        counts
    }

    // The sends.
    pub fn sends(self) -> &'a [u8]
        ensures { result.now ≡ sends_part self.entry.bytes.now }
    {
        let n = self.process_count();
        let start = sends_at(n);
        let end = receipts_at(n, self.message_count());
        &self.bytes[start..end]
    }

    // The receipts.
    pub fn receipts(self) -> &'a [u8]
        ensures { result.now ≡ receipts_part self.entry.bytes.now }
    {
        let start = receipts_at(self.process_count(), self.message_count());
        &self.bytes[start..]
    }

    // The messages: both parts, and how many they are.
    pub fn messages(self) -> MessageParts<'a>
        ensures count { result.count ≡ message_count (decode self.entry.bytes.now) }
        ensures sends { result.sends.now ≡ sends_part self.entry.bytes.now }
        ensures receipts { result.receipts.now ≡ receipts_part self.entry.bytes.now }
    {
        MessageParts {
            sends: self.sends(),
            receipts: self.receipts(),
            count: self.message_count(),
        }
    }
}

// A number for each process, at most 32 of them, as an array.
pub fn number_array(numbers: &[u16]) -> [u16; 32]
    requires { length numbers.now ≤ most_processes }
    ensures { result ≡ array_of numbers.now }
{
    let mut array = [0; 32];
    array[..numbers.len()].copy_from_slice(numbers);
    array
}

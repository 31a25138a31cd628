// Total lookups in the bytes of a table, accepted or not: what stands beyond is 0.
ghost use Rattle.std.specs.Prelude.{◌≡◌};
ghost use Rattle.tables.specs.Fields.{number_of};
ghost use Rattle.tables.specs.Format.{decode};
ghost use Rattle.tables.specs.Table.{count_of, message_of};

use crate::format::{COUNTS_AT, receipts_at, sends_at};
use crate::numbers::u16_or_zero;

// The numbers of a message.
#[derive(Clone, Copy, PartialEq, Eq, Debug)]
pub enum Field {
    Sender,
    Sent,
    Receiver,
    Received,
}

// The count of process p.
pub fn count(table: &[u8], p: usize) -> u16
    ensures { result ≡ count_of (decode table.now) p }
{
    let n = u16_or_zero(table, 0) as usize;
    if n <= p {
        return 0;
    }
    u16_or_zero(table, COUNTS_AT + 2 * p)
}

// A number of message k.
pub fn message_number(table: &[u8], k: usize, field: Field) -> u16
    ensures { result ≡ number_of field (message_of (decode table.now) k) }
{
    let n = u16_or_zero(table, 0) as usize;
    let m = u16_or_zero(table, 2) as usize;
    if m <= k {
        return 0;
    }
    match field {
        Field::Sender => u16_or_zero(table, sends_at(n) + 4 * k),
        Field::Sent => u16_or_zero(table, sends_at(n) + (4 * k + 2)),
        Field::Receiver => u16_or_zero(table, receipts_at(n, m) + 4 * k),
        Field::Received => u16_or_zero(table, receipts_at(n, m) + (4 * k + 2)),
    }
}

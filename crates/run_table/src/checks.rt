// The checks of a run table, in checking order (docs/MANUAL.md, "Refusals"). Each covers the whole table
// before the next begins.
ghost use Rattle.std.specs.Prelude.{◌≡◌, false, ◌+◌, ◌*◌, ◌<◌, length, slice_get, IfOk, MatchOption};
ghost use Rattle.tables.specs.Checks.{table_refusal};
ghost use Rattle.tables.specs.Format.{count_at, process_at};
ghost use Rattle.tables.specs.Lists.{any_below};
ghost use Rattle.tables.specs.Refusals.{refusal_in};
ghost use Rattle.run_table.specs.Entries.{FirstOf, checks_of};
ghost use Rattle.run_table.specs.EntryChecks.{Sized, bad_count_at, checks_at, checks_below};
ghost use Rattle.run_table.specs.EntryChecks.{first_place, message_refusals, parts_refusal};
ghost use Rattle.run_table.specs.EntryChecks.{refusal_at, to_itself_at, unknown_at};

use crate::entries::Entries;
use channels::behind_neighbour;
use tables::format::{
    COUNTS_AT, MOST_CHECKPOINTS, MOST_MESSAGES, MOST_PROCESSES, receipts_at, sends_at, table_length,
};
use tables::numbers::u16_at;
use tables::parts::RunTable;
use tables::refusal::Refusal;

// Whether one of the n counts of a part is 0 or above 4,096 (check 5).
fn bad_count(counts: &[u8], n: usize) -> bool
    requires { length counts.now ≡ 2 * n }
    ensures { result ≡ any_below n (bad_count_at counts.now) }
{
    for p in 0..n {
        let count = u16_at(counts, 2 * p);
        if count == 0 || MOST_CHECKPOINTS < count {
            return true;
        }
    }
    false
}

impl<'a> Entries<'a> {
    // The first of the m messages that a check catches or that is out of turn. An accepted table, the usual
    // case, is gone through here alone.
    fn first_caught(self) -> Option<usize>
        ensures { MatchOption result (FirstOf self.entry self.entry.m)
            (λ k. (k < self.entry.m) × FirstOf self.entry k) }
    {
        let mut last = [0u16; 1024];
        for k in 0..self.m {
            if self.fault_at(k).is_some() {
                return Some(k);
            }
            if behind_neighbour(&mut last, self.sends, self.receipts, k) {
                return Some(k);
            }
        }
        None
    }

    // The refusal of the m messages, of which the first that is caught or out of turn is message `from`: by the
    // first check of messages that catches one of them, or else of one that is out of turn. One look at each
    // message is enough: refusals compare by the checking order.
    fn first_fault(self, from: usize) -> Refusal
        requires { FirstOf self from }
        ensures { result ≡ refusal_at (first_place (checks_below (checks_of self.entry) self.entry.m)) }
    {
        let mut first = Refusal::ChannelOutOfOrder;
        for k in from..self.m {
            if let Some(fault) = self.fault_at(k) {
                first = first.min(fault);
            }
        }
        first
    }

    // The refusal of message k, by the first check of messages that catches it. A process is known before its
    // count is read.
    fn fault_at(self, k: usize) -> Option<Refusal>
        requires { k < self.m }
        ensures { result ≡ slice_get message_refusals (first_place (checks_at (checks_of self.entry) k)) }
    {
        if self.unknown_at(self.sends, k) || self.unknown_at(self.receipts, k) {
            return Some(Refusal::UnknownProcessInMessage);
        }
        if self.to_itself_at(k) {
            return Some(Refusal::MessageToItsSender);
        }
        let sent = u16_at(self.sends, 4 * k + 2);
        if self.count_for(self.sends, k) <= sent {
            return Some(Refusal::SendNumberTooHigh);
        }
        let received = u16_at(self.receipts, 4 * k + 2);
        if self.count_for(self.receipts, k) < received {
            return Some(Refusal::ReceiptNumberTooHigh);
        }
        None
    }

    // Whether entry k of a part names a process of n or above.
    fn unknown_at(self, part: &[u8], k: usize) -> bool
        requires { 4 * k + 1 < length part.now }
        ensures { result ≡ unknown_at self.entry.n part.now k }
    {
        self.n <= u16_at(part, 4 * k) as usize
    }

    // Whether message k has the same sender and receiver.
    fn to_itself_at(self, k: usize) -> bool
        requires { k < self.m }
        ensures { result ≡ to_itself_at self.entry.sends.now self.entry.receipts.now k }
    {
        u16_at(self.sends, 4 * k) == u16_at(self.receipts, 4 * k)
    }

    // The count of the process of entry k of a part, where it has one.
    fn count_for(self, part: &[u8], k: usize) -> u16
        requires k_in_bounds { 4 * k + 1 < length part.now }
        requires k_value { unknown_at self.n part.now k ≡ false }
        ensures { result ≡ count_at self.entry.counts.now (process_at part.now k) }
    {
        let process = u16_at(part, 4 * k) as usize;
        u16_at(self.counts, 2 * process)
    }
}

// Bytes as an accepted table, or their refusal by the first of a table's checks that catches.
pub fn check(bytes: &[u8]) -> Result<RunTable<'_>, Refusal>
    ensures refusal { refusal_in result ≡ table_refusal bytes.now }
    ensures table { IfOk result (λ table. table.bytes.now ≡ bytes.now) }
{
    all_checks(bytes)?;
    Ok(RunTable { bytes })
}

// All checks of a table: the refusal of the first that catches. It stays a function of its own, whose answer goes back
// in registers: inside `check`, behind what hands a table back, the loop over the messages was measured to take up to
// 1.75 times as long, by where its jumps came to stand.
#[inline(never)]
fn all_checks(bytes: &[u8]) -> Result<(), Refusal>
    ensures { refusal_in result ≡ table_refusal bytes.now }
{
    if bytes.len() < 4 {
        return Err(Refusal::TableTooShort);
    }
    let n = u16_at(bytes, 0) as usize;
    let m = u16_at(bytes, 2) as usize;
    if n == 0 || MOST_PROCESSES < n {
        return Err(Refusal::ProcessesOutOfRange);
    }
    if MOST_MESSAGES < m {
        return Err(Refusal::TooManyMessages);
    }
    if bytes.len() != table_length(n, m) {
        return Err(Refusal::WrongLength);
    }
    let sends_start = sends_at(n);
    let receipts_start = receipts_at(n, m);
    let counts = &bytes[COUNTS_AT..sends_start];
    let sends = &bytes[sends_start..receipts_start];
    let receipts = &bytes[receipts_start..];
    entry_checks(counts, sends, receipts, n, m)
}

// Checks 5 to 9 and 23, on the three parts of a table whose sizes and length are right. It takes them apart, and
// makes one value of them behind check 5: where it is made before, the check of a table takes a third longer.
fn entry_checks(
    counts: &[u8],
    sends: &[u8],
    receipts: &[u8],
    n: usize,
    m: usize,
) -> Result<(), Refusal>
    requires { Sized n m counts.now sends.now receipts.now }
    ensures { refusal_in result ≡ parts_refusal n m counts.now sends.now receipts.now }
{
    if bad_count(counts, n) {
        return Err(Refusal::CountOutOfRange);
    }
    let entries = Entries {
        counts,
        sends,
        receipts,
        n,
        m,
    };
    match entries.first_caught() {
        Some(caught) => Err(entries.first_fault(caught)),
        None => Ok(()),
    }
}

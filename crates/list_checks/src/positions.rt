// Lists that do not rise, and positions of messages that do not wait (checks 13 and 21).
ghost use Rattle.std.specs.Prelude.{◌≡◌, ◌+◌, ◌*◌, ◌<◌, length};
ghost use Rattle.list_checks.specs.Entries.{bad_entry, entry_waits};
ghost use Rattle.steps.specs.Steps.{bad_position, not_rising};
ghost use Rattle.tables.specs.Format.{decode};
ghost use Rattle.tables.specs.Lists.{any};

use tables::numbers::u16_at;
use tables::parts::RunTable;

// Whether an entry of a list is not above the one before it.
pub fn not_rising(list: &[u16]) -> bool
    ensures { result ≡ not_rising list.now }
{
    !list.is_sorted_by(|before, here| before < here)
}

// Whether an entry of the receipts waits for a process: it goes there and is undelivered.
pub(crate) fn entry_waits(receipts: &[u8], process: u16, k: usize) -> bool
    requires { 4 * k + 3 < length receipts.now }
    ensures { result ≡ entry_waits receipts.now process k }
{
    u16_at(receipts, 4 * k) == process && u16_at(receipts, 4 * k + 2) == 0
}

// Whether a position of the list is not that of an entry, of m receipts, that waits for the process. The caller has
// M, which would be a division here.
pub fn not_waiting(receipts: &[u8], m: usize, process: u16, list: &[u16]) -> bool
    requires { length receipts.now ≡ 4 * m }
    ensures { result ≡ any (bad_entry receipts.now m process) list.now }
{
    list.iter().any(|&position| {
        let k = position as usize;
        m <= k || !entry_waits(receipts, process, k)
    })
}

// Whether a position of the list is not that of a message that waits for the process.
pub fn bad_position(table: RunTable, process: u16, list: &[u16]) -> bool
    ensures { result ≡ any (bad_position (decode table.entry.bytes.now) process) list.now }
{
    not_waiting(table.receipts(), table.message_count(), process, list)
}

// Lists that pass over an older waiting message (check 24).
ghost use Rattle.std.specs.Prelude.{false, ◌≡◌};
ghost use Rattle.list_checks.specs.Entries.{ListedEntries, skips_older};
ghost use Rattle.steps.specs.Steps.{bad_position, not_rising, passes_over};
ghost use Rattle.tables.specs.Format.{decode};
ghost use Rattle.tables.specs.Lists.{any};

use crate::positions::entry_waits;
use tables::numbers::u16_at;
use tables::parts::RunTable;

// Whether an older entry that waits for the process, and is not listed, has the sender of a listed one. One walk up
// to the last position marks the senders of such entries.
pub fn skips_older(sends: &[u8], receipts: &[u8], process: u16, list: &[u16]) -> bool
    requires { ListedEntries sends.now receipts.now list.now }
    ensures { result
        ≡ any (skips_older sends.now receipts.now process list.now)
        list.now }
{
    let mut skipped = [false; 32];
    let mut next = 0;
    for &position in list {
        let listed = position as usize;
        for k in next..listed {
            if entry_waits(receipts, process, k) {
                let sender = u16_at(sends, 4 * k) as usize;
                skipped[sender] = true;
            }
        }
        let listed_sender = u16_at(sends, 4 * listed) as usize;
        if skipped[listed_sender] {
            return true;
        }
        next = listed + 1;
    }
    false
}

// Whether a list passes over an older waiting message of the channel of one of its positions.
pub fn passes_over(table: RunTable, process: u16, list: &[u16]) -> bool
    requires list_value { any (bad_position (decode table.bytes.now) process) list.now ≡ false }
    requires list_value_2 { not_rising list.now ≡ false }
    ensures { result
        ≡ any (passes_over (decode table.entry.bytes.now) list.now) list.now }
{
    skips_older(table.sends(), table.receipts(), process, list)
}

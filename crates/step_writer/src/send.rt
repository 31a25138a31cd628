// Send: the table with one message more.
ghost use Rattle.std.specs.Prelude.{[], ◌∷◌, ◌++◌, ◌≡◌, ◌+◌, ◌*◌, ◌<◌, ◌≤◌, length};
ghost use Rattle.steps.specs.Steps.{after_send};
ghost use Rattle.tables.specs.Format.{decode, encode, table_length};
ghost use Rattle.tables.specs.Lists.{tabulate};
ghost use Rattle.tables.specs.Numbers.{put_at, u16_at, u16s};
ghost use Rattle.tables.specs.Table.{message_count, process_count};

use number_writer::copy_numbers;
use table_writer::{put_entry, put_head};
use tables::format::{receipts_at, sends_at};
use tables::parts::RunTable;

// Copies an array of m entries, and one entry more, to a place of a buffer that has room for them. The caller
// has M, which would be a division here.
fn put_longer(buffer: &mut [u8], at: usize, part: &[u8], m: usize, process: u16, checkpoint: u16)
    requires part_len { length part.now ≡ 4 * m }
    requires m_in_bounds { at + 4 * (m + 1) ≤ length buffer.old }
    ensures { buffer.new
        ≡ put_at buffer.old at
        (u16s (tabulate (2 * m) (λ k. u16_at part.now (2 * k)) ++ (process ∷ checkpoint ∷ []))) }
{
    copy_numbers(buffer, at, part, 2 * m);
    put_entry(buffer, at + 4 * m, process, checkpoint);
}

// Writes the table after a send from a known process to the front of a buffer that has room for it.
pub fn put_send(table: RunTable, from: u16, to: u16, answer: &mut [u8])
    requires from_bound { from < process_count (decode table.bytes.now) }
    requires table_in_bounds { table_length (process_count (decode table.bytes.now))
        (message_count (decode table.bytes.now) + 1) ≤ length answer.old }
    ensures { answer.new
        ≡ put_at answer.old 0 (encode (after_send (decode table.entry.bytes.now) from to)) }
{
    let n = table.process_count();
    let m = table.message_count();
    let counts = table.count_array();
    let sent = counts[from as usize] - 1;
    put_head(answer, &counts[..n], m + 1);
    put_longer(answer, sends_at(n), table.sends(), m, from, sent);
    put_longer(answer, receipts_at(n, m + 1), table.receipts(), m, to, 0);
}

// What a table is written of, numbers apart: its entries and its head. The steps put a table together of these.
#![tactic(auto)]

ghost use Rattle.std.specs.Prelude.{[], ◌∷◌, ◌≡◌, ◌+◌, ◌<◌, ◌≤◌, length};
ghost use Rattle.tables.specs.Format.{sends_at};
ghost use Rattle.tables.specs.Numbers.{put_at, u16s};
ghost use Rattle.tables.specs.Table.{most_processes};

use number_writer::put_numbers;
use tables::format::COUNTS_AT;
use tables::numbers::put_u16;

// Puts the two numbers of an entry at a place that has room for them.
pub fn put_entry(buffer: &mut [u8], at: usize, process: u16, checkpoint: u16)
    requires { at + 4 ≤ length buffer.old }
    ensures { buffer.new
        ≡ put_at buffer.old at (u16s (process ∷ checkpoint ∷ [])) }
{
    put_u16(buffer, at, process);
    put_u16(buffer, at + 2, checkpoint);
}

// Puts the head of a table with m messages, its sizes and its counts, to the front of a buffer that has
// room for it.
pub fn put_head(buffer: &mut [u8], counts: &[u16], m: usize)
    requires counts_len_bound { length counts.now ≤ most_processes }
    requires m_bound { m < 65536 }
    requires counts_in_bounds { sends_at (length counts.now) ≤ length buffer.old }
    ensures { buffer.new
        ≡ put_at buffer.old 0 (u16s (length counts.now ∷ m ∷ counts.now)) }
{
    put_entry(buffer, 0, counts.len() as u16, m as u16);
    put_numbers(buffer, COUNTS_AT, counts);
}

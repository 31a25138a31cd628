// Numbers put from a place of a buffer on: into bytes, of a slice or of a table's part; into another slice.
#![tactic(auto)]

ghost use Rattle.std.specs.Prelude.{◌≡◌, ◌+◌, ◌*◌, ◌≤◌, length};
ghost use Rattle.tables.specs.Lists.{tabulate};
ghost use Rattle.tables.specs.Numbers.{put_at, u16_at, u16s, u32_bytes};

use tables::numbers::put_u16;

// Puts a number of 32 bits at a place that has room for its four bytes.
pub fn put_u32(buffer: &mut [u8], at: usize, value: u32)
    requires { at + 4 ≤ length buffer.old }
    ensures { buffer.new ≡ put_at buffer.old at (u32_bytes value) }
{
    buffer[at..at + 4].copy_from_slice(&value.to_le_bytes());
}

// Puts the numbers of a slice into bytes, from a place on that has room for them.
pub fn put_numbers(buffer: &mut [u8], at: usize, numbers: &[u16])
    requires { at + 2 * length numbers.now ≤ length buffer.old }
    ensures { buffer.new ≡ put_at buffer.old at (u16s numbers.now) }
{
    for (k, number) in numbers.iter().enumerate() {
        put_u16(buffer, at + 2 * k, *number);
    }
}

// Copies n numbers from the front of a table's part, from a place on that has room for them.
pub fn copy_numbers(buffer: &mut [u8], at: usize, part: &[u8], n: usize)
    requires n_in_bounds { 2 * n ≤ length part.now }
    requires n_in_bounds_2 { at + 2 * n ≤ length buffer.old }
    ensures { buffer.new
        ≡ put_at buffer.old at (u16s (tabulate n (λ k. u16_at part.now (2 * k)))) }
{
    buffer[at..at + 2 * n].copy_from_slice(&part[..2 * n]);
}

// Copies the numbers of a slice to a place of another that has room for them.
pub fn store_numbers(buffer: &mut [u16], at: usize, numbers: &[u16])
    requires { at + length numbers.now ≤ length buffer.old }
    ensures { buffer.new ≡ put_at buffer.old at numbers.now }
{
    buffer[at..at + numbers.len()].copy_from_slice(numbers);
}

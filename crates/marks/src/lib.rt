// Marks of states as bits of a lent buffer, set and asked for in place.
#![tactic(auto)]

ghost use Rattle.std.specs.Prelude.{suc, ◌≡◌, ◌+◌, ◌*◌, ◌/◌, ◌≤◌, ◌<◌, get_or, length};
ghost use Rattle.marks.specs.Bits.{Onwards, SetFrom, bit_at, first_bit, marked_in, most_bits, with_bit};
ghost use Rattle.marks.specs.Room.{cleared, marks_size};
ghost use Rattle.tables.specs.Format.{decode};
ghost use Rattle.tables.specs.Lists.{tabulate};
ghost use Rattle.tables.specs.Table.{count_of, process_count};

use tables::parts::RunTable;

// Whether bit b is set.
pub fn is_marked(marks: &[u8], b: usize) -> bool
    requires { b / 8 < length marks.now }
    ensures { result ≡ bit_at marks.now b }
{
    marks[b / 8] & (1 << (b % 8)) != 0
}

// Sets bit b.
fn set_bit(marks: &mut [u8], b: usize)
    requires { b / 8 < length marks.old }
    ensures { marks.new ≡ with_bit marks.old b }
{
    marks[b / 8] |= 1 << (b % 8);
}

// Sets the bits from one on, before an end. Behind one that is set they all are, so it stops there.
pub fn mark_from(marks: &mut [u8], from: usize, end: usize)
    requires end_bound { end ≤ 8 * length marks.old }
    requires onwards { Onwards from end marks.old }
    ensures { SetFrom from end marks.old marks.new }
{
    for b in from..end {
        if is_marked(marks, b) {
            return;
        }
        set_bit(marks, b);
    }
}

// Clears the first bytes.
pub fn clear(marks: &mut [u8], size: usize)
    requires { size ≤ length marks.old }
    ensures { marks.new ≡ cleared size marks.old }
{
    marks[..size].fill(0);
}

// The first bit of each process of an accepted table, and behind the last one the number of all bits.
pub fn first_bits(table: RunTable) -> [usize; 33]
    ensures { result ≡ tabulate 33 (first_bit (decode table.entry.bytes.now).counts) }
{
    let counts = table.count_array();
    let mut first = [0usize; 33];
    for (p, &count) in counts.iter().enumerate() {
        first[p + 1] = first[p] + 1 + usize::from(count);
    }
    first
}

// The bit of state y of process p, by the array of first bits.
pub fn state_bit(first: &[usize], p: usize, y: u16) -> usize
    requires { (p < length first.now) × (get_or first.now p 0 ≤ most_bits) }
    ensures { result ≡ get_or first.now p 0 + y }
{
    first[p] + usize::from(y)
}

// The end of the bits of process p, by the array of first bits.
pub fn row_end(first: &[usize], p: usize) -> usize
    requires { p + 1 < length first.now }
    ensures { result ≡ get_or first.now (p + 1) 0 }
{
    first[p + 1]
}

// Where the marks of the states of an accepted table stand: state y of process p has bit first[p] + y, and bit b
// stands in byte b / 8.
#[derive(Clone, Copy)]
pub struct Layout<'a> {
    pub table: RunTable<'a>,
    first: [usize; 33],
    ghost first_are: { first ≡ tabulate 33 (first_bit (decode table.bytes.now).counts) },
}

impl<'a> Layout<'a> {
    // That of a table.
    pub fn of(table: RunTable<'a>) -> Self
        ensures { result.table.bytes.now ≡ table.entry.bytes.now }
    {
        Layout {
            table,
            first: first_bits(table),
        }
    }

    // The bytes that the marks take.
    pub fn size(&self) -> usize
        ensures { result ≡ marks_size (decode self.now.table.bytes.now) }
    {
        let n = self.table.process_count();
        self.first[n].div_ceil(8)
    }

    // The bit of state y of process p, and of the one behind its last.
    fn bit(&self, p: usize, y: usize) -> usize
        requires known { p < process_count (decode self.now.table.bytes.now) }
        requires there { y ≤ count_of (decode self.now.table.bytes.now) p + 1 }
        ensures { result ≡ first_bit (decode self.now.table.bytes.now).counts p + y }
    {
        self.first[p] + y
    }

    // Where the bits of process p end.
    fn row_end(&self, p: usize) -> usize
        requires { p < process_count (decode self.now.table.bytes.now) }
        ensures { result ≡ first_bit (decode self.now.table.bytes.now).counts (suc p) }
    {
        row_end(&self.first, p)
    }

    // Whether state y of process p is marked.
    pub fn is_marked(&self, marks: &[u8], p: usize, y: u16) -> bool
        requires known { p < process_count (decode self.now.table.bytes.now) }
        requires there { y ≤ count_of (decode self.now.table.bytes.now) p }
        requires room { marks_size (decode self.now.table.bytes.now) ≤ length marks.now }
        ensures { result ≡ marked_in (decode self.now.table.bytes.now) marks.now p y }
    {
        is_marked(marks, state_bit(&self.first, p, y))
    }

    // Marks the states of process p from y on. Behind one that is marked they all are, so it stops there.
    pub fn mark_from(&self, marks: &mut [u8], p: usize, y: usize)
        requires known { p < process_count (decode self.now.table.bytes.now) }
        requires there { y ≤ count_of (decode self.now.table.bytes.now) p + 1 }
        requires room { marks_size (decode self.now.table.bytes.now) ≤ length marks.old }
        requires onwards { Onwards (first_bit (decode self.now.table.bytes.now).counts p + y)
            (first_bit (decode self.now.table.bytes.now).counts (suc p)) marks.old }
        ensures { SetFrom (first_bit (decode self.now.table.bytes.now).counts p + y)
            (first_bit (decode self.now.table.bytes.now).counts (suc p)) marks.old marks.new }
    {
        mark_from(marks, self.bit(p, y), self.row_end(p));
    }
}

// The bytes that the marks of an accepted table take.
pub fn marks_size(table: RunTable) -> usize
    ensures { result ≡ marks_size (decode table.entry.bytes.now) }
{
    Layout::of(table).size()
}

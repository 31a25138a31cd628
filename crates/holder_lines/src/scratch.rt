// Lines in a scratch, one after another; those of the single holders of a table.
ghost use Rattle.std.specs.Prelude.{◌≡◌, ◌*◌, ◌<◌, drop, take};
ghost use Rattle.holder_lines.specs.Scratch.{HoldsLines, LinesOf, lines_in};
ghost use Rattle.tables.specs.Format.{decode};
ghost use Rattle.tables.specs.Table.{process_count};

use tables::parts::RunTable;

// A scratch that begins with n lines of n numbers each.
#[derive(Clone, Copy)]
pub struct HeldLines<'a> {
    pub numbers: &'a [u16],
    pub n: usize,
    pub ghost holds: { HoldsLines n numbers.now },
}

impl<'a> HeldLines<'a> {
    // Line k.
    pub fn line(self, k: usize) -> &'a [u16]
        requires { k < self.n }
        ensures { result.now ≡ take self.entry.n (drop (self.entry.n * k) self.entry.numbers.now) }
    {
        let start = self.n * k;
        &self.numbers[start..start + self.n]
    }

    // The number of line k at process i.
    pub fn number(self, k: usize, i: usize) -> u16
        requires k_lt_n { k < self.n }
        requires i_lt_n { i < self.n }
        ensures { result ≡ lines_in self.entry.numbers.now self.entry.n k i }
    {
        self.numbers[self.n * k + i]
    }
}

// An accepted table, and a scratch that begins with the lines of its single holders.
#[derive(Clone, Copy)]
pub struct HolderLines<'a> {
    pub table: RunTable<'a>,
    pub scratch: &'a [u16],
    pub ghost lines_of: { LinesOf table.bytes.now scratch.now },
}

impl<'a> HolderLines<'a> {
    // The lines, N of them.
    pub fn lines(self) -> HeldLines<'a>
        ensures n { result.n ≡ process_count (decode self.entry.table.bytes.now) }
        ensures lines_of { LinesOf self.entry.table.bytes.now result.numbers.now }
    {
        HeldLines {
            numbers: self.scratch,
            n: self.table.process_count(),
        }
    }
}

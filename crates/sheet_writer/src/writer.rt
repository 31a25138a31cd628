// The writer of a keep sheet: a lent buffer and the place of the next number in it. One writer goes over
// the whole sheet, from part to part. `put` does no more than take it apart and put it together; the work is
// `put_part`'s.
ghost use Rattle.std.specs.Prelude.{◌≡◌};
ghost use Rattle.sheet_writer.specs.SheetParts.{CanPut, numbers_of};
ghost use Rattle.sheet_writer.specs.Writers.{written};
ghost use Rattle.tables.specs.Format.{decode};

use crate::writing::{Part, put_part};
use holder_lines::scratch::HolderLines;

#[derive(Drop)]
pub struct SheetWriter<'a> {
    pub buffer: &'a mut [u8],
    pub at: usize,
}

impl<'a> SheetWriter<'a> {
    // Puts a part of the sheet, and goes on to the next place.
    pub fn put_next(&mut self, part: Part, holders: HolderLines)
        requires { CanPut part holders.table.bytes.now self.old.at self.old.buffer.now }
        ensures written { self.new
            ≡ written self.old (numbers_of part (decode holders.entry.table.bytes.now)) }
        ensures same_reference { self.new.buffer.ghost_name ≡ self.old.buffer.ghost_name }
    {
        let at = self.at;
        self.at = put_part(&mut *self.buffer, at, part, holders);
    }

    // Puts a part of the sheet, and hands the writer back at the next place.
    pub fn put(self, part: Part, holders: HolderLines) -> SheetWriter<'a>
        requires { CanPut part holders.table.bytes.now self.at self.buffer.now }
        ensures { result ≡ written self.entry (numbers_of part (decode holders.entry.table.bytes.now)) }
    {
        let mut writer = self;
        writer.put_next(part, holders);
        writer
    }
}

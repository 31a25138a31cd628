// The keep sheet, from a scratch with the lines of single holders: the sizes of its arrays, its bytes.
#![tactic(auto)]

pub mod writer;
pub mod writing;

ghost use Rattle.std.specs.Prelude.{◌≡◌, length};
ghost use Rattle.keep_sheet.specs.Sheet.{kept_checkpoints, kept_messages, sheet};
ghost use Rattle.tables.specs.Format.{decode};
ghost use Rattle.tables.specs.Numbers.{put_at};
ghost use Rattle.sheet_writer.specs.SheetParts.{CanPutSheet};

use crate::writer::SheetWriter;
use crate::writing::{Column, Part};
use holder_lines::scratch::HolderLines;
use sheet_entries::{checkpoints, messages};

// K, the number of checkpoints that are kept.
pub fn count_checkpoints(holders: HolderLines) -> usize
    ensures { result ≡ length (kept_checkpoints (decode holders.entry.table.bytes.now)) }
{
    checkpoints::count_kept(holders.lines(), holders.table.counts())
}

// Q, the number of messages that are kept.
pub fn count_messages(holders: HolderLines) -> usize
    ensures { result ≡ length (kept_messages (decode holders.entry.table.bytes.now)) }
{
    messages::count_kept(holders.lines(), holders.table.messages())
}

// Writes the keep sheet, given K and Q, to the front of a buffer that has room for it.
pub fn put_sheet(holders: HolderLines, kept: usize, logged: usize, answer: &mut [u8])
    requires { CanPutSheet holders.table.bytes.now kept logged answer.old }
    ensures { answer.new ≡ put_at answer.old 0 (sheet (decode holders.entry.table.bytes.now)) }
{
    let mut writer = SheetWriter {
        buffer: answer,
        at: 0,
    };
    writer.put_next(Part::Sizes(kept, logged), holders);
    writer.put_next(Part::Kept(Column::Process), holders);
    writer.put_next(Part::Kept(Column::Number), holders);
    writer.put_next(Part::Positions, holders);
}

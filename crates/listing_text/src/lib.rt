// The text of the listing of a run table.
#![tactic(auto)]

pub mod rows;

ghost use Rattle.std.specs.Prelude.{◌≡◌, ℕ, ◌≤◌, ◌<◌, length, take, IfOk};
ghost use Rattle.keep_sheet.specs.Sheet.{kept_checkpoints};
ghost use Rattle.calls.specs.Answers.{Yields};
ghost use Rattle.keeper.specs.Outcomes.{Outcome};
ghost use Rattle.listings.specs.Listing.{EndsInShare, listing, listing_answer, listing_of, share};
ghost use Rattle.listing_text.specs.Rows.{Answered};
ghost use Rattle.text_writer.specs.Text.{Laid};
ghost use Rattle.tables.specs.Checks.{table_refusal};
ghost use Rattle.tables.specs.Format.{decode};
ghost use Rattle.tables.specs.Refusals.{refusal_in};
ghost use Rattle.tables.specs.Table.{checkpoint_total};

use holder_lines::scratch::HeldLines;
use keeper::answers::{keep_sheet, told};
use lines::recovery_line;
use rounding::rounded_quotient;
use tables::lookups;
use tables::numbers::u16_at;
use tables::parts::RunTable;
use tables::refusal::Refusal;
use text_writer::TextWriter;

// The bytes of a buffer that every listing fits: what `fits`, below, promises.
pub const LISTING_ROOM: usize = 80000;

// How many checkpoints the run of an accepted table holds.
fn checkpoint_total(table: RunTable) -> usize
    ensures { result ≡ checkpoint_total (decode table.entry.bytes.now) }
{
    let mut total = 0;
    for p in 0..table.process_count() {
        total += lookups::count(table.bytes, p) as usize;
    }
    total
}

// The share of the checkpoints that are kept, of 100, given their number.
fn share_of(table: RunTable, kept: usize) -> u32
    requires { kept ≡ length (kept_checkpoints (decode table.bytes.now)) }
    ensures { result ≡ share (decode table.entry.bytes.now) }
{
    rounded_quotient(100 * kept, checkpoint_total(table)) as u32
}

// Puts the listing of an accepted table, from the lines of single holders at the front of a scratch and
// the keep sheet at the front of a buffer.
fn put_listing(text: &mut [u8], table: RunTable, scratch: &[u16], sheet: &[u8]) -> usize
    requires { Answered (decode table.bytes.now) scratch.now sheet.now }
    ensures { Laid text.old text.new 0 (listing (decode table.entry.bytes.now)) result }
{
    let n = table.process_count();
    let kept = u16_at(sheet, 0) as usize;
    let logged = u16_at(sheet, 2) as usize;
    let line = recovery_line(table);
    let lines = HeldLines {
        numbers: scratch,
        n,
    };
    let mut writer = TextWriter { text, at: 0 };
    rows::put_line(&mut writer, &line[..n]);
    rows::put_holds(&mut writer, lines);
    rows::put_checkpoints(&mut writer, sheet, kept);
    rows::put_messages(&mut writer, sheet, kept, logged);
    rows::put_row(&mut writer, b"share", share_of(table, kept));
    writer.at
}

// Puts the listing of bytes, a table or not, given the outcome of the call for its keep sheet.
fn put_text(
    text: &mut [u8],
    table: &[u8],
    kept: Result<usize, Refusal>,
    scratch: &[u16],
    sheet: &[u8],
) -> usize
    requires refusal_value { refusal_in kept ≡ table_refusal table.now }
    requires answered { table_refusal table.now ≡ 0 → Answered (decode table.now) scratch.now sheet.now }
    ensures { Laid text.old text.new 0 (listing_of table.now) result }
{
    match kept {
        Ok(_) => put_listing(text, RunTable { bytes: table }, scratch, sheet),
        Err(refusal) => {
            let mut writer = TextWriter { text, at: 0 };
            rows::put_row(&mut writer, b"refused", u32::from(refusal));
            writer.at
        }
    }
}

// The listing of bytes at the front of the buffer: its length, or 16.
fn listing(table: &[u8], text: &mut [u8]) -> Result<usize, Refusal>
    ensures outcome { Outcome (listing_answer table.now (length text.old)) result text.old text.new }
    ensures rounded { IfOk result (λ size. table_refusal table.now ≡ 0
        → EndsInShare (decode table.now) (take size text.new)) }
    ensures fits { 80000 ≤ length text.old → refusal_in result ≡ 0 }
{
    let mut scratch = [0u16; 1024];
    let mut sheet = [0u8; 12292];
    let kept = keep_sheet(table, &mut scratch, &mut sheet);
    let size = put_text(&mut text[..0], table, kept, &scratch, &sheet);
    if text.len() < size {
        return Err(Refusal::AnswerTooShort);
    }
    put_text(text, table, kept, &scratch, &sheet);
    Ok(size)
}

// The listing of bytes, a table or not: its text at the front of the buffer, and its length.
#[unsafe(no_mangle)]
pub extern "C" fn keeper_listing(table: &[u8], text: &mut [u8], written: &mut usize) -> u32
    ensures outcome { Yields (listing_answer table.now (length text.old)) result
        text.old text.new written.old written.new }
    ensures rounded { result ≡ 0 → table_refusal table.now ≡ 0
        → EndsInShare (decode table.now) (take written.new text.new) }
    ensures fits { 80000 ≤ length text.old → result ≡ 0 }
{
    told(listing(table, text), written)
}

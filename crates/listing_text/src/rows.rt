// The rows of a listing, from what the calls left in a scratch and in the bytes of a sheet.
ghost use Rattle.std.specs.Prelude.{◌≡◌, ◌∷◌, [], ◌+◌, ◌*◌, ◌≤◌, ◌<◌, length};
ghost use Rattle.listings.specs.Listing.{line_row};
ghost use Rattle.listing_text.specs.Rows.{checkpoint_rows, hold_rows, message_rows};
ghost use Rattle.text_writer.specs.Text.{Fits, row};
ghost use Rattle.text_writer.specs.Writers.{written};

use holder_lines::scratch::HeldLines;
use tables::numbers::u16_at;
use text_writer::TextWriter;

// Puts a row of one number.
pub fn put_row(writer: &mut TextWriter, word: &[u8], n: u32)
    requires { Fits writer.old.at (row word.now (n ∷ [])) }
    ensures { writer.new ≡ written writer.old (row word.now (n ∷ [])) }
{
    writer.put_word(word);
    writer.put_field(n);
    writer.put_byte(b'\n');
}

// Puts the row of the recovery line.
pub fn put_line(writer: &mut TextWriter, line: &[u16])
    requires { Fits writer.old.at (line_row line.now) }
    ensures { writer.new ≡ written writer.old (line_row line.now) }
{
    writer.put_word(b"line");
    writer.put_fields(line);
    writer.put_byte(b'\n');
}

// Puts a row of a number and further ones.
fn put_long_row(writer: &mut TextWriter, word: &[u8], first: u32, rest: &[u16])
    requires { Fits writer.old.at (row word.now (first ∷ rest.now)) }
    ensures { writer.new ≡ written writer.old (row word.now (first ∷ rest.now)) }
{
    writer.put_word(word);
    writer.put_field(first);
    writer.put_fields(rest);
    writer.put_byte(b'\n');
}

// Puts the rows of the processes that hold, by their lines.
pub fn put_holds(writer: &mut TextWriter, lines: HeldLines)
    requires { Fits writer.old.at (hold_rows lines.numbers.now lines.n) }
    ensures { writer.new ≡ written writer.old (hold_rows lines.entry.numbers.now lines.entry.n) }
{
    for k in 0..lines.n {
        put_long_row(writer, b"hold", k as u32, lines.line(k));
    }
}

// Puts the rows of the kept checkpoints, from a sheet of k of them.
pub fn put_checkpoints(writer: &mut TextWriter, sheet: &[u8], k: usize)
    requires k_in_bounds { 4 + 4 * k ≤ length sheet.now }
    requires fits { Fits writer.old.at (checkpoint_rows sheet.now k) }
    ensures { writer.new ≡ written writer.old (checkpoint_rows sheet.now k) }
{
    for e in 0..k {
        let process = u16_at(sheet, 4 + 2 * e);
        let number = [u16_at(sheet, 4 + 2 * k + 2 * e)];
        put_long_row(writer, b"checkpoint", u32::from(process), &number);
    }
}

// Puts the rows of the kept messages, from a sheet of k checkpoints and q messages.
pub fn put_messages(writer: &mut TextWriter, sheet: &[u8], k: usize, q: usize)
    requires q_in_bounds { 4 + 4 * k + 2 * q ≤ length sheet.now }
    requires fits { Fits writer.old.at (message_rows sheet.now k q) }
    ensures { writer.new ≡ written writer.old (message_rows sheet.now k q) }
{
    for e in 0..q {
        let position = u16_at(sheet, 4 + 4 * k + 2 * e);
        put_row(writer, b"message", u32::from(position));
    }
}

// The numbers of a keep sheet, put into a buffer one after another, part by part. Each function answers
// the next place.
ghost use Rattle.std.specs.Prelude.{◌∷◌, [], ◌≡◌, ◌+◌, ◌*◌, ◌<◌, ◌≤◌, length};
ghost use Rattle.holder_lines.specs.Held.{line_held};
ghost use Rattle.sheet_entries.specs.Kept.{kept_of, positions_of};
ghost use Rattle.sheet_writer.specs.SheetParts.{CanPut, column_at, column_of, number_in, numbers_of};
ghost use Rattle.sheet_writer.specs.Writing.{Put};
ghost use Rattle.tables.specs.Format.{decode};
ghost use Rattle.tables.specs.Parts.{Counts, Messages};

use holder_lines::scratch::{HeldLines, HolderLines};
use sheet_entries::checkpoints::next_kept;
use sheet_entries::messages::LinesWithLowest;
use tables::messages::MessageParts;
use tables::numbers::{put_u16, u16_at};

// The two arrays of the kept checkpoints: their processes, and their numbers.
#[derive(Clone, Copy, PartialEq, Eq, Debug)]
pub enum Column {
    Process,
    Number,
}

// The parts of a keep sheet: K and Q, an array of the kept checkpoints, and the positions.
#[derive(Clone, Copy, PartialEq, Eq, Debug)]
pub enum Part {
    Sizes(usize, usize),
    Kept(Column),
    Positions,
}

// Puts one number at a place that has room for it.
fn put_number(buffer: &mut [u8], at: usize, value: u16) -> usize
    requires { at + 1 < length buffer.old }
    ensures { Put buffer.old buffer.new at (value ∷ []) result }
{
    put_u16(buffer, at, value);
    at + 2
}

// Puts K and Q, each by its low 16 bits.
fn put_sizes(buffer: &mut [u8], at: usize, kept: usize, logged: usize) -> usize
    requires { at + 4 ≤ length buffer.old }
    ensures { Put buffer.old buffer.new at (kept ∷ logged ∷ []) result }
{
    let next = put_number(buffer, at, (kept % 65536) as u16);
    put_number(buffer, next, (logged % 65536) as u16)
}

// What one array has of a checkpoint of a process.
fn number_of(column: Column, process: u16, checkpoint: u16) -> u16
    ensures { result ≡ number_in column process checkpoint }
{
    match column {
        Column::Process => process,
        Column::Number => checkpoint,
    }
}

// Puts one array's numbers of the kept checkpoints of process i.
fn put_process(
    buffer: &mut [u8],
    at: usize,
    column: Column,
    lines: HeldLines,
    i: usize,
    count: u16,
) -> usize
    requires i_lt_n { i < lines.n }
    requires count_in_bounds { at + 2 * length (column_at column i (kept_of lines.n (line_held lines) i count))
        ≤ length buffer.old }
    ensures { Put buffer.old buffer.new at
        (column_at column i (kept_of lines.entry.n (line_held lines.entry) i count)) result }
{
    let mut next = at;
    let mut from = 0;
    while let Some(checkpoint) = next_kept(lines, i, from, count) {
        next = put_number(buffer, next, number_of(column, i as u16, checkpoint));
        from = checkpoint + 1;
    }
    next
}

// Puts one array of the kept checkpoints of the processes.
fn put_column(
    buffer: &mut [u8],
    at: usize,
    column: Column,
    lines: HeldLines,
    counts: &[u8],
) -> usize
    requires counts { Counts lines.n counts.now }
    requires counts_in_bounds { at + 2 * length (column_of column lines.n (line_held lines) counts.now)
        ≤ length buffer.old }
    ensures { Put buffer.old buffer.new at
        (column_of column lines.entry.n (line_held lines.entry) counts.now) result }
{
    let mut next = at;
    for i in 0..lines.n {
        next = put_process(buffer, next, column, lines, i, u16_at(counts, 2 * i));
    }
    next
}

// Puts the positions of the kept messages.
fn put_positions(buffer: &mut [u8], at: usize, lines: HeldLines, messages: MessageParts) -> usize
    requires messages { Messages lines.n messages.count messages.sends.now messages.receipts.now }
    requires m_in_bounds { at + 2 * length (positions_of lines.n (line_held lines)
        messages.sends.now messages.receipts.now messages.count) ≤ length buffer.old }
    ensures { Put buffer.old buffer.new at (positions_of lines.entry.n (line_held lines.entry)
        messages.entry.sends.now messages.entry.receipts.now messages.entry.count) result }
{
    let with_lowest = LinesWithLowest::of(lines);
    let mut next = at;
    for position in 0..messages.count {
        if with_lowest.is_kept(messages, position) {
            next = put_number(buffer, next, position as u16);
        }
    }
    next
}

// Puts a part of the sheet of an accepted table, given the lines of its single holders. A match, since each part
// is put from something else.
pub fn put_part(buffer: &mut [u8], at: usize, part: Part, holders: HolderLines) -> usize
    requires { CanPut part holders.table.bytes.now at buffer.old }
    ensures { Put buffer.old buffer.new at
        (numbers_of part (decode holders.entry.table.bytes.now)) result }
{
    let table = holders.table;
    let lines = holders.lines();
    match part {
        Part::Sizes(kept, logged) => put_sizes(buffer, at, kept, logged),
        Part::Kept(column) => put_column(buffer, at, column, lines, table.counts()),
        Part::Positions => put_positions(buffer, at, lines, table.messages()),
    }
}

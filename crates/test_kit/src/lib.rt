// What the test programs build tables and print their lines with. A place beyond the end of a buffer
// is left out, so that every function takes any buffer. A line is printed to a writer, as standard output is.
#![tactic(auto)]

pub mod guards;

ghost use Rattle.std.specs.Prelude.{[], OnOk, ◌++◌, ◌∷◌, ◌≡◌, ◌<◌, codes};
ghost use Rattle.std.specs.Prelude.{get_or, length, set, take};
ghost use Rattle.std.specs.Fmt.{decimal};
ghost use Rattle.std.specs.Io.KnownBytes.{Appends};
ghost use Rattle.tables.specs.Arrays.{Filled};
ghost use Rattle.tables.specs.Format.{messages_in, processes_in, table_length};
ghost use Rattle.test_kit.specs.Buffers.{AllAre, ValuesEnd, checksum_of, with_number};
ghost use Rattle.test_kit.specs.Tables.{domino_place, each, with_count, with_domino, with_entry};
ghost use Rattle.test_kit.specs.Tables.{with_message, with_sizes};

use std::io;
use std::io::Write;
use tables::format::{COUNTS_AT, receipts_at, sends_at, table_length};
use tables::numbers::u16_or_zero;
use test_script::{Line, says, word_of};

// The bytes of each buffer of the test programs: more than the largest table has.
pub const SPACE: usize = 33000;

// Writes a byte.
pub fn byte(buffer: &mut [u8], at: usize, value: u8)
    ensures { buffer.new ≡ set buffer.old at value }
{
    if at < buffer.len() {
        buffer[at] = value;
    }
}

// Writes a 16-bit number, low byte first.
#[tactic(auto, unfolding(crate::specs::Buffers::with_number))]
pub fn number(buffer: &mut [u8], at: usize, value: u16)
    ensures { buffer.new ≡ with_number buffer.old at value }
{
    let [low, high] = value.to_le_bytes();
    if at < buffer.len() {
        buffer[at] = low;
        byte(buffer, at + 1, high);
    }
}

// Writes two numbers, one behind the other, as an entry of a message is.
fn entry(buffer: &mut [u8], at: usize, first: u16, second: u16)
    requires { at < 1000000 }
    ensures { buffer.new ≡ with_entry buffer.old at first second }
{
    number(buffer, at, first);
    number(buffer, at + 2, second);
}

// Writes the count of one process.
pub fn count(buffer: &mut [u8], p: u16, value: u16)
    ensures { buffer.new ≡ with_count buffer.old p value }
{
    number(buffer, COUNTS_AT + 2 * usize::from(p), value);
}

// Writes the counts, all alike.
#[tactic(auto, unfolding(crate::specs::Tables::each))]
fn counts(buffer: &mut [u8], n: u16, value: u16)
    ensures { buffer.new ≡ each n (λ p b. with_count b p value) buffer.old }
{
    for p in 0..n {
        count(buffer, p, value);
    }
}

// Writes N and M, and the counts, all alike. The messages are left as they are.
#[tactic(auto, unfolding(crate::specs::Tables::with_sizes))]
pub fn sizes(buffer: &mut [u8], n: u16, m: u16, value: u16)
    ensures { buffer.new ≡ with_sizes buffer.old n m value }
{
    entry(buffer, 0, n, m);
    counts(buffer, n, value);
}

// N and M of the table in a buffer.
#[tactic(auto, unfolding(tables::specs::Format::processes_in, tables::specs::Format::messages_in))]
fn sizes_in(buffer: &[u8]) -> (u16, u16)
    ensures { (result.0 ≡ processes_in buffer.now) × (result.1 ≡ messages_in buffer.now) }
{
    (u16_or_zero(buffer, 0), u16_or_zero(buffer, 2))
}

// Writes message k: from checkpoint y of j to checkpoint r of i.
#[tactic(auto, unfolding(crate::specs::Tables::with_message))]
pub fn message(buffer: &mut [u8], k: u16, j: u16, y: u16, i: u16, r: u16)
    ensures { buffer.new ≡ with_message buffer.old k j y i r }
{
    let (n, m) = sizes_in(buffer);
    let place = 4 * usize::from(k);
    entry(buffer, sends_at(usize::from(n)) + place, j, y);
    entry(
        buffer,
        receipts_at(usize::from(n), usize::from(m)) + place,
        i,
        r,
    );
}

// Writes every message alike.
#[tactic(auto, unfolding(crate::specs::Tables::each))]
pub fn messages(buffer: &mut [u8], m: u16, j: u16, y: u16, i: u16, r: u16)
    ensures { buffer.new ≡ each m (λ k b. with_message b k j y i r) buffer.old }
{
    for k in 0..m {
        message(buffer, k, j, y, i, r);
    }
}

// The first bytes of a buffer, or all of a shorter one.
pub fn first(buffer: &[u8], len: usize) -> &[u8]
    ensures { result.now ≡ take len buffer.now }
{
    &buffer[..len.min(buffer.len())]
}

// The length that the sizes of a table give.
pub fn length_of(buffer: &[u8]) -> usize
    ensures { result ≡ table_length (processes_in buffer.now) (messages_in buffer.now) }
{
    let (n, m) = sizes_in(buffer);
    table_length(usize::from(n), usize::from(m))
}

// Writes a domino of two processes and m messages: each one, once its receiver is put back, makes the
// one before it an orphan. In the order of sending, or in the other one.
#[tactic(auto, unfolding(crate::specs::Tables::each, crate::specs::Tables::with_domino))]
pub fn domino(buffer: &mut [u8], m: u16, backward: bool)
    ensures { buffer.new ≡ with_domino buffer.old m backward }
{
    sizes(buffer, 2, m, m / 2 + 1);
    count(buffer, 1, m / 2);
    for k in 0..m {
        let place = domino_place(m, k, backward);
        message(buffer, place, k % 2, k / 2, 1 - k % 2, (k + 1) / 2);
    }
}

// Where message k of a domino stands.
fn domino_place(m: u16, k: u16, backward: bool) -> u16
    requires { k < m }
    ensures { result ≡ domino_place m k backward }
{
    if backward { m - 1 - k } else { k }
}

// Writes bytes at the front of a buffer.
pub fn copy(buffer: &mut [u8], bytes: &[u8])
    ensures { Filled (λ i. get_or bytes.now i 0) (length bytes.now)
        buffer.old buffer.new }
{
    let len = bytes.len().min(buffer.len());
    buffer[..len].copy_from_slice(&bytes[..len]);
}

// Where the bytes of a value that start at a place end, at `to` at the latest.
pub fn values_end(buffer: &[u8], from: usize, to: usize, value: u8) -> usize
    ensures { ValuesEnd buffer.now from to value result }
{
    let len = buffer
        .iter()
        .take(to)
        .skip(from)
        .take_while(|byte| **byte == value)
        .count();
    from + len
}

// Whether every byte from one place to another has a value.
pub fn all_are(buffer: &[u8], from: usize, to: usize, value: u8) -> bool
    ensures { AllAre buffer.now from to value result }
{
    buffer.iter().take(to).skip(from).all(|byte| *byte == value)
}

// Prints the 16-bit numbers of some bytes: each of them, or a checksum of more than 128 bytes.
pub fn numbers<W: Write>(out: &mut W, bytes: &[u8]) -> io::Result<()> {
    if 128 < bytes.len() {
        word(out, b" sum")?;
        return value(out, checksum(bytes));
    }
    for number in bytes.chunks(2) {
        value(out, u64::from(u16_or_zero(number, 0)))?;
    }
    Ok(())
}

// Prints what a call tells: its number, and what stands at `written` afterwards.
pub fn told<W: Write>(out: &mut W, number: u32, written: usize) -> io::Result<()>
    ensures { OnOk result (Appends (W.contents out.old) (W.contents out.new)
        ((32 ∷ decimal number) ++ (32 ∷ decimal written))) }
{
    value(out, u64::from(number))?;
    value(out, written as u64)
}

// A checksum of some bytes.
#[tactic(auto, unfolding(crate::specs::Buffers::checksum_of))]
fn checksum(bytes: &[u8]) -> u64
    ensures { result ≡ checksum_of bytes.now (length bytes.now) }
{
    let mut sum: u64 = 0;
    for byte in bytes {
        sum = (31 * sum + u64::from(*byte)) % 1000003;
    }
    sum
}

// Prints a word, with no space.
pub fn word<W: Write>(out: &mut W, text: &[u8]) -> io::Result<()>
    ensures { OnOk result (Appends (W.contents out.old) (W.contents out.new) text.now) }
{
    out.write_all(text)
}

// Prints a space and a number.
pub fn value<W: Write>(out: &mut W, n: u64) -> io::Result<()>
    ensures { OnOk result (Appends (W.contents out.old) (W.contents out.new) (32 ∷ decimal n)) }
{
    write!(out, " {n}")
}

// Ends a line.
pub fn end<W: Write>(out: &mut W) -> io::Result<()>
    ensures { OnOk result (Appends (W.contents out.old) (W.contents out.new) (10 ∷ [])) }
{
    out.write_all(b"\n")
}

// Prints a line that is a comment.
pub fn comment<W: Write>(out: &mut W, line: &[u8]) -> io::Result<()> {
    if says(line, b"#") {
        word(out, line)?;
        end(out)?;
    }
    Ok(())
}

// Prints a line that asks something, and what stands in front of the answer.
pub fn asked<W: Write>(out: &mut W, line: &[u8]) -> io::Result<()>
    ensures { OnOk result (Appends (W.contents out.old) (W.contents out.new) (line.now ++ codes " ->")) }
{
    word(out, line)?;
    word(out, b" ->")
}

// Writes to the table in a buffer what a line of a script says, with its numbers:
//     table N M COUNT      sizes, and every count alike
//     count P COUNT
//     message K J Y I R    from checkpoint Y of J to checkpoint R of I
//     all M J Y I R        the first M messages alike
//     number AT VALUE      a number at a byte
//     domino M, backward M a domino of M messages, in the order of sending or the other one
// A line that says something else writes nothing, and is left to the caller. A match, since each takes other numbers.
pub fn build(buffer: &mut [u8], text: &[u8], line: &Line)
    ensures { length buffer.new ≡ length buffer.old }
{
    match word_of(text) {
        b"table" => sizes(buffer, line.small(0), line.small(1), line.small(2)),
        b"count" => count(buffer, line.small(0), line.small(1)),
        b"message" => message(
            buffer,
            line.small(0),
            line.small(1),
            line.small(2),
            line.small(3),
            line.small(4),
        ),
        b"all" => messages(
            buffer,
            line.small(0),
            line.small(1),
            line.small(2),
            line.small(3),
            line.small(4),
        ),
        b"number" => number(buffer, line.size(0), line.small(1)),
        b"domino" => domino(buffer, line.small(0), false),
        b"backward" => domino(buffer, line.small(0), true),
        _ => {}
    }
}

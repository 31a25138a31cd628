// The listing program: reads a run table from standard input and prints its listing, or the number of
// the check that refuses it.
#![tactic(auto)]

ghost use Rattle.std.specs.Prelude.{IfSome, OnOk, ◌≤◌, ◌<◌, length, take};
ghost use Rattle.std.specs.Io.KnownBytes.{Appends};
ghost use Rattle.listing.specs.Input.{IsPrefixLen, ListsInput};
ghost use Rattle.listings.specs.Listing.{listing_of};
ghost use Rattle.tables.specs.Format.{largest_table};

use listing_text::{LISTING_ROOM, keeper_listing};
use std::io;
use std::io::{Read, Write};
use tables::format::LARGEST_TABLE;
use whole_input::read_front;

// Puts the listing of an input, of which the first bytes of a buffer were read, all that it has room for
// or the whole input: its length. A longer input than the largest table is refused by its front, so room
// for one byte more is enough. The buffer stands whole beside the length, since what is said depends on whether
// the input filled it.
fn list_input(buffer: &[u8], len: usize, text: &mut [u8]) -> usize
    requires largest_table_in_bounds { largest_table < length buffer.now }
    requires prefix_len { len ≤ length buffer.now }
    requires in_bounds { 80000 ≤ length text.old }
    ensures prefix_len_2 { IsPrefixLen result text.new }
    ensures lists_input { ListsInput buffer.now len (take result text.new) }
{
    let mut size = 0;
    keeper_listing(&buffer[..len], text, &mut size);
    size
}

// Reads an input and prints its listing. Where a read fails, what was read before it is listed, and then its error
// is answered.
fn list<R: Read, W: Write>(input: &mut R, output: &mut W) -> io::Result<()>
    ensures { OnOk result (IfSome (R.remaining input.old)
        (λ bytes. Appends (W.contents output.old) (W.contents output.new) (listing_of bytes))) }
{
    let mut table = [0u8; LARGEST_TABLE + 1];
    let mut len = 0;
    let read = read_front(input, &mut table, &mut len);
    let mut text = [0u8; LISTING_ROOM];
    let size = list_input(&table, len, &mut text);
    output.write_all(&text[..size])?;
    read
}

// The exit status is 0, whatever could be read or written.
fn main(rt: HostRuntime) {
    let _ = list(&mut rt.stdin(), &mut rt.stdout());
}

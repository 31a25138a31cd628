// The archive of the listing, liblisting_text.a: the call of the crate `listing_text`, exported for C. A crate is a
// library or a static library, so the function here calls the library's of its name and states its contract again,
// word for word, with the same comment (tests/c/headers.sh compares them).
#![tactic(auto)]

ghost use Rattle.std.specs.Prelude.{◌≡◌, ◌≤◌, length, take};
ghost use Rattle.calls.specs.Answers.{Yields};
ghost use Rattle.listings.specs.Listing.{EndsInShare, listing_answer};
ghost use Rattle.tables.specs.Checks.{table_refusal};
ghost use Rattle.tables.specs.Format.{decode};

// The listing of bytes, a table or not: its text at the front of the buffer, and its length.
#[unsafe(no_mangle)]
pub extern "C" fn keeper_listing(table: &[u8], text: &mut [u8], written: &mut usize) -> u32
    ensures outcome { Yields (listing_answer table.now (length text.old)) result
        text.old text.new written.old written.new }
    ensures rounded { result ≡ 0 → table_refusal table.now ≡ 0
        → EndsInShare (decode table.now) (take written.new text.new) }
    ensures fits { 80000 ≤ length text.old → result ≡ 0 }
{
    listing_text::keeper_listing(table, text, written)
}

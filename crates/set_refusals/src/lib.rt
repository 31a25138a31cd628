// What the call on a list of sets refuses before 16. The table's checks come first, so what stands behind
// them judges an accepted table.
#![tactic(auto)]

ghost use Rattle.std.specs.Prelude.{◌≡◌, IfOk};
ghost use Rattle.call_checks.specs.CallChecks.{lines_of_sets_checks};
ghost use Rattle.tables.specs.Checks.{first_caught};
ghost use Rattle.tables.specs.Refusals.{refusal_in};

use process_set::some_high_bit;
use refusals::short_of_lines;
use run_table::checks::check;
use tables::parts::RunTable;
use tables::refusal::Refusal;

// The most sets that one call takes.
pub const MOST_SETS: usize = 256;

// The lines of many sets, given the length of the scratch: the table's checks, 25, 12, 15.
pub fn sets_refusal<'a>(
    bytes: &'a [u8],
    sets: &[u32],
    numbers: usize,
) -> Result<RunTable<'a>, Refusal>
    ensures refusal { refusal_in result ≡ first_caught
        (lines_of_sets_checks bytes.now sets.now numbers) }
    ensures table { IfOk result (λ table. table.bytes.now ≡ bytes.now) }
{
    let table = check(bytes)?;
    if MOST_SETS < sets.len() {
        return Err(Refusal::TooManySets);
    }
    if some_high_bit(sets, table.process_count()) {
        return Err(Refusal::UnknownProcessInSet);
    }
    if short_of_lines(table, numbers) {
        return Err(Refusal::ScratchTooShort);
    }
    Ok(table)
}

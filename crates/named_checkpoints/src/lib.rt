// Checkpoints that a caller names, in two parallel lists of processes and of their checkpoints' numbers: what
// the checks ask of them, the line under their ceiling, and whether that line has them all.
#![tactic(auto)]

ghost use Rattle.std.specs.Prelude.{◌≡◌};
ghost use Rattle.named_checkpoints.specs.Lists.{Parallel};
ghost use Rattle.tables.specs.Arrays.{array_of};
ghost use Rattle.tables.specs.Format.{decode};
ghost use Rattle.tables.specs.Table.{process_count};
ghost use Rattle.zigzag.specs.Names.{not_below_counts, unknown_named};
ghost use Rattle.zigzag.specs.Together.{misses, named_ceiling, named_line};

use lines::line_under;
use tables::parts::RunTable;

// Whether one of the processes is none of an accepted table's.
pub fn unknown_process(table: RunTable, processes: &[u16]) -> bool
    ensures { result ≡ unknown_named (decode table.entry.bytes.now) processes.now }
{
    let n = table.process_count();
    processes.iter().any(|&p| n <= p as usize)
}

// Checkpoints named in an accepted table: the lists are of one length, and each process is one of the table's.
#[derive(Clone, Copy)]
pub struct NamedCheckpoints<'a> {
    pub table: RunTable<'a>,
    pub processes: &'a [u16],
    pub states: &'a [u16],
    pub ghost parallel: { Parallel (process_count (decode table.bytes.now)) processes.now states.now },
}

// Whether one of the numbers is not below the count of its process.
pub fn not_below_counts(names: NamedCheckpoints) -> bool
    ensures { result ≡ not_below_counts (decode names.entry.table.bytes.now)
        names.entry.processes.now names.entry.states.now }
{
    let counts = names.table.count_array();
    names
        .processes
        .iter()
        .zip(names.states)
        .any(|(&p, &state)| counts[p as usize] <= state)
}

// The ceiling of the named checkpoints.
fn named_ceiling(names: NamedCheckpoints) -> [u16; 32]
    ensures { result ≡ array_of (named_ceiling (decode names.entry.table.bytes.now)
        names.entry.processes.now names.entry.states.now) }
{
    let mut ceiling = names.table.count_array();
    for (&p, &state) in names.processes.iter().zip(names.states) {
        ceiling[p as usize] = state;
    }
    ceiling
}

// The latest consistent line under that ceiling.
pub fn named_line(names: NamedCheckpoints) -> [u16; 32]
    ensures { result ≡ array_of (named_line (decode names.entry.table.bytes.now)
        names.entry.processes.now names.entry.states.now) }
{
    line_under(names.table, named_ceiling(names))
}

// Whether a line has another number than the one that is named, at one of the processes.
pub fn misses_named(line: [u16; 32], names: NamedCheckpoints) -> bool
    ensures { result ≡ misses names.entry.processes.now names.entry.states.now line }
{
    names
        .processes
        .iter()
        .zip(names.states)
        .any(|(&p, &state)| line[p as usize] != state)
}

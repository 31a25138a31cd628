// The entries of a table, its three parts. The definitions that the contracts of their methods cite name them, so
// the methods stand in another file (`checks`): a file of a ghost field imports all that it cites.
ghost use Rattle.run_table.specs.EntryChecks.{Sized};

// The counts, the sends and the receipts of a table of n processes and m messages, whose sizes and length are right.
#[derive(Clone, Copy)]
pub struct Entries<'a> {
    pub counts: &'a [u8],
    pub sends: &'a [u8],
    pub receipts: &'a [u8],
    pub n: usize,
    pub m: usize,
    pub ghost sized: { Sized n m counts.now sends.now receipts.now },
}

// Where the parts of a table stand, how long it is, and the limits of its numbers. What is known of the
// format is known here.
ghost use Rattle.std.specs.Prelude.{◌≡◌, ◌<◌};
ghost use Rattle.tables.specs.Format.{receipts_at, sends_at, table_length};

// The limits of N, of M, and of each count.
pub const MOST_PROCESSES: usize = 32;

pub const MOST_MESSAGES: usize = 4096;

pub const MOST_CHECKPOINTS: u16 = 4096;

// The byte at which the counts begin.
pub const COUNTS_AT: usize = 4;

// The number of bytes of the largest table.
pub const LARGEST_TABLE: usize = COUNTS_AT + 2 * MOST_PROCESSES + 8 * MOST_MESSAGES;

// The byte at which the sends of a table of n processes begin.
pub fn sends_at(n: usize) -> usize
    requires { n < 65536 }
    ensures { result ≡ sends_at n }
{
    COUNTS_AT + 2 * n
}

// The byte at which the receipts of a table of n processes and m messages begin.
pub fn receipts_at(n: usize, m: usize) -> usize
    requires n_bound { n < 65536 }
    requires m_bound { m < 65536 }
    ensures { result ≡ receipts_at n m }
{
    sends_at(n) + 4 * m
}

// The number of its bytes.
pub fn table_length(n: usize, m: usize) -> usize
    requires n_bound { n < 65536 }
    requires m_bound { m < 65536 }
    ensures { result ≡ table_length n m }
{
    receipts_at(n, m) + 4 * m
}

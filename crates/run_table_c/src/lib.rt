// The archive of the table reader, librun_table.a: each call of the crate `run_table`, exported for C. A crate is a
// library or a static library, so each function here calls the library's of its name and states its contract again,
// word for word, with the same comment (tests/c/headers.sh compares them).
#![tactic(auto)]

ghost use Rattle.std.specs.Prelude.{◌≡◌};
ghost use Rattle.tables.specs.Checks.{table_refusal};
ghost use Rattle.tables.specs.Format.{decode};
ghost use Rattle.tables.specs.Table.{count_of, message_count, message_of, process_count};

// The refusal of a table: the number of the first of its checks that catches, or 0.
#[unsafe(no_mangle)]
pub extern "C" fn run_table_check(table: &[u8]) -> u32
    ensures { result ≡ table_refusal table.now }
{
    run_table::run_table_check(table)
}

// N, the number of processes. This and the lookups below read any bytes, accepted or not: what
// stands beyond the end of the bytes, the last process or the last message is 0.
#[unsafe(no_mangle)]
pub extern "C" fn run_table_processes(table: &[u8]) -> u16
    ensures { result ≡ process_count (decode table.now) }
{
    run_table::run_table_processes(table)
}

// M, the number of messages.
#[unsafe(no_mangle)]
pub extern "C" fn run_table_messages(table: &[u8]) -> u16
    ensures { result ≡ message_count (decode table.now) }
{
    run_table::run_table_messages(table)
}

// The count of process p.
#[unsafe(no_mangle)]
pub extern "C" fn run_table_count(table: &[u8], p: usize) -> u16
    ensures { result ≡ count_of (decode table.now) p }
{
    run_table::run_table_count(table, p)
}

// The sender of message k.
#[unsafe(no_mangle)]
pub extern "C" fn run_table_sender(table: &[u8], k: usize) -> u16
    ensures { result ≡ (message_of (decode table.now) k).sender }
{
    run_table::run_table_sender(table, k)
}

// The latest checkpoint that the sender of message k took before sending it.
#[unsafe(no_mangle)]
pub extern "C" fn run_table_sent(table: &[u8], k: usize) -> u16
    ensures { result ≡ (message_of (decode table.now) k).sent }
{
    run_table::run_table_sent(table, k)
}

// The receiver of message k.
#[unsafe(no_mangle)]
pub extern "C" fn run_table_receiver(table: &[u8], k: usize) -> u16
    ensures { result ≡ (message_of (decode table.now) k).receiver }
{
    run_table::run_table_receiver(table, k)
}

// The first checkpoint that the receiver of message k took after receiving it; 0: undelivered; its count:
// received and unsaved.
#[unsafe(no_mangle)]
pub extern "C" fn run_table_received(table: &[u8], k: usize) -> u16
    ensures { result ≡ (message_of (decode table.now) k).received }
{
    run_table::run_table_received(table, k)
}

// The run table: its checks, and its numbers by place (docs/MANUAL.md, "The run table"). It stands below
// the keeper and knows nothing of it: plotting tools link it alone.
#![tactic(auto)]

pub mod checks;
mod entries;

ghost use Rattle.std.specs.Prelude.{◌≡◌};
ghost use Rattle.tables.specs.Checks.{table_refusal};
ghost use Rattle.tables.specs.Format.{decode};
ghost use Rattle.tables.specs.Table.{count_of, message_count, message_of, process_count};

use tables::lookups::Field;
use tables::{lookups, numbers};

// The refusal of a table: the number of the first of its checks that catches, or 0.
#[unsafe(no_mangle)]
pub extern "C" fn run_table_check(table: &[u8]) -> u32
    ensures { result ≡ table_refusal table.now }
{
    match checks::check(table) {
        Ok(_) => 0,
        Err(refusal) => u32::from(refusal),
    }
}

// N, the number of processes. This and the lookups below read any bytes, accepted or not: what
// stands beyond the end of the bytes, the last process or the last message is 0.
#[unsafe(no_mangle)]
pub extern "C" fn run_table_processes(table: &[u8]) -> u16
    ensures { result ≡ process_count (decode table.now) }
{
    numbers::u16_or_zero(table, 0)
}

// M, the number of messages.
#[unsafe(no_mangle)]
pub extern "C" fn run_table_messages(table: &[u8]) -> u16
    ensures { result ≡ message_count (decode table.now) }
{
    numbers::u16_or_zero(table, 2)
}

// The count of process p.
#[unsafe(no_mangle)]
pub extern "C" fn run_table_count(table: &[u8], p: usize) -> u16
    ensures { result ≡ count_of (decode table.now) p }
{
    lookups::count(table, p)
}

// The sender of message k.
#[unsafe(no_mangle)]
pub extern "C" fn run_table_sender(table: &[u8], k: usize) -> u16
    ensures { result ≡ (message_of (decode table.now) k).sender }
{
    lookups::message_number(table, k, Field::Sender)
}

// The latest checkpoint that the sender of message k took before sending it.
#[unsafe(no_mangle)]
pub extern "C" fn run_table_sent(table: &[u8], k: usize) -> u16
    ensures { result ≡ (message_of (decode table.now) k).sent }
{
    lookups::message_number(table, k, Field::Sent)
}

// The receiver of message k.
#[unsafe(no_mangle)]
pub extern "C" fn run_table_receiver(table: &[u8], k: usize) -> u16
    ensures { result ≡ (message_of (decode table.now) k).receiver }
{
    lookups::message_number(table, k, Field::Receiver)
}

// The first checkpoint that the receiver of message k took after receiving it; 0: undelivered; its count:
// received and unsaved.
#[unsafe(no_mangle)]
pub extern "C" fn run_table_received(table: &[u8], k: usize) -> u16
    ensures { result ≡ (message_of (decode table.now) k).received }
{
    lookups::message_number(table, k, Field::Received)
}

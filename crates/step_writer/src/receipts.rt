// Receipt and checkpoint (docs/MANUAL.md, "Steps": receive, save): the listed messages are received, and at a
// checkpoint the count of the process grows.
ghost use Rattle.std.specs.Prelude.{◌≡◌, ℕ, ◌+◌, ◌*◌, ◌<◌, ◌≤◌, get_or, length};
ghost use Rattle.steps.specs.Steps.{after_checkpoint, after_receipt};
ghost use Rattle.tables.specs.Format.{decode, encode, table_length};
ghost use Rattle.tables.specs.Lists.{tabulate};
ghost use Rattle.tables.specs.Numbers.{put_at, u16_at, u16s};
ghost use Rattle.tables.specs.Table.{message_count, process_count};
ghost use Rattle.step_writer.specs.Receipts.{CanReceive, after_receiving, receipts_set};

use number_writer::copy_numbers;
use table_writer::put_head;
use tables::format::{receipts_at, sends_at};
use tables::numbers::put_u16;
use tables::parts::RunTable;

// Sets the receipt number of each listed message, in place, in a part of receipts that has its entry.
pub fn set_receipts(receipts: &mut [u8], list: &[u16], number: u16)
    requires { (a : ℕ) → a < length list.now → 4 * get_or list.now a 0 + 3 < length receipts.old }
    ensures { receipts.new
        ≡ receipts_set receipts.old list.now number }
{
    for &position in list {
        let k = position as usize;
        put_u16(receipts, 4 * k + 2, number);
    }
}

// Writes the receipts of m messages, those at the listed positions with a new number, to a place of a
// buffer that has room for them. The caller has M, which would be a division here.
fn put_receipts(buffer: &mut [u8], at: usize, receipts: &[u8], m: usize, list: &[u16], number: u16)
    requires receipts_len { length receipts.now ≡ 4 * m }
    requires by_index { (a : ℕ) → a < length list.now → get_or list.now a 0 < m }
    requires m_in_bounds { at + 4 * m ≤ length buffer.old }
    ensures { buffer.new
        ≡ put_at buffer.old at
        (receipts_set (u16s (tabulate (2 * m) (λ k. u16_at receipts.now (2 * k))))
        list.now number) }
{
    copy_numbers(buffer, at, receipts, 2 * m);
    let end = at + 4 * m;
    set_receipts(&mut buffer[at..end], list, number);
}

// What a receipt or a checkpoint is given: an accepted table, a known process of it, and a list of messages that
// wait for the process.
#[derive(Clone, Copy)]
pub struct Receipt<'a> {
    pub table: RunTable<'a>,
    pub process: u16,
    pub list: &'a [u16],
    pub ghost can_receive: { CanReceive table.bytes.now process list.now },
}

// Each method asks for room by a clause of its own: the prover covers no ghost field beside a buffer lent as `&mut`.
impl<'a> Receipt<'a> {
    // Writes the table after the process received the list, with its count grown by the checkpoints that it took,
    // none or one, to the front of a buffer that has room for it.
    fn put_received(&self, taken: u16, answer: &mut [u8])
        requires taken_bound { taken ≤ 1 }
        requires table_in_bounds { table_length (process_count (decode self.now.table.bytes.now))
            (message_count (decode self.now.table.bytes.now)) ≤ length answer.old }
        ensures { answer.new ≡ put_at answer.old 0 (encode (after_receiving
            (decode self.now.table.bytes.now) self.now.process self.now.list.now taken)) }
    {
        let n = self.table.process_count();
        let m = self.table.message_count();
        let mut counts = self.table.count_array();
        let number = counts[self.process as usize];
        counts[self.process as usize] = number + taken;
        put_head(answer, &counts[..n], m);
        copy_numbers(answer, sends_at(n), self.table.sends(), 2 * m);
        put_receipts(
            answer,
            receipts_at(n, m),
            self.table.receipts(),
            m,
            self.list,
            number,
        );
    }

    // Writes the table after the receipt. Receipt and checkpoint are two calls: each contract names its own step, as
    // the manual has it, and no number of checkpoints.
    pub fn put_receipt(&self, answer: &mut [u8])
        requires table_in_bounds { table_length (process_count (decode self.now.table.bytes.now))
            (message_count (decode self.now.table.bytes.now)) ≤ length answer.old }
        ensures { answer.new ≡ put_at answer.old 0 (encode (after_receipt
            (decode self.now.table.bytes.now) self.now.process self.now.list.now)) }
    {
        self.put_received(0, answer);
    }

    // Writes the table after the checkpoint.
    pub fn put_checkpoint(&self, answer: &mut [u8])
        requires table_in_bounds { table_length (process_count (decode self.now.table.bytes.now))
            (message_count (decode self.now.table.bytes.now)) ≤ length answer.old }
        ensures { answer.new ≡ put_at answer.old 0 (encode (after_checkpoint
            (decode self.now.table.bytes.now) self.now.process self.now.list.now)) }
    {
        self.put_received(1, answer);
    }
}

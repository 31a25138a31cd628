// The messages of an accepted table, as functions take them: a part of sends and a part of receipts.
#![tactic(auto, unfolding(crate::specs::Format::message_at, crate::specs::Format::checkpoint_at))]

ghost use Rattle.std.specs.Prelude.{◌≡◌, ◌<◌};
ghost use Rattle.tables.specs.Format.{message_at};
ghost use Rattle.tables.specs.Parts.{Messages};
ghost use Rattle.tables.specs.Table.{most_processes};

use crate::numbers::u16_at;

// The sends and the receipts of so many messages between known processes.
#[derive(Clone, Copy)]
pub struct MessageParts<'a> {
    pub sends: &'a [u8],
    pub receipts: &'a [u8],
    pub count: usize,
    pub ghost given: { Messages most_processes count sends.now receipts.now },
}

impl<'a> MessageParts<'a> {
    // The sender of message k.
    pub fn sender(self, k: usize) -> usize
        requires { k < self.count }
        ensures number { result ≡ (message_at self.entry.sends.now self.entry.receipts.now k).sender }
        ensures known { result < most_processes }
    {
        u16_at(self.sends, 4 * k) as usize
    }

    // Where it was sent.
    pub fn sent(self, k: usize) -> u16
        requires { k < self.count }
        ensures { result ≡ (message_at self.entry.sends.now self.entry.receipts.now k).sent }
    {
        u16_at(self.sends, 4 * k + 2)
    }

    // Its receiver.
    pub fn receiver(self, k: usize) -> usize
        requires { k < self.count }
        ensures number { result ≡ (message_at self.entry.sends.now self.entry.receipts.now k).receiver }
        ensures known { result < most_processes }
    {
        u16_at(self.receipts, 4 * k) as usize
    }

    // Where it was received.
    pub fn received(self, k: usize) -> u16
        requires { k < self.count }
        ensures { result ≡ (message_at self.entry.sends.now self.entry.receipts.now k).received }
    {
        u16_at(self.receipts, 4 * k + 2)
    }
}

// Whether the messages of each channel are in turn (check 23), found in one loop over the messages: each
// beside the one before it in its channel. The loop is that of `run_table::checks`.
#![tactic(auto)]

ghost use Rattle.std.specs.Prelude.{◌≡◌, ◌+◌, ◌*◌, ◌<◌, length};
ghost use Rattle.channels.specs.Neighbours.{Lasts, behind_neighbour, channel_at};
ghost use Rattle.tables.specs.Checks.{out_of_turn};
ghost use Rattle.tables.specs.Format.{message_at};
ghost use Rattle.tables.specs.Parts.{MessageThere};
ghost use Rattle.tables.specs.Table.{most_messages, most_processes};

use tables::numbers::u16_at;

// The channel of message k, its sender and its receiver as one number below 1,024.
fn channel_at(sends: &[u8], receipts: &[u8], k: usize) -> usize
    requires { MessageThere most_processes k sends.now receipts.now }
    ensures { result ≡ channel_at sends.now receipts.now k }
{
    let sender = u16_at(sends, 4 * k) as usize;
    let receiver = u16_at(receipts, 4 * k) as usize;
    32 * sender + receiver
}

// Whether message k is out of turn behind message q.
fn out_of_turn(sends: &[u8], receipts: &[u8], q: usize, k: usize) -> bool
    requires q_in_bounds { 4 * q + 3 < length sends.now }
    requires k_in_bounds { 4 * k + 3 < length sends.now }
    requires q_in_bounds_2 { 4 * q + 3 < length receipts.now }
    requires k_in_bounds_2 { 4 * k + 3 < length receipts.now }
    ensures { result ≡ out_of_turn (message_at sends.now receipts.now q)
        (message_at sends.now receipts.now k) }
{
    let sent = u16_at(sends, 4 * k + 2);
    if sent < u16_at(sends, 4 * q + 2) {
        return true;
    }
    let received = u16_at(receipts, 4 * k + 2);
    if received == 0 {
        return false;
    }
    let earlier = u16_at(receipts, 4 * q + 2);
    if earlier == 0 {
        return true;
    }
    received < earlier
}

// Whether message k is out of turn behind the one before it in its channel. What is known of a channel is
// where its last message stands, one more than the position, or 0 where it has none yet; from now on
// that is message k. `Option<u16>` takes four bytes: 2 KB more of stack and of zeroing for each table.
#[tactic(auto, using(crate::proofs::ChannelLaws::channel_small))]
pub fn behind_neighbour(last: &mut [u16], sends: &[u8], receipts: &[u8], k: usize) -> bool
    requires k_lt_most_messages { k < most_messages }
    requires message_there { MessageThere most_processes k sends.now receipts.now }
    requires lasts { Lasts (channel_at sends.now receipts.now) k last.old }
    ensures value { result ≡ behind_neighbour (channel_at sends.now receipts.now)
        (message_at sends.now receipts.now) k }
    ensures lasts_2 { Lasts (channel_at sends.now receipts.now) (k + 1) last.new }
{
    let channel = channel_at(sends, receipts, k);
    let before = (last[channel] as usize).checked_sub(1);
    last[channel] = (k + 1) as u16;
    match before {
        Some(q) => out_of_turn(sends, receipts, q, k),
        None => false,
    }
}

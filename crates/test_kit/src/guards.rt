// Guarded buffers: a call is lent a room inside one, and the guards around it tell whether the call stayed
// there.
ghost use Rattle.std.specs.Prelude.{◌≡◌, ◌+◌, ◌≤◌};
ghost use Rattle.test_kit.specs.Guards.{Guarded, answer_end, guards, most_room};

use crate::{SPACE, all_are};

// A guarded buffer has so many guards in front of the room that a call is lent, and at least as many
// behind it. A guard is a byte 165.
pub const GUARDS: usize = 16;

// The largest room in a guarded buffer.
pub const MOST_ROOM: usize = SPACE - 2 * GUARDS;

// Where the answer ends in the guarded buffer: where its room starts, if there is none.
#[tactic(auto, unfolding(crate::specs::Guards::answer_end))]
pub fn answer_end(number: u32, written: usize, room: usize) -> usize
    requires { room ≤ most_room }
    ensures { (guards ≤ result) × (result ≤ guards + room) × (result ≡ answer_end number written room) }
{
    if number == 0 && written <= room {
        GUARDS + written
    } else {
        GUARDS
    }
}

// Whether a guarded buffer is as it was, in front of what a call wrote and behind it.
pub fn is_guarded(buffer: &[u8], from: usize, to: usize) -> bool
    ensures { Guarded buffer.now from to result }
{
    all_are(buffer, 0, from, 165) && all_are(buffer, to, buffer.len(), 165)
}

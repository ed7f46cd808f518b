// What an output with none chosen takes.
ghost use Rattle.std.specs.Prelude.{◌≡◌, false, ℕ, ◌<◌, ◌≤◌};
ghost use Rattle.aintc_record.specs.declared.Aintc.{Aintc};
ghost use Rattle.aintc_record.specs.Record.{side};
ghost use Rattle.aintc_registers.specs.Settle.{settled_side, settle};
ghost use Rattle.aintc_room.specs.Room.{Laid, chosen_from, with_side};
ghost use Rattle.aintc_room.specs.First.{Leads, Alone};

use super::layout::{FIQ, FIQS, IRQ, ROUTES, THRESHOLD};
use super::search;
use rooms::Room;

// Where the one stands that is chosen for FIQ, where `fast`, or for IRQ.
pub(crate) fn place_of(fast: bool) -> usize
    ensures { (result ≡ chosen_from fast) × (result ≤ 12) }
{
    if fast {
        return FIQ;
    }
    IRQ
}

// Input k, before all others that an output with none chosen may take, is chosen if the threshold lets its priority pass.
fn take(room: &mut Room, fast: bool, k: u32)
    requires { k < 128 }
    ensures { (a : Aintc) → Laid a room.old → (side a fast).active ≡ false → Leads a fast k → Laid (with_side a fast (settled_side a fast)) room.new }
{
    let at = place_of(fast);
    let priority = room[ROUTES + k as usize] / 2;
    if (priority == 0) | (priority < room[THRESHOLD]) {
        room[at] = 1;
        room[at + 1] = k;
        room[at + 2] = priority;
    }
}

// An output with none chosen takes its first.
fn settle_side(room: &mut Room, fast: bool)
    ensures { (a : Aintc) → Laid a room.old → Laid (with_side a fast (settled_side a fast)) room.new }
{
    let at = place_of(fast);
    if room[at] != 0 {
        return;
    }
    let a = search::pending_word(room, fast, 0);
    let b = search::pending_word(room, fast, 1);
    let c = search::pending_word(room, fast, 2);
    let d = search::pending_word(room, fast, 3);
    if search::any_of(a, b, c, d) == 0 {
        return;
    }
    let k = search::first_of(room, a, b, c, d) % 128;
    take(room, fast, k);
}

// Each output with none chosen takes its first.
pub(crate) fn settle(room: &mut Room)
    ensures { (a : Aintc) → Laid a room.old → Laid (settle a) room.new }
{
    settle_side(room, false);
    settle_side(room, true);
}

// The same where no other input than k may be taken. Most outputs hold one already, while a line is high as often as low: so this is asked first.
pub(crate) fn offer(room: &mut Room, k: u32)
    requires { k < 128 }
    ensures { (a : Aintc) → Laid a room.old → Alone a k → Laid (settle a) room.new }
{
    let n = (k / 32) as usize;
    let fast = words::has(room[FIQS + n], k % 32);
    if room[place_of(fast)] != 0 {
        return;
    }
    if !words::has(search::open_word(room, n), k % 32) {
        return;
    }
    take(room, fast, k);
}

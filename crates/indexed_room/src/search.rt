// Which system interrupt an index names: the first busy channel, and the first active system interrupt of it, found by words of 32.
ghost use Rattle.std.specs.Prelude.{◌≡◌, ◌+◌, ◌*◌, ◌/◌, ◌%◌, ◌<◌, ◌≤◌, true};
ghost use Rattle.words.specs.Counting.{one};
ghost use Rattle.cic_record.specs.Kinds.{system};
ghost use Rattle.cic_held.specs.Order.{busy, first_in, index_of};
ghost use Rattle.cic_held.specs.declared.Prioritised.{Prioritised};
ghost use Rattle.cic_held.specs.Held.{sound};
ghost use Rattle.indexed_room.specs.Marks.{Marks};
ghost use Rattle.indexed_room.specs.Room.{Laid};
ghost use Rattle.indexed_room.specs.Search.{Lit, Asked};

use cic_record::{Channel, Host, System};
use cic_room::laid::{ACTIVE, BUSY, CHANNEL_MAP, HOST_MAP, OF_HOST, WORDS};
use rooms::Room;

// ---- bytes of the maps

// 1 where the test holds, else 0.
fn flag(t: bool) -> u32
    ensures { (result ≡ one t) × (result ≤ 1) }
{
    if t { 1 } else { 0 }
}

// Which of the four bytes of a word are b.
fn of_four(room: &Room, at: usize, b: u32) -> u32
    requires { at < 2048 }
    ensures { (result < 16) × Marks room.now at b 4 result }
{
    let w = room[at];
    let first = flag(w % 256 == b);
    let second = flag(w / 256 % 256 == b);
    let third = flag(w / 65536 % 256 == b);
    let fourth = flag(w / 16777216 % 256 == b);
    fourth * 8 + (third * 4 + (second * 2 + first))
}

// Which of the eight bytes of two words.
fn of_eight(room: &Room, at: usize, b: u32) -> u32
    requires { at ≤ 2046 }
    ensures { (result < 256) × Marks room.now at b 8 result }
{
    let low = of_four(room, at, b);
    let high = of_four(room, at + 1, b);
    high * 16 + low
}

// Which of the 16 bytes of four words.
fn of_sixteen(room: &Room, at: usize, b: u32) -> u32
    requires { at ≤ 2044 }
    ensures { (result < 65536) × Marks room.now at b 16 result }
{
    let low = of_eight(room, at, b);
    let high = of_eight(room, at + 2, b);
    high * 256 + low
}

// Which of the 32 bytes of eight words.
pub(crate) fn members(room: &Room, at: usize, b: u32) -> u32
    requires { at ≤ 2040 }
    ensures { Marks room.now at b 32 result }
{
    let low = of_sixteen(room, at, b);
    let high = of_sixteen(room, at + 4, b);
    high * 65536 + low
}

// ---- the first of a channel

// The active system interrupts of word w that are of channel k.
fn lit_word(room: &Room, w: u32, k: Channel) -> u32
    requires { w < 32 }
    ensures { (result < 4294967296) × ((p : Prioritised) → Laid p room.now → Lit p.cic k.0 w result) }
{
    let active = room[ACTIVE + w as usize];
    if active == 0 {
        return 0;
    }
    let of = members(room, CHANNEL_MAP + (8 * w) as usize, k.0 as u32);
    words::meet(active, of)
}

// The lowest active system interrupt of a channel that has one.
fn first_of(room: &Room, k: Channel) -> System
    requires { k.0 < 256 }
    ensures { (p : Prioritised) → sound p ≡ true → Laid p room.now → busy p.cic k ≡ true → result ≡ system (first_in p.cic k) }
{
    let mut left = room[WORDS + k.0 as usize];
    while left != 0 {
        let w = words::lowest(left);
        let some = lit_word(room, w, k);
        if some != 0 {
            let i = words::lowest(some);
            return System((32 * w + i) as u16);
        }
        left = words::with_bit(left, w, false);
    }
    System(0)
}

// ---- the first channel

// The busy channels of word w that an index is over: the global one over all, that of host h over those mapped to it.
fn asked_word(room: &Room, w: u32, every: bool, h: Host) -> u32
    requires { w < 8 }
    ensures { (result < 4294967296) × ((p : Prioritised) → sound p ≡ true → Laid p room.now → Asked p.cic every h w result) }
{
    let some = room[BUSY + w as usize];
    if every | (some == 0) {
        return some;
    }
    let of = members(room, HOST_MAP + (8 * w) as usize, h.0 as u32);
    words::meet(some, of)
}

// The word of an index that is not held: the global one, or that of host h. A host that has no active system interrupt is not searched for.
pub(crate) fn index(room: &Room, every: bool, h: Host) -> u32
    requires { h.0 < 256 }
    ensures { (p : Prioritised) → sound p ≡ true → Laid p room.now → result ≡ index_of p.cic every h }
{
    if !every & (room[OF_HOST + h.0 as usize] == 0) {
        return cic_held::indices::NONE;
    }
    for w in 0..8 {
        let some = asked_word(room, w, every, h);
        if some != 0 {
            let j = words::lowest(some);
            let s = first_of(room, Channel((32 * w + j) as u16));
            return s.0 as u32;
        }
    }
    cic_held::indices::NONE
}

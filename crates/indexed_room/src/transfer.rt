// A record of a CIC with prioritised indices into a room, and out of it.
ghost use Rattle.std.specs.Prelude.{◌≡◌, true, ℕ, ◌+◌, ◌%◌, ◌<◌, length, get_or, replicate};
ghost use Rattle.rooms.specs.Parts.{made};
ghost use Rattle.cic_record.specs.declared.Cic.{Cic};
ghost use Rattle.cic_room.specs.Room.{Frame, Laid as Stands};
ghost use Rattle.cic_held.specs.declared.Prioritised.{Prioritised};
ghost use Rattle.cic_held.specs.Held.{sound};
ghost use Rattle.indexed_room.specs.Room.{Laid, with_held, with_words};
ghost use Rattle.indexed_room.specs.Words.{words_of};
ghost use Rattle.indexed_room.specs.Entered.{Entered};

use super::channels::channel_in;
use super::holds::{CHOICE, GLOBAL_HELD, MODE};
use cic_held::{Held, Prioritised};
use cic_room::laid::{CHANNEL_MAP, HELD, KIND, WORDS};
use rooms::Room;
use std::array;

// The kind of a CIC with prioritised indices.
const INDEXED: u32 = 4;

// ---- a record into a room

// System interrupt s is entered in the words of its channel.
fn enter(room: &mut Room, s: u32)
    requires { s < 1024 }
    ensures { (f : Frame) (c : Cic) → Entered f c s room.old → Entered f c (s + 1) room.new }
{
    let k = channel_in(room[CHANNEL_MAP + (s / 4) as usize], s % 4);
    let at = WORDS + k.0 as usize;
    let word = words::with_bit(room[at], s / 32, true);
    room[at] = word;
}

// The words of the channels.
fn lay_words(room: &mut Room)
    ensures { (f : Frame) (c : Cic) → f.words ≡ replicate 256 0 → Stands f c room.old → Stands (with_words f (made 256 (words_of c.channel))) c room.new }
{
    for s in 0..1024 {
        enter(room, s);
    }
}

// What is held for each host.
fn lay_held<'a>(room: &'a mut Room, held: &'a [u16; 256])
    ensures { (f : Frame) (c : Cic) → length held.now ≡ 256 → Stands f c room.old → Stands (with_held f held.now) c room.new }
{
    for (k, x) in held.iter().enumerate() {
        room[HELD + k] = u32::from(*x);
    }
}

// The room of a sound record; a call, as that of a CoreInterrupt.
#[inline(never)]
pub fn lay(p: Prioritised) -> Room
    ensures { sound p ≡ true → Laid p result }
{
    let mut room = cic_room::transfer::lay(p.cic, true);
    let choice = p.held.choice;
    let hold = p.held.hold;
    let global = u32::from(p.held.global);
    lay_words(&mut room);
    lay_held(&mut room, &p.held.host);
    room[KIND] = INDEXED;
    room[CHOICE] = choice;
    room[MODE] = hold;
    room[GLOBAL_HELD] = global;
    room
}

// ---- a room into a record

fn narrow(x: u32) -> u16
    ensures { result ≡ x % 65536 }
{
    (x % 65536) as u16
}

// What is held for each host.
fn held_in(room: &Room) -> [u16; 256]
    ensures { (length result ≡ 256) × ((k : ℕ) → k < 256 → get_or result k 0 ≡ get_or room.now (1024 + k) 0 % 65536) }
{
    array::from_fn(|k| narrow(room[HELD + k]))
}

// The record in a room.
pub fn record_of(room: &Room) -> Prioritised
    ensures { (p : Prioritised) → sound p ≡ true → Laid p room.now → result ≡ p }
{
    let cic = cic_room::transfer::record_of(room);
    let host = held_in(room);
    let global = narrow(room[GLOBAL_HELD]);
    let held = Held {
        choice: room[CHOICE],
        hold: room[MODE],
        global,
        host,
    };
    Prioritised { cic, held }
}

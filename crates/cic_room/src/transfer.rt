// A record of the CIC into a room, and out of it.
ghost use Rattle.std.specs.Prelude.{◌≡◌, true, List, ℕ, ◌+◌, ◌*◌, ◌/◌, ◌%◌, ◌<◌, ◌≤◌, length, get_or};
ghost use Rattle.words.specs.Array.{byte_of};
ghost use Rattle.cic_record.specs.declared.Cic.{Cic};
ghost use Rattle.cic_record.specs.Sound.{sound};
ghost use Rattle.cic_registers.specs.Maps.{map_read};
ghost use Rattle.cic_room.specs.Room.{Frame, plain, Laid};
ghost use Rattle.cic_room.specs.Tables.{Held, Counted, Standing};
ghost use Rattle.cic_room.specs.Copies.{Copied, Blank};

use super::laid::{
    ALLOW, CHANNEL_MAP, CHANNELS, ENABLE, GLOBAL, HOST_MAP, HOSTS, KIND, LINES, LOWEST, REVISION,
    STATUS, SYSTEMS, byte_of,
};
use cic_record::Cic;
use rooms::Room;
use std::array;

// ---- a record into a room

// Words from a place on.
fn copy(room: &mut Room, at: usize, ws: &[u32])
    requires { at + length ws.now ≤ 2048 }
    ensures { length room.old ≡ 2048 → Copied at (length ws.now) (λ k. get_or ws.now k 0) room.old room.new }
{
    room[at..at + ws.len()].copy_from_slice(ws);
}

// Word k of a map, the first of its four bytes in the lowest.
fn map_word(m: &[u8], k: usize) -> u32
    requires { 4 * k + 4 ≤ length m.now }
    ensures { result ≡ map_read (length m.now) m.now k }
{
    u32::from_le_bytes([m[4 * k], m[4 * k + 1], m[4 * k + 2], m[4 * k + 3]])
}

// A map from a place on, n words of four bytes.
fn copy_map(room: &mut Room, at: usize, m: &[u8], n: usize)
    requires { (length m.now ≡ 4 * n) × (at + n ≤ 2048) }
    ensures { length room.old ≡ 2048 → Copied at n (map_read (length m.now) m.now) room.old room.new }
{
    for k in 0..n {
        room[at + k] = map_word(m, k);
    }
}

// The record in a room of zeros, and nothing beside it yet.
fn copies(c: Cic, kept: bool) -> Room
    ensures { sound c ≡ true → Held (plain kept) c result × Blank result }
{
    let mut room: Room = [0; 2048];
    let cells = [
        2,
        c.systems,
        c.channels,
        c.hosts,
        c.revision,
        c.global,
        words::one_if(kept),
    ];
    copy(&mut room, KIND, &cells);
    copy(&mut room, ALLOW, &c.allow);
    copy(&mut room, LINES, &c.lines);
    copy(&mut room, STATUS, &c.status);
    copy(&mut room, ENABLE, &c.enable);
    copy_map(&mut room, HOST_MAP, &c.host, 64);
    copy_map(&mut room, CHANNEL_MAP, &c.channel, 256);
    room
}

// Every word of active system interrupts becomes those that are set and enabled.
fn renew_all(room: &mut Room)
    ensures { (f : Frame) (c : Cic) (ws : List ℕ) → f.kept ≡ true → Counted f c ws room.old → Standing f c room.new }
{
    for k in 0..32 {
        let new = words::meet(room[STATUS + k as usize], room[ENABLE + k as usize]);
        super::counts::renew(room, k, new);
    }
}

// What is kept beside the record, from nothing.
fn keep_all(room: &mut Room)
    ensures { (f : Frame) (c : Cic) → f.kept ≡ true → Held f c room.old → Blank room.old → Standing f c room.new }
{
    room[LOWEST] = 256;
    renew_all(room);
}

// The room of a sound record, with or without what is kept beside it.
pub fn lay(c: Cic, kept: bool) -> Room
    ensures { sound c ≡ true → Laid (plain kept) c result }
{
    let mut room = copies(c, kept);
    if kept {
        keep_all(&mut room);
    }
    room
}

// ---- a room into a record

// N words from a place on.
fn words_in<const N: usize>(room: &Room, at: usize) -> [u32; N]
    requires { at + N ≤ 2048 }
    ensures { (length result ≡ N) × ((k : ℕ) → k < N → get_or result k 0 ≡ get_or room.now (at + k) 0) }
{
    array::from_fn(|k| room[at + k])
}

// Byte s of the map that stands from a place on, four bytes to a word.
fn map_byte(room: &Room, at: usize, s: usize) -> u8
    requires { at + s / 4 < 2048 }
    ensures { result ≡ byte_of (get_or room.now (at + s / 4) 0) (s % 4) }
{
    byte_of(room[at + s / 4], (s % 4) as u32) as u8
}

// A map of N bytes from a place on.
fn map_in<const N: usize>(room: &Room, at: usize) -> [u8; N]
    requires { at + N / 4 ≤ 2047 }
    ensures { (length result ≡ N) × ((s : ℕ) → s < N → get_or result s 0 ≡ byte_of (get_or room.now (at + s / 4) 0) (s % 4)) }
{
    array::from_fn(|s| map_byte(room, at, s))
}

// The record in a room.
pub fn record_of(room: &Room) -> Cic
    ensures { (f : Frame) (c : Cic) → Laid f c room.now → result ≡ c }
{
    let lines = words_in(room, LINES);
    let status = words_in(room, STATUS);
    let enable = words_in(room, ENABLE);
    let channel = map_in(room, CHANNEL_MAP);
    let host = map_in(room, HOST_MAP);
    let allow = words_in(room, ALLOW);
    Cic {
        systems: room[SYSTEMS],
        channels: room[CHANNELS],
        hosts: room[HOSTS],
        revision: room[REVISION],
        global: room[GLOBAL],
        lines,
        status,
        enable,
        channel,
        host,
        allow,
    }
}

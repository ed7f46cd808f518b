// The CIC laid out in a room: where each number of its record stands, what each register and each line change there, and how what is kept beside the record
// follows it. Every change leaves the frame as it is, so that a CIC with prioritised indices is changed by the same functions.
ghost use Rattle.std.specs.Prelude.{◌≡◌, true, ◌*◌, ◌%◌, ◌<◌, ◌≤◌, get_or, set};
ghost use Rattle.words.specs.Array.{with_bit_at, rest_at, byte_of};
ghost use Rattle.words.specs.Word.{kept};
ghost use Rattle.cic_record.specs.declared.Cic.{Cic};
ghost use Rattle.cic_record.specs.Kinds.{channel_of, host_of};
ghost use Rattle.cic_record.specs.Sound.{sound};
ghost use Rattle.cic_record.specs.Record.{with_global, with_lines, with_channel, with_host, with_allow};
ghost use Rattle.cic_registers.specs.Maps.{map_put};
ghost use Rattle.cic_registers.specs.Bits.{bits_set, bits_cleared, word_replaced};
ghost use Rattle.cic_registers.specs.Model.{moved};
ghost use Rattle.cic_room.specs.Bits.{place, bits_of, with_bits};
ghost use Rattle.cic_room.specs.Room.{Frame, Laid, active_word};
ghost use Rattle.cic_room.specs.Tables.{Held};

use cic_record::{Channel, Host, System};
use rooms::Room;

// ---- the single words

// The kind of controller: 2 for a CIC, 4 for one with prioritised indices.
pub const KIND: usize = 0;

pub const SYSTEMS: usize = 1;

pub const CHANNELS: usize = 2;

pub const HOSTS: usize = 3;

pub const REVISION: usize = 4;

pub const GLOBAL: usize = 5;

// Whether anything is kept beside the record: a player that shows nothing does without.
pub const KEPT: usize = 6;

// Kept: how many hosts are asserted, and the lowest of them, 256 for none.
pub const ASSERTED: usize = 7;

pub const LOWEST: usize = 8;

// Three words for prioritised indices.
pub const INDEX: usize = 9;

// ---- the tables

pub const ALLOW: usize = 16;

// Kept: the hosts that have any active system interrupt, and the channels that have.
pub const RAISED: usize = 24;

pub const BUSY: usize = 32;

pub const LINES: usize = 64;

pub const STATUS: usize = 96;

pub const ENABLE: usize = 128;

// Kept: the active system interrupts.
pub const ACTIVE: usize = 160;

// The maps, four bytes to a word.
pub const HOST_MAP: usize = 192;

pub const CHANNEL_MAP: usize = 256;

// Kept: how many active system interrupts each channel and each host has.
pub const OF_CHANNEL: usize = 512;

pub const OF_HOST: usize = 768;

// For each host and for each channel a word for prioritised indices.
pub const HELD: usize = 1024;

pub const WORDS: usize = 1280;

// ---- what stands there

// Byte j of a word, the lowest being byte 0.
pub(crate) fn byte_of(w: u32, j: u32) -> u16
    requires { j < 4 }
    ensures { (result ≡ byte_of w j) × (result < 256) }
{
    ((w >> (8 * j)) % 256) as u16
}

// The channel of a system interrupt.
pub(crate) fn channel_at(room: &Room, s: System) -> Channel
    requires { s.0 < 1024 }
    ensures { ((f : Frame) (c : Cic) → Held f c room.now → result ≡ channel_of c s) × (result.0 < 256) }
{
    let n = s.0 as u32;
    Channel(byte_of(room[CHANNEL_MAP + (n / 4) as usize], n % 4))
}

// The host of a channel.
pub(crate) fn host_at(room: &Room, k: Channel) -> Host
    requires { k.0 < 256 }
    ensures { ((f : Frame) (c : Cic) → Held f c room.now → result ≡ host_of c k) × (result.0 < 256) }
{
    let n = k.0 as u32;
    Host(byte_of(room[HOST_MAP + (n / 4) as usize], n % 4))
}

// The active system interrupts of word k, kept or not.
pub(crate) fn active_word(room: &Room, k: u32) -> u32
    requires { k < 32 }
    ensures { (f : Frame) (c : Cic) → Laid f c room.now → result ≡ active_word c k }
{
    words::meet(room[STATUS + k as usize], room[ENABLE + k as usize])
}

// How many of n things have their bit in word k or later.
fn rest_at(n: u32, k: u32) -> u32
    requires { k < 32 }
    ensures { result ≡ rest_at n k }
{
    n.saturating_sub(32 * k)
}

// ---- words of status and enable bits

// The two that make a system interrupt active.
#[derive(Clone, Copy)]
pub enum Bits {
    Status,
    Enable,
}

// Where their words stand.
fn place(b: Bits) -> usize
    ensures { (result ≡ place b) × (result ≤ 128) }
{
    match b {
        Bits::Status => STATUS,
        Bits::Enable => ENABLE,
    }
}

// Word k of them.
fn word(room: &Room, b: Bits, k: u32) -> u32
    requires { k < 32 }
    ensures { (f : Frame) (c : Cic) → Laid f c room.now → result ≡ get_or (bits_of b c) k 0 }
{
    room[place(b) + k as usize]
}

// Word k is put.
fn store(room: &mut Room, b: Bits, k: u32, w: u32)
    requires { k < 32 }
    ensures { (f : Frame) (c : Cic) → Laid f c room.old → Laid f (with_bits b c (set (bits_of b c) k w)) room.new }
{
    room[place(b) + k as usize] = w;
    super::counts::renew_word(room, k);
}

// The bit of a system interrupt is set or cleared.
pub(crate) fn mark_bit(room: &mut Room, b: Bits, s: System, on: bool)
    requires { s.0 < 1024 }
    ensures { (f : Frame) (c : Cic) → Laid f c room.old → Laid f (with_bits b c (with_bit_at (bits_of b c) s.0 on)) room.new }
{
    let n = s.0 as u32;
    let w = words::with_bit(word(room, b, n / 32), n % 32, on);
    store(room, b, n / 32, w);
}

// Each 1 of v sets its bit of word k.
pub(crate) fn set_bits(room: &mut Room, b: Bits, k: u32, v: u32)
    requires { k < 32 }
    ensures { (f : Frame) (c : Cic) → Laid f c room.old → Laid f (with_bits b c (bits_set c.systems (bits_of b c) k v)) room.new }
{
    let new = words::keep(rest_at(room[SYSTEMS], k), v);
    let w = words::join(word(room, b, k), new);
    store(room, b, k, w);
}

// Each 1 of v clears it.
pub(crate) fn clear_bits(room: &mut Room, b: Bits, k: u32, v: u32)
    requires { k < 32 }
    ensures { (f : Frame) (c : Cic) → Laid f c room.old → Laid f (with_bits b c (bits_cleared (bits_of b c) k v)) room.new }
{
    let w = words::drop_bits(word(room, b, k), v);
    store(room, b, k, w);
}

// ---- lines and enables of hosts

// The level of a line.
fn put_line(room: &mut Room, s: System, high: bool)
    requires { s.0 < 1024 }
    ensures { (f : Frame) (c : Cic) → Laid f c room.old → Laid f (with_lines c (with_bit_at c.lines s.0 high)) room.new }
{
    let n = s.0 as u32;
    let w = words::with_bit(room[LINES + (n / 32) as usize], n % 32, high);
    room[LINES + (n / 32) as usize] = w;
}

// A line goes high or low: a rising one sets the status.
pub(crate) fn move_line(room: &mut Room, s: System, high: bool)
    requires { s.0 < 1024 }
    ensures { (f : Frame) (c : Cic) → Laid f c room.old → Laid f (moved c s high) room.new }
{
    let n = s.0 as u32;
    let old = words::has(room[LINES + (n / 32) as usize], n % 32);
    put_line(room, s, high);
    if high & !old {
        mark_bit(room, Bits::Status, s, true);
    }
}

// Global enable.
pub fn set_global(room: &mut Room, v: u32)
    ensures { (f : Frame) (c : Cic) → Laid f c room.old → Laid f (with_global c (v % 2)) room.new }
{
    room[GLOBAL] = v % 2;
    super::counts::show_anew(room);
}

// Word k of the host enables.
fn store_allow(room: &mut Room, k: u32, w: u32)
    requires { k < 8 }
    ensures { (f : Frame) (c : Cic) → Laid f c room.old → Laid f (with_allow c (set c.allow k w)) room.new }
{
    room[ALLOW + k as usize] = w;
    super::counts::show_anew(room);
}

// A host is enabled or disabled.
pub(crate) fn mark_host(room: &mut Room, h: Host, on: bool)
    requires { h.0 < 256 }
    ensures { (f : Frame) (c : Cic) → Laid f c room.old → Laid f (with_allow c (with_bit_at c.allow h.0 on)) room.new }
{
    let n = h.0 as u32;
    let w = words::with_bit(room[ALLOW + (n / 32) as usize], n % 32, on);
    store_allow(room, n / 32, w);
}

// Word k of the host enables is replaced.
pub(crate) fn replace_hosts(room: &mut Room, k: u32, v: u32)
    requires { k < 8 }
    ensures { (f : Frame) (c : Cic) → Laid f c room.old → Laid f (with_allow c (word_replaced c.hosts c.allow k v)) room.new }
{
    let w = words::keep(rest_at(room[HOSTS], k), v);
    store_allow(room, k, w);
}

// ---- the maps

// The bytes of v that are not spare: the first `rest` of them.
fn existing(rest: u32, v: u32) -> u32
    ensures { (4 ≤ rest → result ≡ v) × ((rest < 4 → result ≡ kept (8 * rest) v) × (v < 4294967296)) }
{
    if 4 <= rest {
        return v;
    }
    words::keep(8 * rest, v)
}

// The channels of four system interrupts, of a register that is there.
pub(crate) fn write_channels(room: &mut Room, k: u32, v: u32)
    requires { k < 256 }
    ensures { (f : Frame) (c : Cic) → sound c ≡ true → 4 * k < c.systems → Laid f c room.old → Laid f (with_channel c (map_put c.systems k v c.channel)) room.new }
{
    let n = room[SYSTEMS];
    if n <= 4 * k {
        return;
    }
    let w = existing(n - 4 * k, v);
    if room[KEPT] == 0 {
        room[CHANNEL_MAP + k as usize] = w;
        return;
    }
    super::counts::take_four(room, k);
    room[CHANNEL_MAP + k as usize] = w;
    super::counts::renew_word(room, k / 8);
}

// The hosts of four channels, of a register that is there. Nothing is counted anew.
pub(crate) fn write_hosts(room: &mut Room, k: u32, v: u32)
    requires { k < 64 }
    ensures { (f : Frame) (c : Cic) → sound c ≡ true → 4 * k < c.channels → Laid f c room.old → Laid f (with_host c (map_put c.channels k v c.host)) room.new }
{
    let n = room[CHANNELS];
    if n <= 4 * k {
        return;
    }
    let old = room[HOST_MAP + k as usize];
    let new = existing(n - 4 * k, v);
    room[HOST_MAP + k as usize] = new;
    if room[KEPT] == 0 {
        return;
    }
    super::counts::move_byte(room, k, 0, old, new);
    super::counts::move_byte(room, k, 1, old, new);
    super::counts::move_byte(room, k, 2, old, new);
    super::counts::move_byte(room, k, 3, old, new);
}

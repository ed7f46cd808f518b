// A write of a register at an offset that is a multiple of 4.
ghost use Rattle.std.specs.Prelude.{◌≡◌, true, ℕ, ◌%◌, ◌<◌, ◌≤◌, ltb};
ghost use Rattle.words.specs.Array.{with_bit_at};
ghost use Rattle.cic_record.specs.declared.Cic.{Cic};
ghost use Rattle.cic_record.specs.Parts.{size_of};
ghost use Rattle.cic_record.specs.Record.{with_allow};
ghost use Rattle.cic_record.specs.Sound.{sound};
ghost use Rattle.cic_registers.specs.declared.layout.Register.TheVariants.{GlobalEnable, ChannelMap, HostMap, HostEnable};
ghost use Rattle.cic_registers.specs.Map.{register_at};
ghost use Rattle.cic_registers.specs.Registers.{unless};
ghost use Rattle.cic_registers.specs.Access.{answer_by, write_in};
ghost use Rattle.rooms.specs.Reply.{told};
ghost use Rattle.cic_room.specs.Bits.{bits_of, with_bits, setting, clearing};
ghost use Rattle.cic_room.specs.Room.{Frame, Laid};
ghost use Rattle.cic_room.specs.Reply.{Done};

use super::laid::{Bits, CHANNELS, HOSTS, REVISION, SYSTEMS};
use cic_record::{Host, Size, System};
use rooms::Room;

// ---- the registers that take a number

// An index that sets or clears a bit of its system interrupt.
fn index_system(room: &mut Room, bits: Bits, v: u32, on: bool) -> u64
    ensures { (f : Frame) (c : Cic) → sound c ≡ true → Laid f c room.old → Done f (answer_by c (unless (ltb v c.systems)) (with_bits bits c (with_bit_at (bits_of bits c) v on))) room.new (told result) }
{
    if (room[SYSTEMS] <= v) | (1024 <= v) {
        return rooms::refuse(steps::BEYOND);
    }
    super::laid::mark_bit(room, bits, System(v as u16), on);
    rooms::answer(0)
}

// An index that sets or clears the enable of its host.
fn index_host(room: &mut Room, v: u32, on: bool) -> u64
    ensures { (f : Frame) (c : Cic) → sound c ≡ true → Laid f c room.old → Done f (answer_by c (unless (ltb v c.hosts)) (with_allow c (with_bit_at c.allow v on))) room.new (told result) }
{
    if (room[HOSTS] <= v) | (256 <= v) {
        return rooms::refuse(steps::BEYOND);
    }
    super::laid::mark_host(room, Host(v as u16), on);
    rooms::answer(0)
}

// ---- the groups

// Each 1 sets the bit of its system interrupt.
fn set_bits(room: &mut Room, bits: Bits, k: u32, v: u32) -> u64
    requires { k < 32 }
    ensures { (f : Frame) (c : Cic) → sound c ≡ true → Laid f c room.old → Done f (write_in c (setting bits k) v) room.new (told result) }
{
    if room[SYSTEMS] <= 32 * k {
        return rooms::refuse(steps::ABSENT);
    }
    super::laid::set_bits(room, bits, k, v);
    rooms::answer(0)
}

// Each 1 clears it.
fn clear_bits(room: &mut Room, bits: Bits, k: u32, v: u32) -> u64
    requires { k < 32 }
    ensures { (f : Frame) (c : Cic) → sound c ≡ true → Laid f c room.old → Done f (write_in c (clearing bits k) v) room.new (told result) }
{
    if room[SYSTEMS] <= 32 * k {
        return rooms::refuse(steps::ABSENT);
    }
    super::laid::clear_bits(room, bits, k, v);
    rooms::answer(0)
}

// The enables of 32 hosts are replaced.
fn replace_hosts(room: &mut Room, k: u32, v: u32) -> u64
    requires { k < 8 }
    ensures { (f : Frame) (c : Cic) → sound c ≡ true → Laid f c room.old → Done f (write_in c (HostEnable k) v) room.new (told result) }
{
    if room[HOSTS] <= 32 * k {
        return rooms::refuse(steps::ABSENT);
    }
    super::laid::replace_hosts(room, k, v);
    rooms::answer(0)
}

// The configured numbers.
fn size_of(room: &Room) -> Size
    ensures { (f : Frame) (c : Cic) → Laid f c room.now → result ≡ size_of c }
{
    Size {
        systems: room[SYSTEMS],
        channels: room[CHANNELS],
        hosts: room[HOSTS],
        revision: room[REVISION],
    }
}

// Register k of the channel map: one byte that is beyond its limit refuses all of it.
fn write_channels(room: &mut Room, k: u32, v: u32) -> u64
    requires { k < 256 }
    ensures { (f : Frame) (c : Cic) → sound c ≡ true → Laid f c room.old → Done f (write_in c (ChannelMap k) v) room.new (told result) }
{
    if room[SYSTEMS] <= 4 * k {
        return rooms::refuse(steps::ABSENT);
    }
    let taken = cic_registers::maps::channels_taken(size_of(room), k, v);
    if taken {
        super::laid::write_channels(room, k, v);
        return rooms::answer(0);
    }
    rooms::refuse(steps::BEYOND)
}

// Register k of the host map: one byte that is beyond its limit refuses all of it.
fn write_hosts(room: &mut Room, k: u32, v: u32) -> u64
    requires { k < 64 }
    ensures { (f : Frame) (c : Cic) → sound c ≡ true → Laid f c room.old → Done f (write_in c (HostMap k) v) room.new (told result) }
{
    if room[CHANNELS] <= 4 * k {
        return rooms::refuse(steps::ABSENT);
    }
    let taken = cic_registers::maps::hosts_taken(size_of(room), k, v);
    if taken {
        super::laid::write_hosts(room, k, v);
        return rooms::answer(0);
    }
    rooms::refuse(steps::BEYOND)
}

// ---- the register map

// Global enable.
fn write_global(room: &mut Room, v: u32) -> u64
    ensures { (f : Frame) (c : Cic) → sound c ≡ true → Laid f c room.old → Done f (write_in c (GlobalEnable) v) room.new (told result) }
{
    super::laid::set_global(room, v);
    rooms::answer(0)
}

// The single registers.
fn write_single(room: &mut Room, offset: u32, v: u32) -> u64
    requires { offset < 0x200 }
    ensures { (f : Frame) (c : Cic) → sound c ≡ true → Laid f c room.old → Done f (write_in c (register_at offset) v) room.new (told result) }
{
    match offset {
        0x000 => rooms::refuse(steps::UNWRITABLE),
        0x010 => write_global(room, v),
        0x020 => index_system(room, Bits::Status, v, true),
        0x024 => index_system(room, Bits::Status, v, false),
        0x028 => index_system(room, Bits::Enable, v, true),
        0x02C => index_system(room, Bits::Enable, v, false),
        0x034 => index_host(room, v, true),
        0x038 => index_host(room, v, false),
        _ => rooms::refuse(steps::ABSENT),
    }
}

// The groups of status and enable bits.
fn write_bits(room: &mut Room, offset: u32, v: u32) -> u64
    requires { (0x200 ≤ offset) × ((offset < 0x400) × (offset % 4 ≡ 0)) }
    ensures { (f : Frame) (c : Cic) → sound c ≡ true → Laid f c room.old → Done f (write_in c (register_at offset) v) room.new (told result) }
{
    let k = offset / 4 % 32;
    match offset / 128 {
        4 => set_bits(room, Bits::Status, k, v),
        5 => clear_bits(room, Bits::Status, k, v),
        6 => set_bits(room, Bits::Enable, k, v),
        _ => clear_bits(room, Bits::Enable, k, v),
    }
}

// The channel map and the host map.
fn write_map(room: &mut Room, offset: u32, v: u32) -> u64
    requires { (0x400 ≤ offset) × ((offset < 0x900) × (offset % 4 ≡ 0)) }
    ensures { (f : Frame) (c : Cic) → sound c ≡ true → Laid f c room.old → Done f (write_in c (register_at offset) v) room.new (told result) }
{
    if offset < 0x800 {
        return write_channels(room, (offset - 0x400) / 4, v);
    }
    write_hosts(room, (offset - 0x800) / 4, v)
}

// The host enables; there is no register between them and the maps, nor after them.
fn write_high(room: &mut Room, offset: u32, v: u32) -> u64
    requires { (0x900 ≤ offset) × (offset % 4 ≡ 0) }
    ensures { (f : Frame) (c : Cic) → sound c ≡ true → Laid f c room.old → Done f (write_in c (register_at offset) v) room.new (told result) }
{
    if (offset < 0x1500) | (0x1520 <= offset) {
        return rooms::refuse(steps::ABSENT);
    }
    replace_hosts(room, (offset - 0x1500) / 4, v)
}

pub(crate) fn write_at(room: &mut Room, offset: u32, v: u32) -> u64
    requires { offset % 4 ≡ 0 }
    ensures { (f : Frame) (c : Cic) → sound c ≡ true → Laid f c room.old → Done f (write_in c (register_at offset) v) room.new (told result) }
{
    if offset < 0x200 {
        return write_single(room, offset, v);
    }
    if offset < 0x400 {
        return write_bits(room, offset, v);
    }
    if offset < 0x900 {
        return write_map(room, offset, v);
    }
    write_high(room, offset, v)
}

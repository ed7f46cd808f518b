// A read of a register at an offset that is a multiple of 4. Of a sound record a register that exists is read as its word stands.
ghost use Rattle.std.specs.Prelude.{◌≡◌, true, ℕ, ◌%◌, ◌<◌, ◌≤◌, ltb};
ghost use Rattle.words.specs.Choice.{pick};
ghost use Rattle.steps.specs.Refusals.{absent};
ghost use Rattle.cic_record.specs.declared.Cic.{Cic};
ghost use Rattle.cic_record.specs.Parts.{answered_reply, refused_reply};
ghost use Rattle.cic_record.specs.Sound.{sound};
ghost use Rattle.cic_registers.specs.Map.{register_at};
ghost use Rattle.cic_registers.specs.Access.{read_in};
ghost use Rattle.rooms.specs.Reply.{told};
ghost use Rattle.cic_room.specs.Room.{Frame, Laid};
ghost use Rattle.cic_room.specs.Reply.{read_reply};

use super::laid::{
    ALLOW, CHANNEL_MAP, CHANNELS, ENABLE, GLOBAL, HOST_MAP, HOSTS, REVISION, STATUS, SYSTEMS,
};
use rooms::Room;

// The word w of a register that exists if `first` is one of n things.
fn if_any(first: u32, n: u32, w: u32) -> u64
    ensures { told result ≡ read_reply (pick (ltb first n) (answered_reply w) (refused_reply absent)) }
{
    if first < n {
        return rooms::answer(w);
    }
    rooms::refuse(steps::ABSENT)
}

// The single registers.
fn read_single(room: &Room, offset: u32) -> u64
    requires { offset < 0x200 }
    ensures { (f : Frame) (c : Cic) → sound c ≡ true → Laid f c room.now → told result ≡ read_reply (read_in c (register_at offset)) }
{
    match offset {
        0x000 => rooms::answer(room[REVISION]),
        0x010 => rooms::answer(room[GLOBAL]),
        0x020 => rooms::refuse(steps::UNREADABLE),
        0x024 => rooms::refuse(steps::UNREADABLE),
        0x028 => rooms::refuse(steps::UNREADABLE),
        0x02C => rooms::refuse(steps::UNREADABLE),
        0x034 => rooms::refuse(steps::UNREADABLE),
        0x038 => rooms::refuse(steps::UNREADABLE),
        _ => rooms::refuse(steps::ABSENT),
    }
}

// The status, the status of those that are enabled, and the enables, which are read in two groups.
fn read_bits(room: &Room, offset: u32) -> u64
    requires { (0x200 ≤ offset) × ((offset < 0x400) × (offset % 4 ≡ 0)) }
    ensures { (f : Frame) (c : Cic) → sound c ≡ true → Laid f c room.now → told result ≡ read_reply (read_in c (register_at offset)) }
{
    let k = offset / 4 % 32;
    let n = room[SYSTEMS];
    match offset / 128 {
        4 => if_any(32 * k, n, room[STATUS + k as usize]),
        5 => if_any(32 * k, n, super::laid::active_word(room, k)),
        _ => if_any(32 * k, n, room[ENABLE + k as usize]),
    }
}

// The channel map and the host map.
fn read_map(room: &Room, offset: u32) -> u64
    requires { (0x400 ≤ offset) × ((offset < 0x900) × (offset % 4 ≡ 0)) }
    ensures { (f : Frame) (c : Cic) → sound c ≡ true → Laid f c room.now → told result ≡ read_reply (read_in c (register_at offset)) }
{
    if offset < 0x800 {
        let k = (offset - 0x400) / 4;
        return if_any(4 * k, room[SYSTEMS], room[CHANNEL_MAP + k as usize]);
    }
    let k = (offset - 0x800) / 4;
    if_any(4 * k, room[CHANNELS], room[HOST_MAP + k as usize])
}

// The host enables; there is no register between them and the maps, nor after them.
fn read_high(room: &Room, offset: u32) -> u64
    requires { (0x900 ≤ offset) × (offset % 4 ≡ 0) }
    ensures { (f : Frame) (c : Cic) → sound c ≡ true → Laid f c room.now → told result ≡ read_reply (read_in c (register_at offset)) }
{
    if (offset < 0x1500) | (0x1520 <= offset) {
        return rooms::refuse(steps::ABSENT);
    }
    let k = (offset - 0x1500) / 4;
    if_any(32 * k, room[HOSTS], room[ALLOW + k as usize])
}

pub(crate) fn read_at(room: &Room, offset: u32) -> u64
    requires { offset % 4 ≡ 0 }
    ensures { (f : Frame) (c : Cic) → sound c ≡ true → Laid f c room.now → told result ≡ read_reply (read_in c (register_at offset)) }
{
    if offset < 0x200 {
        return read_single(room, offset);
    }
    if offset < 0x400 {
        return read_bits(room, offset);
    }
    if offset < 0x900 {
        return read_map(room, offset);
    }
    read_high(room, offset)
}

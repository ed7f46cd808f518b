// The registers that only a CIC with prioritised indices has: control, the global index, and an index for each host.
ghost use Rattle.std.specs.Prelude.{◌≡◌, true, ◌≢◌, ℕ, ◌<◌};
ghost use Rattle.rooms.specs.Reply.{told};
ghost use Rattle.cic_held.specs.Order.{none_word, index_of};
ghost use Rattle.cic_held.specs.declared.Prioritised.{Prioritised};
ghost use Rattle.cic_held.specs.Held.{sound};
ghost use Rattle.cic_indexed.specs.declared.Own.TheVariants.{Control, GlobalIndex, HostIndex};
ghost use Rattle.cic_indexed.specs.Registers.{own_at, host_access, index_read, hold_after};
ghost use Rattle.cic_indexed.specs.Model.{read_as, write_as};
ghost use Rattle.indexed_room.specs.Reply.{Done};
ghost use Rattle.indexed_room.specs.Room.{Laid};

use super::holds::{GLOBAL_HELD, MODE};
use super::{holds, search};
use cic_indexed::Own;
use cic_record::Host;
use cic_room::laid::{HELD, HOSTS};
use rooms::Room;
use steps::Access;

// Which of them stands at an offset, where prioritisation is chosen or not; any other offset is the CIC's.
pub fn own_at(choice: u32, offset: u32) -> Own
    ensures { (p : Prioritised) → choice ≡ p.held.choice → result ≡ own_at p offset }
{
    if choice != 1 {
        return Own::Elsewhere;
    }
    if offset == 0x004 {
        return Own::Control;
    }
    if offset == 0x080 {
        return Own::GlobalIndex;
    }
    if offset < 0x900 {
        return Own::Elsewhere;
    }
    if offset < 0xD00 {
        return Own::HostIndex(Host(((offset - 0x900) / 4) as u16));
    }
    Own::Elsewhere
}

// What the index of a host may be used for: there is none beyond the configured hosts.
fn host_access(room: &Room, h: Host) -> Access
    ensures { (p : Prioritised) → Laid p room.now → result ≡ host_access p h.0 }
{
    if (h.0 as u32) < room[HOSTS] {
        return Access::ReadWrite;
    }
    Access::NoRegister
}

// ---- reads

// The word of an index: the one that is held as x, or where none is the one that the index names now, over every channel or those of host h.
fn index_word(room: &Room, x: u32, every: bool, h: Host) -> u32
    requires { h.0 < 256 }
    ensures { (p : Prioritised) → sound p ≡ true → Laid p room.now → result ≡ index_read x (index_of p.cic every h) }
{
    if x == 0 {
        return search::index(room, every, h);
    }
    holds::word_held(x)
}

// What is held after a read that answers a word.
fn hold_after(mode: u32, word: u32) -> u32
    ensures { (p : Prioritised) → mode ≡ p.held.hold → (word ≢ none_word → word < 65534) → result ≡ hold_after p word }
{
    if mode == 1 {
        return holds::held_as(word);
    }
    0
}

// A read of control: bit 4 shows the hold mode.
pub(crate) fn read_control(room: &Room, offset: u32) -> u64
    ensures { (p : Prioritised) → sound p ≡ true → Laid p room.now → Done (read_as true p offset Control) room.now (told result) }
{
    let n = steps::read_refusal(true, offset, Access::ReadWrite);
    if n != steps::CARRIED_OUT {
        return rooms::refuse(n);
    }
    rooms::answer(16 * (room[MODE] % 2))
}

// A read of the global index, which in the mode is held from then on.
pub(crate) fn read_global(room: &mut Room, offset: u32) -> u64
    ensures { (p : Prioritised) → sound p ≡ true → Laid p room.old → Done (read_as true p offset GlobalIndex) room.new (told result) }
{
    let n = steps::read_refusal(true, offset, Access::ReadWrite);
    if n != steps::CARRIED_OUT {
        return rooms::refuse(n);
    }
    let was = room[GLOBAL_HELD];
    let mode = room[MODE];
    let word = index_word(room, was, true, Host(0));
    let x = hold_after(mode, word);
    holds::hold_global(room, x);
    rooms::answer(word)
}

// A read of the index of host interrupt h, which in the mode is held from then on. No host beyond the last is configured.
pub(crate) fn read_host(room: &mut Room, offset: u32, h: Host) -> u64
    ensures { (p : Prioritised) → sound p ≡ true → Laid p room.old → Done (read_as true p offset (HostIndex h)) room.new (told result) }
{
    let access = host_access(room, h);
    let n = steps::read_refusal(true, offset, access);
    if n != steps::CARRIED_OUT {
        return rooms::refuse(n);
    }
    if 256 <= h.0 {
        return rooms::refuse(n);
    }
    let was = room[HELD + h.0 as usize];
    let mode = room[MODE];
    let word = index_word(room, was, false, h);
    let x = hold_after(mode, word);
    holds::hold_host(room, h, x);
    rooms::answer(word)
}

// ---- writes

// A write of control: bit 4 is the hold mode.
pub(crate) fn write_control(room: &mut Room, offset: u32, v: u32) -> u64
    ensures { (p : Prioritised) → Laid p room.old → Done (write_as true p offset v Control) room.new (told result) }
{
    let n = steps::write_refusal(true, offset, Access::ReadWrite, steps::CARRIED_OUT);
    if n != steps::CARRIED_OUT {
        return rooms::refuse(n);
    }
    holds::control(room, v);
    rooms::answer(0)
}

// A write of the global index: it ends its hold, whatever the value.
pub(crate) fn write_global(room: &mut Room, offset: u32) -> u64
    ensures { (p : Prioritised) (v : ℕ) → Laid p room.old → Done (write_as true p offset v GlobalIndex) room.new (told result) }
{
    let n = steps::write_refusal(true, offset, Access::ReadWrite, steps::CARRIED_OUT);
    if n != steps::CARRIED_OUT {
        return rooms::refuse(n);
    }
    holds::hold_global(room, 0);
    rooms::answer(0)
}

// A write of the index of host interrupt h: it ends its hold, whatever the value.
pub(crate) fn write_host(room: &mut Room, offset: u32, h: Host) -> u64
    ensures { (p : Prioritised) (v : ℕ) → sound p ≡ true → Laid p room.old → Done (write_as true p offset v (HostIndex h)) room.new (told result) }
{
    let access = host_access(room, h);
    let n = steps::write_refusal(true, offset, access, steps::CARRIED_OUT);
    if n != steps::CARRIED_OUT {
        return rooms::refuse(n);
    }
    if 256 <= h.0 {
        return rooms::refuse(n);
    }
    holds::hold_host(room, h, 0);
    rooms::answer(0)
}

// The CIC with prioritised indices in a room: what reads, writes and line steps do, and its outputs. What is refused leaves the room as it is.
#![tactic(auto)]

ghost use Rattle.std.specs.Prelude.{◌≡◌, true};
ghost use Rattle.rooms.specs.Reply.{told};
ghost use Rattle.trace.specs.Turns.{step_of};
ghost use Rattle.cic_registers.specs.Model.{write_as as cic_write_as};
ghost use Rattle.cic_held.specs.declared.Prioritised.{Prioritised};
ghost use Rattle.cic_held.specs.Held.{sound};
ghost use Rattle.cic_indexed.specs.declared.Own.TheVariants.{Elsewhere};
ghost use Rattle.cic_indexed.specs.Model.{beside, read_as, write_as, read, write, line, step, outputs};
ghost use Rattle.indexed_room.specs.Reply.{Done};
ghost use Rattle.indexed_room.specs.Room.{Laid};

pub mod channels;
pub mod holds;
pub mod own;
mod search;
pub mod transfer;

use cic_indexed::Own;
use cic_record::Signals;
use cic_room::laid::CHANNEL_MAP;
use holds::{CHOICE, MODE};
use rooms::Room;

// ---- registers of the CIC's

// A read of one.
fn read_elsewhere(room: &Room, offset: u32) -> u64
    ensures { (p : Prioritised) → sound p ≡ true → Laid p room.now → Done (read_as true p offset Elsewhere) room.now (told result) }
{
    cic_room::read(room, offset)
}

// A write of one. Where it is one of the channel map, the words of the channels are put right.
fn write_cic(room: &mut Room, offset: u32, v: u32) -> u64
    ensures { (p : Prioritised) → sound p ≡ true → Laid p room.old → Done (beside p.held (cic_write_as true p.cic offset v)) room.new (told result) }
{
    if offset / 0x400 != 1 {
        return cic_room::write(room, offset, v);
    }
    let q = offset / 4 % 256;
    let old = room[CHANNEL_MAP + q as usize];
    let r = cic_room::write(room, offset, v);
    channels::renew(room, q, old);
    r
}

// The same, and if it is carried out in the mode, what it ends.
fn write_elsewhere(room: &mut Room, offset: u32, v: u32) -> u64
    ensures { (p : Prioritised) → sound p ≡ true → Laid p room.old → Done (write_as true p offset v Elsewhere) room.new (told result) }
{
    let r = write_cic(room, offset, v);
    if rooms::refusal_in(r) != steps::CARRIED_OUT {
        return r;
    }
    if room[MODE] != 1 {
        return r;
    }
    holds::end_holds(room, offset, v);
    r
}

// ---- steps

// A read of the register at an offset.
pub fn read(room: &mut Room, offset: u32) -> u64
    ensures { (p : Prioritised) → sound p ≡ true → Laid p room.old → Done (read p offset) room.new (told result) }
{
    let choice = room[CHOICE];
    match own::own_at(choice, offset) {
        Own::Elsewhere => read_elsewhere(room, offset),
        Own::Control => own::read_control(room, offset),
        Own::GlobalIndex => own::read_global(room, offset),
        Own::HostIndex(h) => own::read_host(room, offset, h),
    }
}

// A write of the register at an offset.
pub fn write(room: &mut Room, offset: u32, value: u32) -> u64
    ensures { (p : Prioritised) → sound p ≡ true → Laid p room.old → Done (write p offset value) room.new (told result) }
{
    let choice = room[CHOICE];
    match own::own_at(choice, offset) {
        Own::Elsewhere => write_elsewhere(room, offset, value),
        Own::Control => own::write_control(room, offset, value),
        Own::GlobalIndex => own::write_global(room, offset),
        Own::HostIndex(h) => own::write_host(room, offset, h),
    }
}

// A line that goes to a level.
pub fn line(room: &mut Room, number: u32, level: u32) -> u64
    ensures { (p : Prioritised) → sound p ≡ true → Laid p room.old → Done (line p number level) room.new (told result) }
{
    cic_room::line(room, number, level)
}

// The step of a kind with its numbers.
pub fn step(room: &mut Room, kind: u32, x: u32, y: u32) -> u64
    ensures { (p : Prioritised) → sound p ≡ true → Laid p room.old → Done (step p (step_of kind x y)) room.new (told result) }
{
    if kind == trace::READ {
        return read(room, x);
    }
    if kind == trace::WRITE {
        return write(room, x, y);
    }
    line(room, x, y)
}

// How many hosts are asserted and the lowest of them: holds touch no output.
pub fn outputs(room: &Room) -> Signals
    ensures { (p : Prioritised) → sound p ≡ true → Laid p room.now → result ≡ outputs p }
{
    cic_room::outputs(room)
}

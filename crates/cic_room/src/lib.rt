// The CIC in a room: what reads, writes and line steps do, and its outputs. What is refused leaves the room as it is.
#![tactic(auto)]

ghost use Rattle.std.specs.Prelude.{◌≡◌, true, ℕ};
ghost use Rattle.cic_record.specs.declared.Cic.{Cic};
ghost use Rattle.cic_record.specs.Sound.{sound};
ghost use Rattle.cic_registers.specs.Hosts.{outputs};
ghost use Rattle.cic_registers.specs.Model.{read_as, write_as, line_as, step_as};
ghost use Rattle.rooms.specs.Reply.{told};
ghost use Rattle.trace.specs.Turns.{step_of};
ghost use Rattle.cic_room.specs.Room.{Frame, Laid};
ghost use Rattle.cic_room.specs.Reply.{Done};

pub mod counts;
pub mod laid;
mod reads;
pub mod transfer;
mod writes;

use cic_record::{Signals, System};
use laid::{ASSERTED, LOWEST, SYSTEMS};
use rooms::Room;

// A read of the register at an offset. Nothing changes.
pub fn read(room: &Room, offset: u32) -> u64
    ensures { (f : Frame) (c : Cic) → sound c ≡ true → Laid f c room.now → Done f (read_as true c offset) room.now (told result) }
{
    if offset % 4 != 0 {
        return rooms::refuse(steps::MISALIGNED);
    }
    reads::read_at(room, offset)
}

// A write of the register at an offset.
pub fn write(room: &mut Room, offset: u32, value: u32) -> u64
    ensures { (f : Frame) (c : Cic) → sound c ≡ true → Laid f c room.old → Done f (write_as true c offset value) room.new (told result) }
{
    if offset % 4 != 0 {
        return rooms::refuse(steps::MISALIGNED);
    }
    writes::write_at(room, offset, value)
}

// A line that goes to a level.
pub fn line(room: &mut Room, number: u32, level: u32) -> u64
    ensures { (f : Frame) (c : Cic) → sound c ≡ true → Laid f c room.old → Done f (line_as true c number level) room.new (told result) }
{
    if ((room[SYSTEMS] <= number) | (1024 <= number)) | (1 < level) {
        return rooms::refuse(steps::BEYOND);
    }
    laid::move_line(room, System(number as u16), level == 1);
    rooms::answer(0)
}

// The step of a kind with its numbers.
pub fn step(room: &mut Room, kind: u32, x: u32, y: u32) -> u64
    ensures { (f : Frame) (c : Cic) → sound c ≡ true → Laid f c room.old → Done f (step_as true c (step_of kind x y)) room.new (told result) }
{
    if kind == trace::READ {
        return read(room, x);
    }
    if kind == trace::WRITE {
        return write(room, x, y);
    }
    line(room, x, y)
}

// How many hosts are asserted and which is the lowest, of a room that keeps it.
pub fn outputs(room: &Room) -> Signals
    ensures { (f : Frame) (c : Cic) → f.kept ≡ true → sound c ≡ true → Laid f c room.now → result ≡ outputs c }
{
    Signals {
        refusal: steps::CARRIED_OUT,
        hosts: room[ASSERTED],
        lowest: room[LOWEST],
    }
}

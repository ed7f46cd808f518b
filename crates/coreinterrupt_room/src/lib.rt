// CoreInterrupt in a room: where each number of its record stands, its steps and its outputs. What is refused leaves the room as it is.
#![tactic(auto)]

ghost use Rattle.std.specs.Prelude.{◌≡◌, true, ◌<◌, ◌≤◌, eqb, ltb};
ghost use Rattle.words.specs.Choice.{pick};
ghost use Rattle.words.specs.Word.{with_bit};
ghost use Rattle.coreinterrupt.specs.Side.{raw, status, active, output_level, moved, side_write};
ghost use Rattle.coreinterrupt.specs.declared.Core.{Core};
ghost use Rattle.coreinterrupt.specs.Model.{side, with_side, sound, read, write, line, step, outputs};
ghost use Rattle.trace.specs.Turns.{step_of};
ghost use Rattle.rooms.specs.Reply.{reply, told};
ghost use Rattle.coreinterrupt_room.specs.Room.{Laid, side_put, first_of, reply_of, Done, read_from, write_to, turned};

pub mod lent;

use coreinterrupt::sides::{Register, Side};
use coreinterrupt::{Core, Signals};
use rooms::Room;

const KIND: usize = 0;

// Five words of each side: sources, active level, lines, soft, enable.
const FIQ: usize = 1;

const IRQ: usize = 6;

// ---- a record into a room, and back

// The words of a side, from a place on.
fn lay_side(room: &mut Room, at: usize, s: Side)
    requires { at ≤ 6 }
    ensures { room.new ≡ side_put at s room.old }
{
    room[at] = s.count;
    room[at + 1] = s.level;
    room[at + 2] = s.inputs;
    room[at + 3] = s.soft;
    room[at + 4] = s.enable;
}

// The room of a record. It stays a call: taken into the choice of a kind, its room is set to zeros for every other kind too.
#[inline(never)]
pub fn lay(c: Core) -> Room
    ensures { Laid c result }
{
    let mut room: Room = [0; 2048];
    room[KIND] = 1;
    lay_side(&mut room, FIQ, c.fiq);
    lay_side(&mut room, IRQ, c.irq);
    room
}

// The first word of the side.
fn first_of(fast: bool) -> usize
    ensures { (result ≡ first_of fast) × (result < 7) }
{
    if fast { FIQ } else { IRQ }
}

// The side in a room.
fn side_in(room: &Room, fast: bool) -> Side
    ensures { (c : Core) → Laid c room.now → result ≡ side c fast }
{
    let at = first_of(fast);
    Side {
        count: room[at],
        level: room[at + 1],
        inputs: room[at + 2],
        soft: room[at + 3],
        enable: room[at + 4],
    }
}

// The record in a room.
pub fn record_of(room: &Room) -> Core
    ensures { (c : Core) → Laid c room.now → result ≡ c }
{
    Core {
        fiq: side_in(room, true),
        irq: side_in(room, false),
    }
}

// ---- what a side shows

// The sources raised by their line or by software.
fn raw(room: &Room, fast: bool) -> u32
    ensures { (c : Core) → Laid c room.now → result ≡ raw (side c fast) }
{
    let at = first_of(fast);
    words::join(room[at + 2], room[at + 3])
}

// The raised sources that are enabled.
fn status(room: &Room, fast: bool) -> u32
    ensures { (c : Core) → Laid c room.now → result ≡ status (side c fast) }
{
    let at = first_of(fast);
    words::meet(raw(room, fast), room[at + 4])
}

// Whether the side's output is active.
fn is_active(room: &Room, fast: bool) -> bool
    ensures { (c : Core) → Laid c room.now → result ≡ active (side c fast) }
{
    status(room, fast) != 0
}

// The level of the side's output.
fn output_level(room: &Room, fast: bool) -> u32
    ensures { (c : Core) → Laid c room.now → result ≡ output_level (side c fast) }
{
    coreinterrupt::sides::output_level(side_in(room, fast))
}

// Both outputs.
pub fn outputs(room: &Room) -> Signals
    ensures { (c : Core) → sound c ≡ true → Laid c room.now → result ≡ outputs c }
{
    Signals {
        refusal: steps::CARRIED_OUT,
        irq: is_active(room, false),
        fiq: is_active(room, true),
        irqlevel: output_level(room, false),
        fiqlevel: output_level(room, true),
    }
}

// ---- reads

// A read of a clear register: it answers 0 where there are no sources, else it is refused.
fn read_clear(n: u32) -> u64
    ensures { told result ≡ pick (eqb n 0) (reply 0 0) (reply 3 0) }
{
    if n == 0 {
        return rooms::answer(0);
    }
    rooms::refuse(steps::UNREADABLE)
}

// A read of register i of the side.
fn read_from(room: &Room, fast: bool, i: u32) -> u64
    ensures { (c : Core) → Laid c room.now → told result ≡ reply_of (read_from c fast i) }
{
    let at = first_of(fast);
    match Register::numbered(i) {
        Some(Register::Soft) => rooms::answer(room[at + 3]),
        Some(Register::SoftClear) => read_clear(room[at]),
        Some(Register::Enable) => rooms::answer(room[at + 4]),
        Some(Register::EnableClear) => read_clear(room[at]),
        Some(Register::Raw) => rooms::answer(raw(room, fast)),
        Some(Register::Status) => rooms::answer(status(room, fast)),
        None => rooms::refuse(steps::ABSENT),
    }
}

// A read of the register at an offset. No word changes.
pub fn read(room: &Room, offset: u32) -> u64
    ensures { (c : Core) → sound c ≡ true → Laid c room.now → Done (read c offset) room.now (told result) }
{
    if offset % 4 != 0 {
        return rooms::refuse(steps::MISALIGNED);
    }
    let i = coreinterrupt::register(offset);
    read_from(room, offset < coreinterrupt::IRQ_BASE, i)
}

// ---- writes

// The word w with the bits of v set, or cleared.
fn turn(w: u32, v: u32, on: bool) -> u32
    ensures { result ≡ turned w v on }
{
    if on {
        return words::join(w, v);
    }
    words::drop_bits(w, v)
}

// The bits of a value that belong to sources are set, or cleared, in the word that register i of the side stands for.
fn turn_bits(room: &mut Room, fast: bool, i: u32, value: u32)
    requires { i < 4 }
    ensures { (c : Core) → Laid c room.old → Laid (with_side c fast (side_write (side c fast) i value)) room.new }
{
    let at = first_of(fast);
    let v = words::keep(room[at], value);
    let place = at + 3 + (i / 2) as usize;
    let w = turn(room[place], v, i % 2 == 0);
    room[place] = w;
}

// A write to register i of the side. Bits beyond the count are dropped.
fn write_to(room: &mut Room, fast: bool, i: u32, value: u32) -> u64
    ensures { (c : Core) → Laid c room.old → Done (write_to c fast i value) room.new (told result) }
{
    match Register::numbered(i) {
        Some(Register::Raw) => rooms::refuse(steps::UNWRITABLE),
        Some(Register::Status) => rooms::refuse(steps::UNWRITABLE),
        Some(_) => {
            turn_bits(room, fast, i, value);
            rooms::answer(0)
        }
        None => rooms::refuse(steps::ABSENT),
    }
}

// A write of a value to the register at an offset.
pub fn write(room: &mut Room, offset: u32, value: u32) -> u64
    ensures { (c : Core) → sound c ≡ true → Laid c room.old → Done (write c offset value) room.new (told result) }
{
    if offset % 4 != 0 {
        return rooms::refuse(steps::MISALIGNED);
    }
    let i = coreinterrupt::register(offset);
    write_to(room, offset < coreinterrupt::IRQ_BASE, i, value)
}

// ---- lines

// The lines w of a side with n sources after input k is put high or low. An input beyond the count is not stored. Both words are made before one is
// chosen, since no branch could guess a level.
fn moved_word(n: u32, w: u32, k: u32, high: bool) -> u32
    ensures { result ≡ pick (ltb k n) (with_bit w k high) w }
{
    let on = words::with_bit(w, k, true);
    let off = words::with_bit(w, k, false);
    let moved = if high { on } else { off };
    if k < n { moved } else { w }
}

// Input k of the side is put high or low.
fn move_input(room: &mut Room, fast: bool, k: u32, high: bool)
    ensures { (c : Core) → Laid c room.old → Laid (with_side c fast (moved (side c fast) k high)) room.new }
{
    let at = first_of(fast);
    let w = moved_word(room[at], room[at + 2], k, high);
    room[at + 2] = w;
}

// Line k is put to a level: 0 to 31 are the IRQ inputs, 32 to 39 the FIQ inputs.
pub fn line(room: &mut Room, k: u32, level: u32) -> u64
    ensures { (c : Core) → sound c ≡ true → Laid c room.old → Done (line c k level) room.new (told result) }
{
    let n = steps::line_refusal(true, coreinterrupt::LINE_LIMIT, k, level);
    if n != steps::CARRIED_OUT {
        return rooms::refuse(n);
    }
    let i = coreinterrupt::input(k);
    move_input(room, coreinterrupt::IRQ_LIMIT <= k, i, level == 1);
    rooms::answer(0)
}

// The step of a kind with its numbers, as a trace and the callers in C tell it.
pub fn step(room: &mut Room, kind: u32, x: u32, y: u32) -> u64
    ensures { (c : Core) → sound c ≡ true → Laid c room.old → Done (step c (step_of kind x y)) room.new (told result) }
{
    if kind == trace::READ {
        return read(room, x);
    }
    if kind == trace::WRITE {
        return write(room, x, y);
    }
    line(room, x, y)
}

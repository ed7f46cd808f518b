// The steps and the outputs of an AT91 controller that stands in a room. What is refused leaves the room as it is.
#![tactic(auto)]

ghost use Rattle.std.specs.Prelude.{◌≡◌, true, ◌≤◌};
ghost use Rattle.aic_record.specs.declared.Aic.{Aic};
ghost use Rattle.aic_record.specs.Sound.{sound};
ghost use Rattle.aic_registers.specs.Registers.{output_bits, stored, read_at, written_at};
ghost use Rattle.aic.specs.Model.{read, write, line, step, outputs};
ghost use Rattle.rooms.specs.Reply.{told};
ghost use Rattle.trace.specs.Turns.{step_of};
ghost use Rattle.aic_room.specs.Room.{Laid, Gives};
ghost use Rattle.aic_room.specs.Reply.{Done};

mod effects;
mod handlers;
pub mod layout;
pub mod pair;

use aic::Signals;
use aic_registers::map;
use aic_registers::map::access_of;
use layout::{DEBUG, DEPTH, ENABLED, FORCED, MODE, SPURIOUS, VECTOR};
use rooms::Room;

// ---- registers that may be read or written

// CISR: bit 0 is FIQ, bit 1 IRQ.
fn output_bits(room: &Room) -> u32
    ensures { (a : Aic) → Laid a room.now → result ≡ output_bits a }
{
    let fast = words::one_if(handlers::is_fiq(room));
    let normal = words::one_if(handlers::is_irq(room));
    fast + 2 * normal
}

// A register that a read leaves as it is; past the last one 0.
fn read_stored(room: &Room, offset: u32) -> u32
    ensures { (a : Aic) → Laid a room.now → a.depth ≤ 8 → result ≡ stored a offset }
{
    if offset < map::SVR {
        return room[MODE + (offset / 4) as usize];
    }
    if offset < map::IVR {
        return room[VECTOR + (offset / 4 - 32) as usize];
    }
    match offset {
        map::ISR => handlers::current(room),
        map::IPR => layout::pending(room),
        map::IMR => room[ENABLED],
        map::CISR => output_bits(room),
        map::SPU => room[SPURIOUS],
        map::DCR => room[DEBUG],
        map::FFSR => room[FORCED],
        _ => 0,
    }
}

// A read of a register that may be read.
fn read_at(room: &mut Room, offset: u32) -> u32
    ensures { (a : Aic) → Laid a room.old → a.depth ≤ 8 → Gives (read_at a offset) room.new result }
{
    match offset {
        map::IVR => handlers::read_ivr(room),
        map::FVR => handlers::read_fvr(room),
        _ => read_stored(room, offset),
    }
}

// A write of a register that takes the value.
fn write_at(room: &mut Room, offset: u32, v: u32)
    ensures { (a : Aic) → sound a ≡ true → Laid a room.old → Laid (written_at a offset v) room.new }
{
    if offset < map::SVR {
        effects::write_mode(room, offset / 4, v);
        return;
    }
    if offset < map::IVR {
        effects::write_vector(room, offset / 4 - 32, v);
        return;
    }
    match offset {
        map::IVR => handlers::write_ivr(room),
        map::IECR => effects::enable(room, v),
        map::IDCR => effects::disable(room, v),
        map::ICCR => effects::clear(room, v),
        map::ISCR => effects::set(room, v),
        map::EOICR => handlers::end_last(room),
        map::SPU => effects::write_spurious(room, v),
        map::DCR => effects::write_debug(room, v),
        map::FFER => effects::force(room, v),
        map::FFDR => effects::unforce(room, v),
        _ => {}
    }
}

// ---- steps

// A read of the register at an offset. IVR, which every interrupt reads, is asked for first.
pub fn read(room: &mut Room, offset: u32) -> u64
    ensures { (a : Aic) → sound a ≡ true → Laid a room.old → Done (read a offset) room.new (told result) }
{
    if offset == map::IVR {
        let value = handlers::read_ivr(room);
        return rooms::answer(value);
    }
    let n = steps::read_refusal(true, offset, access_of(offset));
    if n == steps::CARRIED_OUT {
        let value = read_at(room, offset);
        return rooms::answer(value);
    }
    rooms::refuse(n)
}

// A write of the register at an offset. EOICR, which every interrupt writes, is asked for first.
pub fn write(room: &mut Room, offset: u32, value: u32) -> u64
    ensures { (a : Aic) → sound a ≡ true → Laid a room.old → Done (write a offset value) room.new (told result) }
{
    if offset == map::EOICR {
        handlers::end_last(room);
        return rooms::answer(0);
    }
    let n = steps::write_refusal(true, offset, access_of(offset), steps::CARRIED_OUT);
    if n == steps::CARRIED_OUT {
        write_at(room, offset, value);
        return rooms::answer(0);
    }
    rooms::refuse(n)
}

// A line that goes to a level.
pub fn line(room: &mut Room, k: u32, level: u32) -> u64
    ensures { (a : Aic) → sound a ≡ true → Laid a room.old → Done (line a k level) room.new (told result) }
{
    if (k < 32) & (level <= 1) {
        effects::move_line(room, k, level == 1);
        return rooms::answer(0);
    }
    rooms::refuse(steps::BEYOND)
}

// The step of a kind with its numbers.
// A number and no enum: the turn of a trace hands its kind over as one, and `step_of` reads it so.
pub fn step(room: &mut Room, kind: u32, x: u32, y: u32) -> u64
    ensures { (a : Aic) → sound a ≡ true → Laid a room.old → Done (step a (step_of kind x y)) room.new (told result) }
{
    match kind {
        trace::READ => read(room, x),
        trace::WRITE => write(room, x, y),
        _ => line(room, x, y),
    }
}

// The two outputs and how many entries are open.
pub fn outputs(room: &Room) -> Signals
    ensures { (a : Aic) → sound a ≡ true → Laid a room.now → result ≡ outputs a }
{
    Signals {
        refusal: steps::CARRIED_OUT,
        irq: handlers::is_irq(room),
        fiq: handlers::is_fiq(room),
        entries: room[DEPTH],
    }
}

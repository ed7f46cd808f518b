// The AINTC in a room: what reads, writes and line steps do, and its outputs. What is refused leaves the room as it is.
#![tactic(auto)]

ghost use Rattle.std.specs.Prelude.{◌≡◌, true, ℕ, ◌<◌};
ghost use Rattle.steps.specs.declared.Step.{Step};
ghost use Rattle.aintc_record.specs.declared.Aintc.{Aintc};
ghost use Rattle.aintc_record.specs.Record.{side};
ghost use Rattle.aintc_registers.specs.Settle.{sound};
ghost use Rattle.aintc_record.specs.Route.{route_at, route_value};
ghost use Rattle.aintc_registers.specs.Registers.{shown, single_read, bank_read, read_at};
ghost use Rattle.aintc_registers.specs.Model.{is_register, barred, access_number, read, write, line, step, outputs};
ghost use Rattle.rooms.specs.Reply.{told};
ghost use Rattle.trace.specs.Turns.{step_of};
ghost use Rattle.aintc_room.specs.Room.{Laid};
ghost use Rattle.aintc_room.specs.Reply.{Done};

mod effects;
pub mod layout;
mod search;
mod sides;

use aintc_registers::map;
use aintc_registers::map::access_of;
use aintc_registers::model::Signals;
use layout::{
    AUTOIDLE, FIQ, FUNCIDLE, GUARDED, IRQ, LINES, MASKS, REVISION, ROUTES, SOFT, THRESHOLD, TURBO,
};
use rooms::Room;
use sides::place_of;
use steps::Access;

// ---- registers that may be read

// What the number and the priority registers read with none chosen: the flag in bits 31:7, and 0.
const SPURIOUS: u32 = 0xFFFFFF80;

// The number of the one that is chosen for FIQ, where `fast`, or for IRQ.
fn number_shown(room: &Room, fast: bool) -> u32
    ensures { (a : Aintc) → Laid a room.now → result ≡ shown (side a fast).active (side a fast).number }
{
    let at = place_of(fast);
    if room[at] == 0 {
        return SPURIOUS;
    }
    room[at + 1]
}

// The priority that it had when it was chosen.
fn priority_shown(room: &Room, fast: bool) -> u32
    ensures { (a : Aintc) → Laid a room.now → result ≡ shown (side a fast).active (side a fast).priority }
{
    let at = place_of(fast);
    if room[at] == 0 {
        return SPURIOUS;
    }
    room[at + 2]
}

// The registers that stand alone; 0 where there is none to read.
fn read_single(room: &Room, offset: u32) -> u32
    ensures { (a : Aintc) → Laid a room.now → result ≡ single_read a offset }
{
    match offset {
        map::REVISION => room[REVISION],
        map::SYSCONFIG => room[AUTOIDLE],
        map::SYSSTATUS => 1,
        map::SIR_IRQ => number_shown(room, false),
        map::SIR_FIQ => number_shown(room, true),
        map::PROTECTION => room[GUARDED],
        map::IDLE => 2 * (room[TURBO] % 2) + room[FUNCIDLE] % 2,
        map::IRQ_PRIORITY => priority_shown(room, false),
        map::FIQ_PRIORITY => priority_shown(room, true),
        map::THRESHOLD => room[THRESHOLD],
        _ => 0,
    }
}

// The registers of bank n, by their row; 0 where there is none to read.
fn read_bank(room: &Room, n: usize, row: u32) -> u32
    requires { n < 4 }
    ensures { (a : Aintc) → Laid a room.now → result ≡ bank_read a n row }
{
    match row {
        map::ITR => room[LINES + n],
        map::MIR => room[MASKS + n],
        map::ISR_SET => room[SOFT + n],
        map::PENDING_IRQ => search::pending_word(room, false, n),
        map::PENDING_FIQ => search::pending_word(room, true, n),
        _ => 0,
    }
}

// The route of input k as its register shows it; 0 past the last one.
fn read_route(room: &Room, k: u32) -> u32
    ensures { (a : Aintc) → Laid a room.now → result ≡ route_value (route_at a k) }
{
    if 128 <= k {
        return 0;
    }
    let route = room[ROUTES + k as usize];
    route / 2 % 128 * 4 + route % 2
}

// A read of a register that may be read.
fn read_at(room: &Room, offset: u32) -> u32
    ensures { (a : Aintc) → Laid a room.now → result ≡ read_at a offset }
{
    if offset < map::ITR {
        return read_single(room, offset);
    }
    if offset < map::ILR {
        let n = ((offset - map::ITR) / 0x20) as usize;
        return read_bank(room, n, map::row_of(offset));
    }
    read_route(room, (offset - map::ILR) / 4)
}

// ---- privilege

fn is_register(access: Access) -> bool
    ensures { result ≡ is_register access }
{
    match access {
        Access::NoRegister => false,
        Access::ReadOnly => true,
        Access::WriteOnly => true,
        Access::ReadWrite => true,
    }
}

// Whether an access at this privilege is barred: unprivileged, of a register, and either all are protected or it is the protection
// register itself.
fn is_barred(guarded: bool, privilege: u32, offset: u32) -> bool
    ensures { result ≡ barred guarded privilege offset }
{
    let register = is_register(access_of(offset));
    (privilege == 0) & (offset % 4 == 0) & register & (guarded | (offset == map::PROTECTION))
}

// The checks of an access to a sound record in their order, 6, 13, then those of the read or the write itself; 1 and 2 of those come
// before 13, since a barred access is aligned and of a register.
fn access_number(privilege: u32, barred: bool, rest: u32) -> u32
    ensures { result ≡ access_number true privilege barred rest }
{
    if 1 < privilege {
        return steps::BEYOND;
    }
    if barred {
        return steps::UNPRIVILEGED;
    }
    rest
}

// By which number an access is refused, 0 for none, where `rest` is that of a privileged one. Privileged ones are asked for first.
fn number(room: &Room, privilege: u32, offset: u32, rest: u32) -> u32
    ensures { (a : Aintc) → Laid a room.now → result ≡ access_number true privilege (barred a.guarded privilege offset) rest }
{
    if privilege == 1 {
        return rest;
    }
    let guarded = room[GUARDED] == 1;
    access_number(privilege, is_barred(guarded, privilege, offset), rest)
}

// ---- steps

// A read of the register at an offset; privilege 1 is privileged, 0 is not. Nothing changes.
pub fn read(room: &Room, offset: u32, privilege: u32) -> u64
    ensures { (a : Aintc) → sound a ≡ true → Laid a room.now → Done (read a privilege offset) room.now (told result) }
{
    let rest = steps::read_refusal(true, offset, access_of(offset));
    let n = number(room, privilege, offset, rest);
    if n != steps::CARRIED_OUT {
        return rooms::refuse(n);
    }
    rooms::answer(read_at(room, offset))
}

// A write of the register at an offset.
pub fn write(room: &mut Room, offset: u32, value: u32, privilege: u32) -> u64
    ensures { (a : Aintc) → sound a ≡ true → Laid a room.old → Done (write a privilege offset value) room.new (told result) }
{
    let rest = steps::write_refusal(true, offset, access_of(offset), steps::CARRIED_OUT);
    let n = number(room, privilege, offset, rest);
    if n != steps::CARRIED_OUT {
        return rooms::refuse(n);
    }
    effects::write_at(room, offset, value);
    sides::settle(room);
    rooms::answer(0)
}

// A line that goes to a level.
pub fn line(room: &mut Room, k: u32, level: u32) -> u64
    ensures { (a : Aintc) → sound a ≡ true → Laid a room.old → Done (line a k level) room.new (told result) }
{
    if (k < 128) & (level <= 1) {
        effects::move_line(room, k, level == 1);
        return rooms::answer(0);
    }
    rooms::refuse(steps::BEYOND)
}

// The step of a kind with its numbers, by a privilege. A line step has no privilege.
pub fn step(room: &mut Room, kind: u32, x: u32, y: u32, privilege: u32) -> u64
    ensures { (a : Aintc) → sound a ≡ true → Laid a room.old → Done (step a privilege (step_of kind x y)) room.new (told result) }
{
    if kind == trace::READ {
        return read(room, x, privilege);
    }
    if kind == trace::WRITE {
        return write(room, x, y, privilege);
    }
    line(room, x, y)
}

// The two outputs and the number of the input that is chosen for IRQ.
pub fn outputs(room: &Room) -> Signals
    ensures { (a : Aintc) → sound a ≡ true → Laid a room.now → result ≡ outputs a }
{
    Signals {
        refusal: steps::CARRIED_OUT,
        irq: room[IRQ] == 1,
        fiq: room[FIQ] == 1,
        number: room[IRQ + 1],
    }
}

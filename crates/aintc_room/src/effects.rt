// What a write of each register and a line step do, where nothing refuses them. After a write the outputs have not yet taken anything anew.
ghost use Rattle.std.specs.Prelude.{◌≡◌, true, ℕ, ◌+◌, ◌<◌, ◌≤◌, set};
ghost use Rattle.rooms.specs.Parts.{stored};
ghost use Rattle.aintc_record.specs.declared.Aintc.{Aintc};
ghost use Rattle.aintc_record.specs.Record.{with_routes, side, reset};
ghost use Rattle.aintc_record.specs.Route.{route_byte};
ghost use Rattle.aintc_registers.specs.Settle.{settle, sound};
ghost use Rattle.aintc_registers.specs.Effects.{released, agreed, configured, single_written, bank_written, written_at, moved};
ghost use Rattle.aintc_room.specs.Room.{Laid, with_side};

use super::layout::{
    AUTOIDLE, BITS, FIQS, FUNCIDLE, GUARDED, LINES, MASKS, REVISION, ROUTES, SOFT, THRESHOLD, TURBO,
};
use super::sides;
use super::sides::place_of;
use aintc_registers::map;
use rooms::Room;

// ---- the registers that stand alone

// An output is freed where its agreement bit is written.
fn release(room: &mut Room, agreed: bool, fast: bool)
    ensures { (a : Aintc) → Laid a room.old → Laid (with_side a fast (released agreed (side a fast))) room.new }
{
    let at = place_of(fast);
    if agreed {
        room[at] = 0;
        room[at + 1] = 0;
        room[at + 2] = 0;
    }
}

// A write of CONTROL: bit 0 agrees to IRQ, bit 1 to FIQ.
fn agree(room: &mut Room, v: u32)
    ensures { (a : Aintc) → Laid a room.old → Laid (agreed a v) room.new }
{
    release(room, words::has(v, 0), false);
    release(room, words::has(v, 1), true);
}

// The same word n times from a place on.
fn fill(room: &mut Room, at: usize, n: usize, w: u32)
    requires { at + n ≤ 2048 }
    ensures { room.new ≡ stored at (λ _. w) room.old n }
{
    for k in 0..n {
        room[at + k] = w;
    }
}

// What a reset leaves; the lines stay where they are.
fn reset(room: &mut Room)
    ensures { (a : Aintc) → Laid a room.old → Laid (reset a.lines) room.new }
{
    fill(room, SOFT, 4, 0);
    fill(room, MASKS, 4, 0xFFFFFFFF);
    fill(room, FIQS, 4, 0);
    fill(room, BITS, 28, 0);
    fill(room, ROUTES, 128, 0);
    fill(room, THRESHOLD, 14, 0);
    room[THRESHOLD] = 0xFF;
}

// A write of SYSCONFIG: bit 1 is a soft reset.
fn configure(room: &mut Room, v: u32)
    ensures { (a : Aintc) → Laid a room.old → Laid (configured a v) room.new }
{
    if words::has(v, 1) {
        reset(room);
        return;
    }
    let w = words::one_if(words::has(v, 0));
    room[AUTOIDLE] = w;
}

// The registers that stand alone; nothing changes where there is none to write.
fn write_single(room: &mut Room, offset: u32, v: u32)
    ensures { (a : Aintc) → Laid a room.old → Laid (single_written a offset v) room.new }
{
    match offset {
        map::CONTROL => agree(room, v),
        map::REVISION => {
            room[REVISION] = v % 256;
        }
        map::SYSCONFIG => configure(room, v),
        map::PROTECTION => {
            room[GUARDED] = words::one_if(words::has(v, 0));
        }
        map::IDLE => {
            room[TURBO] = words::one_if(words::has(v, 1));
            room[FUNCIDLE] = words::one_if(words::has(v, 0));
        }
        map::THRESHOLD => {
            room[THRESHOLD] = v % 256;
        }
        _ => {}
    }
}

// ---- the banks and the routes

// The registers of bank n, by their row; nothing changes where there is none to write.
fn write_bank(room: &mut Room, n: usize, row: u32, v: u32)
    requires { n < 4 }
    ensures { (a : Aintc) → Laid a room.old → Laid (bank_written a n row v) room.new }
{
    match row {
        map::MIR => {
            room[MASKS + n] = v;
        }
        map::MIR_CLEAR => {
            let w = words::drop_bits(room[MASKS + n], v);
            room[MASKS + n] = w;
        }
        map::MIR_SET => {
            let w = words::join(room[MASKS + n], v);
            room[MASKS + n] = w;
        }
        map::ISR_SET => {
            let w = words::join(room[SOFT + n], v);
            room[SOFT + n] = w;
        }
        map::ISR_CLEAR => {
            let w = words::drop_bits(room[SOFT + n], v);
            room[SOFT + n] = w;
        }
        _ => {}
    }
}

// The route of input k; past the last one nothing changes.
fn write_route(room: &mut Room, k: u32, v: u32)
    ensures { (a : Aintc) → Laid a room.old → Laid (with_routes a (set a.routes k (route_byte v))) room.new }
{
    if 128 <= k {
        return;
    }
    super::layout::put_route(room, k, v / 4 % 128 * 2 + v % 2);
}

// A write of a register that takes the value.
pub(crate) fn write_at(room: &mut Room, offset: u32, v: u32)
    ensures { (a : Aintc) → Laid a room.old → Laid (written_at a offset v) room.new }
{
    if offset < map::ITR {
        write_single(room, offset, v);
        return;
    }
    if offset < map::ILR {
        let n = ((offset - map::ITR) / 0x20) as usize;
        write_bank(room, n, map::row_of(offset), v);
        return;
    }
    write_route(room, (offset - map::ILR) / 4, v);
}

// ---- line steps

// The line of input k goes to a level; of all inputs only this one may then be taken.
pub(crate) fn move_line(room: &mut Room, k: u32, high: bool)
    requires { k < 128 }
    ensures { (a : Aintc) → sound a ≡ true → Laid a room.old → Laid (settle (moved a k high)) room.new }
{
    let at = LINES + (k / 32) as usize;
    let w = words::with_bit(room[at], k % 32, high);
    room[at] = w;
    sides::offer(room, k);
}

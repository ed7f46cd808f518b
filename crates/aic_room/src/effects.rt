// What reads, writes and line steps do to an AT91 controller that stands in a room, where nothing refuses them: here the commands, the stored registers and
// the lines; in `handlers` the entries and the vectors.
ghost use Rattle.std.specs.Prelude.{◌≡◌, true, false, not, ◌&&◌, ◌<◌, eqb};
ghost use Rattle.words.specs.Choice.{pick};
ghost use Rattle.words.specs.Word.{with_bit};
ghost use Rattle.aic_record.specs.declared.Aic.{Aic};
ghost use Rattle.aic_record.specs.Mode.{type_of, kind, edge};
ghost use Rattle.aic_record.specs.Record.{with_spurious};
ghost use Rattle.aic_registers.specs.Effects.{moded, vectored, enabled_by, disabled_by, set_by, cleared_by, debug_by, forced_by, unforced_by, turns, moved};
ghost use Rattle.aic_room.specs.Room.{Laid};

use super::layout::{
    DEBUG, EDGES, ENABLED, FORCED, LINES, LOW, MEMORY, MODE, SPURIOUS, VECTOR, renew,
};
use rooms::Room;

// ---- commands: each bit of the value is for one source

// IECR: each source whose bit is 1 is enabled.
pub(crate) fn enable(room: &mut Room, v: u32)
    ensures { (a : Aic) → Laid a room.old → Laid (enabled_by a v) room.new }
{
    let w = words::join(room[ENABLED], v);
    super::layout::put_enabled(room, w);
    renew(room);
}

// IDCR: each source whose bit is 1 is disabled.
pub(crate) fn disable(room: &mut Room, v: u32)
    ensures { (a : Aic) → Laid a room.old → Laid (disabled_by a v) room.new }
{
    let w = words::drop_bits(room[ENABLED], v);
    super::layout::put_enabled(room, w);
    renew(room);
}

// ICCR: the memory of each source whose bit is 1 is cleared. It acts on edge sources only.
pub(crate) fn clear(room: &mut Room, v: u32)
    ensures { (a : Aic) → Laid a room.old → Laid (cleared_by a v) room.new }
{
    let w = words::drop_bits(room[MEMORY], words::meet(v, room[EDGES]));
    room[MEMORY] = w;
    renew(room);
}

// ISCR: the memory of each source whose bit is 1 is set. It acts on edge sources only.
pub(crate) fn set(room: &mut Room, v: u32)
    ensures { (a : Aic) → Laid a room.old → Laid (set_by a v) room.new }
{
    let w = words::join(room[MEMORY], words::meet(v, room[EDGES]));
    room[MEMORY] = w;
    renew(room);
}

// FFER: each source whose bit is 1 is forced to the fast side, save source 0.
pub(crate) fn force(room: &mut Room, v: u32)
    ensures { (a : Aic) → Laid a room.old → Laid (forced_by a v) room.new }
{
    let w = words::join(room[FORCED], words::drop_bits(v, 1));
    super::layout::put_forced(room, w);
    renew(room);
}

// FFDR: each source whose bit is 1 is forced no longer.
pub(crate) fn unforce(room: &mut Room, v: u32)
    ensures { (a : Aic) → Laid a room.old → Laid (unforced_by a v) room.new }
{
    let w = words::drop_bits(room[FORCED], v);
    super::layout::put_forced(room, w);
    renew(room);
}

// ---- registers that hold what is written

// SPU.
pub(crate) fn write_spurious(room: &mut Room, v: u32)
    ensures { (a : Aic) → Laid a room.old → Laid (with_spurious a v) room.new }
{
    room[SPURIOUS] = v;
}

// SVR of source k.
pub(crate) fn write_vector(room: &mut Room, k: u32, v: u32)
    requires { k < 32 }
    ensures { (a : Aic) → Laid a room.old → Laid (vectored a k v) room.new }
{
    room[VECTOR + k as usize] = v;
}

// DCR. Without protect mode what is remembered is forgotten.
pub(crate) fn write_debug(room: &mut Room, v: u32)
    ensures { (a : Aic) → Laid a room.old → Laid (debug_by a v) room.new }
{
    let w = words::keep(2, v);
    room[DEBUG] = w;
    if words::has(v, 0) {
        return;
    }
    super::layout::put_seen(room, 0, 0, 0, 0);
}

// ---- a mode write

// The memory after a write of the mode of source k: one that alters the type clears it.
fn forget_other_type(room: &Room, k: u32, v: u32) -> u32
    requires { k < 32 }
    ensures { (a : Aic) → Laid a room.now → result ≡ pick (not (eqb (kind a k) (type_of v))) (with_bit a.memory k false) a.memory }
{
    if aic_record::type_of(room[MODE + k as usize]) != aic_record::type_of(v) {
        return words::with_bit(room[MEMORY], k, false);
    }
    room[MEMORY]
}

// SMR of source k.
pub(crate) fn write_mode(room: &mut Room, k: u32, v: u32)
    requires { k < 32 }
    ensures { (a : Aic) → Laid a room.old → Laid (moded a k v) room.new }
{
    let memory = forget_other_type(room, k, v);
    room[MEMORY] = memory;
    super::layout::put_mode(room, k, aic_record::kept_of(v) as u32);
    renew(room);
}

// ---- a line step

// Whether a line that goes to this level turns the edge source k active.
fn rises(room: &Room, k: u32, high: bool) -> bool
    requires { k < 32 }
    ensures { (a : Aic) → Laid a room.now → result ≡ (edge a k && turns a k high) }
{
    let low = words::has(room[LOW], k);
    let was = aic_sources::at_level(low, words::has(room[LINES], k));
    words::has(room[EDGES], k) & (!was & aic_sources::at_level(low, high))
}

// The memory after the line of source k goes to a level: an edge source that turns active is remembered.
fn remember(room: &Room, k: u32, high: bool) -> u32
    requires { k < 32 }
    ensures { (a : Aic) → Laid a room.now → result ≡ pick (edge a k && turns a k high) (with_bit a.memory k true) a.memory }
{
    if rises(room, k, high) {
        return words::with_bit(room[MEMORY], k, true);
    }
    room[MEMORY]
}

// The line of source k goes to a level: only the level of its priority can change.
pub(crate) fn move_line(room: &mut Room, k: u32, high: bool)
    requires { k < 32 }
    ensures { (a : Aic) → Laid a room.old → Laid (moved a k high) room.new }
{
    let priority = room[MODE + k as usize] % 8;
    let memory = remember(room, k, high);
    let lines = words::with_bit(room[LINES], k, high);
    room[MEMORY] = memory;
    room[LINES] = lines;
    super::layout::renew_level(room, priority);
}

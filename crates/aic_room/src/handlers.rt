// The AT91 controller in a room: the source that is ahead of all others, the two outputs, the entries, and reads and writes of the vectors.
ghost use Rattle.std.specs.Prelude.{◌≡◌, true, ◌-◌, ◌<◌, ◌≤◌, eqb};
ghost use Rattle.words.specs.Choice.{pick};
ghost use Rattle.aic_record.specs.declared.Aic.{Aic};
ghost use Rattle.aic_record.specs.Mode.{priority};
ghost use Rattle.aic_record.specs.Sound.{level_below, sound};
ghost use Rattle.aic_sources.specs.Fast.{fast_asks, fiq};
ghost use Rattle.aic_sources.specs.Normal.{above, candidates, chosen, irq};
ghost use Rattle.aic_registers.specs.Handlers.{answered, spent, opened, started_at, marked, ended, vector_at, ivr_taken, ivr_looked, ivr_read, begun, ivr_written, fast_spent, fvr_read, current};
ghost use Rattle.aic_levels.specs.Levels.{any_of, highest_of};
ghost use Rattle.aic_room.specs.Room.{Laid, Gives};

use super::layout::{
    ANY, DEBUG, DEPTH, EDGES, FAST, FORCED, LAST, LEVEL, LEVELS, MEMORY, MODE, SEEN, SEEN_LEVEL,
    SEEN_SOURCE, SOURCE, SPURIOUS, TABLE, VECTOR,
};
use rooms::Room;

// ---- the one ahead of all others

// The place of an entry in a table of eight: the last of so many.
fn last_of(entries: u32) -> usize
    ensures { (result < 8) × ((0 < entries → entries ≤ 8 → result ≡ entries - 1)) }
{
    (entries.saturating_sub(1) % 8) as usize
}

// The level of the entry below entry i, 255 if there is none.
// 255 and no Option, here and of `highest`: the word of a room is this number.
fn level_below(room: &Room, i: u32) -> u32
    ensures { (a : Aic) → Laid a room.now → i ≤ 8 → result ≡ level_below a.level i }
{
    if i == 0 {
        return 255;
    }
    let last = last_of(i);
    room[LEVEL + last]
}

// Whether a priority may start over the open entries.
fn may_start(room: &Room, p: u32) -> bool
    ensures { (a : Aic) → Laid a room.now → result ≡ above a p }
{
    if 8 <= room[DEPTH] {
        return false;
    }
    aic_record::is_over(room[LAST], p)
}

// The highest level that has any source, 255 if none has.
fn highest(room: &Room) -> u32
    ensures { (a : Aic) → Laid a room.now → result ≡ highest_of (any_of a) }
{
    room[TABLE + (room[ANY] % 256) as usize]
}

// The candidate that is ahead of all others, 32 if there is none: the lowest source of the highest level, if that may start.
// 32 and no Option, as `aic_sources::chosen_source` has it by its promise.
pub(crate) fn chosen(room: &Room) -> u32
    ensures { (a : Aic) → Laid a room.now → result ≡ chosen a }
{
    let top = highest(room);
    if 8 <= top {
        return 32;
    }
    if may_start(room, top) {
        return words::lowest(room[LEVELS + top as usize]);
    }
    32
}

// Whether there is a candidate: some level has any source, and the highest may start. Which source it is plays no part.
fn normal_asks(room: &Room) -> bool
    ensures { (a : Aic) → Laid a room.now → result ≡ candidates a }
{
    if room[ANY] == 0 {
        return false;
    }
    may_start(room, highest(room))
}

// Whether some fast source is pending and enabled: source 0, or a forced one.
fn fast_asks(room: &Room) -> bool
    ensures { (a : Aic) → Laid a room.now → result ≡ fast_asks a }
{
    words::meet(super::layout::pending(room), room[FAST]) != 0
}

// ---- the two outputs, unless debug control masks them

pub(crate) fn is_irq(room: &Room) -> bool
    ensures { (a : Aic) → Laid a room.now → result ≡ irq a }
{
    !words::has(room[DEBUG], 1) & normal_asks(room)
}

pub(crate) fn is_fiq(room: &Room) -> bool
    ensures { (a : Aic) → Laid a room.now → result ≡ fiq a }
{
    !words::has(room[DEBUG], 1) & fast_asks(room)
}

// ---- entries

// The memory of source k is cleared if it is edge-triggered.
fn spend(room: &mut Room, k: u32)
    requires { k < 32 }
    ensures { (a : Aic) → Laid a room.old → Laid (spent a k) room.new }
{
    if words::has(room[EDGES], k) {
        let priority = room[MODE + k as usize] % 8;
        let w = words::with_bit(room[MEMORY], k, false);
        room[MEMORY] = w;
        super::layout::renew_level(room, priority);
    }
}

// An entry of source k is opened at a level, after those already open.
fn open_entry(room: &mut Room, k: u32, level: u32)
    ensures { (a : Aic) → Laid a room.old → a.depth < 8 → Laid (opened a k level) room.new }
{
    let depth = room[DEPTH];
    if 8 <= depth {
        return;
    }
    super::layout::put_entry(room, depth, k, level, depth + 1, level);
}

// Source k starts at a level: a handler is opened, and its memory is cleared if it is edge-triggered.
fn start_at(room: &mut Room, k: u32, level: u32)
    requires { k < 32 }
    ensures { (a : Aic) → Laid a room.old → a.depth < 8 → Laid (started_at a k level) room.new }
{
    spend(room, k);
    open_entry(room, k, level);
}

// A spurious mark is opened, with the level of the last entry. With eight entries open nothing changes.
fn open_mark(room: &mut Room)
    ensures { (a : Aic) → Laid a room.old → Laid (marked a) room.new }
{
    let depth = room[DEPTH];
    if 8 <= depth {
        return;
    }
    let level = room[LAST];
    super::layout::put_entry(room, depth, 0, level, depth + 1, level);
}

// The last entry is closed, mark or handler. With none open nothing changes.
pub(crate) fn end_last(room: &mut Room)
    ensures { (a : Aic) → Laid a room.old → a.depth ≤ 8 → Laid (ended a) room.new }
{
    let depth = room[DEPTH];
    if depth == 0 {
        return;
    }
    if 8 < depth {
        return;
    }
    let last = level_below(room, depth - 1);
    super::layout::put_entry(room, depth - 1, 0, 0, depth - 1, last);
}

// The source of the last entry, 0 if that is a mark or none is open.
pub(crate) fn current(room: &Room) -> u32
    ensures { (a : Aic) → Laid a room.now → a.depth ≤ 8 → result ≡ current a }
{
    if room[DEPTH] == 0 {
        return 0;
    }
    let last = last_of(room[DEPTH]);
    room[SOURCE + last]
}

// ---- reads of IVR

// Source k starts at the priority that it has now, and its vector is answered.
fn start_now(room: &mut Room, k: u32) -> u32
    requires { k < 32 }
    ensures { (a : Aic) → Laid a room.old → a.depth < 8 → Gives (answered (started_at a k (priority a k)) (vector_at a k)) room.new result }
{
    let level = room[MODE + k as usize] % 8;
    let vector = room[VECTOR + k as usize];
    start_at(room, k, level);
    vector
}

// Outside protect mode: the candidate that is ahead of all others starts; without one SPU, and a mark is opened.
fn take_ivr(room: &mut Room) -> u32
    ensures { (a : Aic) → Laid a room.old → Gives (ivr_taken a) room.new result }
{
    let k = chosen(room);
    if k < 32 {
        return start_now(room, k);
    }
    let spurious = room[SPURIOUS];
    open_mark(room);
    spurious
}

// In protect mode: the same is answered, and only remembered.
fn look_ivr(room: &mut Room) -> u32
    ensures { (a : Aic) → Laid a room.old → Gives (ivr_looked a) room.new result }
{
    let k = chosen(room);
    if k < 32 {
        let level = room[MODE + k as usize] % 8;
        let vector = room[VECTOR + k as usize];
        super::layout::put_seen(room, 1, k, level, vector);
        return vector;
    }
    let spurious = room[SPURIOUS];
    super::layout::put_seen(room, 2, 0, 0, 0);
    spurious
}

// A read of IVR. Debug control's mask plays no part in it.
pub(crate) fn read_ivr(room: &mut Room) -> u32
    ensures { (a : Aic) → Laid a room.old → Gives (ivr_read a) room.new result }
{
    if words::has(room[DEBUG], 0) {
        return look_ivr(room);
    }
    take_ivr(room)
}

// ---- a write of IVR

// What is remembered is opened: a handler of the source at the level that was remembered, else a mark.
fn open_seen(room: &mut Room)
    ensures { (a : Aic) → sound a ≡ true → Laid a room.old → Laid (pick (eqb a.seen.what 1) (started_at a a.seen.source a.seen.level) (marked a)) room.new }
{
    if room[SEEN] == 1 {
        let k = room[SEEN_SOURCE] % 32;
        let level = room[SEEN_LEVEL];
        start_at(room, k, level);
        return;
    }
    open_mark(room);
}

// What is remembered is started and forgotten. With nothing remembered nothing changes.
fn begin_seen(room: &mut Room)
    ensures { (a : Aic) → sound a ≡ true → Laid a room.old → Laid (begun a) room.new }
{
    if room[SEEN] == 0 {
        return;
    }
    open_seen(room);
    super::layout::put_seen(room, 0, 0, 0, 0);
}

// A write of IVR. Outside protect mode it does nothing.
pub(crate) fn write_ivr(room: &mut Room)
    ensures { (a : Aic) → sound a ≡ true → Laid a room.old → Laid (ivr_written a) room.new }
{
    if words::has(room[DEBUG], 0) {
        begin_seen(room);
    }
}

// ---- a read of FVR

// The memory of source 0 is cleared if that is edge-triggered and no source is forced.
fn spend_fast(room: &mut Room)
    ensures { (a : Aic) → Laid a room.old → Laid (fast_spent a) room.new }
{
    if room[FORCED] == 0 {
        spend(room, 0);
    }
}

// A read of FVR: vector 0, whichever fast source asks; SPU if none does.
pub(crate) fn read_fvr(room: &mut Room) -> u32
    ensures { (a : Aic) → Laid a room.old → Gives (fvr_read a) room.new result }
{
    if fast_asks(room) {
        let vector = room[VECTOR];
        spend_fast(room);
        return vector;
    }
    room[SPURIOUS]
}

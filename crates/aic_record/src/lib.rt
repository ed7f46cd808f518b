// The AT91 controller's record: its registers, its line levels, its edge memories and its open entries.
#![tactic(auto)]

ghost use Rattle.std.specs.Prelude.{◌≡◌, not, ◌&&◌, ◌||◌, eqb, get_or, set};
ghost use Rattle.words.specs.Choice.{pick};
ghost use Rattle.words.specs.Counting.{all_below};
ghost use Rattle.aic_record.specs.Mode.{priority_of, type_of, kept_mode, edge_of, mode_at, priority, edge};
ghost use Rattle.aic_record.specs.Record.{with_lines, with_enabled, with_memory, with_forced, with_spurious, with_debug, with_mode, with_vector, with_handlers, with_seen};
ghost use Rattle.aic_record.specs.Record.{reset, nothing_seen};
ghost use Rattle.aic_record.specs.Sound.{source_at, level_at, level_below, over, entry_fits, seen_fits, sound};
ghost use Rattle.aic_record.specs.Passes.{floor_over, slot_sound, mode_sound};

pub mod last;

// One word has a bit for each of the 32 sources. `source` and `level` hold the open entries, the last one at `depth - 1`: handlers, and
// spurious marks, whose source is 0.
// Two arrays with their depth beside them and no list of entries: the promises name these fields.
#[derive(Clone, Copy)]
pub struct Aic {
    pub external: u32,
    pub lines: u32,
    pub enabled: u32,
    pub memory: u32,
    pub forced: u32,
    pub spurious: u32,
    pub debug: u32,
    pub mode: [u8; 32],
    pub vector: [u32; 32],
    pub source: [u8; 8],
    pub level: [u8; 8],
    pub depth: u32,
    pub seen: Seen,
}

// What a read of IVR in protect mode remembers: nothing (0), a source (1) with the priority and the vector that it had then, or that there was none (2).
// A number and no enum: the promises name `what`.
#[derive(Clone, Copy)]
pub struct Seen {
    pub what: u32,
    pub source: u8,
    pub level: u8,
    pub vector: u32,
}

// What stands for no level.
// A number and no Option: the promise `below_is` tells 255 of the level below the first entry.
pub const NO_LEVEL: u8 = 255;

// The record after reset, its lines at their first levels.
pub fn reset_to(external: u32, lines: u32) -> Aic
    ensures { result ≡ reset external lines }
{
    Aic {
        external,
        lines,
        enabled: 0,
        memory: 0,
        forced: 0,
        spurious: 0,
        debug: 0,
        mode: [0; 32],
        vector: [0; 32],
        source: [0; 8],
        level: [0; 8],
        depth: 0,
        seen: nothing_seen(),
    }
}

// Nothing remembered.
pub fn nothing_seen() -> Seen
    ensures { result ≡ nothing_seen }
{
    Seen {
        what: 0,
        source: 0,
        level: 0,
        vector: 0,
    }
}

// ---- the record with one part put anew

pub fn with_lines(s: Aic, w: u32) -> Aic
    ensures { result ≡ with_lines s w }
{
    Aic { lines: w, ..s }
}

pub fn with_enabled(s: Aic, w: u32) -> Aic
    ensures { result ≡ with_enabled s w }
{
    Aic { enabled: w, ..s }
}

pub fn with_memory(s: Aic, w: u32) -> Aic
    ensures { result ≡ with_memory s w }
{
    Aic { memory: w, ..s }
}

pub fn with_forced(s: Aic, w: u32) -> Aic
    ensures { result ≡ with_forced s w }
{
    Aic { forced: w, ..s }
}

pub fn with_spurious(s: Aic, v: u32) -> Aic
    ensures { result ≡ with_spurious s v }
{
    Aic { spurious: v, ..s }
}

pub fn with_debug(s: Aic, v: u32) -> Aic
    ensures { result ≡ with_debug s v }
{
    Aic { debug: v, ..s }
}

pub fn with_seen(s: Aic, n: Seen) -> Aic
    ensures { result ≡ with_seen s n }
{
    Aic { seen: n, ..s }
}

// The mode of source k put anew. Past the last source nothing changes.
// No `get_mut`, here and in the next two: tried, and the proof learns nothing of the table after a store through it.
pub fn put_mode(s: Aic, k: u32, m: u8) -> Aic
    ensures { result ≡ with_mode s (set s.mode k m) }
{
    if 32 <= k {
        return s;
    }
    let mut t = s;
    t.mode[k as usize] = m;
    t
}

// The vector of source k put anew. Past the last source nothing changes.
pub fn put_vector(s: Aic, k: u32, v: u32) -> Aic
    ensures { result ≡ with_vector s (set s.vector k v) }
{
    if 32 <= k {
        return s;
    }
    let mut t = s;
    t.vector[k as usize] = v;
    t
}

// Slot i of the open entries put anew, a handler or a mark, and how many are open. Past the last slot nothing is stored.
pub fn put_handler(s: Aic, i: u32, source: u8, level: u8, depth: u32) -> Aic
    ensures { result ≡ with_handlers s (set s.source i source) (set s.level i level) depth }
{
    let mut t = s;
    t.depth = depth;
    if 8 <= i {
        return t;
    }
    t.source[i as usize] = source;
    t.level[i as usize] = level;
    t
}

// ---- what stands in an array, 0 past its end

pub fn mode_at(s: Aic, k: u32) -> u8
    ensures { result ≡ mode_at s k }
{
    s.mode.get(k as usize).copied().unwrap_or(0)
}

pub fn vector_at(s: Aic, k: u32) -> u32
    ensures { result ≡ get_or s.vector k 0 }
{
    s.vector.get(k as usize).copied().unwrap_or(0)
}

pub fn source_at(s: Aic, i: u32) -> u8
    ensures { result ≡ source_at s i }
{
    s.source.get(i as usize).copied().unwrap_or(0)
}

pub fn level_at(s: Aic, i: u32) -> u8
    ensures { result ≡ level_at s i }
{
    s.level.get(i as usize).copied().unwrap_or(0)
}

// The level of the last entry, or no level if there is none.
pub fn last_level(s: Aic) -> u8
    ensures { result ≡ level_below s.level s.depth }
{
    let depth = s.depth;
    if depth == 0 {
        return NO_LEVEL;
    }
    level_at(s, depth - 1)
}

// The least priority above the level of the last entry.
pub fn floor_of(s: Aic) -> u32
    ensures { result ≡ floor_over (level_below s.level s.depth) }
{
    floor_over(last_level(s))
}

// The least priority above a level, 0 above no level.
pub fn floor_over(level: u8) -> u32
    ensures { result ≡ floor_over level }
{
    if level == NO_LEVEL {
        return 0;
    }
    level as u32 + 1
}

// ---- the fields of a mode

// Bits 2:0, the priority.
pub fn priority_of(mode: u8) -> u32
    ensures { result ≡ priority_of mode }
{
    (mode % 8) as u32
}

// Bits 6:5, the type.
pub fn type_of(mode: u32) -> u32
    ensures { result ≡ type_of mode }
{
    mode / 32 % 4
}

// The bits of a written mode that are kept.
pub fn kept_of(mode: u32) -> u8
    ensures { result ≡ kept_mode mode }
{
    (mode / 32 % 4 * 32 + mode % 8) as u8
}

// Whether a source of this mode is edge-triggered.
pub fn edge_of(mode: u8) -> bool
    ensures { result ≡ edge_of mode }
{
    mode / 32 % 4 % 2 == 1
}

// The priority of source k.
pub fn priority_at(s: Aic, k: u32) -> u32
    ensures { result ≡ priority s k }
{
    priority_of(mode_at(s, k))
}

// Whether source k is edge-triggered.
pub fn edge_at(s: Aic, k: u32) -> bool
    ensures { result ≡ edge s k }
{
    edge_of(mode_at(s, k))
}

// ---- the rules of a sound record

// Whether a level is strictly above another, if that is one.
pub fn is_over(below: u32, level: u32) -> bool
    ensures { result ≡ over below level }
{
    (below == NO_LEVEL as u32) | (below < level)
}

// Whether an entry may stand over one of the level `below`: a mark at that level, a handler above it.
fn entry_fits(below: u8, source: u8, level: u8) -> bool
    ensures { result ≡ entry_fits below source level }
{
    if source == 0 {
        return level == below;
    }
    (source <= 31) & (level <= 7) & is_over(below as u32, level as u32)
}

// Whether a slot of the entries is as it should be: used over an entry of the level `below`, or not used.
fn slot_sound(used: bool, below: u8, source: u8, level: u8) -> bool
    ensures { result ≡ pick used (entry_fits below source level) (eqb source 0 && eqb level 0) }
{
    if used {
        return entry_fits(below, source, level);
    }
    (source == 0) & (level == 0)
}

// Whether each of the eight slots is as it should be, where `depth` of them are used.
fn slots_sound(source: [u8; 8], level: [u8; 8], depth: u32) -> bool
    ensures { result ≡ all_below 8 (slot_sound source level depth) }
{
    let mut ok = true;
    let mut below = NO_LEVEL;
    // By the index: it tells which slots are used, and two tables are read at it.
    for i in 0..8 {
        ok &= slot_sound((i as u32) < depth, below, source[i], level[i]);
        below = level[i];
    }
    ok
}

// Whether a mode has no dropped bit, and its source remembers an edge only if it is edge-triggered.
fn mode_sound(mode: u8, remembered: bool) -> bool
    ensures { result ≡ ((edge_of mode || not remembered) && eqb (kept_mode mode) mode) }
{
    (edge_of(mode) | !remembered) & (kept_of(mode as u32) == mode)
}

// The same of all 32 sources.
fn modes_sound(mode: &[u8; 32], memory: u32) -> bool
    ensures { result ≡ all_below 32 (mode_sound mode.now memory) }
{
    let mut ok = true;
    for (k, &m) in mode.iter().enumerate() {
        ok &= mode_sound(m, words::has(memory, k as u32));
    }
    ok
}

// Whether this may be remembered over a last entry of the level `below`, with `depth` entries open: nothing outside protect mode, and a source
// only at a level above that entry's and with room for its handler.
fn seen_fits(on: bool, n: Seen, below: u8, depth: u32) -> bool
    ensures { result ≡ seen_fits on n below depth }
{
    let source = n.source;
    let level = n.level;
    if n.what == 1 {
        return on
            & (1 <= source)
            & (source <= 31)
            & (level <= 7)
            & (depth < 8)
            & is_over(below as u32, level as u32);
    }
    (source == 0) & (level == 0) & (n.vector == 0) & ((n.what == 0) | (on & (n.what == 2)))
}

// Whether the record breaks no rule.
pub fn is_sound(s: Aic) -> bool
    ensures { result ≡ sound s }
{
    let seen = s.seen;
    (s.depth <= 8)
        & slots_sound(s.source, s.level, s.depth)
        & modes_sound(&s.mode, s.memory)
        & (s.debug < 4)
        & !words::has(s.forced, 0)
        & seen_fits(words::has(s.debug, 0), seen, last_level(s), s.depth)
}

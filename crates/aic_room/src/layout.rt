// The AT91 controller laid out in a room: where each number of its record stands and what is kept beside them, a record into a room and back, and how the
// words of its levels are renewed.
ghost use Rattle.std.specs.Prelude.{◌≡◌, true, not, ℕ, ◌+◌, ◌%◌, ◌<◌, ◌≤◌, eqb, length, get_or, set};
ghost use Rattle.words.specs.Counting.{upto};
ghost use Rattle.words.specs.Word.{word_of, both, with_bit};
ghost use Rattle.rooms.specs.Parts.{stored};
ghost use Rattle.aic_record.specs.declared.Aic.{Aic};
ghost use Rattle.aic_record.specs.Promises.{Shaped};
ghost use Rattle.aic_record.specs.Record.{with_enabled, with_forced, with_mode, with_handlers, with_seen};
ghost use Rattle.aic_record.specs.Sound.{level_below, sound};
ghost use Rattle.aic_sources.specs.Pending.{pending_word};
ghost use Rattle.aic_sources.specs.Normal.{waiting};
ghost use Rattle.aic_levels.specs.Levels.{highest_of};
ghost use Rattle.aic_room.specs.Room.{class_word, Laid, Stale, StaleAt, Tabled, worded, kept_beside};

use aic_record::{Aic, Seen};
use rooms::Room;

// ---- the single words

// The kind of controller, 0 for an AIC.
pub const KIND: usize = 0;

pub const LINES: usize = 1;

pub const ENABLED: usize = 2;

pub const MEMORY: usize = 3;

pub const FORCED: usize = 4;

pub const SPURIOUS: usize = 5;

pub const DEBUG: usize = 6;

pub const DEPTH: usize = 7;

// What is remembered: what it is, the source, its level and its vector.
// Numbers, as all else in a room of words; the record has them so too.
pub const SEEN: usize = 8;

pub const SEEN_SOURCE: usize = 9;

pub const SEEN_LEVEL: usize = 10;

pub const SEEN_VECTOR: usize = 11;

// The levels that have any source.
pub const ANY: usize = 12;

// The edge-triggered sources, and those whose active level is high even if they are external: bits 5 and 6 of the modes.
pub const EDGES: usize = 13;

pub const HIGH: usize = 14;

pub const EXTERNAL: usize = 15;

// The sources whose active level is low, the enabled ones of the normal side, and those of the fast side.
pub const LOW: usize = 16;

pub const NORMAL: usize = 17;

pub const FAST: usize = 18;

// The level of the last entry, 255 if none is open.
pub const LAST: usize = 19;

// ---- the tables

// The waiting sources of each level.
pub const LEVELS: usize = 24;

// The sources of each priority.
pub const CLASS: usize = 32;

// The source and the level of each open entry.
pub const SOURCE: usize = 40;

pub const LEVEL: usize = 48;

pub const MODE: usize = 64;

pub const VECTOR: usize = 96;

// The highest level of each byte.
pub const TABLE: usize = 256;

// ---- the levels

// The pending sources: an edge source by its memory, a level source by its line.
pub fn pending(room: &Room) -> u32
    ensures { (a : Aic) → Stale a room.now → result ≡ pending_word a }
{
    let active = aic_sources::active_word(room[LOW], room[LINES]);
    aic_sources::blend(room[EDGES], room[MEMORY], active)
}

// The sources that wait: pending, enabled and not fast.
pub fn waiting(room: &Room) -> u32
    ensures { (a : Aic) → Stale a room.now → result ≡ word_of 32 (waiting a) }
{
    words::meet(pending(room), room[NORMAL])
}

// The word of each level: those of its class that wait.
fn renew_words(room: &mut Room, waits: u32)
    ensures { room.new ≡ upto (λ l p. set l (24 + p) (both (get_or l (32 + p) 0) waits)) room.old 8 }
{
    // By the level: it is read in one table of the room and written in another.
    for p in 0..8 {
        let w = words::meet(room[CLASS + p], waits);
        room[LEVELS + p] = w;
    }
}

// The levels whose word is not 0.
fn levels_with_any(room: &Room) -> u32
    ensures { result ≡ word_of 8 (λ p. not (eqb (get_or room.now (24 + p) 0) 0)) }
{
    aic_levels::levels_with_any(&room[LEVELS..LEVELS + 8])
}

// The words of all levels and their byte, after a change to what they depend on.
pub fn renew(room: &mut Room)
    ensures { (a : Aic) → Stale a room.old → Laid a room.new }
{
    let waits = waiting(room);
    renew_words(room, waits);
    let any = levels_with_any(room);
    room[ANY] = any;
}

// The word of level p and its bit of the byte, after a change that no other level depends on.
pub(crate) fn renew_level(room: &mut Room, p: u32)
    requires { p < 8 }
    ensures { (a b : Aic) → StaleAt a b p room.old → Laid b room.new }
{
    let waits = waiting(room);
    let w = words::meet(room[CLASS + p as usize], waits);
    let any = words::with_bit(room[ANY], p, w != 0);
    room[LEVELS + p as usize] = w;
    room[ANY] = any;
}

// ---- stores that the levels depend on

// The enabled sources, with the words of both sides.
pub fn put_enabled(room: &mut Room, enabled: u32)
    ensures { (a : Aic) → Stale a room.old → Stale (with_enabled a enabled) room.new }
{
    let fast = words::join(1, room[FORCED]);
    room[ENABLED] = enabled;
    room[NORMAL] = words::drop_bits(enabled, fast);
    room[FAST] = words::meet(enabled, fast);
}

// The forced sources, with the words of both sides.
pub fn put_forced(room: &mut Room, forced: u32)
    ensures { (a : Aic) → Stale a room.old → Stale (with_forced a forced) room.new }
{
    let enabled = room[ENABLED];
    let fast = words::join(1, forced);
    room[FORCED] = forced;
    room[NORMAL] = words::drop_bits(enabled, fast);
    room[FAST] = words::meet(enabled, fast);
}

// ---- stores that no level depends on

// What is remembered.
pub fn put_seen(room: &mut Room, what: u32, source: u32, level: u32, vector: u32)
    ensures { (a : Aic) → Laid a room.old → Laid (with_seen a (record { what = what; source = source; level = level; vector = vector })) room.new }
{
    room[SEEN] = what;
    room[SEEN_SOURCE] = source;
    room[SEEN_LEVEL] = level;
    room[SEEN_VECTOR] = vector;
}

// Slot i of the open entries, a handler or a mark, how many are open, and the level of the last.
pub(crate) fn put_entry(room: &mut Room, i: u32, source: u32, level: u32, depth: u32, last: u32)
    requires { i < 8 }
    ensures { (a : Aic) → Laid a room.old → last ≡ level_below (set a.level i level) depth → Laid (with_handlers a (set a.source i source) (set a.level i level) depth) room.new }
{
    room[SOURCE + i as usize] = source;
    room[LEVEL + i as usize] = level;
    room[DEPTH] = depth;
    room[LAST] = last;
}

// ---- a mode, and the words of the modes

// Source k is in the class of priority p and in no other.
fn put_class(room: &mut Room, k: u32, p: u32)
    ensures { room.new ≡ upto (λ l q. set l (32 + q) (with_bit (get_or l (32 + q) 0) k (eqb q p))) room.old 8 }
{
    for q in 0..8 {
        let at = CLASS + q as usize;
        let w = words::with_bit(room[at], k, q == p);
        room[at] = w;
    }
}

// The mode of source k. The levels are to be renewed.
pub(crate) fn put_mode(room: &mut Room, k: u32, mode: u32)
    requires { k < 32 }
    ensures { (a : Aic) → Stale a room.old → Stale (with_mode a (set a.mode k mode)) room.new }
{
    room[MODE + k as usize] = mode;
    let edges = words::with_bit(room[EDGES], k, words::has(mode, 5));
    room[EDGES] = edges;
    let high = words::with_bit(room[HIGH], k, words::has(mode, 6));
    room[HIGH] = high;
    room[LOW] = words::drop_bits(room[EXTERNAL], high);
    put_class(room, k, mode % 8);
}

// ---- a record into a room

// Bytes from a place on: the modes, and the sources and levels of the entries.
fn lay_bytes<'a, const N: usize>(room: &'a mut Room, at: usize, bytes: &'a [u8; N])
    requires { at + N ≤ 2048 }
    ensures { room.new ≡ stored at (λ k. get_or bytes.now k 0) room.old N }
{
    for (k, &b) in bytes.iter().enumerate() {
        room[at + k] = u32::from(b);
    }
}

// The vectors.
fn lay_vectors<'a>(room: &'a mut Room, vector: &'a [u32; 32])
    ensures { room.new ≡ stored 96 (λ k. get_or vector.now k 0) room.old 32 }
{
    for (k, &v) in vector.iter().enumerate() {
        room[VECTOR + k] = v;
    }
}

// The sources of each priority.
fn lay_classes<'a>(room: &'a mut Room, mode: &'a [u8; 32])
    ensures { room.new ≡ stored 32 (class_word mode.now) room.old 8 }
{
    for p in 0..8 {
        let w = aic_levels::class_word(mode, p);
        room[CLASS + p as usize] = w;
    }
}

// The table of the highest levels.
fn lay_table(room: &mut Room)
    ensures { room.new ≡ stored 256 highest_of room.old 256 }
{
    for b in 0..256 {
        let level = aic_levels::highest(b as u8);
        room[TABLE + b] = u32::from(level);
    }
}

// The tables of a record in a room of zeros.
fn tables_of(a: Aic) -> Room
    ensures { Shaped a → Tabled a result }
{
    let mut room: Room = [0; 2048];
    let mode = a.mode;
    let vector = a.vector;
    let source = a.source;
    let level = a.level;
    lay_bytes(&mut room, MODE, &mode);
    lay_vectors(&mut room, &vector);
    lay_bytes(&mut room, SOURCE, &source);
    lay_bytes(&mut room, LEVEL, &level);
    lay_classes(&mut room, &mode);
    lay_table(&mut room);
    room
}

// The single words that stand in the record.
fn lay_words(room: &mut Room, a: Aic)
    ensures { room.new ≡ worded a room.old }
{
    room[LINES] = a.lines;
    room[ENABLED] = a.enabled;
    room[MEMORY] = a.memory;
    room[FORCED] = a.forced;
    room[SPURIOUS] = a.spurious;
    room[DEBUG] = a.debug;
    room[DEPTH] = a.depth;
    let seen = a.seen;
    room[SEEN] = seen.what;
    room[SEEN_SOURCE] = seen.source as u32;
    room[SEEN_LEVEL] = seen.level as u32;
    room[SEEN_VECTOR] = seen.vector;
    room[EXTERNAL] = a.external;
}

// The single words that the record determines.
fn lay_kept(room: &mut Room, a: Aic)
    ensures { Shaped a → room.new ≡ kept_beside a room.old }
{
    let mode = a.mode;
    let fast = words::join(1, a.forced);
    let high = aic_sources::mode_word(&mode, 6);
    room[EDGES] = aic_sources::mode_word(&mode, 5);
    room[HIGH] = high;
    room[LOW] = words::drop_bits(a.external, high);
    room[NORMAL] = words::drop_bits(a.enabled, fast);
    room[FAST] = words::meet(a.enabled, fast);
    room[LAST] = u32::from(aic_record::last_level(a));
}

// The room of a record.
pub fn lay(a: Aic) -> Room
    ensures { Shaped a → Laid a result }
{
    let mut room = tables_of(a);
    lay_words(&mut room, a);
    lay_kept(&mut room, a);
    renew(&mut room);
    room
}

// ---- a room into a record

fn byte(x: u32) -> u8
    ensures { result ≡ x % 256 }
{
    (x % 256) as u8
}

// Bytes from a place on: the modes, and the sources and levels of the entries.
fn bytes_in<const N: usize>(room: &Room, at: usize) -> [u8; N]
    requires { at + N ≤ 2048 }
    ensures { (length result ≡ N) × ((k : ℕ) → k < N → get_or result k 0 ≡ get_or room.now (at + k) 0 % 256) }
{
    let mut out = [0; N];
    // By the index, at which one table is read and the other written.
    for k in 0..N {
        out[k] = byte(room[at + k]);
    }
    out
}

// Words from a place on: the vectors, and the words of the levels.
pub(crate) fn words_in<const N: usize>(room: &Room, at: usize) -> [u32; N]
    requires { at + N ≤ 2048 }
    ensures { (length result ≡ N) × ((k : ℕ) → k < N → get_or result k 0 ≡ get_or room.now (at + k) 0) }
{
    let mut out = [0; N];
    out.copy_from_slice(&room[at..at + N]);
    out
}

// What is remembered.
fn seen_in(room: &Room) -> Seen
    ensures { (a : Aic) → sound a ≡ true → Laid a room.now → result ≡ a.seen }
{
    Seen {
        what: room[SEEN],
        source: byte(room[SEEN_SOURCE]),
        level: byte(room[SEEN_LEVEL]),
        vector: room[SEEN_VECTOR],
    }
}

// The record in a room.
pub fn record_of(room: &Room) -> Aic
    ensures { (a : Aic) → sound a ≡ true → Laid a room.now → result ≡ a }
{
    let mode = bytes_in(room, MODE);
    let vector = words_in(room, VECTOR);
    let source = bytes_in(room, SOURCE);
    let level = bytes_in(room, LEVEL);
    let seen = seen_in(room);
    Aic {
        external: room[EXTERNAL],
        lines: room[LINES],
        enabled: room[ENABLED],
        memory: room[MEMORY],
        forced: room[FORCED],
        spurious: room[SPURIOUS],
        debug: room[DEBUG],
        mode,
        vector,
        source,
        level,
        depth: room[DEPTH],
        seen,
    }
}

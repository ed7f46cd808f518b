// What is held for the indices: words as they are held, what begins and what ends holds, and the hold mode.
ghost use Rattle.std.specs.Prelude.{◌≡◌, ◌≢◌, ◌<◌, set};
ghost use Rattle.words.specs.Array.{rest_at};
ghost use Rattle.words.specs.Choice.{pick};
ghost use Rattle.cic_held.specs.Order.{none_word};
ghost use Rattle.cic_held.specs.declared.Prioritised.{Prioritised};
ghost use Rattle.cic_held.specs.Held.{prioritised, nothing_held, with_global, with_hosts, held_as, word_held, freed_hosts, controlled};
ghost use Rattle.cic_indexed.specs.Registers.{after_host, hosts_written, held_after};
ghost use Rattle.indexed_room.specs.Room.{Laid};

use cic_record::Host;
use cic_room::laid::{HELD, HOSTS};
use rooms::Room;

// Whether prioritisation is chosen, whether a read of an index holds it, and what is held for the global index.
pub const CHOICE: usize = 9;

pub const MODE: usize = 10;

pub const GLOBAL_HELD: usize = 11;

// ---- words as they are held: 0 for no hold, 1 for the word of none, 2 more than its number for a system interrupt

// The word that is held.
pub(crate) fn word_held(x: u32) -> u32
    ensures { result ≡ word_held x }
{
    if x == 1 {
        return cic_held::indices::NONE;
    }
    if x < 2 {
        return 0;
    }
    x - 2
}

// The word of an index as it is held.
pub(crate) fn held_as(word: u32) -> u32
    ensures { (word ≢ none_word → word < 65534) → result ≡ held_as word }
{
    if word == cic_held::indices::NONE {
        return 1;
    }
    word % 65534 + 2
}

// ---- one hold

// The global index is held as x, or not held.
pub(crate) fn hold_global(room: &mut Room, x: u32)
    ensures { (p : Prioritised) → Laid p room.old → Laid (prioritised p.cic (with_global p.held x)) room.new }
{
    room[GLOBAL_HELD] = x;
}

// The index of host interrupt h is held as x, or not held.
pub(crate) fn hold_host(room: &mut Room, h: Host, x: u32)
    requires { h.0 < 256 }
    ensures { (p : Prioritised) → Laid p room.old → Laid (prioritised p.cic (with_hosts p.held (set p.held.host h.0 x))) room.new }
{
    room[HELD + h.0 as usize] = x;
}

// ---- writes of the CIC's that end holds

// The hold of host interrupt h ends, if the test says so.
fn free_if(room: &mut Room, t: bool, h: Host)
    requires { h.0 < 256 }
    ensures { (p : Prioritised) → Laid p room.old → Laid (prioritised p.cic (with_hosts p.held (pick t (set p.held.host h.0 0) p.held.host))) room.new }
{
    if t {
        hold_host(room, h, 0);
    }
}

// The holds of the hosts of word k end whose bit of v is 1.
fn free_word(room: &mut Room, k: u32, v: u32)
    requires { k < 8 }
    ensures { (p : Prioritised) → Laid p room.old → Laid (prioritised p.cic (with_hosts p.held (freed_hosts k v p.held.host))) room.new }
{
    for j in 0..32 {
        free_if(room, words::has(v, j), Host((32 * k + j) as u16));
    }
}

// How many of n hosts have their bit in word k or later.
fn rest_at(n: u32, k: u32) -> u32
    requires { k < 8 }
    ensures { result ≡ rest_at n k }
{
    n.saturating_sub(32 * k)
}

// After v is written to host index set or clear: the hold of host interrupt v ends, if there is one, and the global one.
fn after_index(room: &mut Room, v: u32)
    ensures { (p : Prioritised) → Laid p room.old → Laid (prioritised p.cic (after_host p.held v)) room.new }
{
    if 256 <= v {
        hold_global(room, 0);
        return;
    }
    hold_host(room, Host(v as u16), 0);
    hold_global(room, 0);
}

// After v is written to host enable register k.
fn hosts_written(room: &mut Room, k: u32, v: u32)
    requires { k < 8 }
    ensures { (p : Prioritised) → Laid p room.old → Laid (prioritised p.cic (hosts_written p.cic p.held k v)) room.new }
{
    let w = words::keep(rest_at(room[HOSTS], k), v);
    if w == 0 {
        return;
    }
    free_word(room, k, w);
    hold_global(room, 0);
}

// After a write of the CIC's that is carried out in the mode.
pub(crate) fn end_holds(room: &mut Room, offset: u32, v: u32)
    ensures { (p : Prioritised) → Laid p room.old → Laid (prioritised p.cic (held_after p.cic p.held offset v)) room.new }
{
    if offset == 0x034 {
        after_index(room, v);
        return;
    }
    if offset == 0x038 {
        after_index(room, v);
        return;
    }
    if offset < 0x1500 {
        return;
    }
    if offset < 0x1520 {
        hosts_written(room, (offset - 0x1500) / 4, v);
    }
}

// ---- the hold mode

// The hold mode is on or off, and nothing is held.
fn clear(room: &mut Room, mode: u32)
    ensures { (p : Prioritised) → Laid p room.old → Laid (prioritised p.cic (nothing_held p.held.choice mode)) room.new }
{
    room[HELD..HELD + 256].fill(0);
    room[MODE] = mode;
    room[GLOBAL_HELD] = 0;
}

// Control is written: bit 4 is the mode, and where it is off nothing is held.
pub(crate) fn control(room: &mut Room, v: u32)
    ensures { (p : Prioritised) → Laid p room.old → Laid (prioritised p.cic (controlled p.held v)) room.new }
{
    if words::has(v, 4) {
        if room[MODE] == 1 {
            return;
        }
        clear(room, 1);
        return;
    }
    clear(room, 0);
}

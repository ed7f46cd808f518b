// What is kept beside the record, where anything is: the active system interrupts, how many of them each channel and each host has, which channels and hosts
// have any, and what is shown of the hosts.
ghost use Rattle.std.specs.Prelude.{◌≡◌, true, false, not, ◌&&◌, List, ℕ, ◌+◌, ◌*◌, ◌/◌, ◌%◌, ◌<◌, ◌≤◌, eqb, get_or, set};
ghost use Rattle.words.specs.Array.{bit_at, with_bit_at, byte_of};
ghost use Rattle.words.specs.Counting.{count_below, lowest_below};
ghost use Rattle.words.specs.Word.{bit, with_bit, either, without};
ghost use Rattle.cic_record.specs.declared.Cic.{Cic};
ghost use Rattle.cic_room.specs.Room.{Frame, permitted, reached, some_word, shown_word};
ghost use Rattle.cic_room.specs.Tables.{Held, Tables, Beside, more, Counted, Standing, Stale, Taken, Dim, Rising, Move};

use super::laid::{
    ACTIVE, ALLOW, ASSERTED, BUSY, ENABLE, GLOBAL, KEPT, LOWEST, OF_CHANNEL, OF_HOST, RAISED,
    STATUS, byte_of, channel_at, host_at,
};
use cic_record::{Channel, Host, System};
use rooms::Room;

// ---- bits

// Bit n of the table of words from a place on.
pub(crate) fn mark(room: &mut Room, table: usize, n: u16, on: bool)
    requires { table + n / 32 < 2048 }
    ensures { room.new ≡ set room.old (table + n / 32) (with_bit (get_or room.old (table + n / 32) 0) (n % 32) on) }
{
    let word = &mut room[table + usize::from(n / 32)];
    *word = words::with_bit(*word, u32::from(n % 32), on);
}

// Whether a host has any.
fn mark_raised(room: &mut Room, h: Host, on: bool)
    requires { h.0 < 256 }
    ensures { room.new ≡ set room.old (24 + h.0 / 32) (with_bit (get_or room.old (24 + h.0 / 32) 0) (h.0 % 32) on) }
{
    mark(room, RAISED, h.0, on);
}

// Whether a channel has any.
fn mark_busy(room: &mut Room, k: Channel, on: bool)
    requires { k.0 < 256 }
    ensures { room.new ≡ set room.old (32 + k.0 / 32) (with_bit (get_or room.old (32 + k.0 / 32) 0) (k.0 % 32) on) }
{
    mark(room, BUSY, k.0, on);
}

// Whether a system interrupt is active.
fn mark_active(room: &mut Room, s: System, on: bool)
    requires { s.0 < 1024 }
    ensures { room.new ≡ set room.old (160 + s.0 / 32) (with_bit (get_or room.old (160 + s.0 / 32) 0) (s.0 % 32) on) }
{
    mark(room, ACTIVE, s.0, on);
}

// ---- what is shown of the hosts

// Whether a host is enabled, and global enable set.
fn is_permitted(room: &Room, h: Host) -> bool
    requires { h.0 < 256 }
    ensures { (f : Frame) (c : Cic) → Held f c room.now → result ≡ permitted c h.0 }
{
    let own = words::has(room[ALLOW + (h.0 / 32) as usize], (h.0 % 32) as u32);
    (room[GLOBAL] == 1) & own
}

// The asserted hosts of word k: permitted, and with an active system interrupt.
fn asserted_word(room: &Room, k: u32) -> u32
    requires { k < 8 }
    ensures { (f : Frame) (c : Cic) (n b a u x g : ℕ → ℕ) → Held f c room.now → Tables n (some_word g) b a u x room.now → (j : ℕ) → j < 32 → bit result j ≡ reached (permitted c) g (32 * k + j) }
{
    if room[GLOBAL] != 1 {
        return 0;
    }
    words::meet(room[ALLOW + k as usize], room[RAISED + k as usize])
}

// How many hosts are asserted.
fn count_asserted(room: &Room) -> u32
    ensures { (f : Frame) (c : Cic) (n b a u x g : ℕ → ℕ) → Held f c room.now → Tables n (some_word g) b a u x room.now → result ≡ count_below 256 (reached (permitted c) g) }
{
    let mut sum: u32 = 0;
    for k in 0..8 {
        sum += words::count(asserted_word(room, k));
    }
    sum
}

// The lowest asserted host, 256 where none is, if there is none before word `from`.
fn lowest_from(room: &Room, from: u32) -> u32
    requires { from ≤ 8 }
    ensures { (f : Frame) (c : Cic) (n b a u x g : ℕ → ℕ) → Held f c room.now → Tables n (some_word g) b a u x room.now → ((h : ℕ) → h < 32 * from → reached (permitted c) g h ≡ false) → result ≡ lowest_below 256 (reached (permitted c) g) }
{
    for k in from..8 {
        let w = asserted_word(room, k);
        if w != 0 {
            return 32 * k + words::lowest(w);
        }
    }
    // As a room keeps it, and `Signals` after it: the number past the last host.
    256
}

// Both are worked out anew, after a change of the enables.
pub fn show_anew(room: &mut Room)
    ensures { (f : Frame) (c : Cic) (ws : List ℕ) → Dim f c ws room.old → Counted f c ws room.new }
{
    if room[KEPT] == 0 {
        return;
    }
    let count = count_asserted(room);
    let lowest = lowest_from(room, 0);
    room[ASSERTED] = count;
    room[LOWEST] = lowest;
}

// A host that had none has one now.
fn admit(room: &mut Room, h: Host)
    requires { h.0 < 256 }
    ensures { (f : Frame) (c : Cic) (r b a u x g y : ℕ → ℕ) → Rising g y h.0 → Held f c room.old → Tables (shown_word (permitted c) g) r b a u x room.old → Held f c room.new × Tables (shown_word (permitted c) y) r b a u x room.new }
{
    if !is_permitted(room, h) {
        return;
    }
    let count = room[ASSERTED] % 512 + 1;
    room[ASSERTED] = count;
    if (h.0 as u32) < room[LOWEST] {
        room[LOWEST] = h.0 as u32;
    }
}

// A host that had one has none any more.
fn dismiss(room: &mut Room, h: Host)
    requires { h.0 < 256 }
    ensures { (f : Frame) (c : Cic) (b a u x g y : ℕ → ℕ) → Rising y g h.0 → Held f c room.old → Tables (shown_word (permitted c) g) (some_word y) b a u x room.old → Held f c room.new × Tables (shown_word (permitted c) y) (some_word y) b a u x room.new }
{
    if !is_permitted(room, h) {
        return;
    }
    let count = (room[ASSERTED] % 512 + 511) % 512;
    room[ASSERTED] = count;
    if h.0 as u32 == room[LOWEST] {
        let lowest = lowest_from(room, (h.0 / 32) as u32);
        room[LOWEST] = lowest;
    }
}

// ---- how many

// A host has n more, at least one.
fn add(room: &mut Room, h: Host, n: u32)
    requires { (h.0 < 256) × ((0 < n) × (n < 2048)) }
    ensures { (f : Frame) (c : Cic) (a u g : ℕ → ℕ) → Held f c room.old → Beside (permitted c) a u g room.old → g h.0 < 2048 → Held f c room.new × Beside (permitted c) a u (more g h.0 n) room.new }
{
    let at = OF_HOST + h.0 as usize;
    let before = room[at] % 2048;
    room[at] = before + n;
    mark_raised(room, h, true);
    if before == 0 {
        admit(room, h);
    }
}

// A host has n less, at least one.
fn take(room: &mut Room, h: Host, n: u32)
    requires { (h.0 < 256) × (0 < n) }
    ensures { (f : Frame) (c : Cic) (a u g : ℕ → ℕ) → Held f c room.old → Beside (permitted c) a u (more g h.0 n) room.old → Held f c room.new × Beside (permitted c) a u g room.new }
{
    let at = OF_HOST + h.0 as usize;
    let before = room[at];
    if before < n {
        return;
    }
    let left = before - n;
    room[at] = left;
    mark_raised(room, h, left != 0);
    if left == 0 {
        dismiss(room, h);
    }
}

// ---- system interrupts that become active or are so no longer

// One that is not active becomes so.
fn turn_on(room: &mut Room, s: System)
    requires { s.0 < 1024 }
    ensures { (f : Frame) (c : Cic) (ws : List ℕ) → f.kept ≡ true → Counted f c ws room.old → bit_at ws s.0 ≡ false → Counted f c (with_bit_at ws s.0 true) room.new }
{
    let k = channel_at(room, s);
    let h = host_at(room, k);
    let at = OF_CHANNEL + k.0 as usize;
    let n = room[at] % 2048 + 1;
    room[at] = n;
    mark_busy(room, k, true);
    mark_active(room, s, true);
    add(room, h, 1);
}

// One that is active is so no longer.
fn turn_off(room: &mut Room, s: System)
    requires { s.0 < 1024 }
    ensures { (f : Frame) (c : Cic) (ws : List ℕ) → f.kept ≡ true → Counted f c ws room.old → bit_at ws s.0 ≡ true → Counted f c (with_bit_at ws s.0 false) room.new }
{
    let k = channel_at(room, s);
    let h = host_at(room, k);
    let at = OF_CHANNEL + k.0 as usize;
    let n = (room[at] % 2048 + 2047) % 2048;
    room[at] = n;
    mark_busy(room, k, n != 0);
    mark_active(room, s, false);
    take(room, h, 1);
}

// One that is not as `on` says becomes so.
fn turn(room: &mut Room, s: System, on: bool)
    requires { s.0 < 1024 }
    ensures { (f : Frame) (c : Cic) (ws : List ℕ) → f.kept ≡ true → Counted f c ws room.old → bit_at ws s.0 ≡ not on → Counted f c (with_bit_at ws s.0 on) room.new }
{
    if on {
        turn_on(room, s);
        return;
    }
    turn_off(room, s);
}

// The bits in which two words differ.
fn differing(a: u32, b: u32) -> u32
    ensures { (result ≡ either (without a b) (without b a)) × ((a < 4294967296) × (b < 4294967296)) }
{
    words::join(words::drop_bits(a, b), words::drop_bits(b, a))
}

// The active system interrupts of word k become those of a new word. Only what differs is looked at.
pub(crate) fn renew(room: &mut Room, k: u32, new: u32)
    requires { k < 32 }
    ensures { (f : Frame) (c : Cic) (ws : List ℕ) → f.kept ≡ true → Counted f c ws room.old → Counted f c (set ws k new) room.new }
{
    let mut left = differing(room[ACTIVE + k as usize], new);
    while left != 0 {
        let i = words::lowest(left);
        turn(room, System((32 * k + i) as u16), words::has(new, i));
        left = words::with_bit(left, i, false);
    }
}

// The active system interrupts of word k become those that are set and enabled.
pub(crate) fn renew_word(room: &mut Room, k: u32)
    requires { k < 32 }
    ensures { (f : Frame) (c : Cic) → Stale f c k room.old → Standing f c room.new }
{
    if room[KEPT] == 0 {
        return;
    }
    let new = words::meet(room[STATUS + k as usize], room[ENABLE + k as usize]);
    renew(room, k, new);
}

// ---- system interrupts and channels that go elsewhere

// The word w without the bits 4 * q to 4 * q + 3.
fn drop_four(w: u32, q: u32) -> u32
    requires { q < 8 }
    ensures { (j : ℕ) → j < 32 → bit result j ≡ (bit w j && not (eqb (j / 4) q)) }
{
    let first = words::with_bit(w, 4 * q, false);
    let second = words::with_bit(first, 4 * q + 1, false);
    let third = words::with_bit(second, 4 * q + 2, false);
    words::with_bit(third, 4 * q + 3, false)
}

// The four system interrupts of register k of the channel map are taken out, so that their channels can change.
pub(crate) fn take_four(room: &mut Room, k: u32)
    requires { k < 256 }
    ensures { (f : Frame) (c : Cic) (ws : List ℕ) → f.kept ≡ true → Counted f c ws room.old → Taken f c ws k room.new }
{
    let new = drop_four(room[ACTIVE + (k / 8) as usize], k % 8);
    renew(room, k / 8, new);
}

// The active system interrupts of a channel go from one host to another.
fn move_channel(room: &mut Room, k: Channel, from: Host, to: Host)
    requires { (k.0 < 256) × ((from.0 < 256) × (to.0 < 256)) }
    ensures { (f : Frame) (c : Cic) (a u g : ℕ → ℕ) → Held f c room.old → Beside (permitted c) a u (more g from.0 (u k.0)) room.old → u k.0 < 2048 → g to.0 < 2048 → Held f c room.new × Beside (permitted c) a u (more g to.0 (u k.0)) room.new }
{
    let n = room[OF_CHANNEL + k.0 as usize] % 2048;
    if (n == 0) | (from.0 == to.0) {
        return;
    }
    take(room, from, n);
    add(room, to, n);
}

// Channel 4 * k + j, by byte j of the old word and of the new one.
pub(crate) fn move_byte(room: &mut Room, k: u32, j: u32, old: u32, new: u32)
    requires { (k < 64) × (j < 4) }
    ensures { (f : Frame) (c : Cic) → Move f c k j old new room.old room.new }
{
    let from = Host(byte_of(old, j));
    let to = Host(byte_of(new, j));
    move_channel(room, Channel((4 * k + j) as u16), from, to);
}

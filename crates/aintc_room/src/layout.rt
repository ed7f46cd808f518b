// The AINTC laid out in a room: where each number of its record stands and what is kept beside the routes, a record into a room and back, and how a
// route is put anew.
ghost use Rattle.std.specs.Prelude.{◌≡◌, true, ℕ, ◌+◌, ◌*◌, ◌%◌, ◌<◌, ◌≤◌, eqb, length, get_or, set};
ghost use Rattle.words.specs.Counting.{upto};
ghost use Rattle.rooms.specs.Parts.{stored};
ghost use Rattle.aintc_record.specs.declared.Aintc.{Aintc};
ghost use Rattle.aintc_record.specs.Record.{with_routes};
ghost use Rattle.aintc_registers.specs.Settle.{sound};
ghost use Rattle.aintc_room.specs.Room.{fiq_word, priority_word, bits_word, Laid, Tabled, chosen_put, bit_put};

use aintc_record::{Aintc, Chosen};
use rooms::Room;

// ---- the single words

// The kind of controller, 3 for an AINTC.
pub const KIND: usize = 0;

const AINTC: u32 = 3;

pub const THRESHOLD: usize = 1;

pub const REVISION: usize = 2;

pub const GUARDED: usize = 3;

pub const AUTOIDLE: usize = 4;

pub const TURBO: usize = 5;

pub const FUNCIDLE: usize = 6;

// The one chosen for IRQ and the one chosen for FIQ: whether there is one, its number, its priority.
pub const IRQ: usize = 8;

pub const FIQ: usize = 12;

// ---- the tables

pub const LINES: usize = 16;

pub const SOFT: usize = 20;

pub const MASKS: usize = 24;

// The inputs that ask for FIQ.
pub const FIQS: usize = 28;

// The bits of the priorities: word 4 b + n has bit b of the inputs of word n.
pub const BITS: usize = 32;

pub const ROUTES: usize = 128;

// ---- a record into a room; the loops here and below go over numbers, since each is one of a place in the room and of one in a table

fn wide(x: u8) -> u32
    ensures { (result ≡ x) × (x < 256) }
{
    x as u32
}

// Four words from a place on.
fn lay_four<'a>(room: &'a mut Room, at: usize, words: &'a [u32; 4])
    requires { at ≤ 100 }
    ensures { room.new ≡ stored at (λ k. get_or words.now k 0) room.old 4 }
{
    for k in 0..4 {
        room[at + k] = words[k];
    }
}

// The routes, each of which is a byte.
fn lay_routes<'a>(room: &'a mut Room, routes: &'a [u8; 128])
    ensures { (room.new ≡ stored 128 (λ k. get_or routes.now k 0) room.old 128) × ((k : ℕ) → k < 128 → get_or routes.now k 0 < 256) }
{
    for k in 0..128 {
        let w = wide(routes[k]);
        room[ROUTES + k] = w;
    }
}

// The inputs that ask for FIQ.
fn lay_fiqs<'a>(room: &'a mut Room, routes: &'a [u8; 128])
    ensures { room.new ≡ stored 28 (fiq_word routes.now) room.old 4 }
{
    for n in 0..4 {
        let w = aintc_registers::choice::route_word(routes, 32 * n, 1);
        room[FIQS + n as usize] = w;
    }
}

// Bit b of the priority of each input of word n.
fn priority_word(routes: &[u8; 128], n: u32, b: u32) -> u32
    requires { n < 4 }
    ensures { result ≡ priority_word routes.now n b }
{
    let mut w: u32 = 0;
    for i in 0..32 {
        let at = (32 * n + i) as usize;
        let p = aintc_record::priority_of(routes[at]);
        w = words::with_bit(w, i, words::has(p as u32, b));
    }
    w
}

// The bits of the priorities.
fn lay_bits<'a>(room: &'a mut Room, routes: &'a [u8; 128])
    ensures { room.new ≡ stored 32 (bits_word routes.now) room.old 28 }
{
    for j in 0..28 {
        let w = priority_word(routes, j % 4, j / 4);
        room[BITS + j as usize] = w;
    }
}

// The tables of a record in a room of zeros.
fn tables_of(a: Aintc) -> Room
    ensures { Tabled a result }
{
    let mut room: Room = [0; 2048];
    let lines = a.lines;
    let soft = a.soft;
    let masks = a.masks;
    let routes = a.routes;
    lay_four(&mut room, LINES, &lines);
    lay_four(&mut room, SOFT, &soft);
    lay_four(&mut room, MASKS, &masks);
    lay_fiqs(&mut room, &routes);
    lay_bits(&mut room, &routes);
    lay_routes(&mut room, &routes);
    room
}

// One that is chosen, from a place on.
fn lay_chosen(room: &mut Room, at: usize, c: Chosen)
    requires { at ≤ 12 }
    ensures { room.new ≡ chosen_put at c room.old }
{
    room[at] = words::one_if(c.active);
    room[at + 1] = c.number as u32;
    room[at + 2] = c.priority as u32;
}

// The room of a record.
pub fn lay(a: Aintc) -> Room
    ensures { Laid a result }
{
    let mut room = tables_of(a);
    let threshold = wide(a.threshold);
    let revision = wide(a.revision);
    room[KIND] = AINTC;
    room[THRESHOLD] = threshold;
    room[REVISION] = revision;
    room[GUARDED] = words::one_if(a.guarded);
    room[AUTOIDLE] = words::one_if(a.autoidle);
    room[TURBO] = words::one_if(a.turbo);
    room[FUNCIDLE] = words::one_if(a.funcidle);
    lay_chosen(&mut room, IRQ, a.irq);
    lay_chosen(&mut room, FIQ, a.fiq);
    room
}

// ---- a room into a record

fn byte(x: u32) -> u8
    ensures { result ≡ x % 256 }
{
    (x % 256) as u8
}

// Four words from a place on.
fn four_in(room: &Room, at: usize) -> [u32; 4]
    requires { at ≤ 100 }
    ensures { (length result ≡ 4) × ((k : ℕ) → k < 4 → get_or result k 0 ≡ get_or room.now (at + k) 0) }
{
    let mut out: [u32; 4] = [0; 4];
    for k in 0..4 {
        out[k] = room[at + k];
    }
    out
}

// The routes.
fn routes_in(room: &Room) -> [u8; 128]
    ensures { (length result ≡ 128) × ((k : ℕ) → k < 128 → get_or result k 0 ≡ get_or room.now (128 + k) 0 % 256) }
{
    let mut out: [u8; 128] = [0; 128];
    for k in 0..128 {
        let b = byte(room[ROUTES + k]);
        out[k] = b;
    }
    out
}

// The one that is chosen for an output.
fn chosen_in(room: &Room, at: usize) -> Chosen
    requires { at ≤ 12 }
    ensures { result ≡ record { active = eqb (get_or room.now at 0) 1; number = get_or room.now (at + 1) 0 % 256; priority = get_or room.now (at + 2) 0 % 256 } }
{
    let number = byte(room[at + 1]);
    let priority = byte(room[at + 2]);
    Chosen {
        active: room[at] == 1,
        number,
        priority,
    }
}

// The record in a room.
pub fn record_of(room: &Room) -> Aintc
    ensures { (a : Aintc) → sound a ≡ true → Laid a room.now → result ≡ a }
{
    let lines = four_in(room, LINES);
    let soft = four_in(room, SOFT);
    let masks = four_in(room, MASKS);
    let routes = routes_in(room);
    let threshold = byte(room[THRESHOLD]);
    let revision = byte(room[REVISION]);
    let irq = chosen_in(room, IRQ);
    let fiq = chosen_in(room, FIQ);
    Aintc {
        lines,
        soft,
        masks,
        routes,
        threshold,
        revision,
        guarded: room[GUARDED] == 1,
        autoidle: room[AUTOIDLE] == 1,
        turbo: room[TURBO] == 1,
        funcidle: room[FUNCIDLE] == 1,
        irq,
        fiq,
    }
}

// ---- a route put anew

// Bit i of the words of the priorities of word n is as p has its bits.
fn put_bits(room: &mut Room, n: u32, i: u32, p: u32)
    requires { n < 4 }
    ensures { room.new ≡ upto (bit_put n i p) room.old 7 }
{
    for b in 0..7 {
        let at = BITS + (4 * b + n) as usize;
        let w = words::with_bit(room[at], i, words::has(p, b));
        room[at] = w;
    }
}

// The route of input k, with its bits in the words that are kept beside the routes.
pub(crate) fn put_route(room: &mut Room, k: u32, route: u32)
    requires { (k < 128) × (route < 256) }
    ensures { (a : Aintc) → Laid a room.old → Laid (with_routes a (set a.routes k route)) room.new }
{
    let n = k / 32;
    let i = k % 32;
    room[ROUTES + k as usize] = route;
    let fiqs = words::with_bit(room[FIQS + n as usize], i, route % 2 == 1);
    room[FIQS + n as usize] = fiqs;
    put_bits(room, n, i, route / 2 % 128);
}

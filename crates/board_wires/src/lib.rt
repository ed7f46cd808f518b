// The wires of a board of CoreInterrupts: its record, and what is read there of wires, pins and controllers (02, 8/12).
#![tactic(auto)]

ghost use Rattle.std.specs.Prelude.{◌≡◌, ◌<◌, ◌≤◌, ◌+◌, ltb};
ghost use Rattle.words.specs.Choice.{pick};
ghost use Rattle.board_wires.specs.Wires.{wire_of, wire_number, wire_in, pin_in, core_at, inputs_of, place_of};

pub mod chain;
pub mod pair;

use coreinterrupt::Core;

// What an input is wired to: nothing, a pin, or that activity of a controller.
#[derive(Clone, Copy)]
pub enum Wire {
    Nothing,
    Pin(u32),
    Irq(u32),
    Fiq(u32),
}

// The wires stand in the record as numbers, of which the promises speak.
// Input i of controller c is wire[40 * c + i]: 0 nothing, 1 + p pin p, 321 + d the IRQ of controller d, 329 + d its FIQ.
// The controllers keep their lines low: the wires tell them.
#[derive(Clone, Copy)]
pub struct Board {
    pub controllers: u32,
    pub wire: [u16; 320],
    pub pin: [u8; 320],
    pub core: [Core; 8],
}

// ---- wires

// The wire that a number of the record stands for.
pub fn wire_of(w: u16) -> Wire
    ensures { result ≡ wire_of w }
{
    let n = w as u32;
    if n == 0 {
        return Wire::Nothing;
    }
    if n < 321 {
        return Wire::Pin(n - 1);
    }
    if n < 329 {
        return Wire::Irq(n - 321);
    }
    if n < 337 {
        return Wire::Fiq(n - 329);
    }
    Wire::Nothing
}

// The number of n beyond a base, where n is below its limit, else that of nothing.
fn number_from(base: u16, limit: u32, n: u32) -> u16
    requires { (base ≤ 329) × (limit ≤ 320) }
    ensures { result ≡ pick (ltb n limit) (base + n) 0 }
{
    if n < limit {
        return base + n as u16;
    }
    0
}

// The number of a wire in the record; that of nothing for a pin or a controller beyond its limit.
pub fn wire_number(w: Wire) -> u16
    ensures { result ≡ wire_number w }
{
    match w {
        Wire::Nothing => 0,
        Wire::Pin(p) => number_from(1, 320, p),
        Wire::Irq(d) => number_from(321, 8, d),
        Wire::Fiq(d) => number_from(329, 8, d),
    }
}

// The wire of input i of controller c in the lent table of wires: the loops copy no board.
pub(crate) fn wire_in(wire: &[u16; 320], c: u32, i: u32) -> Wire
    ensures { result ≡ wire_in wire.now c i }
{
    if c < 8 {
        if i < 40 {
            let k = (40 * c + i) as usize;
            return wire_of(wire[k]);
        }
    }
    Wire::Nothing
}

// Whether pin p is high, in the lent table of pins.
pub(crate) fn pin_in(pin: &[u8; 320], p: u32) -> bool
    ensures { result ≡ pin_in pin.now p }
{
    if p < 320 {
        let k = p as usize;
        return pin[k] == 1;
    }
    false
}

// Controller c as the record holds it; one with no sources beyond the eight.
pub fn core_at(b: Board, c: u32) -> Core
    ensures { result ≡ core_at b c }
{
    if c < 8 {
        let k = c as usize;
        return b.core[k];
    }
    Core {
        fiq: coreinterrupt::sides::idle(0, 0),
        irq: coreinterrupt::sides::idle(0, 0),
    }
}

// How many inputs a side has.
pub(crate) fn inputs(fast: bool) -> u32
    ensures { (result ≡ inputs_of fast) × (result ≤ 32) }
{
    if fast {
        return coreinterrupt::FIQ_LIMIT;
    }
    coreinterrupt::IRQ_LIMIT
}

// Where input i of a side stands among the 40.
pub(crate) fn place(fast: bool, i: u32) -> u32
    requires { i < 32 }
    ensures { result ≡ place_of fast i }
{
    if fast {
        return coreinterrupt::IRQ_LIMIT + i;
    }
    i
}

// The values of the inputs of a controller ask for the activities of the lower controllers that feed it, once each, and an activity asks for the values of
// the inputs of its controller: the two call each other (02, 8/12; 01). They end because a wire is followed only to a lower number, whatever the record holds;
// controller c takes at most 2 ^ c activities, itself among them, so the highest of eight takes 128.
ghost use Rattle.std.specs.Prelude.{◌≡◌};
ghost use Rattle.board_wires.specs.Wires.{wired, input_value, wired_core};
ghost use Rattle.board_wires.specs.Pair.{tells, with_told, values_in, lined, lined_core, values, activities};

use super::{Board, Wire, chain};
use coreinterrupt::Core;
use coreinterrupt::sides::Side;

// The values of the forty inputs: bit k of `irq` is input k, bit k of `fiq` is input 32 + k.
#[derive(Clone, Copy)]
pub struct Inputs {
    pub irq: u32,
    pub fiq: u32,
}

// Whether each output of a controller is active.
#[derive(Clone, Copy)]
pub struct Activities {
    pub irq: bool,
    pub fiq: bool,
}

// What was told of the lower controllers: bit d is that output of controller d.
#[derive(Clone, Copy)]
struct Told {
    irq: u32,
    fiq: u32,
}

// ---- by what was told of the lower controllers

// What is told of an output of controller d.
fn told_at(t: Told, d: u32, fast: bool) -> bool
    ensures { result ≡ tells t d fast }
{
    if fast {
        return words::has(t.fiq, d);
    }
    words::has(t.irq, d)
}

// What a wire of controller c carries.
fn carried(pin: &[u8; 320], t: Told, c: u32, w: Wire) -> bool
    ensures { result ≡ wired pin.now (tells t) c w }
{
    match w {
        Wire::Nothing => false,
        Wire::Pin(p) => super::pin_in(pin, p),
        Wire::Irq(d) => (d < c) & told_at(t, d, false),
        Wire::Fiq(d) => (d < c) & told_at(t, d, true),
    }
}

// The values of the inputs of a side of controller c, in the lent tables of wires and pins.
fn values_in<'a>(wire: &'a [u16; 320], pin: &'a [u8; 320], t: Told, c: u32, fast: bool) -> u32
    ensures { result ≡ values_in wire.now pin.now (tells t) c fast }
{
    let n = super::inputs(fast);
    let mut w: u32 = 0;
    for i in 0..n {
        let at = super::wire_in(wire, c, super::place(fast, i));
        w = words::with_bit(w, i, carried(pin, t, c, at));
    }
    w
}

// The same of the board.
fn values_by(b: Board, t: Told, c: u32, fast: bool) -> u32
    ensures { result ≡ values_in b.wire b.pin (tells t) c fast }
{
    values_in(&b.wire, &b.pin, t, c, fast)
}

// What was told, and the activities of controller d besides.
fn with_told(t: Told, d: u32, a: Activities) -> Told
    ensures { result ≡ with_told t d a }
{
    Told {
        irq: words::with_bit(t.irq, d, a.irq),
        fiq: words::with_bit(t.fiq, d, a.fiq),
    }
}

// ---- a controller with these values as its lines

// A side after a line step for each of its first n inputs, to their bits of a word.
fn lined(s: Side, w: u32, n: u32) -> Side
    ensures { result ≡ lined s w n }
{
    let mut x = s;
    for i in 0..n {
        x = coreinterrupt::sides::moved(x, i, words::has(w, i));
    }
    x
}

fn lined_core(k: Core, v: Inputs) -> Core
    ensures { result ≡ lined_core k v }
{
    Core {
        fiq: lined(k.fiq, v.fiq, coreinterrupt::FIQ_LIMIT),
        irq: lined(k.irq, v.irq, coreinterrupt::IRQ_LIMIT),
    }
}

// ---- the pair

// The values of all inputs of controller c. Each lower controller that feeds it is asked once.
#[cycle(activity_values)]
pub(crate) fn values(b: Board, c: u32) -> Inputs
    ensures { result ≡ values b c }
{
    let n = chain::lower(c);
    let mut t = Told { irq: 0, fiq: 0 };
    for d in 0..n {
        if chain::is_fed(b, c, d) {
            t = with_told(t, d, activity(b, d));
        }
    }
    Inputs {
        irq: values_by(b, t, c, false),
        fiq: values_by(b, t, c, true),
    }
}

// Whether each output of controller c is active: its inputs are asked once.
#[cycle(activity_values)]
pub(crate) fn activity(b: Board, c: u32) -> Activities
    ensures { result ≡ activities b c }
{
    let v = values(b, c);
    let k = lined_core(super::core_at(b, c), v);
    Activities {
        irq: coreinterrupt::sides::active(k.irq),
        fiq: coreinterrupt::sides::active(k.fiq),
    }
}

// ---- what a board asks

// Controller c with the wired values as its lines.
pub fn wired_core(b: Board, c: u32) -> Core
    ensures { result ≡ wired_core b c }
{
    let v = values(b, c);
    lined_core(super::core_at(b, c), v)
}

// The value of input i of controller c.
pub fn input_value(b: Board, c: u32, i: u32) -> bool
    ensures { result ≡ input_value b c i }
{
    let v = values(b, c);
    if i < coreinterrupt::IRQ_LIMIT {
        return words::has(v.irq, i);
    }
    words::has(v.fiq, i - coreinterrupt::IRQ_LIMIT)
}

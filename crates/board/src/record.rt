// The record of a board, what is answered with it, and which boards are sound: defined in specs/Record.antt and Sound.antt (02, 8/12).
ghost use Rattle.std.specs.Prelude.{◌≡◌, ◌<◌, leb};
ghost use Rattle.board.specs.Record.{answered, refused, with_controller, with_core, with_wire, with_pin};
ghost use Rattle.board.specs.Sound.{low, zero_side, zero_core, core_rule, lower, wire_rule, cores_sound, wires_sound, pins_sound, sound};

use board_wires::{Board, Wire};
use coreinterrupt::Core;
use coreinterrupt::sides::Side;

// How many controllers a board has at most, how many inputs each of them, and how many pins the board.
pub(crate) const CONTROLLER_LIMIT: u32 = 8;

pub(crate) const INPUT_LIMIT: u32 = 40;

pub(crate) const PIN_LIMIT: u32 = 320;

// What a change or a register access answers: a refusal number beside the rest, since the promises speak of both.
#[derive(Clone, Copy)]
pub struct Answer {
    pub refusal: u32,
    pub value: u32,
    pub board: Board,
}

// The answer of what is carried out.
pub(crate) fn answer_of(b: Board, value: u32) -> Answer
    ensures { result ≡ answered b value }
{
    Answer {
        refusal: steps::CARRIED_OUT,
        value,
        board: b,
    }
}

// The answer of what is refused: its number, the value 0, the same board.
pub(crate) fn refusal_of(b: Board, n: u32) -> Answer
    ensures { result ≡ refused b n }
{
    Answer {
        refusal: n,
        value: 0,
        board: b,
    }
}

// ---- the board with one part put anew; beyond the end of the wires and of the pins nothing is put

pub(crate) fn with_controller(b: Board, k: Core) -> Board
    requires { b.controllers < 8 }
    ensures { result ≡ with_controller b k }
{
    let mut d = b;
    let n = b.controllers;
    d.core[n as usize] = k;
    d.controllers = n + 1;
    d
}

pub(crate) fn with_core(b: Board, c: u32, k: Core) -> Board
    requires { c < 8 }
    ensures { result ≡ with_core b c k }
{
    let mut d = b;
    d.core[c as usize] = k;
    d
}

pub(crate) fn with_wire(b: Board, c: u32, i: u32, w: Wire) -> Board
    ensures { result ≡ with_wire b c i w }
{
    let at = 40 * (c as usize) + i as usize;
    let n = board_wires::wire_number(w);
    if at < 320 {
        let mut d = b;
        d.wire[at] = n;
        return d;
    }
    b
}

pub(crate) fn with_pin(b: Board, p: u32, level: u8) -> Board
    ensures { result ≡ with_pin b p level }
{
    let at = p as usize;
    if at < 320 {
        let mut d = b;
        d.pin[at] = level;
        return d;
    }
    b
}

// ---- which boards are sound

// Whether the lines of a controller are low in the record.
fn is_low(k: Core) -> bool
    ensures { result ≡ low k }
{
    (k.fiq.inputs == 0) & (k.irq.inputs == 0)
}

// Whether a side has zeros only.
fn is_zero_side(s: Side) -> bool
    ensures { result ≡ zero_side s }
{
    (s.count == 0) & ((s.level == 0) & ((s.inputs == 0) & ((s.soft == 0) & (s.enable == 0))))
}

// Whether a controller has zeros only.
fn is_zero(k: Core) -> bool
    ensures { result ≡ zero_core k }
{
    is_zero_side(k.fiq) & is_zero_side(k.irq)
}

// Whether the record may stand at number c of a board of n controllers.
fn core_kept(n: u32, c: u32, k: Core) -> bool
    ensures { result ≡ core_rule n c k }
{
    if c < n {
        return coreinterrupt::is_sound(k) & is_low(k);
    }
    is_zero(k)
}

// Whether a wire of controller c leads to no controller but those of lower numbers.
pub(crate) fn is_lower(c: u32, w: Wire) -> bool
    ensures { result ≡ lower c w }
{
    match w {
        Wire::Nothing => true,
        Wire::Pin(p) => true,
        Wire::Irq(d) => d < c,
        Wire::Fiq(d) => d < c,
    }
}

// Whether the number may stand for a wire of controller c of a board of n.
fn wire_kept(n: u32, c: u32, w: u16) -> bool
    ensures { result ≡ wire_rule n c w }
{
    if c < n {
        return (w < 337) & is_lower(c, board_wires::wire_of(w));
    }
    w == 0
}

// Whether every controller keeps its rule. No early exit, here and below: a sound board is looked at whole anyhow.
fn cores_kept(b: Board) -> bool
    ensures { result ≡ cores_sound b }
{
    let mut ok = true;
    for c in 0..8 {
        ok &= core_kept(b.controllers, c as u32, b.core[c]);
    }
    ok
}

// Whether every wire keeps its rule. The number goes into the rule, as that of a controller above.
fn wires_kept(b: Board) -> bool
    ensures { result ≡ wires_sound b }
{
    let mut ok = true;
    for k in 0..320 {
        ok &= wire_kept(b.controllers, (k / 40) as u32, b.wire[k]);
    }
    ok
}

// Whether every pin is at 0 or 1.
fn pins_kept(b: Board) -> bool
    ensures { result ≡ pins_sound b }
{
    let mut ok = true;
    for level in &b.pin {
        ok &= *level <= 1;
    }
    ok
}

// Whether the board keeps every rule.
pub(crate) fn is_sound(b: Board) -> bool
    ensures { result ≡ sound b }
{
    (b.controllers <= CONTROLLER_LIMIT) & (cores_kept(b) & (wires_kept(b) & pins_kept(b)))
}

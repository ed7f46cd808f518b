// A board of up to eight CoreInterrupts by value: what is done to it and what it answers is defined in specs/Model.antt (02, 8/12).
#![tactic(auto)]

ghost use Rattle.std.specs.Prelude.{◌≡◌};
ghost use Rattle.board.specs.Record.{empty};
ghost use Rattle.board.specs.Model.{unless_refused, replied, checked, is_there, is_named, upward_refusal, add, connect, put_pin, read, write, silent, outputs, input, chain};

pub mod record;

use board_wires::{Board, Wire};
use coreinterrupt::{Core, Signals};
use record::Answer;

// What a question answers that changes nothing: a refusal number beside the value, since the promises speak of both.
#[derive(Clone, Copy)]
pub struct Reply {
    pub refusal: u32,
    pub value: u32,
}

// The answer a, or the refusal n with the board as it was.
fn unless_refused(b: Board, n: u32, a: Answer) -> Answer
    ensures { result ≡ unless_refused b n a }
{
    if n == steps::CARRIED_OUT {
        return a;
    }
    record::refusal_of(b, n)
}

// The value of a question, or the refusal n.
fn reply_of(n: u32, value: u32) -> Reply
    ensures { result ≡ replied n value }
{
    if n == steps::CARRIED_OUT {
        return Reply {
            refusal: steps::CARRIED_OUT,
            value,
        };
    }
    Reply {
        refusal: n,
        value: 0,
    }
}

// ---- the checks

// In their order: 12, then 6 where a number is not within its limit, then n, which is what comes after these.
fn checked(b: Board, within: bool, n: u32) -> u32
    ensures { result ≡ checked b within n }
{
    if !record::is_sound(b) {
        return steps::UNSOUND;
    }
    if !within {
        return steps::BEYOND;
    }
    n
}

// Whether controller c is one of this board.
fn is_there(b: Board, c: u32) -> bool
    ensures { result ≡ is_there b c }
{
    c < b.controllers
}

// Whether the pin or the controller that a wire names is one of this board.
fn is_named(b: Board, w: Wire) -> bool
    ensures { result ≡ is_named b w }
{
    match w {
        Wire::Nothing => true,
        Wire::Pin(p) => p < record::PIN_LIMIT,
        Wire::Irq(d) => is_there(b, d),
        Wire::Fiq(d) => is_there(b, d),
    }
}

// 15 for a wire to the same or a higher number.
fn upward_refusal(c: u32, w: Wire) -> u32
    ensures { result ≡ upward_refusal c w }
{
    if record::is_lower(c, w) {
        return steps::CARRIED_OUT;
    }
    steps::UPWARD
}

// ---- how a board is made

// A board with no controller, every input wired to nothing and every pin low.
pub fn empty() -> Board
    ensures { result ≡ empty }
{
    let none = Core {
        fiq: coreinterrupt::sides::idle(0, 0),
        irq: coreinterrupt::sides::idle(0, 0),
    };
    Board {
        controllers: 0,
        wire: [0; 320],
        pin: [0; 320],
        core: [none; 8],
    }
}

// A CoreInterrupt with this configuration takes the next number, which is answered: 6 for a ninth, then 10.
pub fn add(b: Board, fiqs: u32, irqs: u32, fiqlevel: u32, irqlevel: u32) -> Answer
    ensures { result ≡ add b fiqs irqs fiqlevel irqlevel }
{
    let s = coreinterrupt::start(fiqs, irqs, fiqlevel, irqlevel);
    let n = checked(b, b.controllers < record::CONTROLLER_LIMIT, s.refusal);
    if n == steps::CARRIED_OUT {
        return record::answer_of(record::with_controller(b, s.core), b.controllers);
    }
    record::refusal_of(b, n)
}

// Input i of controller c is wired to w: 6 for a controller, an input or a pin that there is not, then 15.
pub fn connect(b: Board, c: u32, i: u32, w: Wire) -> Answer
    ensures { result ≡ connect b c i w }
{
    let within = is_there(b, c) & (i < record::INPUT_LIMIT) & is_named(b, w);
    let n = checked(b, within, upward_refusal(c, w));
    let wired = record::with_wire(b, c, i, w);
    unless_refused(b, n, record::answer_of(wired, 0))
}

// Pin p is put to a level.
pub fn put_pin(b: Board, p: u32, level: u32) -> Answer
    ensures { result ≡ put_pin b p level }
{
    let n = checked(
        b,
        (p < record::PIN_LIMIT) & (level <= 1),
        steps::CARRIED_OUT,
    );
    if n == steps::CARRIED_OUT {
        return record::answer_of(record::with_pin(b, p, level as u8), 0);
    }
    record::refusal_of(b, n)
}

// ---- the registers of a controller

// A read of the register at an offset of controller c, its lines at the wired values.
pub fn read(b: Board, c: u32, offset: u32) -> Answer
    ensures { result ≡ read b c offset }
{
    let a = coreinterrupt::read(board_wires::pair::wired_core(b, c), offset);
    let n = checked(b, is_there(b, c), a.refusal);
    unless_refused(b, n, record::answer_of(b, a.value))
}

// A write of a value to the register at an offset of controller c.
pub fn write(b: Board, c: u32, offset: u32, value: u32) -> Answer
    ensures { result ≡ write b c offset value }
{
    let a = coreinterrupt::write(board_wires::core_at(b, c), offset, value);
    let n = checked(b, is_there(b, c), a.refusal);
    if n == steps::CARRIED_OUT {
        return record::answer_of(record::with_core(b, c, a.core), a.value);
    }
    record::refusal_of(b, n)
}

// ---- what a board answers

// Both outputs of controller c, its lines at the wired values.
pub fn outputs(b: Board, c: u32) -> Signals
    ensures { result ≡ outputs b c }
{
    let n = checked(b, is_there(b, c), steps::CARRIED_OUT);
    if n == steps::CARRIED_OUT {
        return coreinterrupt::outputs(board_wires::pair::wired_core(b, c));
    }
    Signals {
        refusal: n,
        irq: false,
        fiq: false,
        irqlevel: 0,
        fiqlevel: 0,
    }
}

// The value of input i of controller c, whether a source uses it or not.
pub fn input(b: Board, c: u32, i: u32) -> Reply
    ensures { result ≡ input b c i }
{
    let n = checked(
        b,
        is_there(b, c) & (i < record::INPUT_LIMIT),
        steps::CARRIED_OUT,
    );
    reply_of(n, words::one_if(board_wires::pair::input_value(b, c, i)))
}

// How many controllers the longest chain below controller c has.
pub fn chain(b: Board, c: u32) -> Reply
    ensures { result ≡ chain b c }
{
    let n = checked(b, is_there(b, c), steps::CARRIED_OUT);
    reply_of(n, board_wires::chain::chain(b, c))
}

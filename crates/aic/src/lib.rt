// The AT91 controller: its register map, its vector reads, its line steps and its outputs.
#![tactic(auto)]

ghost use Rattle.std.specs.Prelude.{◌≡◌, true};
ghost use Rattle.aic_record.specs.Sound.{sound};
ghost use Rattle.aic.specs.Model.{within, start, read, write, line, step, outputs};

use aic_record::Aic;
use aic_registers::effects::move_line;
use aic_registers::map::access_of;
use aic_registers::registers::{read_at, write_at};
use aic_registers::{Answer, answer_of, refusal_of};
use steps::Step;

// What a start answers: its refusal, and the record.
// A number and no Result, here and in the next: the definitions that the promises speak of name these fields.
#[derive(Clone, Copy)]
pub struct Begun {
    pub refusal: u32,
    pub aic: Aic,
}

// The two outputs, active or not, and how many entries are open, handlers and marks.
#[derive(Clone, Copy)]
pub struct Signals {
    pub refusal: u32,
    pub irq: bool,
    pub fiq: bool,
    pub entries: u32,
}

// Whether the nth configuration number may have this value: each of the two may have any.
pub fn within(nth: u32, value: u32) -> bool
    ensures { result ≡ within nth value }
{
    nth < 2
}

// The controller after reset, with the word that marks external sources and the first levels of the lines.
pub fn start(external: u32, lines: u32) -> Begun
    ensures { result ≡ start external lines }
{
    let aic = aic_record::reset_to(external, lines);
    Begun {
        refusal: steps::CARRIED_OUT,
        aic,
    }
}

// ---- the steps and the outputs of a record that is known to be sound
// Each asks for `sound`, and takes no type that holds the fact: two of them are public, and their callers hold a plain record.

fn read_sound(s: Aic, offset: u32) -> Answer
    requires { sound s ≡ true }
    ensures { result ≡ read s offset }
{
    let n = steps::read_refusal(true, offset, access_of(offset));
    if n == steps::CARRIED_OUT {
        return read_at(s, offset);
    }
    refusal_of(s, n)
}

fn write_sound(s: Aic, offset: u32, value: u32) -> Answer
    requires { sound s ≡ true }
    ensures { result ≡ write s offset value }
{
    let n = steps::write_refusal(true, offset, access_of(offset), steps::CARRIED_OUT);
    if n == steps::CARRIED_OUT {
        return answer_of(write_at(s, offset, value), 0);
    }
    refusal_of(s, n)
}

fn line_sound(s: Aic, k: u32, level: u32) -> Answer
    requires { sound s ≡ true }
    ensures { result ≡ line s k level }
{
    let n = steps::line_refusal(true, 32, k, level);
    if n == steps::CARRIED_OUT {
        return answer_of(move_line(s, k, level == 1), 0);
    }
    refusal_of(s, n)
}

// A step of a recorded trace, for callers that know the record to be sound: the check of that is the dearest part of a step.
pub fn step_sound(s: Aic, x: Step) -> Answer
    requires { sound s ≡ true }
    ensures { result ≡ step s x }
{
    match x {
        Step::Read(offset) => read_sound(s, offset),
        Step::Write(offset, value) => write_sound(s, offset, value),
        Step::Line(k, level) => line_sound(s, k, level),
    }
}

// The two outputs and how many entries are open, for callers that know the record to be sound.
pub fn outputs_sound(s: Aic) -> Signals
    requires { sound s ≡ true }
    ensures { result ≡ outputs s }
{
    let bits = aic_sources::output_bits(s);
    let entries = s.depth;
    Signals {
        refusal: steps::CARRIED_OUT,
        irq: words::has(bits, 1),
        fiq: words::has(bits, 0),
        entries,
    }
}

// ---- of any record

// A read of the register at an offset.
pub fn read(s: Aic, offset: u32) -> Answer
    ensures { result ≡ read s offset }
{
    if aic_record::is_sound(s) {
        return read_sound(s, offset);
    }
    refusal_of(s, steps::UNSOUND)
}

// A write of the register at an offset.
pub fn write(s: Aic, offset: u32, value: u32) -> Answer
    ensures { result ≡ write s offset value }
{
    if aic_record::is_sound(s) {
        return write_sound(s, offset, value);
    }
    refusal_of(s, steps::UNSOUND)
}

// A line that goes to a level.
pub fn line(s: Aic, k: u32, level: u32) -> Answer
    ensures { result ≡ line s k level }
{
    if aic_record::is_sound(s) {
        return line_sound(s, k, level);
    }
    refusal_of(s, steps::UNSOUND)
}

// A step of a recorded trace.
pub fn step(s: Aic, x: Step) -> Answer
    ensures { result ≡ step s x }
{
    if aic_record::is_sound(s) {
        return step_sound(s, x);
    }
    refusal_of(s, steps::UNSOUND)
}

// The two outputs and how many entries are open.
pub fn outputs(s: Aic) -> Signals
    ensures { result ≡ outputs s }
{
    if aic_record::is_sound(s) {
        return outputs_sound(s);
    }
    Signals {
        refusal: steps::UNSOUND,
        irq: false,
        fiq: false,
        entries: 0,
    }
}

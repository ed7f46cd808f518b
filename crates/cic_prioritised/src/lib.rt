// The KeyStone CIC with prioritised indices by value: start, reads, writes, line steps, steps and outputs (02, 6/12; 001, 1.3.5). A step lays the record into
// a room, is carried out there and takes the record out again.
#![tactic(auto)]

ghost use Rattle.std.specs.Prelude.{◌≡◌, true};
ghost use Rattle.rooms.specs.Reply.{told};
ghost use Rattle.cic_registers.specs.Hosts.{asserted};
ghost use Rattle.cic_held.specs.Held.{within, sound, start};
ghost use Rattle.cic_indexed.specs.Model.{refused, read, write, line, step, outputs};

pub mod looked;

use cic_held::{Answer, Begun, Prioritised};
use cic_record::{Host, Signals};
use steps::Step;

// Whether the nth configuration number, in the order systems, channels, hosts, revision, choice, may be `value`. The first is number 0.
pub fn within(nth: u32, value: u32) -> bool
    ensures { result ≡ within nth value }
{
    cic_held::within(nth, value)
}

// The CIC at reset with nothing held, or refusal 10 and a record of zeros where a number is beyond its limit.
pub fn start(systems: u32, channels: u32, hosts: u32, revision: u32, choice: u32) -> Begun
    ensures { result ≡ start systems channels hosts revision choice }
{
    cic_held::start(systems, channels, hosts, revision, choice)
}

// Whether the record keeps every rule of its model.
pub fn is_sound(p: Prioritised) -> bool
    ensures { result ≡ sound p }
{
    cic_held::is_sound(p)
}

// A read of the register at an offset.
pub fn read(p: Prioritised, offset: u32) -> Answer
    ensures { result ≡ read p offset }
{
    step(p, Step::Read(offset))
}

// A write of the register at an offset.
pub fn write(p: Prioritised, offset: u32, value: u32) -> Answer
    ensures { result ≡ write p offset value }
{
    step(p, Step::Write(offset, value))
}

// A line is put to a level.
pub fn line(p: Prioritised, number: u32, level: u32) -> Answer
    ensures { result ≡ line p number level }
{
    step(p, Step::Line(number, level))
}

// Any step. A record that is not sound is refused here, once.
pub fn step(p: Prioritised, x: Step) -> Answer
    ensures { result ≡ step p x }
{
    if cic_held::is_sound(p) {
        return step_sound(p, x);
    }
    refuse(p, steps::UNSOUND)
}

// A step of a record that is known to be sound, as after a start and after every step: it is not looked at again.
pub fn step_sound(p: Prioritised, x: Step) -> Answer
    requires { sound p ≡ true }
    ensures { result ≡ step p x }
{
    match x {
        Step::Read(offset) => read_in(p, offset),
        Step::Write(offset, v) => write_in(p, offset, v),
        Step::Line(number, level) => line_in(p, number, level),
    }
}

// How many hosts are asserted and the lowest of them, or refusal 12 where the record is not sound: holds touch no output.
pub fn outputs(p: Prioritised) -> Signals
    ensures { result ≡ outputs p }
{
    if cic_held::is_sound(p) {
        return outputs_sound(p);
    }
    Signals {
        refusal: steps::UNSOUND,
        hosts: 0,
        lowest: 0,
    }
}

// The same of a record that is known to be sound: it is not looked at again.
pub fn outputs_sound(p: Prioritised) -> Signals
    requires { sound p ≡ true }
    ensures { result ≡ outputs p }
{
    cic_registers::hosts::shown(p.cic)
}

// Whether a host interrupt is asserted: as of the CIC.
pub fn asserted(p: Prioritised, h: Host) -> bool
    ensures { result ≡ asserted p.cic h }
{
    cic_registers::hosts::asserted(p.cic, h)
}

// A step that is refused: its number, the value 0 and the same record.
fn refuse(p: Prioritised, n: u32) -> Answer
    ensures { result ≡ refused p n }
{
    Answer {
        refusal: n,
        value: 0,
        prioritised: p,
    }
}

// ---- a sound record, whose steps are carried out in a room

// What a step in a room answers, with the record after it.
fn answer_with(r: u64, p: Prioritised) -> Answer
    ensures { result ≡ record { refusal = (told r).0; value = (told r).1; prioritised = p } }
{
    Answer {
        refusal: rooms::refusal_in(r),
        value: rooms::value_in(r),
        prioritised: p,
    }
}

fn read_in(p: Prioritised, offset: u32) -> Answer
    requires { sound p ≡ true }
    ensures { result ≡ read p offset }
{
    let mut room = indexed_room::transfer::lay(p);
    let r = indexed_room::read(&mut room, offset);
    answer_with(r, indexed_room::transfer::record_of(&room))
}

fn write_in(p: Prioritised, offset: u32, v: u32) -> Answer
    requires { sound p ≡ true }
    ensures { result ≡ write p offset v }
{
    let mut room = indexed_room::transfer::lay(p);
    let r = indexed_room::write(&mut room, offset, v);
    answer_with(r, indexed_room::transfer::record_of(&room))
}

fn line_in(p: Prioritised, number: u32, level: u32) -> Answer
    requires { sound p ≡ true }
    ensures { result ≡ line p number level }
{
    let mut room = indexed_room::transfer::lay(p);
    let r = indexed_room::line(&mut room, number, level);
    answer_with(r, indexed_room::transfer::record_of(&room))
}

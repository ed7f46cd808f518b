// The KeyStone CIC without prioritisation, by value: start, reads, writes, lines, steps and outputs (01, CIC; 001). A step lays the record into a room,
// is carried out there and takes the record out again.
#![tactic(auto)]

ghost use Rattle.std.specs.Prelude.{◌≡◌, true};
ghost use Rattle.cic_record.specs.Sound.{within, sound};
ghost use Rattle.cic_record.specs.Start.{start};
ghost use Rattle.cic_registers.specs.Hosts.{asserted, outputs};
ghost use Rattle.rooms.specs.Reply.{told};
ghost use Rattle.cic_registers.specs.Model.{read_as, write_as, line_as, step_as, read, write, line, step};

use cic_record::{Answer, Begun, Cic, Host, Signals};
use steps::Step;

// Whether the nth configuration number, in the order systems, channels, hosts, revision, may be `value`. The first is number 0.
pub fn within(nth: u32, value: u32) -> bool
    ensures { result ≡ within nth value }
{
    cic_record::within(nth, value)
}

// The CIC at reset, or refusal 10 and a record of zeros where a number is beyond its limit.
pub fn start(systems: u32, channels: u32, hosts: u32, revision: u32) -> Begun
    ensures { result ≡ start systems channels hosts revision }
{
    cic_record::start(systems, channels, hosts, revision)
}

// A read of the register at an offset.
pub fn read(c: Cic, offset: u32) -> Answer
    ensures { result ≡ read c offset }
{
    step(c, Step::Read(offset))
}

// A write of the register at an offset.
pub fn write(c: Cic, offset: u32, value: u32) -> Answer
    ensures { result ≡ write c offset value }
{
    step(c, Step::Write(offset, value))
}

// A line is put to a level.
pub fn line(c: Cic, number: u32, level: u32) -> Answer
    ensures { result ≡ line c number level }
{
    step(c, Step::Line(number, level))
}

// Any step. A record that is not sound is refused here, once.
pub fn step(c: Cic, s: Step) -> Answer
    ensures { result ≡ step c s }
{
    if cic_record::is_sound(c) {
        return step_in(c, s);
    }
    cic_record::refusal_of(c, steps::UNSOUND)
}

// A step of a record that is known to be sound, as after a start and after every step: it is not looked at again.
pub fn step_sound(c: Cic, s: Step) -> Answer
    requires { sound c ≡ true }
    ensures { result ≡ step c s }
{
    step_in(c, s)
}

// How many hosts are asserted and the lowest of them, or refusal 12 where the record is not sound.
pub fn outputs(c: Cic) -> Signals
    ensures { result ≡ outputs c }
{
    cic_registers::hosts::outputs(c)
}

// The same of a record that is known to be sound: it is not looked at again.
pub fn outputs_sound(c: Cic) -> Signals
    requires { sound c ≡ true }
    ensures { result ≡ outputs c }
{
    cic_registers::hosts::shown(c)
}

// Whether a host interrupt is asserted.
pub fn asserted(c: Cic, h: Host) -> bool
    ensures { result ≡ asserted c h }
{
    cic_registers::hosts::asserted(c, h)
}

// ---- a sound record, whose steps are carried out in a room in which nothing is kept beside it

// What a step in a room answers, with the record after it.
fn answer_with(r: u64, c: Cic) -> Answer
    ensures { result ≡ record { refusal = (told r).0; value = (told r).1; cic = c } }
{
    Answer {
        refusal: rooms::refusal_in(r),
        value: rooms::value_in(r),
        cic: c,
    }
}

fn read_in(c: Cic, offset: u32) -> Answer
    requires { sound c ≡ true }
    ensures { result ≡ read_as true c offset }
{
    let room = cic_room::transfer::lay(c, false);
    let r = cic_room::read(&room, offset);
    answer_with(r, c)
}

fn write_in(c: Cic, offset: u32, value: u32) -> Answer
    requires { sound c ≡ true }
    ensures { result ≡ write_as true c offset value }
{
    let mut room = cic_room::transfer::lay(c, false);
    let r = cic_room::write(&mut room, offset, value);
    answer_with(r, cic_room::transfer::record_of(&room))
}

fn line_in(c: Cic, number: u32, level: u32) -> Answer
    requires { sound c ≡ true }
    ensures { result ≡ line_as true c number level }
{
    let mut room = cic_room::transfer::lay(c, false);
    let r = cic_room::line(&mut room, number, level);
    answer_with(r, cic_room::transfer::record_of(&room))
}

fn step_in(c: Cic, s: Step) -> Answer
    requires { sound c ≡ true }
    ensures { result ≡ step_as true c s }
{
    match s {
        Step::Read(offset) => read_in(c, offset),
        Step::Write(offset, value) => write_in(c, offset, value),
        Step::Line(number, level) => line_in(c, number, level),
    }
}

// The AINTC by value: its start, its steps and its outputs. A step lays the record into a room, is carried out there, and takes the record out again.
#![tactic(auto)]

ghost use Rattle.std.specs.Prelude.{◌≡◌, true};
ghost use Rattle.rooms.specs.Reply.{told};
ghost use Rattle.aintc_record.specs.declared.Aintc.{Aintc};
ghost use Rattle.aintc_registers.specs.Settle.{sound};
ghost use Rattle.aintc_registers.specs.Model.{within, start, read, write, line, step, outputs};
ghost use Rattle.aintc_room.specs.Room.{Laid};
ghost use Rattle.aintc_room.specs.Reply.{Done};

use aintc_record::Aintc;
use aintc_registers::model::{Begun, Signals};
use aintc_registers::{Answer, refusal_of};
use rooms::Room;
use steps::Step;

// Whether the nth configuration number may have this value: there is none.
pub fn within(nth: u32, value: u32) -> bool
    ensures { result ≡ within nth value }
{
    false
}

// The controller after reset, its lines low.
pub fn start() -> Begun
    ensures { result ≡ start }
{
    let aintc = aintc_record::reset_to([0; 4]);
    Begun {
        refusal: steps::CARRIED_OUT,
        aintc,
    }
}

// ---- the steps and the outputs of a record that is known to be sound

// A step of the record in a room. A line step has no privilege.
fn step_in(room: &mut Room, privilege: u32, x: Step) -> u64
    ensures { (a : Aintc) → sound a ≡ true → Laid a room.old → Done (step a privilege x) room.new (told result) }
{
    match x {
        Step::Read(offset) => aintc_room::read(room, offset, privilege),
        Step::Write(offset, value) => aintc_room::write(room, offset, value, privilege),
        Step::Line(k, level) => aintc_room::line(room, k, level),
    }
}

// A step of a recorded trace, for callers that know the record to be sound: the check of that searches all inputs twice.
pub fn step_sound(s: Aintc, privilege: u32, x: Step) -> Answer
    requires { sound s ≡ true }
    ensures { result ≡ step s privilege x }
{
    let mut room = aintc_room::layout::lay(s);
    let reply = step_in(&mut room, privilege, x);
    let aintc = aintc_room::layout::record_of(&room);
    Answer {
        refusal: rooms::refusal_in(reply),
        value: rooms::value_in(reply),
        aintc,
    }
}

// The outputs, for callers that know the record to be sound.
pub fn outputs_sound(s: Aintc) -> Signals
    requires { sound s ≡ true }
    ensures { result ≡ outputs s }
{
    let irq = s.irq;
    let fiq = s.fiq;
    Signals {
        refusal: steps::CARRIED_OUT,
        irq: irq.active,
        fiq: fiq.active,
        number: irq.number as u32,
    }
}

// ---- of any record

// A step of a recorded trace.
pub fn step(s: Aintc, privilege: u32, x: Step) -> Answer
    ensures { result ≡ step s privilege x }
{
    if aintc_registers::choice::is_sound(s) {
        return step_sound(s, privilege, x);
    }
    refusal_of(s, steps::UNSOUND)
}

// A read of the register at an offset; privilege 1 is privileged, 0 is not.
pub fn read(s: Aintc, privilege: u32, offset: u32) -> Answer
    ensures { result ≡ read s privilege offset }
{
    step(s, privilege, Step::Read(offset))
}

// A write of the register at an offset.
pub fn write(s: Aintc, privilege: u32, offset: u32, value: u32) -> Answer
    ensures { result ≡ write s privilege offset value }
{
    step(s, privilege, Step::Write(offset, value))
}

// A line that goes to a level.
pub fn line(s: Aintc, k: u32, level: u32) -> Answer
    ensures { result ≡ line s k level }
{
    step(s, 1, Step::Line(k, level))
}

// The outputs.
pub fn outputs(s: Aintc) -> Signals
    ensures { result ≡ outputs s }
{
    if aintc_registers::choice::is_sound(s) {
        return outputs_sound(s);
    }
    Signals {
        refusal: steps::UNSOUND,
        irq: false,
        fiq: false,
        number: 0,
    }
}

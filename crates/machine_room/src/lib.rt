// A controller of any kind in one room, which is lent: its steps and what it shows, by the kind in the first word. What a new kind does in its room
// comes here, and no loop over steps names it (01, "House trace"; 02, 2/12 and 6/12).
#![tactic(auto)]

ghost use Rattle.std.specs.Prelude.{◌≡◌, Bool, true, ◌+◌, ◌*◌, ◌<◌};
ghost use Rattle.aic_room.specs.Room.{Laid as AicLaid};
ghost use Rattle.machine.specs.declared.record.Machine.{Machine};
ghost use Rattle.machine.specs.Machine.{sound};
ghost use Rattle.machine.specs.Shown.{shown};
ghost use Rattle.machine.specs.Steps.{step};
ghost use Rattle.rooms.specs.Reply.{told};
ghost use Rattle.trace.specs.Turns.{made, step_of};
ghost use Rattle.machine_room.specs.Room.{Laid, Done, Beside};

pub mod controller;

use aic_record::Aic;
use machine::record::{Columns, Machine};
use rooms::Room;

// The word of a room that tells the kind.
const KIND: usize = 0;

// The room of a machine; `kept` says whether what a listing shows of a CIC is kept in it.
pub fn lay(m: Machine, kept: bool) -> Room
    ensures { sound m ≡ true → Laid kept m result }
{
    match m.kind {
        kinds::AIC => lay_aic(m.aic),
        kinds::CORE => coreinterrupt_room::lay(m.core),
        kinds::CIC => cic_room::transfer::lay(m.cic, kept),
        kinds::AINTC => aintc_room::layout::lay(m.aintc),
        _ => indexed_room::transfer::lay(machine::record::indexed(m)),
    }
}

// The arrays of a record that is passed have their lengths. A call, as the room of a CoreInterrupt.
#[inline(never)]
fn lay_aic(a: Aic) -> Room
    ensures { AicLaid a result }
{
    aic_room::layout::lay(a)
}

// The machine in a room; what does not stand there is the first machine's.
pub fn record_of(room: &Room, first: Machine) -> Machine
    ensures { (kept : Bool) (m : Machine) → sound m ≡ true → Laid kept m room.now → Beside first m → result ≡ m }
{
    match room[KIND] {
        kinds::AIC => Machine {
            aic: aic_room::layout::record_of(room),
            ..first
        },
        kinds::CORE => Machine {
            core: coreinterrupt_room::record_of(room),
            ..first
        },
        kinds::CIC => Machine {
            cic: cic_room::transfer::record_of(room),
            ..first
        },
        kinds::AINTC => Machine {
            aintc: aintc_room::layout::record_of(room),
            ..first
        },
        _ => {
            let p = indexed_room::transfer::record_of(room);
            Machine {
                cic: p.cic,
                held: p.held,
                ..first
            }
        }
    }
}

// The step of a kind, 1 to 3 as in a trace, with its numbers, made by a privilege. One jump finds it by the kind of the controller and that of the step.
pub fn step(room: &mut Room, kind: u32, x: u32, y: u32, privilege: u32) -> u64
    requires { (0 < kind) × (kind < 4) }
    ensures { (kept : Bool) (m : Machine) → sound m ≡ true → Laid kept m room.old → Done kept (step m (made (step_of kind x y) privilege)) room.new (told result) }
{
    // One jump, by a sum: by the kind of controller first, then by that of the step, it was 0.3 to 1.4 ns a step more.
    match place(room[KIND], kind) {
        1 => aic_room::read(room, x),
        2 => aic_room::write(room, x, y),
        3 => aic_room::line(room, x, y),
        5 => coreinterrupt_room::read(room, x),
        6 => coreinterrupt_room::write(room, x, y),
        7 => coreinterrupt_room::line(room, x, y),
        9 => cic_room::read(room, x),
        10 => cic_room::write(room, x, y),
        11 => cic_room::line(room, x, y),
        13 => aintc_room::read(room, x, privilege),
        14 => aintc_room::write(room, x, y, privilege),
        15 => aintc_room::line(room, x, y),
        17 => indexed_room::step(room, kind, x, y),
        18 => indexed_room::step(room, kind, x, y),
        _ => indexed_room::line(room, x, y),
    }
}

// The place of a step among those of all kinds: four to each kind of controller.
fn place(controller: u32, kind: u32) -> u64
    ensures { result ≡ 4 * controller + kind }
{
    4 * (controller as u64) + kind as u64
}

// What a listing shows.
pub fn columns(room: &Room) -> Columns
    ensures { (m : Machine) → sound m ≡ true → Laid true m room.now → result ≡ shown m }
{
    match room[KIND] {
        kinds::AIC => machine::record::aic_columns(aic_room::outputs(room)),
        kinds::CORE => machine::record::core_columns(coreinterrupt_room::outputs(room)),
        kinds::CIC => machine::record::cic_columns(cic_room::outputs(room)),
        kinds::AINTC => machine::record::aintc_columns(aintc_room::outputs(room)),
        _ => machine::record::cic_columns(indexed_room::outputs(room)),
    }
}

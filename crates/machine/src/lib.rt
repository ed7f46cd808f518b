// The steps of one controller of any kind. What a new kind does comes here, its record, start and columns to `machine_record`, its number, name and
// configuration to `kinds`; of the crates above `player` and `listing` may choose a loop for it, and play it without one (01, "House trace"; 02, 2/12
// and 6/12).
#![tactic(auto)]

ghost use Rattle.std.specs.Prelude.{◌≡◌, true};
ghost use Rattle.aic_record.specs.Sound.{sound as aic_sound};
ghost use Rattle.aic.specs.Model.{step as aic_step};
ghost use Rattle.coreinterrupt.specs.Model.{sound as core_sound, step as core_step};
ghost use Rattle.cic_record.specs.Sound.{sound as cic_sound};
ghost use Rattle.cic_registers.specs.Model.{step as cic_step};
ghost use Rattle.cic_held.specs.Held.{sound as indexed_sound};
ghost use Rattle.cic_indexed.specs.Model.{step as indexed_step};
ghost use Rattle.aintc_registers.specs.Settle.{sound as aintc_sound};
ghost use Rattle.aintc_registers.specs.Model.{step as aintc_step};
ghost use Rattle.machine.specs.Machine.{indexed, sound};
ghost use Rattle.machine.specs.Steps.{after_aic, after_core, after_cic, after_aintc, after_indexed, step};

pub mod record;

use record::Machine;
use steps::Recorded;

// The refusal, 0 for none, the value read, and the machine after the step. The refusal is a number, as promises and callers from C tell it.
#[derive(Clone, Copy)]
pub struct Answer {
    pub refusal: u32,
    pub value: u32,
    pub machine: Machine,
}

// The step of each model, its record put back into the machine.
fn aic_step(m: Machine, x: Recorded) -> Answer
    requires { aic_sound m.aic ≡ true }
    ensures { result ≡ after_aic m (aic_step m.aic x.step) }
{
    let a = aic::step_sound(m.aic, x.step);
    Answer {
        refusal: a.refusal,
        value: a.value,
        machine: Machine { aic: a.aic, ..m },
    }
}

fn core_step(m: Machine, x: Recorded) -> Answer
    requires { core_sound m.core ≡ true }
    ensures { result ≡ after_core m (core_step m.core x.step) }
{
    let a = coreinterrupt::step_sound(m.core, x.step);
    Answer {
        refusal: a.refusal,
        value: a.value,
        machine: Machine { core: a.core, ..m },
    }
}

fn cic_step(m: Machine, x: Recorded) -> Answer
    requires { cic_sound m.cic ≡ true }
    ensures { result ≡ after_cic m (cic_step m.cic x.step) }
{
    let a = cic::step_sound(m.cic, x.step);
    Answer {
        refusal: a.refusal,
        value: a.value,
        machine: Machine { cic: a.cic, ..m },
    }
}

fn aintc_step(m: Machine, x: Recorded) -> Answer
    requires { aintc_sound m.aintc ≡ true }
    ensures { result ≡ after_aintc m (aintc_step m.aintc x.privilege x.step) }
{
    let a = aintc::step_sound(m.aintc, x.privilege, x.step);
    Answer {
        refusal: a.refusal,
        value: a.value,
        machine: Machine {
            aintc: a.aintc,
            ..m
        },
    }
}

// The CIC and what is held beside it are both put back.
fn indexed_step(m: Machine, x: Recorded) -> Answer
    requires { indexed_sound (indexed m) ≡ true }
    ensures { result ≡ after_indexed m (indexed_step (indexed m) x.step) }
{
    let a = cic_prioritised::step_sound(record::indexed(m), x.step);
    Answer {
        refusal: a.refusal,
        value: a.value,
        machine: Machine {
            cic: a.prioritised.cic,
            held: a.prioritised.held,
            ..m
        },
    }
}

// A step of a machine that is known to be sound, as after a start and after every step: it is not looked at again.
pub fn step_sound(m: Machine, x: Recorded) -> Answer
    requires { sound m ≡ true }
    ensures { result ≡ step m x }
{
    match m.kind {
        kinds::AIC => aic_step(m, x),
        kinds::CORE => core_step(m, x),
        kinds::CIC => cic_step(m, x),
        kinds::AINTC => aintc_step(m, x),
        _ => indexed_step(m, x),
    }
}

// A step of any machine; one that is not sound is refused by 12.
pub fn step(m: Machine, x: Recorded) -> Answer
    ensures { result ≡ step m x }
{
    if record::is_sound(m) {
        return step_sound(m, x);
    }
    Answer {
        refusal: steps::UNSOUND,
        value: 0,
        machine: m,
    }
}

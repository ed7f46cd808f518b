// What a wave shows of each kind of controller: the widths of its signals, and their values after a step.
ghost use Rattle.std.specs.Prelude.{◌≡◌, true, [], ◌∷◌};
ghost use Rattle.aic_record.specs.Sound.{sound as aic_sound};
ghost use Rattle.coreinterrupt.specs.Model.{sound as core_sound};
ghost use Rattle.aintc_registers.specs.Settle.{sound as aintc_sound};
ghost use Rattle.machine.specs.Machine.{of_aic, of_core, of_aintc, sound};
ghost use Rattle.waves.specs.Signals.{moment, widths, values, eleven};

use aic_record::Aic;
use aintc_record::Aintc;
use coreinterrupt::Core;
use machine::record::Machine;

// ---- values

// The values after a step that answered so, of a machine that is known to be sound; places past the last signal are 0.
pub(crate) fn values(refusal: u32, value: u32, letter: u32, m: Machine) -> [u32; 11]
    requires { sound m ≡ true }
    ensures { result ≡ eleven (values (moment refusal value letter m)) }
{
    let kind = m.kind;
    if kind == kinds::AIC {
        let s = m.aic;
        return aic_values(refusal, value, letter, s);
    }
    if kind == kinds::CORE {
        let s = m.core;
        return core_values(refusal, value, letter, s);
    }
    if kind == kinds::CIC {
        let s = m.cic;
        return cic_values(refusal, value, letter, cic::outputs_sound(s));
    }
    if kind == kinds::AINTC {
        let s = m.aintc;
        return aintc_values(refusal, value, letter, s);
    }
    let p = machine::record::indexed(m);
    cic_values(refusal, value, letter, cic_prioritised::outputs_sound(p))
}

fn aic_values(refusal: u32, value: u32, letter: u32, s: Aic) -> [u32; 11]
    requires { aic_sound s ≡ true }
    ensures { result ≡ eleven (values (moment refusal value letter (of_aic s))) }
{
    let o = aic::outputs_sound(s);
    let irq = words::one_if(o.irq);
    let fiq = words::one_if(o.fiq);
    let source = aic_record::last::last_source(s);
    let level = aic_record::last::last_level(s);
    let pending = aic_sources::pending_word(s);
    [
        refusal, value, letter, irq, fiq, o.entries, source, level, s.lines, pending, s.enabled,
    ]
}

fn core_values(refusal: u32, value: u32, letter: u32, s: Core) -> [u32; 11]
    requires { core_sound s ≡ true }
    ensures { result ≡ eleven (values (moment refusal value letter (of_core s))) }
{
    let o = coreinterrupt::outputs_sound(s);
    let irq = words::one_if(o.irq);
    let fiq = words::one_if(o.fiq);
    let a = coreinterrupt::sides::raw(s.irq);
    let b = coreinterrupt::sides::status(s.irq);
    let c = coreinterrupt::sides::raw(s.fiq);
    let d = coreinterrupt::sides::status(s.fiq);
    [refusal, value, letter, irq, fiq, a, b, c, d, 0, 0]
}

// With prioritised indices or without.
fn cic_values(refusal: u32, value: u32, letter: u32, o: cic_record::Signals) -> [u32; 11]
    ensures { result ≡ eleven (refusal ∷ value ∷ letter ∷ o.hosts ∷ o.lowest ∷ []) }
{
    [refusal, value, letter, o.hosts, o.lowest, 0, 0, 0, 0, 0, 0]
}

fn aintc_values(refusal: u32, value: u32, letter: u32, s: Aintc) -> [u32; 11]
    requires { aintc_sound s ≡ true }
    ensures { result ≡ eleven (values (moment refusal value letter (of_aintc s))) }
{
    let o = aintc::outputs_sound(s);
    let irq = words::one_if(o.irq);
    let fiq = words::one_if(o.fiq);
    let i = s.irq;
    let f = s.fiq;
    let a = i.number as u32;
    let b = i.priority as u32;
    let c = f.number as u32;
    let d = f.priority as u32;
    [refusal, value, letter, irq, fiq, a, b, c, d, 0, 0]
}

// ---- widths

// How many bits each signal of a kind has.
pub(crate) fn widths(kind: u32) -> &'static [u32]
    ensures { result.now ≡ widths kind }
{
    match kind {
        kinds::AIC => &[8, 32, 8, 1, 1, 4, 5, 8, 32, 32, 32],
        kinds::CORE => &[8, 32, 8, 1, 1, 32, 32, 8, 8],
        kinds::CIC => &[8, 32, 8, 9, 9],
        kinds::AINTC => &[8, 32, 8, 1, 1, 7, 7, 7, 7],
        kinds::INDEXED => &[8, 32, 8, 9, 9],
        _ => &[8, 32, 8],
    }
}

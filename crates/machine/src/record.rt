// One controller of any kind, before and after its start, when it is sound, and the three numbers that it shows; its steps are `machine`'s (01, "House
// trace"; 02, 2/12 and 6/12).
ghost use Rattle.std.specs.Prelude.{◌≡◌, true};
ghost use Rattle.machine.specs.Machine.{blank, of_aic, of_core, of_cic, of_aintc, of_indexed, indexed, start, sound};
ghost use Rattle.machine.specs.Shown.{aic_columns, core_columns, cic_columns, aintc_columns, shown};

use aic_record::Aic;
use aintc_record::Aintc;
use cic_held::{Held, Prioritised};
use cic_record::Cic;
use coreinterrupt::Core;
use kinds::Configuration;

// The record of each kind; only that of the machine's own kind is ever used. A CIC with prioritised indices has its own in two parts: `cic`, and in
// `held` what is held beside it. The kind is the number that traces and callers from C tell; a machine of any other number is not sound.
#[derive(Clone, Copy)]
pub struct Machine {
    pub kind: u32,
    pub aic: Aic,
    pub core: Core,
    pub cic: Cic,
    pub aintc: Aintc,
    pub held: Held,
}

// The three numbers of a listing's line.
#[derive(Clone, Copy)]
pub struct Columns {
    pub first: u32,
    pub second: u32,
    pub third: u32,
}

// ---- the start

// The machine before a start: all its numbers are 0.
pub fn empty() -> Machine
    ensures { result ≡ blank }
{
    Machine {
        kind: kinds::AIC,
        aic: aic_record::reset_to(0, 0),
        core: coreinterrupt::start(0, 0, 0, 0).core,
        cic: cic::start(0, 0, 0, 0).cic,
        aintc: aintc_record::blank(),
        held: cic_held::nothing_held(0, 0),
    }
}

pub fn of_aic(a: Aic) -> Machine
    ensures { result ≡ of_aic a }
{
    Machine {
        kind: kinds::AIC,
        aic: a,
        ..empty()
    }
}

pub fn of_core(c: Core) -> Machine
    ensures { result ≡ of_core c }
{
    Machine {
        kind: kinds::CORE,
        core: c,
        ..empty()
    }
}

pub fn of_cic(c: Cic) -> Machine
    ensures { result ≡ of_cic c }
{
    Machine {
        kind: kinds::CIC,
        cic: c,
        ..empty()
    }
}

pub fn of_aintc(a: Aintc) -> Machine
    ensures { result ≡ of_aintc a }
{
    Machine {
        kind: kinds::AINTC,
        aintc: a,
        ..empty()
    }
}

pub fn of_indexed(p: Prioritised) -> Machine
    ensures { result ≡ of_indexed p }
{
    Machine {
        kind: kinds::INDEXED,
        cic: p.cic,
        held: p.held,
        ..empty()
    }
}

// The CIC with prioritised indices of a machine, its two parts together.
pub fn indexed(m: Machine) -> Prioritised
    ensures { result ≡ indexed m }
{
    cic_held::join(m.cic, m.held)
}

// The machine of a kind with these numbers; one that starts from a number beyond its limit is not sound or has a record of zeros.
pub fn start(kind: u32, c: Configuration) -> Machine
    ensures { result ≡ start kind c }
{
    let [first, second, third, fourth, fifth] = c.numbers;
    match kind {
        kinds::AIC => of_aic(aic::start(first, second).aic),
        kinds::CORE => of_core(coreinterrupt::start(first, second, third, fourth).core),
        kinds::CIC => of_cic(cic::start(first, second, third, fourth).cic),
        kinds::AINTC => of_aintc(aintc::start().aintc),
        kinds::INDEXED => {
            of_indexed(cic_prioritised::start(first, second, third, fourth, fifth).prioritised)
        }
        _ => empty(),
    }
}

// Whether the machine is of a known kind and its record keeps the rules of its model.
pub fn is_sound(m: Machine) -> bool
    ensures { result ≡ sound m }
{
    match m.kind {
        kinds::AIC => aic_record::is_sound(m.aic),
        kinds::CORE => coreinterrupt::is_sound(m.core),
        kinds::CIC => cic_record::is_sound(m.cic),
        kinds::AINTC => aintc_registers::choice::is_sound(m.aintc),
        kinds::INDEXED => cic_prioritised::is_sound(indexed(m)),
        _ => false,
    }
}

// ---- what a listing shows

// IRQ active, FIQ active, entries open.
pub fn aic_columns(o: aic::Signals) -> Columns
    ensures { result ≡ aic_columns o }
{
    Columns {
        first: words::one_if(o.irq),
        second: words::one_if(o.fiq),
        third: o.entries,
    }
}

// IRQ active, FIQ active, 0.
pub fn core_columns(o: coreinterrupt::Signals) -> Columns
    ensures { result ≡ core_columns o }
{
    Columns {
        first: words::one_if(o.irq),
        second: words::one_if(o.fiq),
        third: 0,
    }
}

// Asserted hosts, the lowest of them, 0; with prioritised indices or without.
pub fn cic_columns(o: cic_record::Signals) -> Columns
    ensures { result ≡ cic_columns o }
{
    Columns {
        first: o.hosts,
        second: o.lowest,
        third: 0,
    }
}

// IRQ active, FIQ active, the number of the input that is active for IRQ.
pub fn aintc_columns(o: aintc_registers::model::Signals) -> Columns
    ensures { result ≡ aintc_columns o }
{
    Columns {
        first: words::one_if(o.irq),
        second: words::one_if(o.fiq),
        third: o.number,
    }
}

// The three numbers of a machine that is known to be sound.
pub fn shown_sound(m: Machine) -> Columns
    requires { sound m ≡ true }
    ensures { result ≡ shown m }
{
    match m.kind {
        kinds::AIC => aic_columns(aic::outputs_sound(m.aic)),
        kinds::CORE => core_columns(coreinterrupt::outputs_sound(m.core)),
        kinds::CIC => cic_columns(cic::outputs_sound(m.cic)),
        kinds::AINTC => aintc_columns(aintc::outputs_sound(m.aintc)),
        _ => cic_columns(cic_prioritised::outputs_sound(indexed(m))),
    }
}

// The three numbers of any machine, all 0 where it is not sound.
pub fn shown(m: Machine) -> Columns
    ensures { result ≡ shown m }
{
    if is_sound(m) {
        return shown_sound(m);
    }
    Columns {
        first: 0,
        second: 0,
        third: 0,
    }
}

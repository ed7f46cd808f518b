// How a trace begins: the machine that it names, and where its steps begin (01, "House trace"; 02, 2/12).
#![tactic(auto)]

ghost use Rattle.std.specs.Prelude.{◌≡◌};
ghost use Rattle.beginning.specs.Begin.{setup_of, not_begun, begun_by, begin_of};

pub mod reports;

use kinds::Configuration;
use machine::record::Machine;
use numbers::{Fault, read_number};

// The numbers of a configuration with the place after them, where the steps begin.
#[derive(Clone, Copy)]
pub struct Setup {
    pub place: usize,
    pub configuration: Configuration,
}

// The machine at the first step with that step's place, or the refusal with its offset. It is no Result, since the theorems on beginnings name its
// fields, the machine before a start among them.
#[derive(Clone, Copy)]
pub struct Begun {
    pub refusal: u32,
    pub place: usize,
    pub machine: Machine,
}

pub const LONGEST: usize = 65536;

// Where the steps of a trace begin, and with which machine.
pub fn begin(trace: &[u8]) -> Begun
    ensures { result ≡ begin_of trace.now }
{
    match set_up(trace) {
        Ok((kind, t)) => {
            let m = machine::record::start(kind, t.configuration);
            Begun {
                refusal: steps::CARRIED_OUT,
                place: t.place,
                machine: m,
            }
        }
        Err(fault) => not_begun(fault),
    }
}

// No machine was started: its numbers are all 0.
fn not_begun(fault: Fault) -> Begun
    ensures { result ≡ not_begun fault.refusal fault.at }
{
    let m = machine::record::empty();
    Begun {
        refusal: fault.refusal,
        place: fault.at,
        machine: m,
    }
}

// The kind of controller that a trace names, and its configuration, all of which is accepted.
fn set_up(trace: &[u8]) -> Result<(u32, Setup), Fault>
    ensures { begun_by result ≡ begin_of trace.now }
{
    if LONGEST < trace.len() {
        return Err(Fault {
            refusal: steps::TOO_LONG,
            at: LONGEST,
        });
    }
    let kind = read_number(trace, 0)?;
    if !kinds::is_kind(kind.value) {
        return Err(Fault {
            refusal: steps::UNKNOWN,
            at: 0,
        });
    }
    let t = configuration_at(trace, kind.value, kind.next)?;
    Ok((kind.value, t))
}

// The configuration of a kind of controller from a place on: each number is checked as it is read, the nth one, from 0, by its own limit.
fn configuration_at(trace: &[u8], kind: u32, start: usize) -> Result<Setup, Fault>
    ensures { result ≡ setup_of kind trace.now start }
{
    let mut c = kinds::no_numbers();
    let mut at = start;
    for nth in 0..kinds::wanted(kind) {
        let v = read_number(trace, at)?;
        if !kinds::within(kind, nth, v.value) {
            return Err(Fault {
                refusal: steps::MISCONFIGURED,
                at,
            });
        }
        c = kinds::with_number(c, nth, v.value);
        at = v.next;
    }
    Ok(Setup {
        place: at,
        configuration: c,
    })
}

// What a machine shows after its start and after a step, as the ticks of a dump in a buffer that the caller lends.
ghost use Rattle.std.specs.Prelude.{◌≡◌, true, ◌++◌};
ghost use Rattle.text.specs.Text.{write};
ghost use Rattle.vcd.specs.Dump.{opening, declared, heading, first_tick, next_tick, ending};
ghost use Rattle.kinds.specs.Kinds.{name};
ghost use Rattle.machine.specs.Machine.{sound};
ghost use Rattle.lines.specs.Listing.{letter};
ghost use Rattle.waves.specs.Signals.{moment, signals, widths, values, eleven};

use super::by_kind;
use machine::record::Machine;
use steps::Step;

// Where the next byte goes, and the values that the last tick tells.
#[derive(Clone, Copy)]
pub struct Ticked {
    pub to: usize,
    pub values: [u32; 11],
}

// Where nothing begins: no signal, and the refusal.
pub(crate) fn put_none(out: &mut [u8], refusal: u32, offset: usize) -> usize
    ensures { (out.new, result) ≡ write (out.old, 0) (opening ++ declared ++ ending refusal offset) }
{
    let a = vcd::put_opening(out, 0);
    let b = vcd::put_declared(out, a);
    vcd::put_ending(out, b, refusal, offset)
}

// The heading and tick 0 of a machine that is known to be sound: no step yet, so no letter.
pub(crate) fn put_start(out: &mut [u8], m: Machine) -> Ticked
    requires { sound m ≡ true }
    ensures { ((out.new, result.to) ≡ write (out.old, 0) (heading (name m.kind) (signals m.kind) ++ first_tick (widths m.kind) (values (moment 0 0 0 m)))) × (result.values ≡ eleven (values (moment 0 0 0 m))) }
{
    let kind = m.kind;
    let values = super::signals::values(steps::CARRIED_OUT, 0, 0, m);
    let a = by_kind::put_heading(out, 0, kind);
    let to = by_kind::put_first(out, a, kind, &values);
    Ticked { to, values }
}

// Tick n: what a step that answered so changed, on a machine that is known to be sound.
pub(crate) fn put_step(
    out: &mut [u8],
    at: usize,
    n: u32,
    before: &[u32; 11],
    step: Step,
    refusal: u32,
    value: u32,
    m: Machine,
) -> Ticked
    requires { sound m ≡ true }
    ensures { ((out.new, result.to) ≡ write (out.old, at) (next_tick n (widths m.kind) before.now (values (moment refusal value (letter step refusal) m)))) × (result.values ≡ eleven (values (moment refusal value (letter step refusal) m))) }
{
    let letter = lines::letter_of(step, refusal) as u32;
    let values = super::signals::values(refusal, value, letter, m);
    let to = by_kind::put_next(out, at, m.kind, n, before, &values);
    Ticked { to, values }
}

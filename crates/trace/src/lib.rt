// What stands in a trace where a step would begin: its kind and the numbers that go with it, or the end (01, "House trace"; 02, 2/12).
#![tactic(auto)]

ghost use Rattle.std.specs.Prelude.{◌≡◌};
ghost use Rattle.trace.specs.Steps.{operands_of, plain, two_numbers, step_at, made_turn};
ghost use Rattle.trace.specs.Trace.{turn_at};

pub mod turns;

use numbers::{Fault, read_number};
use steps::{Recorded, Step};

// A step with the place after it, or the end: the refusal that makes it with its offset, else 0 and the length. It is no Result: a trace that ends with 0 is whole.
#[derive(Clone, Copy)]
pub enum Turn {
    Found(Recorded, usize),
    Ended(u32, usize),
}

pub const READ: u32 = 1;

pub const WRITE: u32 = 2;

pub const LINE: u32 = 3;

// One turn of a loop over the steps of a trace, at a place and with `left` of its limit: the next step, or how the trace ends. Where `told`, a
// privilege number follows each offset.
pub fn turn_at(trace: &[u8], at: usize, left: u32, told: bool) -> Turn
    ensures { result ≡ turn_at told trace.now at left }
{
    if trace.len() <= at {
        return Turn::Ended(steps::CARRIED_OUT, trace.len());
    }
    if left == 0 {
        return Turn::Ended(steps::LIMIT_REACHED, at);
    }
    match step_at(trace, at, told) {
        Ok((x, next)) => Turn::Found(x, next),
        Err(fault) => Turn::Ended(fault.refusal, fault.at),
    }
}

// The step at a place of a trace, with the place after it: its numbers one after the other, of which the first at fault refuses it. Where no byte is
// left that is a number cut short: a turn looks for the end first.
fn step_at(trace: &[u8], at: usize, told: bool) -> Result<(Recorded, usize), Fault>
    ensures { made_turn result ≡ step_at told trace.now at }
{
    let kind = read_number(trace, at)?;
    let wanted = operands(told, kind.value);
    if wanted == 0 {
        return Err(Fault {
            refusal: steps::UNKNOWN,
            at,
        });
    }
    let x = read_number(trace, kind.next)?;
    if wanted == 1 {
        return Ok((plain(Step::Read(x.value)), x.next));
    }
    let y = read_number(trace, x.next)?;
    if wanted == 2 {
        return Ok((two_numbers(kind.value, x.value, y.value), y.next));
    }
    let z = read_number(trace, y.next)?;
    let write = Recorded {
        step: Step::Write(x.value, z.value),
        privilege: y.value,
    };
    Ok((write, z.next))
}

// A step of which the trace tells no privilege.
fn plain(x: Step) -> Recorded
    ensures { result ≡ plain x }
{
    Recorded {
        step: x,
        privilege: steps::PRIVILEGED,
    }
}

// The step of a kind that goes with two numbers.
fn two_numbers(kind: u32, x: u32, y: u32) -> Recorded
    ensures { result ≡ two_numbers kind x y }
{
    if kind == READ {
        return Recorded {
            step: Step::Read(x),
            privilege: y,
        };
    }
    if kind == WRITE {
        return plain(Step::Write(x, y));
    }
    plain(Step::Line(x, y))
}

// How many numbers go with a kind of step, 0 with one that is not known.
fn operands(told: bool, kind: u32) -> u32
    ensures { result ≡ operands_of told kind }
{
    if kind == READ {
        if told {
            return 2;
        }
        return 1;
    }
    if kind == WRITE {
        if told {
            return 3;
        }
        return 2;
    }
    if kind == LINE {
        return 2;
    }
    0
}

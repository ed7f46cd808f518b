// The ticks of the steps of a trace, in a buffer that the caller lends.
ghost use Rattle.std.specs.Prelude.{◌≡◌};
ghost use Rattle.text.specs.Text.{write};
ghost use Rattle.trace.specs.Trace.{steps_from};
ghost use Rattle.machine.specs.RecordPromises.{Ready};
ghost use Rattle.waves.specs.Moments.{rest_from};

use super::ticks;
use machine::record::Machine;
use trace::Turn;

// The ticks of the steps from a place on, and how they end, on a machine that is known to be sound; where `told`, the steps tell their privilege. The limit
// falls by one with each step.
// No range counts the steps: a turn of the trace tells its end, also where the limit is reached.
pub(crate) fn put_steps(
    trace: &[u8],
    limit: u32,
    told: bool,
    start: usize,
    first: Machine,
    values: [u32; 11],
    out: &mut [u8],
    from: usize,
) -> usize
    requires { Ready first }
    ensures { (out.new, result) ≡ write (out.old, from) (rest_from 0 values first (steps_from told limit trace.now start)) }
{
    let mut before = values;
    let mut at = start;
    let mut m = first;
    let mut more = limit;
    let mut number: u32 = 0;
    let mut to = from;
    loop {
        match trace::turn_at(trace, at, more, told) {
            Turn::Ended(refusal, offset) => {
                return vcd::put_ending(out, to, refusal, offset);
            }
            Turn::Found(x, next) => {
                let a = machine::step_sound(m, x);
                m = a.machine;
                at = next;
                more -= 1;
                number += 1;
                let step = x.step;
                let t = ticks::put_step(out, to, number, &before, step, a.refusal, a.value, m);
                to = t.to;
                before = t.values;
            }
        }
    }
}

// The waves of a trace: the value change dump of what its machine shows after the start and after each step, as text in a buffer that the caller lends.
#![tactic(auto)]

ghost use Rattle.std.specs.Prelude.{◌≡◌};
ghost use Rattle.steps.specs.Refusals.{carried_out};
ghost use Rattle.text.specs.Text.{write, laid};
ghost use Rattle.trace.specs.Trace.{steps_from};
ghost use Rattle.kinds.specs.Kinds.{tells_privilege};
ghost use Rattle.beginning.specs.Begin.{begin_of};
ghost use Rattle.waves.specs.Waves.{dump_of, waves_of};

mod by_kind;
mod moments;
mod names;
mod signals;
mod ticks;

use beginning::Begun;

// The waves of a trace of which at most `limit` steps are played; answers how many bytes were written, and what finds no room is dropped.
pub fn waves(trace: &[u8], limit: u32, out: &mut [u8]) -> usize
    ensures { (out.new, result) ≡ laid out.old (waves_of trace.now limit) }
{
    let b = beginning::begin(trace);
    if b.refusal != steps::CARRIED_OUT {
        return ticks::put_none(out, b.refusal, b.place);
    }
    put_begun(trace, limit, b, out)
}

// Those of a trace that has begun.
fn put_begun(trace: &[u8], limit: u32, b: Begun, out: &mut [u8]) -> usize
    requires { (b ≡ begin_of trace.now) × (b.refusal ≡ carried_out) }
    ensures { (out.new, result) ≡ write (out.old, 0) (dump_of b.machine (steps_from (tells_privilege b.machine.kind) limit trace.now b.place)) }
{
    let m = b.machine;
    let start = ticks::put_start(out, m);
    let first = start.values;
    let told = kinds::tells_privilege(m.kind);
    moments::put_steps(trace, limit, told, b.place, m, first, out, start.to)
}

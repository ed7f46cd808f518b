// Plays and lists the steps of a trace on a machine of any kind (01, "House trace"; 02, 2/12).
ghost use Rattle.std.specs.Prelude.{◌≡◌};
ghost use Rattle.text.specs.Text.{write};
ghost use Rattle.trace.specs.Trace.{steps_from};
ghost use Rattle.machine.specs.RecordPromises.{Ready};
ghost use Rattle.beginning.specs.Play.{report};
ghost use Rattle.lines.specs.Listing.{text_from};

use beginning::reports::Played;
use machine::record::Machine;
use trace::Turn;

// Plays the steps from a place on; where `told`, they tell their privilege. The limit falls by one with each step.
pub fn play_steps(trace: &[u8], limit: u32, told: bool, start: usize, first: Machine) -> Played
    requires { Ready first }
    ensures { result ≡ report 0 first (steps_from told limit trace.now start) }
{
    let mut at = start;
    let mut m = first;
    let mut left = limit;
    let mut count: u32 = 0;
    // No range counts the steps: a turn of the trace tells its end, also where the limit is reached.
    loop {
        match trace::turn_at(trace, at, left, told) {
            Turn::Ended(refusal, offset) => {
                return Played {
                    steps: count,
                    machine: m,
                    refusal,
                    offset,
                };
            }
            Turn::Found(x, next) => {
                let a = machine::step_sound(m, x);
                m = a.machine;
                at = next;
                left -= 1;
                count += 1;
            }
        }
    }
}

// The lines of the steps from a place on, and how they end; where `told`, they tell their privilege. The limit falls by one with each step.
pub fn list_steps(
    trace: &[u8],
    limit: u32,
    told: bool,
    start: usize,
    first: Machine,
    out: &mut [u8],
    from: usize,
) -> usize
    requires { Ready first }
    ensures { (out.new, result) ≡ write (out.old, from) (text_from 0 first (steps_from told limit trace.now start)) }
{
    let mut at = start;
    let mut m = first;
    let mut more = limit;
    let mut number: u32 = 0;
    let mut to = from;
    // No range counts the steps: a turn of the trace tells its end, also where the limit is reached.
    loop {
        match trace::turn_at(trace, at, more, told) {
            Turn::Ended(refusal, offset) => {
                return lines::put_end(out, to, refusal, offset);
            }
            Turn::Found(x, next) => {
                let a = machine::step_sound(m, x);
                m = a.machine;
                at = next;
                more -= 1;
                number += 1;
                let step = x.step;
                let letter = lines::letter_of(step, a.refusal);
                let value = lines::shown_value(a.refusal, a.value);
                to = lines::put_line(
                    out,
                    to,
                    number,
                    letter,
                    value,
                    machine::record::shown_sound(m),
                );
            }
        }
    }
}

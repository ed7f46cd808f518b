// Plays and lists the steps of a trace on a machine that stands in a room. No kind of controller is named here (01, "House trace"; 02, 2/12).
ghost use Rattle.std.specs.Prelude.{◌≡◌};
ghost use Rattle.text.specs.Text.{write};
ghost use Rattle.trace.specs.Trace.{steps_from};
ghost use Rattle.machine.specs.RecordPromises.{Ready};
ghost use Rattle.beginning.specs.Play.{report};
ghost use Rattle.lines.specs.Listing.{text_from};

pub mod plain;

use beginning::reports::Played;
use machine::record::Machine;

// Plays the steps from a place on; where `told`, they tell their privilege. The limit falls by one with each step.
pub(crate) fn play_steps(
    trace: &[u8],
    limit: u32,
    told: bool,
    start: usize,
    first: Machine,
) -> Played
    requires { Ready first }
    ensures { result ≡ report 0 first (steps_from told limit trace.now start) }
{
    let mut room = machine_room::lay(first, false);
    let mut at = start;
    let mut left = limit;
    let mut count: u32 = 0;
    // No range counts the steps: a turn of the trace tells its end, also where the limit is reached.
    loop {
        let t = trace::turns::sure(
            trace::turns::quick(trace, at, left, told),
            trace,
            at,
            left,
            told,
        );
        if t.kind == trace::turns::ENDED {
            let m = machine_room::record_of(&room, first);
            return Played {
                steps: count,
                machine: m,
                refusal: t.refusal,
                offset: t.next,
            };
        }
        machine_room::step(&mut room, t.kind, t.x, t.y, t.privilege);
        at = t.next;
        left -= 1;
        count += 1;
    }
}

// The lines of the steps from a place on, and how they end; where `told`, they tell their privilege. The limit falls by one with each step, and the
// text of the line's number is kept from line to line.
pub fn list_steps(
    trace: &[u8],
    limit: u32,
    told: bool,
    start: usize,
    first: Machine,
    out: &mut [u8],
    from: usize,
) -> usize
    requires { Ready first }
    ensures { (out.new, result) ≡ write (out.old, from) (text_from 0 first (steps_from told limit trace.now start)) }
{
    let mut room = machine_room::lay(first, true);
    let mut place = start;
    let mut more = limit;
    let mut number: u32 = 0;
    let mut numeral = text::room::numeral_of(0);
    let mut to = from;
    // No range counts the steps: a turn of the trace tells its end, also where the limit is reached.
    loop {
        let t = trace::turns::sure(
            trace::turns::quick(trace, place, more, told),
            trace,
            place,
            more,
            told,
        );
        if t.kind == trace::turns::ENDED {
            return lines::put_end(out, to, t.refusal, t.next);
        }
        let a = machine_room::step(&mut room, t.kind, t.x, t.y, t.privilege);
        place = t.next;
        more -= 1;
        numeral = text::room::following(numeral, number);
        number += 1;
        let c = machine_room::columns(&room);
        let refusal = rooms::refusal_in(a);
        let value = rooms::value_in(a);
        to = lines::put_numbered(out, to, number, numeral, t.kind, refusal, value, c);
    }
}

// The traces of the year's report, one by one: each is played, its figures are put to the totals, and its line is printed (02, 11/12).
ghost use Rattle.std.specs.Prelude.{◌≡◌, not, eqb};
ghost use Rattle.words.specs.Choice.{pick};
ghost use Rattle.words.specs.Counting.{one};
ghost use Rattle.text.specs.Text.{laid};
ghost use Rattle.totals.specs.Totals.{added};
ghost use Rattle.tally.specs.Tally.{tally_of};
ghost use Rattle.report.specs.Printed.{trace_line, left_out_line};
ghost use Rattle.report.specs.Put.{Put};

use super::progress;
use super::progress::Sum;
use std::rt::Files;
use tally::Tallied;

// The most steps of a trace that are played.
const LIMIT: u32 = 20000;

// A name up to its line feed: the rest of one that is too long is passed over, and nothing is played once a line could not be written.
pub(crate) fn pass<R: Files + Print>(rt: &R, name: &[u8], skipping: bool, sum: Sum) -> Sum
    ensures { Put sum.totals (one (not skipping)) result.totals }
{
    if skipping {
        return sum;
    }
    if !sum.written {
        return sum;
    }
    play(rt, name, sum)
}

// Plays the trace of a name. One byte more is read than a trace may have, so that a longer one is told apart.
fn play<R: Files + Print>(rt: &R, name: &[u8], sum: Sum) -> Sum
    ensures { Put sum.totals 1 result.totals }
{
    let mut room = [0u8; 65537];
    let came = reading::read_file(rt, name, &mut room);
    if came.failed {
        return progress::unopened(rt, name, sum);
    }
    let n = came.bytes;
    put_to(rt, &room[..n], name, sum)
}

// Puts the figures of a trace to the totals, and prints its line.
fn put_to<R: Print>(rt: &R, trace: &[u8], name: &[u8], sum: Sum) -> Sum
    ensures { result.totals ≡ (added sum.totals (tally_of trace.now 20000).figures).totals }
{
    let f = tally::figures(trace, LIMIT);
    let figures = f.figures;
    let t = sum.totals;
    let a = totals::add(t, figures);
    let after = a.totals;
    Sum {
        totals: after,
        written: print_line(rt, f, a.refusal, name),
    }
}

// The line of a trace that was played; whether it could be written.
fn print_line<R: Print>(rt: &R, f: Tallied, refusal: u32, name: &[u8]) -> bool {
    let mut out = progress::line_room();
    let n = put_line(&mut out, f, refusal, name);
    rt.write_all(&out[..n]).is_ok()
}

// Its steps where it is in the totals, else the refusal by which it is left out.
fn put_line(out: &mut [u8], f: Tallied, refusal: u32, name: &[u8]) -> usize
    ensures { (out.new, result) ≡ laid out.old (pick (eqb refusal 0) (trace_line f.steps f.refused f.refusal f.offset name.now) (left_out_line refusal name.now)) }
{
    if refusal == steps::CARRIED_OUT {
        return super::put_trace(out, f.steps, f.refused, f.refusal, f.offset, name);
    }
    super::put_left_out(out, refusal, name)
}

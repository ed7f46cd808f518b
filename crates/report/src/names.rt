// The names of the year's report, one to a line on standard input: each is taken in order, and its trace put to the report (02, 11/12).
ghost use Rattle.std.specs.Prelude.{ℕ, ◌≤◌, length};
ghost use Rattle.report.specs.Lines.{feeds_before};
ghost use Rattle.report.specs.Put.{Put};

use super::held::{Reading, State};
use super::progress::Sum;
use super::{held, traces};
use std::rt::Files;

// What is left of the names that were read: the place where a name begins that has no line feed yet, and the report after those before it, and whether
// that name is passed over as too long.
#[derive(Clone, Copy)]
struct Rest {
    at: usize,
    skipping: bool,
    sum: Sum,
}

// The report after all names, and whether reading them failed.
// A flag beside the report, and not a Result, since `take` promises of the report's totals in either case.
#[derive(Clone, Copy)]
pub struct Taken {
    pub failed: bool,
    pub sum: Sum,
}

// Plays the trace of every name on standard input, of which `names` is the room. The last one may have no line feed; it is passed over where nothing of it is
// held, or reading failed. The totals are those of the report given, with the traces put to them one after the other.
pub fn take<R: Files + Input + Print>(rt: &R, names: &mut [u8], first: Sum) -> Taken
    ensures { (n : ℕ) × Put first.totals n result.sum.totals }
{
    let s = all_names(rt, names, first);
    let failed = s.reading == Reading::Failed;
    Taken {
        failed,
        sum: traces::pass(rt, &names[..s.held], failed | (s.held == 0), s.sum),
    }
}

// Plays the trace of every name that has a line feed. Nothing says that standard input ends: there are as many turns as no run uses up.
fn all_names<R: Files + Input + Print>(rt: &R, names: &mut [u8], first: Sum) -> State
    ensures { (result.held ≤ length names.new) × ((n : ℕ) × Put first.totals n result.sum.totals) }
{
    let mut s = held::begin(first);
    for _ in 0..u64::MAX {
        s = turn(rt, names, s);
        if s.reading != Reading::More {
            break;
        }
    }
    s
}

// Reads more names behind those that are held, plays the whole ones, of which there are no more than bytes, and keeps the begun one.
fn turn<R: Files + Input + Print>(rt: &R, names: &mut [u8], s: State) -> State
    requires { s.held ≤ length names.old }
    ensures { (result.held ≤ length names.new) × Put s.sum.totals (length names.new) result.sum.totals }
{
    let held = s.held;
    let sum = s.sum;
    let came = held::fill(rt, names, held);
    let end = held + came.bytes;
    let r = lines(rt, &names[..end], s.skipping, sum);
    let at = r.at;
    let rest = r.sum;
    reading::shift(names, at);
    held::settle(rt, names, end - at, r.skipping, rest, came)
}

// Plays the trace of each name that has a line feed, and tells where the one begins that has none. At most one trace is put to the totals for each line
// feed.
fn lines<R: Files + Print>(rt: &R, s: &[u8], skipping: bool, first: Sum) -> Rest
    ensures { (result.at ≤ length s.now) × Put first.totals (feeds_before s.now (length s.now)) result.sum.totals }
{
    let mut sum = first;
    let mut skips = skipping;
    let mut at: usize = 0;
    loop {
        let e = super::line_end(s, at);
        if s.len() <= e {
            return Rest {
                at,
                skipping: skips,
                sum,
            };
        }
        let n = super::name_end(s, at, e);
        sum = traces::pass(rt, &s[at..n], skips, sum);
        skips = false;
        at = e + 1;
    }
}

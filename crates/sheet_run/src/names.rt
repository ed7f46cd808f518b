// The names of the sheet, one to a line on standard input: each is taken in order, as for the report, and its trace put to the sheet.
ghost use Rattle.std.specs.Prelude.{◌≤◌, length, IfOk, IfErr, IfSome};
ghost use Rattle.sheet_run.specs.Put.{Put, sheet_of};

use super::held::State;
use super::progress::Stopped;
use super::{held, traces};
use stack::Table;
use std::rt::Files;
use totals::sheets::Sheet;

// What is left of the names that were read: the place where a name begins that has no line feed yet, and the sheet after those before it.
#[derive(Clone, Copy)]
struct Rest {
    at: usize,
    sheet: Sheet,
}

// Plays the trace of every name on standard input, of which `names` is the room. The last one may have no line feed; it is passed over where nothing of it is
// held. The sheet is the one given, with the names put to it one after the other.
pub(crate) fn take<R: Files + Input + Print>(
    rt: &R,
    names: &mut [u8],
    table: Table,
    first: Sheet,
) -> Result<Sheet, Stopped>
    ensures { Put table first (sheet_of result) }
{
    let s = all_names(rt, names, table, first)?;
    let held = s.begun.unwrap_or(0);
    traces::pass(rt, &names[..held], held == 0, table, s.sheet)
}

// Plays the trace of every name that has a line feed. Nothing says that standard input ends: the turns have a bound that no run comes to.
fn all_names<R: Files + Input + Print>(
    rt: &R,
    names: &mut [u8],
    table: Table,
    first: Sheet,
) -> Result<State, Stopped>
    ensures within { IfOk result (λ s. IfSome s.begun (λ n. n ≤ length names.new)) }
    ensures put { IfOk result (λ s. Put table first s.sheet) }
    ensures stopped { IfErr result (λ e. Put table first e.sheet) }
{
    let mut s = State {
        begun: Some(0),
        sheet: first,
    };
    for _ in 0..u64::MAX {
        let held = s.begun.unwrap_or(0);
        let came = held::fill(rt, names, held, s.sheet)?;
        if came == 0 {
            break;
        }
        s = turn(rt, names, held + came, table, s)?;
    }
    Ok(s)
}

// Plays the whole names among the bytes up to `end`, and keeps the begun one.
fn turn<R: Files + Print>(
    rt: &R,
    names: &mut [u8],
    end: usize,
    table: Table,
    s: State,
) -> Result<State, Stopped>
    requires { end ≤ length names.old }
    ensures within { IfOk result (λ after. IfSome after.begun (λ n. n ≤ length names.new)) }
    ensures put { IfOk result (λ after. Put table s.sheet after.sheet) }
    ensures stopped { IfErr result (λ e. Put table s.sheet e.sheet) }
{
    let skipping = s.begun.is_none();
    let rest = lines(rt, &names[..end], skipping, table, s.sheet)?;
    reading::shift(names, rest.at);
    held::settle(
        rt,
        names,
        end - rest.at,
        skipping & (rest.at == 0),
        rest.sheet,
    )
}

// Plays the trace of each name that has a line feed, but for the rest of one that is passed over, and tells where the one begins that has none.
fn lines<R: Files + Print>(
    rt: &R,
    s: &[u8],
    skipping: bool,
    table: Table,
    first: Sheet,
) -> Result<Rest, Stopped>
    ensures within { IfOk result (λ r. r.at ≤ length s.now) }
    ensures put { IfOk result (λ r. Put table first r.sheet) }
    ensures stopped { IfErr result (λ e. Put table first e.sheet) }
{
    let mut sheet = first;
    let mut skips = skipping;
    let mut at: usize = 0;
    loop {
        let e = report::line_end(s, at);
        if s.len() <= e {
            return Ok(Rest { at, sheet });
        }
        let n = report::name_end(s, at, e);
        sheet = traces::pass(rt, &s[at..n], skips, table, sheet)?;
        skips = false;
        at = e + 1;
    }
}

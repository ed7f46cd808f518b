// The figures of the tuning sheet: those of one trace, and those of all that are named, added up (02, 11/12 and 12/12).
ghost use Rattle.std.specs.Prelude.{◌≡◌, false};
ghost use Rattle.totals.specs.Sheet.{no_sheet, more, counted, too_much, numbers_pass, first_of, together, summed, added, left_unopened};

use super::Totals;
use super::waits::Waits;

// What the sheet takes from one trace: the steps played and refused, marks opened, ends of interrupt that found no entry open, entries open after the last
// step; how it ended and where; whether it starts an AIC; a word of the sources that are enabled in some record; the lowest source that does not keep the
// table in the first record that does not (32 for none) and the step after which that is; the figures and the waits of each source.
// It is a number with 32 for none, and not an Option, since the promises `eighteen` and `sixteen` compare it with 32.
#[derive(Clone, Copy)]
pub struct Noted {
    pub steps: u32,
    pub refused: u32,
    pub marks: u32,
    pub idle: u32,
    pub left: u32,
    pub refusal: u32,
    pub offset: usize,
    pub aic: bool,
    pub used: u32,
    pub strays: u32,
    pub astray: u32,
    pub figures: Totals,
    pub waits: Waits,
}

// What the sheet says of all: the names read, those left out by 16, 17 and 18, and over the others sums and largest numbers; `trace` is the number of the
// name whose wait first has no bound.
#[derive(Clone, Copy)]
pub struct Sheet {
    pub named: u32,
    pub full: u32,
    pub unopened: u32,
    pub unkept: u32,
    pub steps: u32,
    pub refused: u32,
    pub marks: u32,
    pub idle: u32,
    pub left: u32,
    pub used: u32,
    pub figures: Totals,
    pub waits: Waits,
    pub trace: [u32; 32],
}

// The sheet with a trace put to it; or 16 or 18, and it is left out.
// The number stands beside the sheet, and not in a Result: a sheet counts the traces that are left out, so there is one in either case.
#[derive(Clone, Copy)]
pub struct Added {
    pub refusal: u32,
    pub sheet: Sheet,
}

// A trace that does not keep the table.
pub const UNKEPT: u32 = 18;

// The sheet of no name.
pub fn none() -> Sheet
    ensures { result ≡ no_sheet }
{
    Sheet {
        named: 0,
        full: 0,
        unopened: 0,
        unkept: 0,
        steps: 0,
        refused: 0,
        marks: 0,
        idle: 0,
        left: 0,
        used: 0,
        figures: super::none(),
        waits: super::waits::none(),
        trace: [0; 32],
    }
}

// The sheet with a trace put to it: left out by 18 where it does not keep the table, else by 16 where a sum would pass 4,294,967,295.
pub fn add(s: Sheet, t: Noted) -> Added
    ensures { result ≡ added s t }
{
    if t.strays < 32 {
        return Added {
            refusal: UNKEPT,
            sheet: counted(s, s.full, s.unopened, more(s.unkept)),
        };
    }
    sum_up(s, t)
}

// The sheet with a name that cannot be opened or read.
pub fn unopened(s: Sheet) -> Sheet
    ensures { result ≡ left_unopened s }
{
    counted(s, s.full, more(s.unopened), s.unkept)
}

// The same of a trace that keeps the table.
fn sum_up(s: Sheet, t: Noted) -> Added
    ensures { result ≡ summed s t }
{
    let f = super::add(s.figures, t.figures);
    let w = super::waits::add(s.waits, t.waits);
    if numbers_pass(s, t) | (f.refusal != steps::CARRIED_OUT) | (w.refusal != steps::CARRIED_OUT) {
        return Added {
            refusal: steps::OVERFULL,
            sheet: counted(s, more(s.full), s.unopened, s.unkept),
        };
    }
    Added {
        refusal: steps::CARRIED_OUT,
        sheet: together(s, t, f.totals, w.waits),
    }
}

// One more name, with these counters of those left out; all else is as it was.
fn counted(s: Sheet, full: u32, unopened: u32, unkept: u32) -> Sheet
    ensures { result ≡ counted s full unopened unkept }
{
    Sheet {
        named: more(s.named),
        full,
        unopened,
        unkept,
        ..s
    }
}

// One name more, with its trace: the figures and the waits are those of both.
fn together(s: Sheet, t: Noted, figures: Totals, waits: Waits) -> Sheet
    requires { numbers_pass s t ≡ false }
    ensures { result ≡ together s t figures waits }
{
    Sheet {
        named: more(s.named),
        steps: s.steps + t.steps,
        refused: s.refused + t.refused,
        marks: s.marks + t.marks,
        idle: s.idle + t.idle,
        left: s.left + t.left,
        used: words::join(s.used, t.used),
        figures,
        waits,
        trace: first_of(s, t),
        ..s
    }
}

// For each source the number of the name whose wait first has no bound, with this trace.
fn first_of(s: Sheet, t: Noted) -> [u32; 32]
    ensures { result ≡ first_of s t }
{
    let lost = super::waits::newly(s.waits, t.waits);
    let this = more(s.named);
    super::waits::chosen(lost, s.trace, [this; 32])
}

// Whether one of the sums that are of no source would pass 4,294,967,295.
fn numbers_pass(s: Sheet, t: Noted) -> bool
    ensures { result ≡ numbers_pass s t }
{
    too_much(s.steps, t.steps)
        | too_much(s.refused, t.refused)
        | too_much(s.marks, t.marks)
        | too_much(s.idle, t.idle)
        | too_much(s.left, t.left)
}

fn too_much(a: u32, b: u32) -> bool
    ensures { result ≡ too_much a b }
{
    a.checked_add(b).is_none()
}

// One more, up to 4,294,967,295.
fn more(n: u32) -> u32
    ensures { result ≡ more n }
{
    n.saturating_add(1)
}

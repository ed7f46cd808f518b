// The traces of the sheet, one by one: each is played, what the sheet takes from it is put to the figures, and its row is printed.
ghost use Rattle.std.specs.Prelude.{◌≡◌, eqb};
ghost use Rattle.words.specs.Choice.{pick};
ghost use Rattle.text.specs.Text.{laid};
ghost use Rattle.sheet.specs.Rows.{trace_row, left_out_row};
ghost use Rattle.totals.specs.Sheet.{added};
ghost use Rattle.sheet_traces.specs.Noted.{note_of};
ghost use Rattle.sheet_run.specs.Put.{Put, sheet_of};

use super::progress;
use super::progress::{Stopped, Unfinished};
use stack::Table;
use std::rt::Files;
use totals::sheets::{Noted, Sheet};

// The most steps of a trace that are played.
const LIMIT: u32 = 20000;

// A name up to its line feed; the rest of one that is too long is passed over.
pub(crate) fn pass<R: Files + Print>(
    rt: &R,
    name: &[u8],
    skipping: bool,
    table: Table,
    sheet: Sheet,
) -> Result<Sheet, Stopped>
    ensures { Put table sheet (sheet_of result) }
{
    if skipping {
        return Ok(sheet);
    }
    play(rt, name, table, sheet)
}

// Plays the trace of a name. One byte more is read than a trace may have, so that a longer one is told apart.
fn play<R: Files + Print>(rt: &R, name: &[u8], table: Table, sheet: Sheet) -> Result<Sheet, Stopped>
    ensures { Put table sheet (sheet_of result) }
{
    let mut room = [0u8; 65537];
    let came = reading::read_file(rt, name, &mut room);
    if came.failed {
        return progress::unopened(rt, name, sheet);
    }
    put_to(rt, &room[..came.bytes], name, table, sheet)
}

// Puts a trace to the figures, and prints its row.
fn put_to<R: Print>(
    rt: &R,
    trace: &[u8],
    name: &[u8],
    table: Table,
    sheet: Sheet,
) -> Result<Sheet, Stopped>
    ensures { sheet_of result ≡ (added sheet (note_of trace.now 20000 table)).sheet }
{
    let t = sheet_traces::note(trace, LIMIT, table);
    let a = totals::sheets::add(sheet, t);
    progress::printed(print_row(rt, a.sheet.named, t, a.refusal, name), a.sheet)
}

// The row of the nth name, whose trace was played.
fn print_row<R: Print>(
    rt: &R,
    n: u32,
    t: Noted,
    refusal: u32,
    name: &[u8],
) -> Result<(), Unfinished> {
    let mut out = sheet::row_room();
    let k = put_row(&mut out, n, t, refusal, name);
    progress::write(rt, &out[..k])
}

// Its figures where it is counted, else the refusal by which it is left out.
fn put_row(out: &mut [u8], n: u32, t: Noted, refusal: u32, name: &[u8]) -> usize
    ensures { (out.new, result) ≡ laid out.old (pick (eqb refusal 0) (trace_row n t name.now) (left_out_row n refusal t.astray t.strays name.now)) }
{
    if refusal == steps::CARRIED_OUT {
        return sheet::put_trace(out, n, t, name);
    }
    sheet::put_left_out(out, n, refusal, t.astray, t.strays, name)
}

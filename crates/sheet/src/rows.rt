// The row of a trace.
ghost use Rattle.std.specs.Prelude.{◌≡◌};
ghost use Rattle.text.specs.Text.{write};
ghost use Rattle.sheet.specs.Rows.{row_head, ended, enabling, remark, ending, trace_row, reason, left_out_row};

use super::{cells, escapes};
use totals::sheets::Noted;

// Of a trace that is counted.
pub(crate) fn put_counted(out: &mut [u8], at: usize, n: u32, t: Noted, name: &[u8]) -> usize
    ensures { (out.new, result) ≡ write (out.old, at) (trace_row n t name.now) }
{
    let a = put_row_head(out, at, n, name);
    let b = cells::put_cell(out, a, b"trace-steps", t.steps as u64, b"steps");
    let c = cells::put_cell(out, b, b"trace-steps-refused", t.refused as u64, b"steps");
    let d = cells::put_cell(out, c, b"trace-marks", t.marks as u64, b"marks");
    let e = cells::put_cell(out, d, b"trace-idle-ends", t.idle as u64, b"ends");
    let f = cells::put_cell(
        out,
        e,
        b"trace-entries-left-open",
        t.left as u64,
        b"entries",
    );
    put_ending(out, f, t)
}

// Of one that is left out, and why.
pub(crate) fn put_out(
    out: &mut [u8],
    at: usize,
    n: u32,
    refusal: u32,
    step: u32,
    source: u32,
    name: &[u8],
) -> usize
    ensures { (out.new, result) ≡ write (out.old, at) (left_out_row n refusal step source name.now) }
{
    let a = put_row_head(out, at, n, name);
    let b = text::put_all(out, a, b"<td colspan=\"6\" data-figure=\"trace-left-out\">");
    let c = put_reason(out, b, refusal, step, source);
    text::put_all(out, c, b"</td></tr>\n")
}

fn put_row_head(out: &mut [u8], at: usize, n: u32, name: &[u8]) -> usize
    ensures { (out.new, result) ≡ write (out.old, at) (row_head n name.now) }
{
    let a = text::phrases::put_counted(out, at, b"<tr><th>", n);
    let b = text::put_all(out, a, b"</th><td>");
    let c = escapes::put_escaped(out, b, name);
    text::put_all(out, c, b"</td>")
}

fn put_ending(out: &mut [u8], at: usize, t: Noted) -> usize
    ensures { (out.new, result) ≡ write (out.old, at) (ending t) }
{
    let a = text::put_all(out, at, b"<td data-figure=\"trace-ending\">");
    let b = put_ended(out, a, t.refusal, t.offset);
    let c = put_remark(out, b, t.aic, t.used);
    text::put_all(out, c, b"</td></tr>\n")
}

// Whole, or E with the refusal and its offset.
fn put_ended(out: &mut [u8], at: usize, refusal: u32, offset: usize) -> usize
    ensures { (out.new, result) ≡ write (out.old, at) (ended refusal offset) }
{
    if refusal == steps::CARRIED_OUT {
        return text::put_all(out, at, b"whole");
    }
    let a = text::put_all(out, at, b"E");
    let b = text::put_field(out, a, refusal as u64);
    text::put_field(out, b, offset as u64)
}

fn put_remark(out: &mut [u8], at: usize, aic: bool, used: u32) -> usize
    ensures { (out.new, result) ≡ write (out.old, at) (remark aic used) }
{
    if aic {
        return put_enabling(out, at, used);
    }
    text::put_all(out, at, b", not of an AIC: steps only")
}

fn put_enabling(out: &mut [u8], at: usize, used: u32) -> usize
    ensures { (out.new, result) ≡ write (out.old, at) (enabling used) }
{
    if used == 0 {
        return text::put_all(out, at, b", enables no source");
    }
    at
}

fn put_reason(out: &mut [u8], at: usize, refusal: u32, step: u32, source: u32) -> usize
    ensures { (out.new, result) ≡ write (out.old, at) (reason refusal step source) }
{
    match refusal {
        steps::OVERFULL => text::put_all(
            out,
            at,
            b"left out by 16: a sum of the page would pass 4294967295",
        ),
        steps::UNOPENED => {
            text::put_all(out, at, b"left out by 17: it could not be opened or read")
        }
        _ => {
            let a = text::phrases::put_counted(out, at, b"left out by 18: after step ", step);
            let b = text::phrases::put_counted(out, a, b" source ", source);
            text::put_all(out, b, b" is enabled and not as in the table")
        }
    }
}

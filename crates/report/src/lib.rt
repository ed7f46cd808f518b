// The year's report as text, in a buffer that the caller lends: a line for each trace named, and a line for each source (02, 11/12).
#![tactic(auto)]

ghost use Rattle.std.specs.Prelude.{◌≡◌};
ghost use Rattle.text.specs.Text.{write, laid};
ghost use Rattle.report.specs.Lines.{line_end, name_end};
ghost use Rattle.report.specs.Printed.{ended_at, named, trace_line, left_out_line, source_line, source_lines};

mod held;
pub mod names;
pub mod progress;
mod traces;

use text::NEWLINE;
use totals::Totals;

// The byte that some put before each line feed.
const CARRIAGE_RETURN: u8 = 13;

// Where the line that holds place `at` ends: the first line feed from there on, or the end; a place beyond the end is its own answer.
pub fn line_end(s: &[u8], at: usize) -> usize
    ensures { result ≡ line_end s.now at }
{
    let Some(rest) = s.get(at..) else {
        return at;
    };
    at + rest
        .iter()
        .position(|&b| b == NEWLINE)
        .unwrap_or(rest.len())
}

// Where the name ends that begins at `at`, its line feed standing at `e`: one carriage return before that is no part of it.
pub fn name_end(s: &[u8], at: usize, e: usize) -> usize
    ensures { result ≡ name_end s.now at e }
{
    if e <= at {
        return e;
    }
    let last = e - 1;
    if last < s.len() {
        if s[last] == CARRIAGE_RETURN {
            return last;
        }
    }
    e
}

// The line of a trace that is in the totals: the steps played and refused, how it ended if with a refusal, and its name. It stands at the start of the buffer;
// answers how many bytes were written, and what finds no room is dropped.
pub fn put_trace(
    out: &mut [u8],
    played: u32,
    refused: u32,
    refusal: u32,
    offset: usize,
    name: &[u8],
) -> usize
    ensures { (out.new, result) ≡ laid out.old (trace_line played refused refusal offset name.now) }
{
    let a = text::phrases::put_counted(out, 0, b"steps played ", played);
    let b = text::phrases::put_counted(out, a, b", steps refused ", refused);
    let c = put_ended(out, b, refusal, offset);
    put_name(out, c, name)
}

// The line of a trace that is left out: the refusal, 16 or 17, and its name.
pub fn put_left_out(out: &mut [u8], refusal: u32, name: &[u8]) -> usize
    ensures { (out.new, result) ≡ laid out.old (left_out_line refusal name.now) }
{
    let a = text::phrases::put_counted(out, 0, b"refusal ", refusal);
    put_name(out, a, name)
}

// The 32 lines of the sources, 0 to 31.
pub fn put_sources(out: &mut [u8], t: Totals) -> usize
    ensures { (out.new, result) ≡ laid out.old (source_lines 32 t) }
{
    let mut at = 0;
    // Source i is told by its number and by three figures at its place: the place is plainer than three arrays zipped.
    for i in 0..32 {
        at = put_source(out, at, i as u32, t.started[i], t.waited[i], t.entries[i]);
    }
    at
}

// E, the refusal and its offset, of a trace that ended so; nothing where it did not.
fn put_ended(out: &mut [u8], at: usize, refusal: u32, offset: usize) -> usize
    ensures { (out.new, result) ≡ write (out.old, at) (ended_at refusal offset) }
{
    if refusal == steps::CARRIED_OUT {
        return at;
    }
    let a = text::put_all(out, at, b", E");
    let b = text::put_field(out, a, refusal as u64);
    text::put_field(out, b, offset as u64)
}

// The name, which comes last so that any byte may be in it, and the end of the line.
fn put_name(out: &mut [u8], at: usize, name: &[u8]) -> usize
    ensures { (out.new, result) ≡ write (out.old, at) (named name.now) }
{
    let a = text::put_all(out, at, b": ");
    let b = text::put_all(out, a, name);
    text::put(out, b, NEWLINE)
}

// One source's three figures.
fn put_source(out: &mut [u8], at: usize, i: u32, started: u32, waited: u32, entries: u32) -> usize
    ensures { (out.new, result) ≡ write (out.old, at) (source_line i started waited entries) }
{
    let a = text::phrases::put_counted(out, at, b"source ", i);
    let b = text::phrases::put_counted(out, a, b": handlers started ", started);
    let c = text::phrases::put_counted(out, b, b", most handlers started while it waited ", waited);
    let d = text::phrases::put_counted(out, c, b", most entries open while it was open ", entries);
    text::put(out, d, NEWLINE)
}

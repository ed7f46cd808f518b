// The lines of the year's report as they are printed: the report so far, the lines that need no trace, and buffers that every line fits (02, 11/12).
ghost use Rattle.std.specs.Prelude.{◌≡◌, true, List, ℕ, ◌≤◌, ◌<◌, ◌^◌, length};
ghost use Rattle.text.specs.Text.{laid};
ghost use Rattle.totals.specs.declared.Totals.{Totals as Figures};
ghost use Rattle.totals.specs.Totals.{zeros};
ghost use Rattle.report.specs.Printed.{trace_line, left_out_line, source_lines};
ghost use Rattle.report.specs.Promises.{Words};

use totals::Totals;

// The report so far: the totals, and whether every line of it could be written.
#[derive(Clone, Copy)]
pub struct Sum {
    pub totals: Totals,
    pub written: bool,
}

// Before any name: no trace is in the totals, and nothing had to be written.
pub fn none() -> Sum
    ensures { (result.totals ≡ zeros) × (result.written ≡ true) }
{
    let t = totals::none();
    Sum {
        totals: t,
        written: true,
    }
}

// A name whose file cannot be opened or read: the totals are as they were.
pub(crate) fn unopened<R: Print>(rt: &R, name: &[u8], sum: Sum) -> Sum
    ensures { result.totals ≡ sum.totals }
{
    let t = sum.totals;
    Sum {
        totals: t,
        written: print_unopened(rt, name),
    }
}

// The lines of the sources, unless a line before them could not be written; whether all could be.
pub fn ended<R: Print>(rt: &R, sum: Sum) -> bool {
    if !sum.written {
        return false;
    }
    let t = sum.totals;
    print_sources(rt, t)
}

// The line of a name whose file cannot be opened or read.
fn print_unopened<R: Print>(rt: &R, name: &[u8]) -> bool {
    let mut out = line_room();
    let n = put_unopened(&mut out, name);
    rt.write_all(&out[..n]).is_ok()
}

// The lines of the sources; whether all could be written.
fn print_sources<R: Print>(rt: &R, t: Totals) -> bool {
    let mut out = sources_room();
    let n = super::put_sources(&mut out, t);
    rt.write_all(&out[..n]).is_ok()
}

fn put_unopened(out: &mut [u8], name: &[u8]) -> usize
    ensures { (out.new, result) ≡ laid out.old (left_out_line 17 name.now) }
{
    super::put_left_out(out, steps::UNOPENED, name)
}

// A buffer that the line of any name of at most 4,096 bytes fits.
pub(crate) fn line_room() -> [u8; 4183]
    ensures value { 4183 ≡ length result }
    ensures any { (played refused refusal offset : ℕ) (name : List ℕ) → played < 2 ^ 32 → refused < 2 ^ 32 → refusal < 2 ^ 32 → length name ≤ 4096 → (length (trace_line played refused refusal offset name) ≤ length result) × (length (left_out_line refusal name) ≤ length result) }
{
    [0; 4183]
}

// A buffer that the lines of the sources fit.
fn sources_room() -> [u8; 4384]
    ensures value { 4384 ≡ length result }
    ensures any { (t : Figures) → Words 32 t → length (source_lines 32 t) ≤ length result }
{
    [0; 4384]
}

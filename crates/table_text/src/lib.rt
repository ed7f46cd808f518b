// The priority table that a trace of an AIC leaves in the record, as it is typed, in a buffer that the caller lends (docs/STACK.md).
#![tactic(auto)]

ghost use Rattle.std.specs.Prelude.{◌≡◌, ◌<◌};
ghost use Rattle.steps.specs.Refusals.{carried_out};
ghost use Rattle.text.specs.Text.{write, laid};
ghost use Rattle.beginning.specs.Begin.{begin_of};
ghost use Rattle.beginning.specs.Play.{play_of};
ghost use Rattle.table_text.specs.Text.{heading, source_line, source_lines, last_lines, table_text, no_beginning, no_table, is_tabled, text_of};

use aic_record::Aic;
use beginning::Begun;
use text::NEWLINE;

// Whether there is a table, and how many bytes of it, or of the line that says why there is none, were written.
// A flag stands beside the number since `print` is a documented function, and the number is one of bytes either way.
#[derive(Clone, Copy)]
pub struct Tabled {
    pub tabled: bool,
    pub bytes: usize,
}

// The most steps of a trace that are played.
const MOST: u32 = 20000;

// ---- the whole trace

// The table after the last step played, or why there is none, from the start of the buffer on; what finds no room is dropped.
pub fn print(trace: &[u8], out: &mut [u8]) -> Tabled
    ensures { ((out.new, result.bytes) ≡ laid out.old (text_of trace.now)) × (result.tabled ≡ is_tabled trace.now) }
{
    let b = beginning::begin(trace);
    if b.refusal != steps::CARRIED_OUT {
        let n = put_no_beginning(out, b.refusal, b.place);
        return Tabled {
            tabled: false,
            bytes: n,
        };
    }
    print_begun(trace, b, out)
}

// That of a trace that has begun.
fn print_begun(trace: &[u8], b: Begun, out: &mut [u8]) -> Tabled
    requires { (b ≡ begin_of trace.now) × (b.refusal ≡ carried_out) }
    ensures { ((out.new, result.bytes) ≡ laid out.old (text_of trace.now)) × (result.tabled ≡ is_tabled trace.now) }
{
    let m = b.machine;
    if m.kind != kinds::AIC {
        let n = put_no_table(out);
        return Tabled {
            tabled: false,
            bytes: n,
        };
    }
    let n = put_played(trace, out);
    Tabled {
        tabled: true,
        bytes: n,
    }
}

// That of a trace of an AIC.
fn put_played(trace: &[u8], out: &mut [u8]) -> usize
    ensures { (out.new, result) ≡ laid out.old (table_text (play_of trace.now 20000).machine.aic) }
{
    let p = player::play(trace, MOST);
    let m = p.machine;
    put_table(out, m.aic)
}

// ---- the text

// The table in a record.
pub fn put_table(out: &mut [u8], a: Aic) -> usize
    ensures { (out.new, result) ≡ laid out.old (table_text a) }
{
    let first = put_heading(out);
    let modes = a.mode;
    let next = put_sources(out, first, modes);
    put_last(out, next, a.forced)
}

fn put_heading(out: &mut [u8]) -> usize
    ensures { (out.new, result) ≡ write (out.old, 0) heading }
{
    text::put_all(
        out,
        0,
        b"# priority, type and frame in bytes of each source, 0 first; the frames and that of a mark are 0 and to be filled in\n",
    )
}

// A line for each source.
fn put_sources(out: &mut [u8], at: usize, modes: [u8; 32]) -> usize
    ensures { (out.new, result) ≡ write (out.old, at) (source_lines modes 32 0) }
{
    let mut next = at;
    for i in 0..32 {
        next = put_source(out, next, modes[i], i as u32);
    }
    next
}

// That of a source of this mode.
fn put_source(out: &mut [u8], at: usize, mode: u8, source: u32) -> usize
    ensures { (out.new, result) ≡ write (out.old, at) (source_line mode source) }
{
    let a = text::put_decimal(out, at, (mode % 8) as u64);
    let b = text::put_field(out, a, (mode / 32 % 4) as u64);
    let c = text::phrases::put_counted(out, b, b" 0 # source ", source);
    text::put(out, c, NEWLINE)
}

fn put_last(out: &mut [u8], at: usize, forced: u32) -> usize
    ensures { (out.new, result) ≡ write (out.old, at) (last_lines forced) }
{
    let a = text::put_all(out, at, b"0x");
    let b = text::put_hex(out, a, forced);
    text::put_all(out, b, b" # forced sources\n0 # frame of a mark in bytes\n")
}

// ---- why there is none

fn put_no_beginning(out: &mut [u8], refusal: u32, offset: usize) -> usize
    ensures { (out.new, result) ≡ laid out.old (no_beginning refusal offset) }
{
    let a = text::put_all(out, 0, b"no table: the trace has no beginning, E");
    let b = text::put_field(out, a, refusal as u64);
    let c = text::put_field(out, b, offset as u64);
    text::put(out, c, NEWLINE)
}

fn put_no_table(out: &mut [u8]) -> usize
    ensures { (out.new, result) ≡ laid out.old no_table }
{
    text::put_all(out, 0, b"no table: the trace is not of an AIC\n")
}

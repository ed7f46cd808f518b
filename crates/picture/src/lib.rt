// The nesting of an AIC over a window of its trace as a picture, SVG, in a buffer that the caller lends; a line of text where there is no such picture.
#![tactic(auto)]

ghost use Rattle.std.specs.Prelude.{◌≡◌, false, ◌≤◌, length};
ghost use Rattle.steps.specs.Refusals.{carried_out};
ghost use Rattle.text.specs.Text.{laid};
ghost use Rattle.trace.specs.Trace.{steps_from};
ghost use Rattle.kinds.specs.Kinds.{aic_kind};
ghost use Rattle.machine.specs.RecordPromises.{Ready};
ghost use Rattle.beginning.specs.Begin.{begin_of};
ghost use Rattle.picture.specs.Picture.{inside, is_drawn, drawn_of, picture_of};

mod reasons;
mod window;

use beginning::Begun;
use machine::record::Machine;

// Whether there is a picture, and how many bytes of it, or of the line of text, were written.
// A flag stands beside the number since `picture` is a documented function, and the number is one of bytes either way.
#[derive(Clone, Copy)]
pub struct Drawn {
    pub drawn: bool,
    pub bytes: usize,
}

// The most steps of a trace that are played.
const MOST: u32 = 20000;

// The picture of at most so many steps of a trace from the first on, or why there is none, from the start of the buffer on; what finds no room is dropped.
pub fn picture(trace: &[u8], first: u32, steps: u32, out: &mut [u8]) -> Drawn
    ensures { ((out.new, result.bytes) ≡ laid out.old (picture_of trace.now first steps)) × (result.drawn ≡ is_drawn trace.now first steps) }
{
    let b = beginning::begin(trace);
    if b.refusal != steps::CARRIED_OUT {
        let n = reasons::put_no_beginning(out, b.refusal, b.place);
        return Drawn {
            drawn: false,
            bytes: n,
        };
    }
    picture_begun(trace, first, steps, b, out)
}

// That of a trace that has begun.
fn picture_begun(trace: &[u8], first: u32, steps: u32, b: Begun, out: &mut [u8]) -> Drawn
    requires { (b ≡ begin_of trace.now) × (b.refusal ≡ carried_out) }
    ensures { ((out.new, result.bytes) ≡ laid out.old (picture_of trace.now first steps)) × (result.drawn ≡ is_drawn trace.now first steps) }
{
    let m = b.machine;
    if m.kind != kinds::AIC {
        let n = reasons::put_no_entries(out);
        return Drawn {
            drawn: false,
            bytes: n,
        };
    }
    picture_aic(trace, first, steps, b, out)
}

// That of a trace of an AIC.
fn picture_aic(trace: &[u8], first: u32, steps: u32, b: Begun, out: &mut [u8]) -> Drawn
    requires { (b ≡ begin_of trace.now) × (b.refusal ≡ carried_out) × (b.machine.kind ≡ aic_kind) }
    ensures { ((out.new, result.bytes) ≡ laid out.old (picture_of trace.now first steps)) × (result.drawn ≡ is_drawn trace.now first steps) }
{
    let m = b.machine;
    let p = player::loops::plain::play_steps(trace, MOST, false, b.place, m);
    if inside(p.steps, first, steps) {
        let n = draw_window(trace, first, steps, b.place, m, out);
        return Drawn {
            drawn: true,
            bytes: n,
        };
    }
    let n = reasons::put_wrong_window(out, p.steps);
    Drawn {
        drawn: false,
        bytes: n,
    }
}

// A window has 1 to 500 steps, and begins with one of those played, which are numbered from 1.
fn inside(played: u32, first: u32, steps: u32) -> bool
    ensures { result ≡ inside played first steps }
{
    (1 <= first) & (first <= played) & (1 <= steps) & (steps <= 500)
}

// The drawing of a window of the steps from a place on: 500 of them, and what held before, are 501 columns.
fn draw_window(
    trace: &[u8],
    first: u32,
    steps: u32,
    start: usize,
    m: Machine,
    out: &mut [u8],
) -> usize
    requires { Ready m × (1 ≤ first) × (first ≤ length (steps_from false 20000 trace.now start).steps) × (steps ≤ 500) }
    ensures { (out.new, result) ≡ laid out.old (drawn_of first steps m (steps_from false 20000 trace.now start)) }
{
    let mut columns = [0u64; 501];
    let f = window::fill(trace, MOST, first, steps, start, m, &mut columns);
    let n = f.count;
    let source = f.source;
    let level = f.level;
    drawing::draw(out, first, &columns[..n], &source, &level)
}

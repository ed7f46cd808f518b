// The waits of a source of an AIC over a trace, each with its bound (02, 11/12 and 12/12): as text, in a buffer that the caller lends, and as figures.
#![tactic(auto)]

ghost use Rattle.std.specs.Prelude.{◌≡◌, true, false, ◌<◌, ◌≤◌, length};
ghost use Rattle.words.specs.Choice.{pick};
ghost use Rattle.steps.specs.Refusals.{carried_out};
ghost use Rattle.text.specs.Text.{write, laid};
ghost use Rattle.trace.specs.Trace.{steps_from};
ghost use Rattle.kinds.specs.Kinds.{aic_kind};
ghost use Rattle.aic_record.specs.Sound.{sound};
ghost use Rattle.aic_record.specs.Promises.{Shaped};
ghost use Rattle.aic_bounds.specs.Bounds.{bound_of};
ghost use Rattle.aic_bounds.specs.Figures.{figures_of, largest_now, unended_now};
ghost use Rattle.beginning.specs.Begin.{begin_of};
ghost use Rattle.tally.specs.Tally.{steps_in};
ghost use Rattle.trace_bounds.specs.Waits.{waited, only_if, waits_of};
ghost use Rattle.trace_bounds.specs.Lines.{end_words, term_words, bound_words, wait_line, wait_lines, most_words, last_line};
ghost use Rattle.trace_bounds.specs.Lines.{no_beginning, no_waits, no_source};
ghost use Rattle.trace_bounds.specs.Listing.{is_source, is_listed, lines_of, bound_text};
ghost use Rattle.trace_bounds.specs.Figures.{figures_in, counts_of, terms_of};

use aic_bounds::Bound;
use aic_bounds::figures::Figures;
use aic_record::Aic;
use beginning::Begun;
use text::NEWLINE;
use trace::Turn;

// Whether there are lines of waits, and how many bytes of them, or of the line that says why there are none, were written.
// A flag beside the number, and not a Result: bytes are written in either case, and `list` promises both fields of every trace.
#[derive(Clone, Copy)]
pub struct Listed {
    pub listed: bool,
    pub bytes: usize,
}

// What was told of some steps: how far the text goes, the figures, and how the steps ended and where.
#[derive(Clone, Copy)]
pub struct Told {
    pub bytes: usize,
    pub figures: Figures,
    pub refusal: u32,
    pub offset: usize,
}

// The most steps of a trace that are played.
const MOST: u32 = 20000;

// ---- the whole trace

// The waits of a source over a trace, or why there are none, from the start of the buffer on; what finds no room is dropped.
pub fn list(trace: &[u8], source: u32, out: &mut [u8]) -> Listed
    ensures { ((out.new, result.bytes) ≡ laid out.old (bound_text trace.now source)) × (result.listed ≡ is_listed trace.now source) }
{
    let b = beginning::begin(trace);
    if b.refusal != steps::CARRIED_OUT {
        let n = put_no_beginning(out, b.refusal, b.place);
        return Listed {
            listed: false,
            bytes: n,
        };
    }
    list_begun(trace, source, b, out)
}

// Those of a trace that has begun.
fn list_begun(trace: &[u8], source: u32, b: Begun, out: &mut [u8]) -> Listed
    requires { (b ≡ begin_of trace.now) × (b.refusal ≡ carried_out) }
    ensures { ((out.new, result.bytes) ≡ laid out.old (bound_text trace.now source)) × (result.listed ≡ is_listed trace.now source) }
{
    if b.machine.kind != kinds::AIC {
        let n = put_no_waits(out);
        return Listed {
            listed: false,
            bytes: n,
        };
    }
    list_aic(trace, source, b, out)
}

// Those of a trace of an AIC.
fn list_aic(trace: &[u8], source: u32, b: Begun, out: &mut [u8]) -> Listed
    requires { (b ≡ begin_of trace.now) × (b.refusal ≡ carried_out) × (b.machine.kind ≡ aic_kind) }
    ensures { ((out.new, result.bytes) ≡ laid out.old (bound_text trace.now source)) × (result.listed ≡ is_listed trace.now source) }
{
    if is_source(source) {
        let n = put_lines(trace, source, b.place, b.machine.aic, out);
        return Listed {
            listed: true,
            bytes: n,
        };
    }
    let n = put_no_source(out);
    Listed {
        listed: false,
        bytes: n,
    }
}

// Whether a source may wait: source 0 is always fast.
fn is_source(source: u32) -> bool
    ensures { result ≡ is_source source }
{
    (1 <= source) & (source <= 31)
}

// The lines of a source from a place of the trace on.
fn put_lines(trace: &[u8], source: u32, start: usize, first: Aic, out: &mut [u8]) -> usize
    requires { (sound first ≡ true) × Shaped first × (source < 32) × (length trace.now ≤ 65536) }
    ensures { (out.new, result) ≡ laid out.old (lines_of source first (steps_from false 20000 trace.now start)) }
{
    let t = tell_steps(trace, MOST, source, start, first, out);
    let n = put_last(out, t.bytes, source, t.figures);
    lines::put_end(out, n, t.refusal, t.offset)
}

// The figures of all waits of a source over at most `limit` steps of a trace; none where it has none to be listed.
pub fn figures(trace: &[u8], limit: u32, source: u32) -> Figures
    ensures { result ≡ figures_in trace.now limit source }
{
    let b = beginning::begin(trace);
    let m = b.machine;
    if (b.refusal == steps::CARRIED_OUT) & (m.kind == kinds::AIC) & is_source(source) {
        let mut none = [0u8; 1];
        let t = tell_steps(trace, limit, source, b.place, m.aic, &mut none);
        return t.figures;
    }
    aic_bounds::figures::no_figures()
}

// The waits that began, of these those that did not end and those without a bound; the number of the first step by which one has none, 0 where all have
// one.
pub fn counts_of(f: Figures) -> [u32; 4]
    ensures { result ≡ counts_of f }
{
    let unended = aic_bounds::figures::unended_now(f);
    [f.begun, unended, f.unbounded, f.first]
}

// The six terms of the largest bound: handlers.
pub fn terms_of(f: Figures) -> [u32; 6]
    ensures { result ≡ terms_of f }
{
    let b = aic_bounds::figures::largest_now(f);
    [
        b.pending,
        b.edges,
        b.commands,
        b.turns,
        b.closed,
        b.remembered,
    ]
}

// The largest bound: handlers.
pub fn most(f: Figures) -> u64
    ensures { result ≡ bound_of (largest_now f) }
{
    aic_bounds::figures::bound_of(aic_bounds::figures::largest_now(f))
}

// ---- the steps

// The lines of the waits over the steps from a place on, from the start of the buffer on, and what is told of them. The steps tell no privilege, as those
// of an AIC. The limit falls by one with each step.
// No range counts the steps: a turn of the trace tells its end, also where the limit is reached.
fn tell_steps(
    trace: &[u8],
    limit: u32,
    source: u32,
    start: usize,
    first: Aic,
    out: &mut [u8],
) -> Told
    requires { (sound first ≡ true) × Shaped first × (source < 32) × (length trace.now ≤ 65536) }
    ensures text { (out.new, result.bytes) ≡ write (out.old, 0) (wait_lines (waits_of source first (steps_in (steps_from false limit trace.now start).steps))) }
    ensures figures { result.figures ≡ figures_of source first (steps_in (steps_from false limit trace.now start).steps) }
    ensures ending { (result.refusal ≡ (steps_from false limit trace.now start).refusal) × (result.offset ≡ (steps_from false limit trace.now start).offset) }
{
    let mut at = start;
    let mut s = first;
    let mut left = limit;
    let mut to: usize = 0;
    let mut n: u32 = 0;
    let mut began: u32 = 0;
    let mut f = aic_bounds::figures::no_figures();
    loop {
        match trace::turn_at(trace, at, left, false) {
            Turn::Ended(refusal, offset) => {
                let b = f.bound;
                let end = put_if(out, to, 1 < b.wait, began, 0, b);
                return Told {
                    bytes: end,
                    figures: f,
                    refusal,
                    offset,
                };
            }
            Turn::Found(x, next) => {
                let y = x.step;
                let a = aic::step_sound(s, y);
                let t = a.aic;
                let b = f.bound;
                let w = aic_waits::stands(b.wait, source, s.depth, t);
                let m = aic_bounds::marks_of(s, y, a.refusal == steps::CARRIED_OUT);
                n += 1;
                to = put_if(out, to, (1 < b.wait) & (w < 2), began, n, b);
                began = aic_bounds::either(b.wait < 2, n, began);
                f = aic_bounds::figures::figures_after(source, w, n, f, m, t);
                s = t;
                at = next;
                left -= 1;
            }
        }
    }
}

// ---- the text

// The line of a wait, if there is one.
fn put_if(out: &mut [u8], at: usize, there: bool, began: u32, ended: u32, b: Bound) -> usize
    ensures { (out.new, result) ≡ write (out.old, at) (wait_lines (only_if there (waited began ended b))) }
{
    if there {
        return put_wait(out, at, began, ended, b);
    }
    at
}

// The line of a wait.
fn put_wait(out: &mut [u8], at: usize, began: u32, ended: u32, b: Bound) -> usize
    ensures { (out.new, result) ≡ write (out.old, at) (wait_line (waited began ended b)) }
{
    let c = text::phrases::put_counted(out, at, b"began by step ", began);
    let d = put_ended(out, c, ended);
    let e = text::phrases::put_counted(out, d, b"; handlers started ", b.wait.saturating_sub(2));
    let g = put_bound(out, e, b);
    text::put(out, g, NEWLINE)
}

// By which step it ended.
fn put_ended(out: &mut [u8], at: usize, ended: u32) -> usize
    ensures { (out.new, result) ≡ write (out.old, at) (end_words ended) }
{
    if ended == 0 {
        return text::put_all(out, at, b", not ended");
    }
    text::phrases::put_counted(out, at, b", ended by step ", ended)
}

// Its bound, or by which step it has none.
fn put_bound(out: &mut [u8], at: usize, b: Bound) -> usize
    ensures { (out.new, result) ≡ write (out.old, at) (bound_words b) }
{
    if b.broke == 0 {
        let c = text::put_all(out, at, b", at most ");
        let d = text::put_decimal(out, c, aic_bounds::figures::bound_of(b));
        return put_terms(out, d, b);
    }
    text::phrases::put_counted(
        out,
        at,
        b", no bound: a mode or a forcing written by step ",
        b.broke,
    )
}

// The terms of its bound.
fn put_terms(out: &mut [u8], at: usize, b: Bound) -> usize
    ensures { (out.new, result) ≡ write (out.old, at) (term_words b) }
{
    let c = text::phrases::put_counted(out, at, b" handlers: pending ", b.pending);
    let d = text::phrases::put_counted(out, c, b", edges ", b.edges);
    let e = text::phrases::put_counted(out, d, b", commands ", b.commands);
    let g = text::phrases::put_counted(out, e, b", turns ", b.turns);
    let h = text::phrases::put_counted(out, g, b", closed while active ", b.closed);
    text::phrases::put_counted(out, h, b", remembered ", b.remembered)
}

// The last line: all waits of a source.
fn put_last(out: &mut [u8], at: usize, source: u32, f: Figures) -> usize
    ensures { (out.new, result) ≡ write (out.old, at) (last_line source f.begun (unended_now f) f.unbounded (bound_of (largest_now f))) }
{
    let a = text::phrases::put_counted(out, at, b"source ", source);
    let b = text::phrases::put_counted(out, a, b": waits ", f.begun);
    let c = text::phrases::put_counted(
        out,
        b,
        b", not ended ",
        aic_bounds::figures::unended_now(f),
    );
    let d = text::phrases::put_counted(out, c, b", without a bound ", f.unbounded);
    let e = put_most(out, d, f.begun, f.unbounded, most(f));
    text::put(out, e, NEWLINE)
}

// The largest bound, where a wait has one.
fn put_most(out: &mut [u8], at: usize, begun: u32, unbounded: u32, handlers: u64) -> usize
    ensures { (out.new, result) ≡ write (out.old, at) (most_words begun unbounded handlers) }
{
    if unbounded < begun {
        let a = text::put_all(out, at, b"; handlers started in one with a bound at most ");
        return text::put_decimal(out, a, handlers);
    }
    at
}

// The trace has no beginning: the refusal and its offset.
fn put_no_beginning(out: &mut [u8], refusal: u32, offset: usize) -> usize
    ensures { (out.new, result) ≡ laid out.old (no_beginning refusal offset) }
{
    let a = text::put_all(out, 0, b"no bound: the trace has no beginning, E");
    let b = text::put_field(out, a, refusal as u64);
    let c = text::put_field(out, b, offset as u64);
    text::put(out, c, NEWLINE)
}

// Its controller has no source that waits.
fn put_no_waits(out: &mut [u8]) -> usize
    ensures { (out.new, result) ≡ laid out.old no_waits }
{
    text::put_all(
        out,
        0,
        b"no bound: the trace is not of an AIC, and no source of another controller waits\n",
    )
}

// The number is that of no source that waits.
fn put_no_source(out: &mut [u8]) -> usize
    ensures { (out.new, result) ≡ laid out.old no_source }
{
    text::put_all(
        out,
        0,
        b"no bound: a source that waits is a number from 1 to 31\n",
    )
}

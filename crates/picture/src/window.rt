// A window of a trace of an AIC as columns: one for what held before it, and one for each of its steps.
ghost use Rattle.std.specs.Prelude.{◌≡◌, false, [], ◌∷◌, ◌+◌, ◌*◌, ◌≤◌, length};
ghost use Rattle.text.specs.Text.{write, laid};
ghost use Rattle.trace.specs.Trace.{steps_from};
ghost use Rattle.machine.specs.RecordPromises.{Ready};
ghost use Rattle.drawing.specs.Bars.{packed};
ghost use Rattle.picture.specs.Window.{column_of, columns_from, before, columns_of};

use aic_record::Aic;
use machine::record::Machine;
use trace::Turn;

// How many columns there are, and the sources and levels of the entries that were open before the window.
#[derive(Clone, Copy)]
pub struct Filled {
    pub count: usize,
    pub source: [u8; 8],
    pub level: [u8; 8],
}

// The columns of a window: at most `steps` steps, from the one numbered `first` on, of those played from the place `start` on, which are at most `limit` and
// numbered from 1. They tell no privilege, as those of an AIC. A column that finds no room is dropped.
pub(crate) fn fill(
    trace: &[u8],
    limit: u32,
    first: u32,
    steps: u32,
    start: usize,
    m: Machine,
    columns: &mut [u64],
) -> Filled
    requires { Ready m × (1 ≤ first) × (first ≤ length (steps_from false limit trace.now start).steps) }
    ensures { ((columns.new, result.count) ≡ laid columns.old (columns_of first steps m (steps_from false limit trace.now start).steps)) × (result.source ≡ (before first m (steps_from false limit trace.now start).steps).aic.source) × (result.level ≡ (before first m (steps_from false limit trace.now start).steps).aic.level) }
{
    let p = player::loops::plain::play_steps(trace, first - 1, false, start, m);
    let b = p.machine;
    let a = b.aic;
    let next = put_column(columns, 0, column(a, steps::CARRIED_OUT));
    let most = steps.min(limit - (first - 1));
    let count = put_steps(trace, most, p.offset, b, columns, next);
    let source = a.source;
    let level = a.level;
    Filled {
        count,
        source,
        level,
    }
}

// The columns of the steps from a place on, each where the next one goes. The limit falls by one with each step.
// No range counts the steps: a turn of the trace tells its end, also where the limit is reached.
fn put_steps(
    trace: &[u8],
    limit: u32,
    start: usize,
    first: Machine,
    columns: &mut [u64],
    from: usize,
) -> usize
    requires { Ready first }
    ensures { (columns.new, result) ≡ write (columns.old, from) (columns_from first (steps_from false limit trace.now start).steps) }
{
    let mut at = start;
    let mut m = first;
    let mut left = limit;
    let mut to = from;
    loop {
        match trace::turn_at(trace, at, left, false) {
            Turn::Ended(refusal, offset) => {
                return to;
            }
            Turn::Found(x, next) => {
                let a = machine::step_sound(m, x);
                m = a.machine;
                at = next;
                left -= 1;
                to = put_column(columns, to, column(m.aic, a.refusal));
            }
        }
    }
}

// One column where the next one goes; answers where the one after it goes.
fn put_column(columns: &mut [u64], at: usize, w: u64) -> usize
    ensures { (columns.new, result) ≡ write (columns.old, at) (w ∷ []) }
{
    if at < columns.len() {
        columns[at] = w;
        at + 1
    } else {
        at
    }
}

// What holds after a step, of which s is the AIC, as one number.
fn column(s: Aic, refusal: u32) -> u64
    ensures { result ≡ packed (column_of refusal s) }
{
    let o = aic::outputs(s);
    let source = aic_record::last::last_source(s);
    let level = aic_record::last::last_level(s);
    pack(
        words::one_if(o.irq),
        words::one_if(o.fiq),
        o.entries,
        source,
        level,
        refusal,
    )
}

// The fields of a column, each in its bits.
fn pack(irq: u32, fiq: u32, entries: u32, source: u32, level: u32, refusal: u32) -> u64
    ensures { result ≡ irq + 2 * fiq + 4 * entries + 64 * source + 2048 * level + 524288 * refusal }
{
    let low = irq as u64 + 2 * fiq as u64 + 4 * entries as u64;
    low + 64 * source as u64 + 2048 * level as u64 + 524288 * refusal as u64
}

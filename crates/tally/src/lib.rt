// The figures of one trace: the steps played and refused, and of an AIC what each source did over them (02, 11/12).
#![tactic(auto)]

ghost use Rattle.std.specs.Prelude.{◌≡◌, false, not, ℕ, ◌+◌, ◌<◌, ◌≤◌, eqb, length};
ghost use Rattle.words.specs.Counting.{one};
ghost use Rattle.steps.specs.Refusals.{carried_out};
ghost use Rattle.trace.specs.Trace.{steps_from};
ghost use Rattle.machine.specs.RecordPromises.{Ready};
ghost use Rattle.beginning.specs.Begin.{begin_of};
ghost use Rattle.kinds.specs.Kinds.{aic_kind};
ghost use Rattle.steps.specs.declared.Recorded.{Recorded};
ghost use Rattle.aic_waits.specs.Following.{Figures, no_figures};
ghost use Rattle.machine.specs.declared.record.Machine.{Machine};
ghost use Rattle.machine.specs.Steps.{step};
ghost use Rattle.machine_room.specs.Room.{Laid};
ghost use Rattle.tally.specs.Tally.{tally_of};
ghost use Rattle.tally.specs.Following.{followed_by, tallied, not_tallied, Followed};

use aic_figures::Book;
use beginning::Begun;
use machine::record::Machine;
use rooms::Room;
use totals::Totals;

// The steps played, the steps refused among them, how the trace ended and where, and the figures of each source.
// The refusal stands beside the figures, and not in a Result: a trace that ends by one has figures up to there, and promises name both fields.
#[derive(Clone, Copy)]
pub struct Tallied {
    pub steps: u32,
    pub refused: u32,
    pub refusal: u32,
    pub offset: usize,
    pub figures: Totals,
}

// The figures of a trace of which at most `limit` steps are played.
pub fn figures(trace: &[u8], limit: u32) -> Tallied
    ensures { result ≡ tally_of trace.now limit }
{
    let b = beginning::begin(trace);
    if b.refusal != steps::CARRIED_OUT {
        return not_tallied(b.refusal, b.place);
    }
    tally_begun(trace, limit, b)
}

// Those of a trace that has no beginning.
fn not_tallied(refusal: u32, offset: usize) -> Tallied
    ensures { result ≡ not_tallied refusal offset }
{
    Tallied {
        steps: 0,
        refused: 0,
        refusal,
        offset,
        figures: totals::none(),
    }
}

// Those of a trace that has begun.
fn tally_begun(trace: &[u8], limit: u32, b: Begun) -> Tallied
    requires { (b ≡ begin_of trace.now) × (b.refusal ≡ carried_out) }
    ensures { result ≡ tally_of trace.now limit }
{
    let m = b.machine;
    let told = kinds::tells_privilege(m.kind);
    tally_steps(trace, limit, told, b.place, m)
}

// Plays the steps from a place on in a room, and moves the figures on with each; where `told`, they tell their privilege. The limit falls by one with
// each step.
// No range counts the steps: a turn of the trace tells its end, also where the limit is reached.
fn tally_steps(trace: &[u8], limit: u32, told: bool, start: usize, first: Machine) -> Tallied
    requires { Ready first × (first.aic.depth ≡ 0) × (length trace.now ≤ 65536) }
    ensures { result ≡ tallied 0 0 no_figures first (steps_from told limit trace.now start) }
{
    let mut room = machine_room::lay(first, false);
    let mut book = aic_figures::start();
    let mut at = start;
    let mut left = limit;
    let mut count: u32 = 0;
    let mut refused: u32 = 0;
    loop {
        let t = trace::turns::sure(
            trace::turns::quick(trace, at, left, told),
            trace,
            at,
            left,
            told,
        );
        if t.kind == trace::turns::ENDED {
            let f = aic_figures::totals_in(&mut book);
            return Tallied {
                steps: count,
                refused,
                refusal: t.refusal,
                offset: t.next,
                figures: f,
            };
        }
        let before = room[aic_room::layout::DEPTH];
        let a = machine_room::step(&mut room, t.kind, t.x, t.y, t.privilege);
        follow_any(&mut book, &room, before);
        refused += refused_one(rooms::refusal_in(a));
        at = t.next;
        left -= 1;
        count += 1;
    }
}

// 1 for a step that is refused.
fn refused_one(refusal: u32) -> u32
    ensures { result ≡ one (not (eqb refusal carried_out)) }
{
    words::one_if(refusal != steps::CARRIED_OUT)
}

// Only a step of an AIC moves the figures of sources.
fn follow_any<'a>(book: &'a mut Book, room: &'a Room, before: u32)
    ensures { (f : Figures) (m : Machine) (n : ℕ) (x : Recorded) → Ready m → n < 4294967290 → (m.kind ≡ aic_kind → before ≡ m.aic.depth) → Followed f m n book.old → Laid false (step m x).machine room.now → Followed (followed_by f m x) (step m x).machine (n + 1) book.new }
{
    if room[aic_room::layout::KIND] == kinds::AIC {
        aic_figures::follow(book, room, before);
    }
}

// The bound of a wait of one source of the AT91 controller, told apart by its six terms and moved on step by step.
#![tactic(auto)]

ghost use Rattle.std.specs.Prelude.{◌≡◌, Bool, not, ◌&&◌, ◌||◌, ◌+◌, ◌-◌, ◌<◌, leb};
ghost use Rattle.words.specs.Choice.{pick};
ghost use Rattle.words.specs.Counting.{one, any_below};
ghost use Rattle.words.specs.Word.{bit, word_of};
ghost use Rattle.aic_record.specs.Mode.{priority};
ghost use Rattle.aic_record.specs.Sound.{source_at, level_at};
ghost use Rattle.aic_sources.specs.Pending.{active};
ghost use Rattle.aic_runs.specs.Counted.{carries};
ghost use Rattle.aic_runs.specs.Promises.{rival_of};
ghost use Rattle.aic_runs.specs.Turns.{held};
ghost use Rattle.aic_waits.specs.Following.{capped};
ghost use Rattle.aic_bounds.specs.Bounds.{idle, fresh};
ghost use Rattle.aic_bounds.specs.Following.{dues, plus, grown_by, bound_by, no_marks, hot_last, write_marks, line_marks, marks_by};

pub mod figures;

use aic_record::Aic;
use steps::Step;

// How it stands with the wait of a source (0 it does not wait, 1 it is served, n + 2 it waits and n handlers of others were started), the word of its
// rivals at the outset, those of them that count since they were enabled, the six terms so far, and the number of the step that rewrote a mode or a
// forcing first, 0 while the bound holds.
// Numbers and no enum or Option: the promises `started` and `holds` name `wait` and `broke`.
#[derive(Clone, Copy)]
pub struct Bound {
    pub wait: u32,
    pub rivals: u32,
    pub on: u32,
    pub pending: u32,
    pub edges: u32,
    pub commands: u32,
    pub turns: u32,
    pub closed: u32,
    pub remembered: u32,
    pub broke: u32,
}

// What a step brings, as words of sources: edges, set commands to edge-triggered ones, turns of level-sensitive ones to active, and handlers of
// level-sensitive ones closed while their lines are active; and whether it rewrote a mode or a forcing.
#[derive(Clone, Copy)]
pub struct Marks {
    pub edges: u32,
    pub commands: u32,
    pub turns: u32,
    pub closed: u32,
    pub rewrote: bool,
}

// The bound of source k after the n-th step: how it stands after it is w, the step brought m, and the record after it is t. A count that would pass
// 4,294,967,295 stays there.
pub fn bound_after(k: u32, w: u32, n: u32, b: Bound, m: Marks, t: Aic) -> Bound
    ensures { result ≡ bound_by k w n b m t }
{
    if w < 2 {
        return idle(w);
    }
    if b.wait < 2 {
        return fresh(k, t);
    }
    grown(w, b, n, m, t)
}

// A source that does not wait.
pub fn idle(w: u32) -> Bound
    ensures { result ≡ idle w }
{
    Bound {
        wait: w,
        rivals: 0,
        on: 0,
        pending: 0,
        edges: 0,
        commands: 0,
        turns: 0,
        closed: 0,
        remembered: 0,
        broke: 0,
    }
}

// A wait that begins with the record t.
fn fresh(k: u32, t: Aic) -> Bound
    ensures { result ≡ fresh k t }
{
    let rivals = rival_word(t, k);
    let on = words::meet(rivals, t.enabled);
    let pending = words::count(words::meet(on, due_word(t)));
    let remembered = words::one_if(is_carried(t, k));
    Bound {
        rivals,
        on,
        pending,
        remembered,
        ..idle(2)
    }
}

// A wait that goes on, to the record t.
fn grown(w: u32, b: Bound, n: u32, m: Marks, t: Aic) -> Bound
    ensures { result ≡ grown_by w b n m t }
{
    let enabled = words::meet(b.rivals, t.enabled);
    let on = words::join(b.on, enabled);
    let first = words::drop_bits(enabled, b.on);
    let pending = plus(b.pending, first, due_word(t));
    let edges = plus(b.edges, b.on, m.edges);
    let commands = plus(b.commands, b.on, m.commands);
    let turns = plus(b.turns, b.on, m.turns);
    let closed = plus(b.closed, b.on, m.closed);
    let broke = either((b.broke == 0) & m.rewrote, n, b.broke);
    Bound {
        wait: w,
        on,
        pending,
        edges,
        commands,
        turns,
        closed,
        broke,
        ..b
    }
}

// ---- numbers

// a where the test holds, else b.
pub fn either(t: bool, a: u32, b: u32) -> u32
    ensures { result ≡ pick t a b }
{
    if t {
        return a;
    }
    b
}

// The sum; where it would pass 4,294,967,295 it stays there.
pub fn add(a: u32, b: u32) -> u32
    ensures { result ≡ capped (a + b) }
{
    a.saturating_add(b)
}

// n and the number of sources that two words share.
pub fn plus(n: u32, a: u32, b: u32) -> u32
    ensures { result ≡ plus n a b }
{
    add(n, words::count(words::meet(a, b)))
}

// ---- words of a record

// Whether a source other than k is remembered.
fn is_carried(s: Aic, k: u32) -> bool
    ensures { result ≡ carries k s }
{
    (s.seen.what == 1) & (k != s.seen.source as u32)
}

// Whether source i is ahead of source k, and not fast.
fn is_rival(s: Aic, k: u32, i: u32) -> bool
    ensures { result ≡ rival_of s k i }
{
    let p = aic_record::priority_at(s, k);
    let q = aic_record::priority_at(s, i);
    ((p < q) | ((q == p) & (i < k))) & !((i == 0) | words::has(s.forced, i))
}

// The sources ahead of source k that are not fast.
fn rival_word(s: Aic, k: u32) -> u32
    ensures { result ≡ word_of 32 (rival_of s k) }
{
    let mut w: u32 = 0;
    for i in 0..32 {
        w = words::with_bit(w, i, is_rival(s, k, i));
    }
    w
}

// Whether the entry in slot d is at the priority of its source or above.
fn is_over(s: Aic, d: u32, j: u32) -> bool
    ensures { result ≡ leb (priority s j) (level_at s d) }
{
    aic_record::priority_at(s, j) <= aic_record::level_at(s, d) as u32
}

// The sources of which a handler is open at their priority or above.
fn held_word(s: Aic) -> u32
    ensures { result ≡ word_of 32 (held s) }
{
    let mut w: u32 = 0;
    // By the slot: two tables are read at it, and only as far as entries are open.
    for d in 0..s.depth {
        let j = aic_record::source_at(s, d) as u32;
        w = words::with_bit(w, j, words::has(w, j) | is_over(s, d, j));
    }
    words::drop_bits(w, 1)
}

// The sources that are due a start.
fn due_word(s: Aic) -> u32
    ensures { result ≡ word_of 32 (dues s) }
{
    let free = words::drop_bits(aic_sources::pending_word(s), held_word(s));
    words::join(
        words::meet(aic_sources::pending_word(s), aic_sources::edge_word(s)),
        free,
    )
}

// ---- what a step brings

// What the step x brings to the record s that it meets; ok says that it is carried out.
pub fn marks_of(s: Aic, x: Step, ok: bool) -> Marks
    ensures { result ≡ marks_by ok s x }
{
    match x {
        Step::Read(offset) => no_marks(),
        Step::Write(offset, value) => write_marks(s, offset, value, ok),
        Step::Line(k, level) => line_marks(s, k, level, ok),
    }
}

// What a step brings that is refused.
pub fn no_marks() -> Marks
    ensures { result ≡ no_marks }
{
    Marks {
        edges: 0,
        commands: 0,
        turns: 0,
        closed: 0,
        rewrote: false,
    }
}

fn write_marks(s: Aic, o: u32, v: u32, ok: bool) -> Marks
    ensures { result ≡ write_marks ok s o v }
{
    let commands = either(
        ok & (o == aic_registers::map::ISCR),
        words::meet(v, aic_sources::edge_word(s)),
        0,
    );
    let closes = ok & (o == aic_registers::map::EOICR) & (s.depth != 0);
    let closed = either(closes, hot_word(s, last_source(s)), 0);
    Marks {
        commands,
        closed,
        rewrote: ok
            & ((o < aic_registers::map::SVR)
                | (o == aic_registers::map::FFER)
                | (o == aic_registers::map::FFDR)),
        ..no_marks()
    }
}

fn line_marks(s: Aic, k: u32, l: u32, ok: bool) -> Marks
    ensures { result ≡ line_marks ok s k l }
{
    let rises = ok & aic_registers::effects::turns_active(s, k, l == 1);
    let edge = aic_record::edge_at(s, k);
    let edges = words::with_bit(0, k, rises & edge);
    let turns = words::with_bit(0, k, rises & !edge);
    Marks {
        edges,
        turns,
        ..no_marks()
    }
}

// The source of the last entry, that of the first slot where none is open.
fn last_source(s: Aic) -> u32
    ensures { result ≡ source_at s (s.depth - 1) }
{
    aic_record::source_at(s, s.depth.saturating_sub(1)) as u32
}

// Source j alone, if it is level-sensitive and its line is active; source 0 is a mark's.
fn hot_word(s: Aic, j: u32) -> u32
    ensures { result ≡ word_of 32 (hot_last s j) }
{
    words::with_bit(
        0,
        j,
        (j != 0) & !aic_record::edge_at(s, j) & is_active(s, j),
    )
}

// Whether the line of source k is at its active level.
fn is_active(s: Aic, k: u32) -> bool
    ensures { result ≡ active s k }
{
    aic_sources::is_active_at(s, k, words::has(s.lines, k))
}

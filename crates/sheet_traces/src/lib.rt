// What the tuning sheet takes from one trace: its figures, and of an AIC what was seen of it over the steps played (02, 4/12, 11/12 and 12/12).
#![tactic(auto)]

ghost use Rattle.std.specs.Prelude.{◌≡◌, true, false, ℕ, ◌≤◌, ◌<◌, eqb, length};
ghost use Rattle.words.specs.Choice.{pick};
ghost use Rattle.steps.specs.Refusals.{carried_out};
ghost use Rattle.steps.specs.declared.Step.{Step};
ghost use Rattle.trace.specs.Trace.{turn_at, steps_from};
ghost use Rattle.trace.specs.Turns.{step_of, turn_of};
ghost use Rattle.kinds.specs.Kinds.{aic_kind};
ghost use Rattle.aic_record.specs.declared.Aic.{Aic as Record};
ghost use Rattle.aic_record.specs.Sound.{sound};
ghost use Rattle.aic_record.specs.Promises.{Shaped};
ghost use Rattle.aic.specs.Model.{step};
ghost use Rattle.aic_waits.specs.Following.{Figures};
ghost use Rattle.aic_figures.specs.Book.{Kept as Counted};
ghost use Rattle.aic_bounds.specs.Following.{no_marks};
ghost use Rattle.aic_bounds.specs.declared.figures.Figures.{Figures as Bounds};
ghost use Rattle.aic_figures.specs.WaitsBook.{Kept};
ghost use Rattle.aic_figures.specs.Waits.{waits_now};
ghost use Rattle.aic_room.specs.Room.{Laid};
ghost use Rattle.stack.specs.Kept.{unkept};
ghost use Rattle.beginning.specs.Begin.{begin_of};
ghost use Rattle.tally.specs.Tally.{steps_in};
ghost use Rattle.tally.specs.Following.{totals_of};
ghost use Rattle.sheet_traces.specs.Watched.{opens_mark, idle_end};
ghost use Rattle.sheet_traces.specs.Following.{watched_first, watched_by, Met};
ghost use Rattle.sheet_traces.specs.Noted.{played_in, noted, unseen, note_of};
ghost use Rattle.totals.specs.Waits.{no_waits};

use aic_bounds::Marks;
use aic_record::Aic;
use beginning::Begun;
use rooms::Room;
use stack::Table;
use tally::Tallied;
use totals::sheets::Noted;
use totals::waits::Waits;
use trace::turns::Told;

// Marks opened, ends of interrupt that found no entry open, entries open now, a word of the sources that were enabled; the lowest source that did not keep
// the table in the first record that did not, 32 for none, and the step after which that was.
#[derive(Clone, Copy)]
pub struct Watched {
    pub marks: u32,
    pub idle: u32,
    pub left: u32,
    pub used: u32,
    pub strays: u32,
    pub astray: u32,
}

// The report's figures of the steps played, what was seen over them, and the waits of all sources.
#[derive(Clone, Copy)]
pub struct Played {
    pub tallied: Tallied,
    pub watched: Watched,
    pub waits: Waits,
}

// One step as it is watched, the n-th: so many entries open and these sources enabled before it, whether it is an end of interrupt that found no entry open, and
// whether it rewrote a mode or a forcing.
#[derive(Clone, Copy)]
struct Moment {
    before: u32,
    enabled: u32,
    idle: bool,
    wrote: bool,
    n: u32,
}

// ---- one step

// Whether a step, before which so many entries were open, opened a mark.
fn opened_mark(room: &Room, before: u32) -> bool
    ensures { (s : Record) (x : Step) → sound s ≡ true → Shaped s → Laid (step s x).aic room.now → before ≡ s.depth → result ≡ opens_mark s x }
{
    if room[aic_room::layout::DEPTH] <= before {
        return false;
    }
    room[aic_room::layout::SOURCE + (before % 8) as usize] == 0
}

// Whether a step that was carried out is an end of interrupt that found no entry open.
fn is_idle(carried: bool, kind: u32, x: u32, before: u32) -> bool
    ensures { (s : Record) (y : ℕ) → carried ≡ eqb (step s (step_of kind x y)).refusal carried_out → before ≡ s.depth → result ≡ idle_end s (step_of kind x y) }
{
    carried & (kind == trace::WRITE) & (x == aic_registers::map::EOICR) & (before == 0)
}

// What a step brings: nothing where it is refused.
fn brought(carried: bool, m: Marks) -> Marks
    ensures { result ≡ pick carried m no_marks }
{
    if carried {
        return m;
    }
    aic_figures::waits::no_marks()
}

// The lowest source that does not keep the table: as it was where one did not before, or where nothing that matters is written since; else it is looked for.
fn strays_after(room: &Room, table: Table, strays: u32, same: bool) -> u32
    ensures { (s : Record) → sound s ≡ true → Laid s room.now → (same ≡ true → strays ≡ 32 → unkept table s ≡ 32) → result ≡ pick (eqb strays 32) (unkept table s) strays }
{
    if same | (strays != 32) {
        return strays;
    }
    stack::kept::unkept(table, aic_room::layout::record_of(room))
}

// What is watched after a step. Most steps bring nothing that is looked for.
fn watched_after(w: Watched, room: &Room, table: Table, m: Moment) -> Watched
    requires { (w.marks < 4294967295) × (w.idle < 4294967295) }
    ensures { (s : Record) (x : Step) → sound s ≡ true → Shaped s → Laid (step s x).aic room.now → Met table w s x m.before m.enabled m.idle m.wrote → result ≡ watched_by table m.n w s x }
{
    let on = room[aic_room::layout::ENABLED];
    let depth = room[aic_room::layout::DEPTH];
    if m.idle | m.wrote | (m.before < depth) | (on != m.enabled) {
        return watched_anew(w, room, table, m);
    }
    let used = words::join(w.used, on);
    Watched {
        left: depth,
        used,
        ..w
    }
}

// The same where it may have brought something.
fn watched_anew(w: Watched, room: &Room, table: Table, m: Moment) -> Watched
    requires { (w.marks < 4294967295) × (w.idle < 4294967295) }
    ensures { (s : Record) (x : Step) → sound s ≡ true → Shaped s → Laid (step s x).aic room.now → Met table w s x m.before m.enabled m.idle m.wrote → result ≡ watched_by table m.n w s x }
{
    let on = room[aic_room::layout::ENABLED];
    let strays = strays_after(room, table, w.strays, !m.wrote & (on == m.enabled));
    let astray = aic_bounds::either((w.strays == 32) & (strays != 32), m.n, w.astray);
    let marks = w.marks + words::one_if(opened_mark(room, m.before));
    let ends = w.idle + words::one_if(m.idle);
    let used = words::join(w.used, on);
    Watched {
        marks,
        idle: ends,
        left: room[aic_room::layout::DEPTH],
        used,
        strays,
        astray,
    }
}

// ---- all steps

// Before any step.
fn watch_first(first: Aic, table: Table) -> Watched
    ensures { result ≡ watched_first table first }
{
    Watched {
        marks: 0,
        idle: 0,
        left: first.depth,
        used: first.enabled,
        strays: stack::kept::unkept(table, first),
        astray: 0,
    }
}

// The turn at a place with `left` of the limit. One loop alone calls this, so that it becomes a part of it.
fn turn(trace: &[u8], at: usize, left: u32) -> Told
    ensures { turn_of result ≡ turn_at false trace.now at left }
{
    let q = trace::turns::quick(trace, at, left, false);
    if q.kind == trace::turns::UNSURE {
        return trace::turns::slow(trace, at, left, false);
    }
    q
}

// What is told after the last step: n were played and so many of them refused, and the trace ended by a refusal at an offset.
fn ended<'a>(
    counts: &'a mut aic_figures::Book,
    book: &'a aic_figures::waits::Book,
    w: Watched,
    n: u32,
    refused: u32,
    refusal: u32,
    offset: usize,
) -> Played
    ensures { (f : Figures) (s : Record) (k : ℕ) (g : ℕ → Bounds) → Counted f s k counts.old → Kept g book.now → result ≡ record { tallied = record { steps = n; refused = refused; refusal = refusal; offset = offset; figures = totals_of f }; watched = w; waits = waits_now g } }
{
    let tallied = Tallied {
        steps: n,
        refused,
        refusal,
        offset,
        figures: aic_figures::totals_in(counts),
    };
    Played {
        tallied,
        watched: w,
        waits: aic_figures::waits::waits_in(book),
    }
}

// Plays the steps of an AIC from a place on in a room, once: moves the report's figures and the waits of all sources on with each, and watches it. The
// limit falls by one with each step.
// No range counts the steps: a turn of the trace tells its end, also where the limit is reached.
fn play_steps(trace: &[u8], limit: u32, start: usize, first: Aic, table: Table) -> Played
    requires { (sound first ≡ true) × Shaped first × (first.depth ≡ 0) × (length trace.now ≤ 65536) × (length (steps_in (steps_from false limit trace.now start).steps) ≤ 65536) }
    ensures { result ≡ played_in table first (steps_from false limit trace.now start) }
{
    let mut room = aic_room::layout::lay(first);
    let mut counts = aic_figures::start();
    let mut book = aic_figures::waits::start();
    let mut w = watch_first(first, table);
    let mut at = start;
    let mut left = limit;
    let mut n: u32 = 0;
    let mut refused: u32 = 0;
    loop {
        let t = turn(trace, at, left);
        if t.kind == trace::turns::ENDED {
            return ended(&mut counts, &book, w, n, refused, t.refusal, t.next);
        }
        let before = room[aic_room::layout::DEPTH];
        let enabled = room[aic_room::layout::ENABLED];
        let brings = aic_figures::waits::marks(&room, t.kind, t.x, t.y);
        let a = aic_room::step(&mut room, t.kind, t.x, t.y);
        let carried = rooms::refusal_in(a) == steps::CARRIED_OUT;
        let m = brought(carried, brings);
        let idle = is_idle(carried, t.kind, t.x, before);
        n += 1;
        refused += words::one_if(!carried);
        aic_figures::waits::follow(&mut book, &room, before, n, m);
        let moment = Moment {
            before,
            enabled,
            idle,
            wrote: m.rewrote,
            n,
        };
        w = watched_after(w, &room, table, moment);
        aic_figures::follow(&mut counts, &room, before);
        at = t.next;
        left -= 1;
    }
}

// ---- the trace

// What the sheet takes from a trace of which at most `limit` steps are played: of an AIC all of it in one play, of other kinds the report's figures.
pub fn note(trace: &[u8], limit: u32, table: Table) -> Noted
    ensures { result ≡ note_of trace.now limit table }
{
    let b = beginning::begin(trace);
    let m = b.machine;
    if (b.refusal == steps::CARRIED_OUT) & (m.kind == kinds::AIC) {
        return note_aic(trace, limit, table, b);
    }
    note_other(tally::figures(trace, limit))
}

// That of a trace that starts an AIC.
fn note_aic(trace: &[u8], limit: u32, table: Table, b: Begun) -> Noted
    requires { (b ≡ begin_of trace.now) × (b.refusal ≡ carried_out) × (b.machine.kind ≡ aic_kind) }
    ensures { result ≡ note_of trace.now limit table }
{
    let m = b.machine;
    let p = play_steps(trace, limit, b.place, m.aic, table);
    noted(p.tallied, true, p.watched, p.waits)
}

// That of another kind, or of none.
fn note_other(f: Tallied) -> Noted
    ensures { result ≡ noted f false unseen no_waits }
{
    let w = Watched {
        marks: 0,
        idle: 0,
        left: 0,
        used: 0,
        strays: 32,
        astray: 0,
    };
    noted(f, false, w, totals::waits::none())
}

fn noted(f: Tallied, aic: bool, w: Watched, waits: Waits) -> Noted
    ensures { result ≡ noted f aic w waits }
{
    let figures = f.figures;
    Noted {
        steps: f.steps,
        refused: f.refused,
        marks: w.marks,
        idle: w.idle,
        left: w.left,
        refusal: f.refusal,
        offset: f.offset,
        aic,
        used: w.used,
        strays: w.strays,
        astray: w.astray,
        figures,
        waits,
    }
}

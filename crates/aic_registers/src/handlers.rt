// Opening and closing entries, the two vector reads, and the write of IVR.
ghost use Rattle.std.specs.Prelude.{◌≡◌, ◌≤◌, ◌<◌, eqb};
ghost use Rattle.words.specs.Choice.{pick};
ghost use Rattle.aic_record.specs.Mode.{priority};
ghost use Rattle.aic_registers.specs.Handlers.{answered, forgotten, spent, started_at, marked, ended, vector_at, ivr_taken, source_seen, none_seen, ivr_looked, ivr_read, begun, ivr_written, fast_spent, fvr_read, current};

use super::{Answer, answer_of};
use aic_record::{Aic, Seen};

// The memory of source k is cleared.
pub(crate) fn forget(s: Aic, k: u32) -> Aic
    ensures { result ≡ forgotten s k }
{
    aic_record::with_memory(s, words::with_bit(s.memory, k, false))
}

// The memory of source k is cleared if it is edge-triggered.
fn spend(s: Aic, k: u32) -> Aic
    ensures { result ≡ spent s k }
{
    if aic_record::edge_at(s, k) {
        return forget(s, k);
    }
    s
}

// Source k starts at a level: a handler is opened, and its memory is cleared if it is edge-triggered.
fn start_at(s: Aic, k: u8, level: u8) -> Aic
    requires { s.depth ≤ 8 }
    ensures { result ≡ started_at s k level }
{
    let depth = s.depth;
    aic_record::put_handler(spend(s, k as u32), depth, k, level, depth + 1)
}

// The last entry is closed, mark or handler. With none open nothing changes.
pub(crate) fn end_last(s: Aic) -> Aic
    ensures { result ≡ ended s }
{
    let entries = s.depth;
    if entries == 0 {
        return s;
    }
    aic_record::put_handler(s, entries - 1, 0, 0, entries - 1)
}

// Source k starts at the priority that it has now, and its vector is answered.
fn start_now(s: Aic, k: u32) -> Answer
    requires { (s.depth ≤ 8) × (k < 32) }
    ensures { result ≡ answered (started_at s k (priority s k)) (vector_at s k) }
{
    let now = aic_record::priority_at(s, k);
    answer_of(start_at(s, k as u8, now as u8), aic_record::vector_at(s, k))
}

// A spurious mark is opened, with the level of the last entry. With eight entries open nothing changes.
fn open_mark(s: Aic) -> Aic
    ensures { result ≡ marked s }
{
    let depth = s.depth;
    if 8 <= depth {
        return s;
    }
    let level = aic_record::last_level(s);
    aic_record::put_handler(s, depth, 0, level, depth + 1)
}

// A read of IVR outside protect mode.
fn take_ivr(s: Aic) -> Answer
    requires { s.depth ≤ 8 }
    ensures { result ≡ ivr_taken s }
{
    let k = aic_sources::chosen_source(s);
    if k < 32 {
        return start_now(s, k);
    }
    let spurious = s.spurious;
    answer_of(open_mark(s), spurious)
}

// What is remembered of source k: its priority and its vector are those that it has now.
fn seen_of(s: Aic, k: u32) -> Seen
    requires { k < 32 }
    ensures { result ≡ source_seen s k }
{
    let level = aic_record::priority_at(s, k);
    let vector = aic_record::vector_at(s, k);
    Seen {
        what: 1,
        source: k as u8,
        level: level as u8,
        vector,
    }
}

// What is remembered where no source is selected.
fn none_seen() -> Seen
    ensures { result ≡ none_seen }
{
    Seen {
        what: 2,
        ..aic_record::nothing_seen()
    }
}

// A read of IVR in protect mode.
fn look_ivr(s: Aic) -> Answer
    ensures { result ≡ ivr_looked s }
{
    let k = aic_sources::chosen_source(s);
    if k < 32 {
        return answer_of(
            aic_record::with_seen(s, seen_of(s, k)),
            aic_record::vector_at(s, k),
        );
    }
    answer_of(aic_record::with_seen(s, none_seen()), s.spurious)
}

// A read of IVR. Debug control's mask plays no part in it.
pub(crate) fn read_ivr(s: Aic) -> Answer
    requires { s.depth ≤ 8 }
    ensures { result ≡ ivr_read s }
{
    if words::has(s.debug, 0) {
        return look_ivr(s);
    }
    take_ivr(s)
}

// What is remembered is opened: a handler of the source at the level that was remembered, else a mark.
fn open_seen(s: Aic) -> Aic
    requires { s.depth ≤ 8 }
    ensures { result ≡ pick (eqb s.seen.what 1) (started_at s s.seen.source s.seen.level) (marked s) }
{
    let seen = s.seen;
    if seen.what == 1 {
        return start_at(s, seen.source, seen.level);
    }
    open_mark(s)
}

// What is remembered is started and forgotten. With nothing remembered nothing changes.
fn begin_seen(s: Aic) -> Aic
    requires { s.depth ≤ 8 }
    ensures { result ≡ begun s }
{
    let seen = s.seen;
    if seen.what == 0 {
        return s;
    }
    aic_record::with_seen(open_seen(s), aic_record::nothing_seen())
}

// A write of IVR. Outside protect mode it does nothing.
pub(crate) fn write_ivr(s: Aic) -> Aic
    requires { s.depth ≤ 8 }
    ensures { result ≡ ivr_written s }
{
    if words::has(s.debug, 0) {
        return begin_seen(s);
    }
    s
}

// The memory of source 0 is cleared if that is edge-triggered and no source is forced.
fn spend_fast(s: Aic) -> Aic
    ensures { result ≡ fast_spent s }
{
    if s.forced == 0 {
        return spend(s, 0);
    }
    s
}

// A read of FVR. Debug control's mask plays no part in it.
pub(crate) fn read_fvr(s: Aic) -> Answer
    ensures { result ≡ fvr_read s }
{
    if aic_sources::fast_asks(s) {
        return answer_of(spend_fast(s), aic_record::vector_at(s, 0));
    }
    answer_of(s, s.spurious)
}

// The source of the last entry, 0 if that is a mark or none is open.
pub(crate) fn current_source(s: Aic) -> u32
    ensures { result ≡ current s }
{
    aic_record::last::last_source(s)
}

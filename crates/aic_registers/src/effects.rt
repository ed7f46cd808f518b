// What writes and line steps do to the record.
ghost use Rattle.std.specs.Prelude.{◌≡◌, true, ◌&&◌, eqb};
ghost use Rattle.words.specs.Choice.{pick};
ghost use Rattle.words.specs.Word.{with_bit};
ghost use Rattle.aic_record.specs.Record.{with_memory};
ghost use Rattle.aic_record.specs.Mode.{type_of, kind, edge};
ghost use Rattle.aic_registers.specs.Handlers.{forgotten};
ghost use Rattle.aic_registers.specs.Effects.{moded, set_by, cleared_by, debug_by, forced_by, turns, moved};

use super::handlers::forget;
use aic_record::Aic;

// The record with the memory of source k cleared, where a write of its mode alters its type.
fn forget_other_type(s: Aic, k: u32, v: u32) -> Aic
    ensures { result ≡ pick (eqb (kind s k) (type_of v)) s (forgotten s k) }
{
    let mode = aic_record::mode_at(s, k);
    if aic_record::type_of(mode as u32) == aic_record::type_of(v) {
        return s;
    }
    forget(s, k)
}

// A write of the mode of source k.
pub(crate) fn write_mode(s: Aic, k: u32, v: u32) -> Aic
    ensures { result ≡ moded s k v }
{
    aic_record::put_mode(forget_other_type(s, k, v), k, aic_record::kept_of(v))
}

// A set command to each source whose bit is 1. It acts on edge sources only.
pub(crate) fn set_memory(s: Aic, v: u32) -> Aic
    ensures { result ≡ set_by s v }
{
    aic_record::with_memory(
        s,
        words::join(s.memory, words::meet(v, aic_sources::edge_word(s))),
    )
}

// A clear command to each source whose bit is 1. It acts on edge sources only.
pub(crate) fn clear_memory(s: Aic, v: u32) -> Aic
    ensures { result ≡ cleared_by s v }
{
    aic_record::with_memory(
        s,
        words::drop_bits(s.memory, words::meet(v, aic_sources::edge_word(s))),
    )
}

// A write of debug control. Without protect mode what is remembered is forgotten.
pub(crate) fn write_debug(s: Aic, v: u32) -> Aic
    ensures { result ≡ debug_by s v }
{
    let t = aic_record::with_debug(s, words::keep(2, v));
    if words::has(v, 0) {
        return t;
    }
    aic_record::with_seen(t, aic_record::nothing_seen())
}

// Each source whose bit is 1 is forced to the fast side, save source 0.
pub(crate) fn force(s: Aic, v: u32) -> Aic
    ensures { result ≡ forced_by s v }
{
    aic_record::with_forced(s, words::join(s.forced, words::drop_bits(v, 1)))
}

// Whether a line that goes to this level turns source k from inactive to active.
pub fn turns_active(s: Aic, k: u32, high: bool) -> bool
    ensures { result ≡ turns s k high }
{
    let before = aic_sources::is_active_at(s, k, words::has(s.lines, k));
    let after = aic_sources::is_active_at(s, k, high);
    !before & after
}

// The record with the edge remembered that a line step makes, if it makes one.
fn remember(s: Aic, k: u32, high: bool) -> Aic
    ensures { result ≡ pick (edge s k && turns s k high) (with_memory s (with_bit s.memory k true)) s }
{
    if aic_record::edge_at(s, k) & turns_active(s, k, high) {
        return aic_record::with_memory(s, words::with_bit(s.memory, k, true));
    }
    s
}

// The line of source k goes to a level.
pub fn move_line(s: Aic, k: u32, high: bool) -> Aic
    ensures { result ≡ moved s k high }
{
    aic_record::with_lines(remember(s, k, high), words::with_bit(s.lines, k, high))
}

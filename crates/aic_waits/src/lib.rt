// What each source of the AT91 controller did over a run: handlers started, handlers started while it waited, entries open while it was open (02, 11/12).
// Definitions and theorems; of code, how it stands with one source after a step by value. `aic_figures` follows all of them on the room.
#![tactic(auto)]

ghost use Rattle.std.specs.Prelude.{◌≡◌, ◌<◌};
ghost use Rattle.aic_waits.specs.Figures.{wait_next};
ghost use Rattle.aic_waits.specs.Following.{capped, started_from, stands_by};

use aic_record::Aic;

// How it stands with source i after a step, by how it stood, from the record after it and how many entries were open before it.
// A number and no enum: a wait is n + 2 in the promises, of n handlers started meanwhile.
pub fn stands(w: u32, i: u32, before: u32, t: Aic) -> u32
    requires { i < 32 }
    ensures { result ≡ stands_by (started_from before t) t w i }
{
    let by = started_from(before, t);
    let own = i == by;
    let other = (by < 32) & !own;
    let waits = words::has(aic_sources::waiting_word(t), i);
    wait_next(w, waits, own, other)
}

// The source whose handler was opened since `before` entries were open, 32 if none was.
// A number and no Option: the contract of `stands` names it by `started_from`, which may be a number past 31 of a record that is not sound.
fn started_from(before: u32, t: Aic) -> u32
    ensures { result ≡ started_from before t }
{
    if t.depth <= before {
        return 32;
    }
    let k = aic_record::source_at(t, before) as u32;
    if k == 0 {
        return 32;
    }
    k
}

// How it stands with a source after a step: whether it is pending, enabled and not fast then, and whether the step started it, or another.
fn wait_next(w: u32, waits: bool, own: bool, other: bool) -> u32
    ensures { result ≡ capped (wait_next w waits own other) }
{
    if !waits {
        return 0;
    }
    if own {
        return 1;
    }
    if w == 0 {
        return 2;
    }
    w.saturating_add(words::one_if((1 < w) & other))
}

// Adding the figures of traces up, source by source: handlers started add up and stop at 4,294,967,295, the two largest numbers stay the largest (02, 11/12).
#![tactic(auto)]

ghost use Rattle.std.specs.Prelude.{◌≡◌, false, ◌+◌, max};
ghost use mathlib.Core.List.{zip_with};
ghost use Rattle.totals.specs.Totals.{zeros, passes, together, added};

pub mod sheets;
pub mod waits;

use std::array;

// For each source, of one trace or of many: the handlers started, the most handlers started while it waited, and the most entries open while it was open.
#[derive(Clone, Copy)]
pub struct Totals {
    pub started: [u32; 32],
    pub waited: [u32; 32],
    pub entries: [u32; 32],
}

// Totals with a trace put to them; or the refusal 16, and they are as they were.
// The number stands beside the totals, and not in a Result, since the promises `sixteen`, `left_out` and `taken` speak of both fields of every answer.
#[derive(Clone, Copy)]
pub struct Added {
    pub refusal: u32,
    pub totals: Totals,
}

// Totals of no trace.
pub fn none() -> Totals
    ensures { result ≡ zeros }
{
    Totals {
        started: [0; 32],
        waited: [0; 32],
        entries: [0; 32],
    }
}

// The totals with a trace's figures put to them; 16 where a sum of handlers started would pass 4,294,967,295.
pub fn add(t: Totals, f: Totals) -> Added
    ensures { result ≡ added t f }
{
    if any_passes(t.started, f.started) {
        return Added {
            refusal: steps::OVERFULL,
            totals: t,
        };
    }
    let sum = together(t, f);
    Added {
        refusal: steps::CARRIED_OUT,
        totals: sum,
    }
}

// Both together, where no sum passes the figure.
fn together(t: Totals, f: Totals) -> Totals
    requires { passes t.started f.started ≡ false }
    ensures { result ≡ together t f }
{
    Totals {
        started: sums(t.started, f.started),
        waited: largest(t.waited, f.waited),
        entries: largest(t.entries, f.entries),
    }
}

// Whether some sum would pass the figure.
pub(crate) fn any_passes(a: [u32; 32], b: [u32; 32]) -> bool
    ensures { result ≡ passes a b }
{
    a.iter()
        .zip(b.iter())
        .any(|(x, y)| x.checked_add(*y).is_none())
}

// Source by source the sum of both.
pub(crate) fn sums(a: [u32; 32], b: [u32; 32]) -> [u32; 32]
    requires { passes a b ≡ false }
    ensures { result ≡ zip_with ◌+◌ a b }
{
    array::from_fn(|i| a[i] + b[i])
}

// Source by source the larger of both.
fn largest(a: [u32; 32], b: [u32; 32]) -> [u32; 32]
    ensures { result ≡ zip_with max a b }
{
    array::from_fn(|i| a[i].max(b[i]))
}

// The figures of all waits of a source of the AT91 controller: the largest bound, the waits that begin, and those without a bound.
ghost use Rattle.std.specs.Prelude.{◌≡◌};
ghost use Rattle.words.specs.Choice.{pick};
ghost use Rattle.aic_bounds.specs.Bounds.{bound_of};
ghost use Rattle.aic_bounds.specs.Over.{bounds, better, loses};
ghost use Rattle.aic_bounds.specs.Following.{bound_by};
ghost use Rattle.aic_bounds.specs.Figures.{no_figures, figures_with, largest_now, unended_now};

use super::{Bound, Marks};
use aic_record::Aic;

// What is observed of the wait that stands; what was observed of the first of the waits that have ended with the largest bound; how many waits have
// begun, and how many of them have no bound; the first step by which one has none, 0 where all have one.
// A number and no Option: the promise `first` names it.
#[derive(Clone, Copy)]
pub struct Figures {
    pub bound: Bound,
    pub largest: Bound,
    pub begun: u32,
    pub unbounded: u32,
    pub first: u32,
}

// Before any step.
pub fn no_figures() -> Figures
    ensures { result ≡ no_figures }
{
    Figures {
        bound: super::idle(0),
        largest: super::idle(0),
        begun: 0,
        unbounded: 0,
        first: 0,
    }
}

// The figures of source k after the n-th step: how it stands after it is w, the step brought m, and the record after it is t. A count that would pass
// 4,294,967,295 stays there.
pub fn figures_after(k: u32, w: u32, n: u32, f: Figures, m: Marks, t: Aic) -> Figures
    ensures { result ≡ figures_with n f (bound_by k w n f.bound m t) }
{
    let b = super::bound_after(k, w, n, f.bound, m, t);
    figures_with(n, f, b)
}

// The wait with the largest bound, that which stands among them.
pub fn largest_now(f: Figures) -> Bound
    ensures { result ≡ largest_now f }
{
    better(f.largest, f.bound)
}

// The waits that have not ended.
pub fn unended_now(f: Figures) -> u32
    ensures { result ≡ unended_now f }
{
    words::one_if(1 < f.bound.wait)
}

// The bound so far: handlers.
pub fn bound_of(b: Bound) -> u64
    ensures { result ≡ bound_of b }
{
    b.pending as u64
        + b.edges as u64
        + b.commands as u64
        + b.turns as u64
        + b.closed as u64
        + b.remembered as u64
}

// Whether a wait stands that has a bound.
pub fn has_bound(b: Bound) -> bool
    ensures { result ≡ bounds b }
{
    (1 < b.wait) & (b.broke == 0)
}

// The figures after the n-th step, by which b is observed of the wait that stands.
pub fn figures_with(n: u32, f: Figures, b: Bound) -> Figures
    ensures { result ≡ figures_with n f b }
{
    let largest = better_if(b.wait < 2, f.largest, f.bound);
    let begun = super::add(f.begun, words::one_if((f.bound.wait < 2) & (1 < b.wait)));
    let lost = loses(f.bound, b);
    let unbounded = super::add(f.unbounded, words::one_if(lost));
    let first = super::either(lost & (f.first == 0), n, f.first);
    Figures {
        bound: b,
        largest,
        begun,
        unbounded,
        first,
    }
}

// Of two waits the second, if it has a bound and that is larger, else the first.
fn better(c: Bound, b: Bound) -> Bound
    ensures { result ≡ better c b }
{
    if has_bound(b) & (bound_of(c) < bound_of(b)) {
        return b;
    }
    c
}

// The same where the second has ended, else the first.
fn better_if(ended: bool, c: Bound, b: Bound) -> Bound
    ensures { result ≡ pick ended (better c b) c }
{
    if ended {
        return better(c, b);
    }
    c
}

// Whether a wait that had a bound has none any more.
fn loses(b: Bound, c: Bound) -> bool
    ensures { result ≡ loses b c }
{
    (b.broke == 0) & (c.broke != 0)
}

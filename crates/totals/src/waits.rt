// The waits of each source, of one trace or of many: how many there are, and the six terms of the largest bound of one of them (02, 11/12 and 12/12).
ghost use Rattle.std.specs.Prelude.{◌≡◌, Bool, false, ℕ, ◌+◌, ◌<◌};
ghost use Rattle.words.specs.Word.{bit, word_of};
ghost use Rattle.totals.specs.Waits.{no_waits, bound_of, larger, newly, chosen, terms_of, passes, together, added};

use std::array;

// For each source: the waits that began, never ended and have no bound, the step that first took one its bound (0 for none), and the handlers that the first
// wait with the largest bound allows to be started, term by term.
// An array for each number, and not a struct for each source, since the promises of this crate and of `aic_figures` name the arrays.
#[derive(Clone, Copy)]
pub struct Waits {
    pub begun: [u32; 32],
    pub unended: [u32; 32],
    pub unbounded: [u32; 32],
    pub first: [u32; 32],
    pub pending: [u32; 32],
    pub edges: [u32; 32],
    pub commands: [u32; 32],
    pub turns: [u32; 32],
    pub closed: [u32; 32],
    pub remembered: [u32; 32],
}

// Waits with those of a trace put to them; or the refusal 16, and they are as they were.
// The number stands beside the waits, and not in a Result, since the promises of waits and of the sheet (`bounded`) speak of both fields of every answer.
#[derive(Clone, Copy)]
pub struct Added {
    pub refusal: u32,
    pub waits: Waits,
}

// The six terms of a bound of each source: handlers.
#[derive(Clone, Copy)]
struct Terms {
    pending: [u32; 32],
    edges: [u32; 32],
    commands: [u32; 32],
    turns: [u32; 32],
    closed: [u32; 32],
    remembered: [u32; 32],
}

// Those of no trace.
pub fn none() -> Waits
    ensures { result ≡ no_waits }
{
    Waits {
        begun: [0; 32],
        unended: [0; 32],
        unbounded: [0; 32],
        first: [0; 32],
        pending: [0; 32],
        edges: [0; 32],
        commands: [0; 32],
        turns: [0; 32],
        closed: [0; 32],
        remembered: [0; 32],
    }
}

// The waits with those of a trace put to them; 16 where a number of waits would pass 4,294,967,295.
pub(crate) fn add(a: Waits, b: Waits) -> Added
    ensures { result ≡ added a b }
{
    if any_pass(a, b) {
        return Added {
            refusal: steps::OVERFULL,
            waits: a,
        };
    }
    let sum = together(a, b);
    Added {
        refusal: steps::CARRIED_OUT,
        waits: sum,
    }
}

// Whether some number of waits would pass 4,294,967,295.
fn any_pass(a: Waits, b: Waits) -> bool
    ensures { result ≡ passes a b }
{
    super::any_passes(a.begun, b.begun)
        | super::any_passes(a.unended, b.unended)
        | super::any_passes(a.unbounded, b.unbounded)
}

// Both together, where no number passes it.
fn together(a: Waits, b: Waits) -> Waits
    requires { passes a b ≡ false }
    ensures { result ≡ together a b }
{
    let Terms {
        pending,
        edges,
        commands,
        turns,
        closed,
        remembered,
    } = terms_of(a, b);
    Waits {
        begun: super::sums(a.begun, b.begun),
        unended: super::sums(a.unended, b.unended),
        unbounded: super::sums(a.unbounded, b.unbounded),
        first: chosen(newly(a, b), a.first, b.first),
        pending,
        edges,
        commands,
        turns,
        closed,
        remembered,
    }
}

// The six terms of the larger bound of each source.
fn terms_of(a: Waits, b: Waits) -> Terms
    ensures { result ≡ terms_of a b }
{
    let more = larger_word(a, b);
    Terms {
        pending: chosen(more, a.pending, b.pending),
        edges: chosen(more, a.edges, b.edges),
        commands: chosen(more, a.commands, b.commands),
        turns: chosen(more, a.turns, b.turns),
        closed: chosen(more, a.closed, b.closed),
        remembered: chosen(more, a.remembered, b.remembered),
    }
}

// The sources that first have a wait without a bound in the second.
pub(crate) fn newly(a: Waits, b: Waits) -> u32
    ensures { result ≡ word_of 32 (newly a b) }
{
    sources_where(|i| is_new(a, b, i))
}

// Source by source the second's number for those of a word, else the first's.
pub(crate) fn chosen(w: u32, a: [u32; 32], b: [u32; 32]) -> [u32; 32]
    ensures { (p : ℕ → Bool) → ((i : ℕ) → i < 32 → bit w i ≡ p i) → result ≡ chosen p a b }
{
    array::from_fn(|i| if words::has(w, i as u32) { b[i] } else { a[i] })
}

// The sources of which the second has the larger bound.
fn larger_word(a: Waits, b: Waits) -> u32
    ensures { result ≡ word_of 32 (larger a b) }
{
    sources_where(|i| is_larger(a, b, i))
}

// The word of the sources that pass a test.
fn sources_where<F: Fn(u32) -> bool>(test: F) -> u32
    requires { (i : ℕ) → i < 32 → F.pre test i }
    ensures { (p : ℕ → Bool) → ((i : ℕ) (r : Bool) → i < 32 → F.post test i r → r ≡ p i) → result ≡ word_of 32 p }
{
    let mut w: u32 = 0;
    for i in 0..32 {
        w = words::with_bit(w, i, test(i));
    }
    w
}

fn is_larger(a: Waits, b: Waits, i: u32) -> bool
    requires { i < 32 }
    ensures { result ≡ larger a b i }
{
    bound_at(a, i) < bound_at(b, i)
}

fn is_new(a: Waits, b: Waits, i: u32) -> bool
    requires { i < 32 }
    ensures { result ≡ newly a b i }
{
    let k = i as usize;
    (a.first[k] == 0) & (b.first[k] != 0)
}

// The bound of source i, term by term added up: handlers.
fn bound_at(a: Waits, i: u32) -> u64
    requires { i < 32 }
    ensures { result ≡ bound_of a i }
{
    let k = i as usize;
    u64::from(a.pending[k])
        + u64::from(a.edges[k])
        + u64::from(a.commands[k])
        + u64::from(a.turns[k])
        + u64::from(a.closed[k])
        + u64::from(a.remembered[k])
}

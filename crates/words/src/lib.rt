// A word of sources: one bit for each of 32 sources. What these functions answer is defined bit by bit in specs/Word.antt.
// The last two are for any crate: a test as a number, and the larger of two numbers.
#![tactic(auto)]

ghost use Rattle.std.specs.Prelude.{max, ◌≡◌};
ghost use Rattle.words.specs.Counting.{one, count_below, lowest_below};
ghost use Rattle.words.specs.Word.{bit, either, both, without, with_bit, kept, clean};

// Whether bit k of w is set. No bit past the width is.
pub fn has(w: u32, k: u32) -> bool
    ensures { result ≡ bit w k }
{
    if 32 <= k {
        return false;
    }
    (w >> k) % 2 == 1
}

// The bits of a or of b.
pub fn join(a: u32, b: u32) -> u32
    ensures { result ≡ either a b }
{
    a | b
}

// The bits that a and b share.
pub fn meet(a: u32, b: u32) -> u32
    ensures { result ≡ both a b }
{
    a & b
}

// The bits of a that are not bits of b.
pub fn drop_bits(a: u32, b: u32) -> u32
    ensures { result ≡ without a b }
{
    a & !b
}

// The word w with bit k as t says. Past the width nothing changes.
pub fn with_bit(w: u32, k: u32, t: bool) -> u32
    ensures { result ≡ with_bit w k t }
{
    if 32 <= k {
        return w;
    }
    if t {
        return w | (1 << k);
    }
    w & !(1 << k)
}

// The word w with its bits from n on dropped.
pub fn keep(n: u32, w: u32) -> u32
    ensures { result ≡ kept n w }
{
    if 32 <= n {
        return w;
    }
    w % (1 << n)
}

// Whether no bit of w from n on is set.
pub fn is_clean(n: u32, w: u32) -> bool
    ensures { result ≡ clean n w }
{
    keep(n, w) == w
}

// How many bits of w are set.
pub fn count(w: u32) -> u32
    ensures { result ≡ count_below 32 (bit w) }
{
    u32::count_ones(w)
}

// The lowest bit of w that is set, 32 where none is.
pub fn lowest(w: u32) -> u32
    ensures { result ≡ lowest_below 32 (bit w) }
{
    u32::trailing_zeros(w)
}

// 1 where the test holds, else 0.
pub fn one_if(t: bool) -> u32
    ensures { result ≡ one t }
{
    if t { 1 } else { 0 }
}

// The larger of two numbers.
pub fn larger(a: u32, b: u32) -> u32
    ensures { result ≡ max a b }
{
    if a < b { b } else { a }
}

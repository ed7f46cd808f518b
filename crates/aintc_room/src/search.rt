// Which input is before all others: the bits of the priorities are looked at from the highest to the lowest, 128 inputs at once, and no input by itself.
ghost use Rattle.std.specs.Prelude.{◌≡◌, not, ◌&&◌, [], ◌∷◌, ◌≢◌, ℕ, ◌<◌};
ghost use Rattle.words.specs.Array.{bit_at};
ghost use Rattle.words.specs.Counting.{any_below};
ghost use Rattle.words.specs.Word.{bit, either};
ghost use Rattle.aintc_record.specs.declared.Aintc.{Aintc};
ghost use Rattle.aintc_registers.specs.Inputs.{open_word, pending_word};
ghost use Rattle.aintc_room.specs.Room.{Laid};
ghost use Rattle.aintc_room.specs.First.{held, halves, SomeOf, FirstOf, HighestOf};

use super::layout::{BITS, FIQS, LINES, MASKS, SOFT};
use rooms::Room;

// Word n of the inputs that are raised, by their line or by a soft interrupt, and not masked.
pub(crate) fn open_word(room: &Room, n: usize) -> u32
    requires { n < 4 }
    ensures { (a : Aintc) → Laid a room.now → result ≡ open_word a n }
{
    words::drop_bits(
        words::join(room[LINES + n], room[SOFT + n]),
        room[MASKS + n],
    )
}

// Word n of the inputs that are pending for FIQ, where `fast`, or for IRQ.
pub(crate) fn pending_word(room: &Room, fast: bool, n: usize) -> u32
    requires { n < 4 }
    ensures { (a : Aintc) → Laid a room.now → result ≡ pending_word a fast n }
{
    let open = open_word(room, n);
    let fiqs = room[FIQS + n];
    if fast {
        return words::meet(open, fiqs);
    }
    words::drop_bits(open, fiqs)
}

// The bits that any of four words has.
pub(crate) fn any_of(a: u32, b: u32, c: u32, d: u32) -> u32
    ensures { result ≡ either (either a b) (either c d) }
{
    words::join(words::join(a, b), words::join(c, d))
}

// ---- 128 inputs as two halves of 64. The search goes by these, since of four words a compiler makes one of 128 bits, whose test takes long.

// Input k is bit k % 64 of `low` where k is below 64, else of `high`.
#[derive(Clone, Copy)]
struct Halves {
    low: u64,
    high: u64,
}

// Two words as one number, the first of them below.
fn pair(a: u32, b: u32) -> u64
    ensures { (i : ℕ) → i < 64 → bit result i ≡ bit_at (a ∷ b ∷ []) i }
{
    4294967296 * (b as u64) + (a as u64)
}

// The highest bit of a half that has one.
fn highest(w: u64) -> u32
    requires { w ≢ 0 }
    ensures { HighestOf (bit w) 64 result }
{
    63 - u64::leading_zeros(w)
}

impl Halves {
    // The inputs that four words hold.
    fn of(w0: u32, w1: u32, w2: u32, w3: u32) -> Halves
        ensures { (k : ℕ) → k < 128 → halves result.low result.high k ≡ held w0 w1 w2 w3 k }
    {
        Halves {
            low: pair(w0, w1),
            high: pair(w2, w3),
        }
    }

    // Those of these inputs that are none of the others.
    fn without(self, others: Halves) -> Halves
        ensures { (k : ℕ) → k < 128 → halves result.low result.high k ≡ (halves self.low self.high k && not (halves others.low others.high k)) }
    {
        Halves {
            low: self.low & !others.low,
            high: self.high & !others.high,
        }
    }

    // Whether there is any input.
    fn is_some(self) -> bool
        ensures { result ≡ any_below 128 (halves self.low self.high) }
    {
        (self.low != 0) | (self.high != 0)
    }

    // The highest input, where there is any.
    fn highest(self) -> u32
        ensures { SomeOf (halves self.low self.high) → HighestOf (halves self.low self.high) 128 result }
    {
        if self.high != 0 {
            return 64 + highest(self.high);
        }
        if self.low != 0 {
            return highest(self.low);
        }
        0
    }
}

// The first of the inputs that four words hold: of the lowest priority number, and of equal ones the highest.
pub(crate) fn first_of(room: &Room, w0: u32, w1: u32, w2: u32, w3: u32) -> u32
    ensures { (s : Aintc) → Laid s room.now → SomeOf (held w0 w1 w2 w3) → FirstOf s (held w0 w1 w2 w3) result }
{
    let mut best = Halves::of(w0, w1, w2, w3);
    for k in (0..7).rev() {
        let at = BITS + 4 * k;
        let ones = Halves::of(room[at], room[at + 1], room[at + 2], room[at + 3]);
        let rest = best.without(ones);
        if rest.is_some() {
            best = rest;
        }
    }
    best.highest()
}

// The AINTC's inputs: which one is before all others, and whether a record is sound. What is pending, and what an output takes, is defined here; the
// code of that stands in aintc_room.
ghost use Rattle.std.specs.Prelude.{◌≡◌, true, ◌%◌, ◌≤◌, ◌<◌, eqb, unwrap_or, IfSome};
ghost use Rattle.words.specs.Word.{bit};
ghost use Rattle.aintc_registers.specs.Inputs.{open_word};
ghost use Rattle.aintc_registers.specs.Order.{first};
ghost use Rattle.aintc_registers.specs.Search.{route_word, turned, word_searched, searched};
ghost use Rattle.aintc_registers.specs.Settle.{side_quiet, sound};

use aintc_record::Aintc;

// ---- inputs, as words

// Word n of the inputs that are raised, by their line or by a soft interrupt, and not masked.
fn open_word(s: Aintc, n: u32) -> u32
    ensures { result ≡ open_word s n }
{
    let raised = words::join(aintc_record::line_word(s, n), aintc_record::soft_word(s, n));
    words::drop_bits(raised, aintc_record::mask_word(s, n))
}

// Whether a route asks for the output `side`, told by the bit of a route: 1 for FIQ, 0 for IRQ.
fn is_routed(route: u8, side: u8) -> bool
    ensures { result ≡ eqb (route % 2) side }
{
    route % 2 == side
}

// The inputs from `base` on whose output is `side`, 32 of them as a word. A loop over the numbers 0 to 31, since each is a bit's number too.
pub fn route_word(routes: &[u8; 128], base: u32, side: u8) -> u32
    requires { base ≤ 96 }
    ensures { result ≡ route_word routes.now base side }
{
    let mut w: u32 = 0;
    for i in 0..32 {
        let at = (base + i) as usize;
        w = words::with_bit(w, i, is_routed(routes[at], side));
    }
    w
}

// ---- the one before all others

// What a search has come to: the best input so far, and the lowest priority that may take its place.
#[derive(Clone, Copy)]
pub struct Best {
    pub number: Option<u32>,
    pub limit: u8,
}

// A turn of the search: input k, which waits, is taken if it asks for this side, and its priority is no lower than the limit. So an equal
// priority of a higher number takes the place of a lower one.
fn turn(x: Best, k: u32, route: u8, side: u8) -> Best
    ensures { result ≡ turned x true k route side }
{
    let priority = aintc_record::priority_of(route);
    if is_routed(route, side) & (priority <= x.limit) {
        return Best {
            number: Some(k),
            limit: priority,
        };
    }
    x
}

// The search through the 32 inputs from `base` on, of which the word w waits: from one that waits to the next.
fn search_word(w: u32, base: u32, routes: &[u8; 128], side: u8, x: Best) -> Best
    requires { base ≤ 96 }
    ensures { result ≡ word_searched w base routes.now side x }
{
    let mut best = x;
    let mut left = w;
    while left != 0 {
        let i = words::lowest(left);
        let k = base + i;
        let at = k as usize;
        best = turn(best, k, routes[at], side);
        left = words::with_bit(left, i, false);
    }
    best
}

// The search through all 128 inputs. The lowest priority that the threshold lets pass is one less than it, but 0 always does.
fn search(s: Aintc, fast: bool) -> Best
    ensures { result ≡ searched s fast }
{
    let side = u8::from(fast);
    let mut best = Best {
        number: None,
        limit: s.threshold.saturating_sub(1),
    };
    for n in 0..4 {
        best = search_word(open_word(s, n), 32 * n, &s.routes, side, best);
    }
    best
}

// The eligible input that is before all others.
fn first_of(s: Aintc, fast: bool) -> Option<u32>
    ensures first { unwrap_or result 128 ≡ first s fast }
    ensures within { IfSome result (λ k. k < 128) }
{
    search(s, fast).number
}

// ---- the rules of a sound record

// Whether an output with none chosen has none that is eligible.
fn side_quiet(s: Aintc, fast: bool) -> bool
    ensures { result ≡ side_quiet s fast }
{
    let chosen = aintc_record::side_of(s, fast);
    if chosen.active {
        return true;
    }
    first_of(s, fast).is_none()
}

// Whether the record breaks no rule.
pub fn is_sound(s: Aintc) -> bool
    ensures { result ≡ sound s }
{
    aintc_record::is_bounded(s) & side_quiet(s, false) & side_quiet(s, true)
}

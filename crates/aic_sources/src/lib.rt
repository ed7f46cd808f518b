// The AT91 controller's sources: which are pending, fast or candidates, which one is ahead of all others, and the two outputs.
#![tactic(auto)]

ghost use Rattle.std.specs.Prelude.{◌≡◌, not, ◌+◌, ◌*◌};
ghost use Rattle.words.specs.Choice.{pick};
ghost use Rattle.words.specs.Counting.{one};
ghost use Rattle.words.specs.Word.{bit, word_of};
ghost use Rattle.aic_sources.specs.Pending.{active_at, asking, pending_word, edge_word};
ghost use Rattle.aic_sources.specs.Fast.{fast, fast_asks, fiq};
ghost use Rattle.aic_sources.specs.Normal.{chosen, irq, waiting};
ghost use Rattle.aic_sources.specs.Search.{mode_word, least_of, Found};

use aic_record::Aic;

// ---- pending sources, as words

// Bit j of a mode.
fn mode_bit(mode: u8, j: u32) -> bool
    ensures { result ≡ bit mode j }
{
    words::has(mode as u32, j)
}

// Bit j of each of the 32 modes.
pub fn mode_word(mode: &[u8; 32], j: u32) -> u32
    ensures { result ≡ mode_word mode.now j }
{
    let mut w: u32 = 0;
    for (k, &m) in mode.iter().enumerate() {
        w = words::with_bit(w, k as u32, mode_bit(m, j));
    }
    w
}

// The bits of a where the mask has a bit, those of b elsewhere.
pub fn blend(mask: u32, a: u32, b: u32) -> u32
    ensures { result ≡ word_of 32 (λ k. pick (bit mask k) (bit a k) (bit b k)) }
{
    words::join(words::meet(mask, a), words::drop_bits(b, mask))
}

// The sources whose lines are at their active levels: low for those of the word `low`, high for the others.
pub fn active_word(low: u32, lines: u32) -> u32
    ensures { result ≡ word_of 32 (λ k. pick (bit low k) (not (bit lines k)) (bit lines k)) }
{
    words::join(words::drop_bits(low, lines), words::drop_bits(lines, low))
}

// The edge-triggered sources: bit 5 of a mode tells them.
pub fn edge_word(s: Aic) -> u32
    ensures { result ≡ edge_word s }
{
    mode_word(&s.mode, 5)
}

// The pending sources. Bit 6 of a mode tells the types whose active level is high even of an external source.
pub fn pending_word(s: Aic) -> u32
    ensures { result ≡ pending_word s }
{
    let low = words::drop_bits(s.external, mode_word(&s.mode, 6));
    blend(edge_word(s), s.memory, active_word(low, s.lines))
}

// Whether a line that is high, or low, is at the active level: low where `low` says so, else high.
pub fn at_level(low: bool, high: bool) -> bool
    ensures { result ≡ pick low (not high) high }
{
    if low { !high } else { high }
}

// Whether a line that is high, or low, is at the active level of source k.
pub fn is_active_at(s: Aic, k: u32, high: bool) -> bool
    ensures { result ≡ active_at s k high }
{
    let kind = aic_record::type_of(aic_record::mode_at(s, k) as u32);
    at_level(words::has(s.external, k) & (kind < 2), high)
}

// The sources that are pending and enabled.
fn asking_word(s: Aic) -> u32
    ensures { result ≡ word_of 32 (asking s) }
{
    words::meet(pending_word(s), s.enabled)
}

// The fast sources: source 0 and those that are forced.
fn fast_word(s: Aic) -> u32
    ensures { result ≡ word_of 32 (fast s) }
{
    words::join(1, s.forced)
}

// ---- the one ahead of all others

// Of the waiting sources whose priority is at least the floor the one ahead of all others, 32 if there is none.
// The floor rises above each priority that is taken, so an equal priority of a higher number does not oust it.
// 32 and no Option, here and in the two below: the promise `chosen_none` tells 32 of a record without a candidate.
fn search(waiting: u32, mode: &[u8; 32], least: u32) -> u32
    ensures { Found waiting mode.now least 32 result }
{
    let mut best: u32 = 32;
    let mut floor = least;
    for (k, &m) in mode.iter().enumerate() {
        let priority = aic_record::priority_of(m);
        if words::has(waiting, k as u32) & (floor <= priority) {
            best = k as u32;
            floor = priority + 1;
        }
    }
    best
}

// ---- the two sides and their outputs, of a record whose pending and enabled sources are the word `asks`

// Whether some fast source is pending and enabled.
fn fast_among(s: Aic, asks: u32) -> bool
    requires { asks ≡ word_of 32 (asking s) }
    ensures { result ≡ fast_asks s }
{
    words::meet(fast_word(s), asks) != 0
}

// The least priority that may start: with eight entries open 8, which no source has.
fn least_of(s: Aic) -> u32
    ensures { result ≡ least_of s }
{
    if 8 <= s.depth {
        return 8;
    }
    aic_record::floor_of(s)
}

// The candidate that is ahead of all others, 32 if there is none.
fn chosen_among(s: Aic, asks: u32) -> u32
    requires { asks ≡ word_of 32 (asking s) }
    ensures { result ≡ chosen s }
{
    let least = least_of(s);
    let waits = words::drop_bits(asks, fast_word(s));
    search(waits, &s.mode, least)
}

// The sources that are pending, enabled and not fast.
pub fn waiting_word(s: Aic) -> u32
    ensures { result ≡ word_of 32 (waiting s) }
{
    words::drop_bits(asking_word(s), fast_word(s))
}

// Whether some fast source is pending and enabled.
pub fn fast_asks(s: Aic) -> bool
    ensures { result ≡ fast_asks s }
{
    fast_among(s, asking_word(s))
}

// The candidate that is ahead of all others, 32 if there is none.
pub fn chosen_source(s: Aic) -> u32
    ensures { result ≡ chosen s }
{
    chosen_among(s, asking_word(s))
}

// The two outputs from one look at the sources, active unless debug control masks them: bit 0 is FIQ, bit 1 IRQ.
pub fn output_bits(s: Aic) -> u32
    ensures { result ≡ one (fiq s) + 2 * one (irq s) }
{
    let asks = asking_word(s);
    let clear = !words::has(s.debug, 1);
    let fast = words::one_if(clear & fast_among(s, asks));
    let normal = words::one_if(clear & (chosen_among(s, asks) < 32));
    fast + 2 * normal
}

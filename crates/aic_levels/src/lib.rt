// The sources of the AT91 controller kept by level: a word for each priority, and a byte that says which words have any.
#![tactic(auto)]

ghost use Rattle.std.specs.Prelude.{◌≡◌, true, not, ◌&&◌, eqb, get_or};
ghost use Rattle.words.specs.Counting.{all_below};
ghost use Rattle.words.specs.Word.{bit, word_of};
ghost use Rattle.aic_record.specs.declared.Aic.{Aic};
ghost use Rattle.aic_record.specs.Sound.{sound};
ghost use Rattle.aic_sources.specs.Search.{rank, least_of};
ghost use Rattle.aic_levels.specs.Levels.{highest_of, agrees};
ghost use Rattle.aic_levels.specs.Model.{start, outputs_with};

use aic::Signals;
use aic_record::Aic;

pub mod table;

// Bit k of word p: source k waits and has priority p. Bit p of `any`: word p is not 0.
#[derive(Clone, Copy)]
pub struct Levels {
    pub words: [u32; 8],
    pub any: u8,
}

// What a start answers: its refusal, the record and its levels.
// A number and no Result, here and in the next: the definitions that the promises speak of name these fields.
#[derive(Clone, Copy)]
pub struct Begun {
    pub refusal: u32,
    pub aic: Aic,
    pub levels: Levels,
}

// What a step of a record and its levels answers: its refusal, the value read, and both after it.
#[derive(Clone, Copy)]
pub struct Answer {
    pub refusal: u32,
    pub value: u32,
    pub aic: Aic,
    pub levels: Levels,
}

// ---- the highest level, and the least priority that may start

// The highest level of the byte, 255 if it has none.
// 255 and no Option: the promise `table_none` tells it.
pub fn highest(b: u8) -> u8
    ensures { result ≡ highest_of b }
{
    table::HIGHEST[b as usize]
}

// The least priority above the level of the last entry; with eight entries open 8, which no source has.
pub fn least(level: &[u8; 8], depth: u32) -> u32
    ensures { (s : Aic) → s.level ≡ level.now → s.depth ≡ depth → result ≡ least_of s }
{
    if depth == 0 {
        return 0;
    }
    if 8 <= depth {
        return 8;
    }
    aic_record::floor_over(level[depth as usize - 1])
}

// ---- the levels of a record

// The sources of priority p, pending or not.
pub fn class_word(mode: &[u8; 32], p: u32) -> u32
    ensures { result ≡ word_of 32 (λ k. eqb (rank mode.now k) p) }
{
    let mut w: u32 = 0;
    for (k, &m) in mode.iter().enumerate() {
        w = words::with_bit(w, k as u32, aic_record::priority_of(m) == p);
    }
    w
}

// Of the waiting sources those of priority p.
fn level_word(waits: u32, mode: &[u8; 32], p: u32) -> u32
    ensures { result ≡ word_of 32 (λ k. bit waits k && eqb (rank mode.now k) p) }
{
    words::meet(waits, class_word(mode, p))
}

// Whether each of the eight words holds the waiting sources of its level.
fn words_agree(waits: u32, mode: &[u8; 32], levels: &[u32; 8]) -> bool
    ensures { result ≡ all_below 8 (λ p. eqb (get_or levels.now p 0) (word_of 32 (λ k. bit waits k && eqb (rank mode.now k) p))) }
{
    let mut same = true;
    for (p, &w) in levels.iter().enumerate() {
        same &= w == level_word(waits, mode, p as u32);
    }
    same
}

// The word of a level; 0 where none is lent.
fn word_at(levels: &[u32], level: u32) -> u32
    ensures { result ≡ get_or levels.now level 0 }
{
    levels.get(level as usize).copied().unwrap_or(0)
}

// The levels whose word is not 0, of all eight, however many words are lent.
pub fn levels_with_any(levels: &[u32]) -> u32
    ensures { result ≡ word_of 8 (λ p. not (eqb (get_or levels.now p 0) 0)) }
{
    let mut any: u32 = 0;
    for level in 0..8 {
        any = words::with_bit(any, level, word_at(levels, level) != 0);
    }
    any
}

// Whether the words and the byte are what the record says.
pub fn agrees(s: Aic, l: Levels) -> bool
    ensures { result ≡ agrees s l }
{
    let same = words_agree(aic_sources::waiting_word(s), &s.mode, &l.words);
    same & (l.any as u32 == levels_with_any(&l.words))
}

// ---- the start and the outputs

// The controller after reset, at which nothing is enabled: all words and the byte are 0.
pub fn start(external: u32, lines: u32) -> Begun
    ensures { result ≡ start external lines }
{
    let begun = aic::start(external, lines);
    let aic = begun.aic;
    let levels = Levels {
        words: [0; 8],
        any: 0,
    };
    Begun {
        refusal: begun.refusal,
        aic,
        levels,
    }
}

// The outputs of a record with levels that agree with it.
fn outputs_agreed(s: Aic, l: Levels) -> Signals
    requires { (sound s && agrees s l) ≡ true }
    ensures { result ≡ outputs_with s l }
{
    let clear = !words::has(s.debug, 1);
    let some = !words::is_clean(least(&s.level, s.depth), l.any as u32);
    Signals {
        refusal: steps::CARRIED_OUT,
        irq: clear & some,
        fiq: clear & aic_sources::fast_asks(s),
        entries: s.depth,
    }
}

// The outputs; 12 and nothing else where the record is not sound or the levels are not its own.
pub fn outputs(s: Aic, l: Levels) -> Signals
    ensures { result ≡ outputs_with s l }
{
    if aic_record::is_sound(s) & agrees(s, l) {
        return outputs_agreed(s, l);
    }
    Signals {
        refusal: steps::UNSOUND,
        irq: false,
        fiq: false,
        entries: 0,
    }
}

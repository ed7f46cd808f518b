// What a step did, in words, by the machine before it and the one after it, and which outputs it changed (docs/TEXT.md).
#![tactic(auto)]

ghost use Rattle.std.specs.Prelude.{◌≡◌, ◌++◌, ℕ, ◌<◌, not, ◌&&◌};
ghost use Rattle.words.specs.Array.{bit_at};
ghost use Rattle.text.specs.Text.{write};
ghost use Rattle.text.specs.Phrases.{counted};
ghost use Rattle.deeds.specs.Deeds.{opened_words, closed_words, ends, entry_words, same_seen, seen_words, aic_deeds, gains, further_words, host_words, gain_words, cic_deeds, chosen_words, choice_words, aintc_deeds, deed_words, turn_words, side_words, output_words};

use aic_record::{Aic, Seen};
use aintc_record::{Aintc, Chosen};
use cic_record::Cic;
use machine::record::Machine;
use steps::{Recorded, Step};

// What a step did, each part behind a semicolon.
pub fn put_deeds(out: &mut [u8], at: usize, m: Machine, x: Recorded, after: Machine) -> usize
    ensures { (out.new, result) ≡ write (out.old, at) (deed_words m x after) }
{
    match m.kind {
        kinds::AIC => put_aic(out, at, m.aic, x.step, after.aic),
        kinds::CORE => at,
        kinds::CIC => put_cic(out, at, m.cic, after.cic),
        kinds::AINTC => put_aintc(out, at, m.aintc, after.aintc),
        kinds::INDEXED => put_cic(out, at, m.cic, after.cic),
        _ => at,
    }
}

// ---- the AIC

fn put_aic(out: &mut [u8], at: usize, s: Aic, x: Step, t: Aic) -> usize
    ensures { (out.new, result) ≡ write (out.old, at) (aic_deeds s x t) }
{
    let a = put_entry(out, at, s, x, t);
    put_seen(out, a, s.seen, t.seen)
}

// One entry more or less, or a close that found none.
fn put_entry(out: &mut [u8], at: usize, s: Aic, x: Step, t: Aic) -> usize
    ensures { (out.new, result) ≡ write (out.old, at) (entry_words s x t) }
{
    let close = ends(x);
    let opened = aic_record::last::last_source(t);
    let level = aic_record::last::last_level(t);
    let closed = aic_record::last::last_source(s);
    if s.depth < t.depth {
        return put_opened(out, at, opened % 32, level % 8);
    }
    if t.depth < s.depth {
        return put_closed(out, at, closed % 32);
    }
    if close & (s.depth == 0) {
        return text::put_all(out, at, b"; nothing open");
    }
    at
}

fn ends(x: Step) -> bool
    ensures { result ≡ ends x }
{
    match x {
        Step::Read(_) => false,
        Step::Write(o, _) => o == 0x130,
        Step::Line(_, _) => false,
    }
}

fn put_opened(out: &mut [u8], at: usize, source: u32, level: u32) -> usize
    ensures { (out.new, result) ≡ write (out.old, at) (opened_words source level) }
{
    if source == 0 {
        return text::put_all(out, at, b"; opens a mark");
    }
    put_pair(out, at, b"; starts source ", source, b" at level ", level)
}

fn put_closed(out: &mut [u8], at: usize, source: u32) -> usize
    ensures { (out.new, result) ≡ write (out.old, at) (closed_words source) }
{
    if source == 0 {
        return text::put_all(out, at, b"; closes a mark");
    }
    text::phrases::put_counted(out, at, b"; closes source ", source)
}

fn same_seen(a: Seen, b: Seen) -> bool
    ensures { result ≡ same_seen a b }
{
    (a.what == b.what) & (a.source == b.source) & (a.level == b.level) & (a.vector == b.vector)
}

// What is remembered, where that is something else.
fn put_seen(out: &mut [u8], at: usize, a: Seen, b: Seen) -> usize
    ensures { (out.new, result) ≡ write (out.old, at) (seen_words a b) }
{
    if same_seen(a, b) {
        return at;
    }
    match b.what {
        0 => text::put_all(out, at, b"; forgets"),
        1 => text::phrases::put_counted(out, at, b"; remembers source ", (b.source % 32) as u32),
        _ => text::put_all(out, at, b"; remembers no source"),
    }
}

// ---- the CIC

// Hosts that became asserted, then hosts that are no longer.
fn put_cic(out: &mut [u8], at: usize, c: Cic, d: Cic) -> usize
    ensures { (out.new, result) ≡ write (out.old, at) (cic_deeds c d) }
{
    let a = put_gains(out, at, b"; asserts host ", c, d);
    put_gains(out, a, b"; ends host ", d, c)
}

fn put_gains(out: &mut [u8], at: usize, what: &[u8], c: Cic, d: Cic) -> usize
    ensures { (out.new, result) ≡ write (out.old, at) (gain_words what.now c d) }
{
    let ws = gained(c, d);
    let count = cic_registers::hosts::count_of(ws);
    let lowest = cic_registers::hosts::lowest_of(ws);
    put_hosts(out, at, what, count, lowest)
}

fn put_hosts(out: &mut [u8], at: usize, what: &[u8], count: u32, lowest: u32) -> usize
    ensures { (out.new, result) ≡ write (out.old, at) (host_words what.now count lowest) }
{
    if count == 0 {
        return at;
    }
    let a = text::phrases::put_counted(out, at, what, lowest);
    put_further(out, a, count)
}

fn put_further(out: &mut [u8], at: usize, count: u32) -> usize
    requires { 0 < count }
    ensures { (out.new, result) ≡ write (out.old, at) (further_words count) }
{
    if count == 1 {
        return at;
    }
    let a = text::phrases::put_counted(out, at, b" and ", count - 1);
    text::put_all(out, a, b" more")
}

// The hosts that are asserted in d and not in c, one bit for each.
fn gained(c: Cic, d: Cic) -> [u32; 8]
    ensures { (h : ℕ) → h < 256 → bit_at result h ≡ gains c d h }
{
    let before = cic_registers::hosts::asserted_hosts(c);
    let after = cic_registers::hosts::asserted_hosts(d);
    only_in(after, before)
}

// The bits of one array of words that another does not have.
fn only_in(a: [u32; 8], b: [u32; 8]) -> [u32; 8]
    ensures { (h : ℕ) → h < 256 → bit_at result h ≡ (bit_at a h && not (bit_at b h)) }
{
    let mut out = [0u32; 8];
    // A place in three arrays at once.
    for k in 0..8 {
        out[k] = words::drop_bits(a[k], b[k]);
    }
    out
}

// ---- the AINTC

fn put_aintc(out: &mut [u8], at: usize, s: Aintc, t: Aintc) -> usize
    ensures { (out.new, result) ≡ write (out.old, at) (aintc_deeds s.irq s.fiq t.irq t.fiq) }
{
    let a = put_choice(out, at, b" for IRQ", b"; frees IRQ", s.irq, t.irq);
    put_choice(out, a, b" for FIQ", b"; frees FIQ", s.fiq, t.fiq)
}

// What is chosen for an output, where that is another input, or none any more.
fn put_choice(
    out: &mut [u8],
    at: usize,
    chooses: &[u8],
    frees: &[u8],
    a: Chosen,
    b: Chosen,
) -> usize
    ensures { (out.new, result) ≡ write (out.old, at) (choice_words chooses.now frees.now a b) }
{
    if b.active {
        return put_chosen(out, at, chooses, a, b);
    }
    if a.active {
        return text::put_all(out, at, frees);
    }
    at
}

fn put_chosen(out: &mut [u8], at: usize, chooses: &[u8], a: Chosen, b: Chosen) -> usize
    ensures { (out.new, result) ≡ write (out.old, at) (chosen_words chooses.now a b) }
{
    if a.active & (a.number == b.number) {
        return at;
    }
    let n = text::phrases::put_counted(out, at, b"; chooses input ", (b.number % 128) as u32);
    text::put_all(out, n, chooses)
}

// ---- outputs

// Those that a step changed, each behind a semicolon.
pub fn put_outputs(out: &mut [u8], at: usize, m: Machine, after: Machine) -> usize
    ensures { (out.new, result) ≡ write (out.old, at) (output_words m after) }
{
    match m.kind {
        kinds::AIC | kinds::CORE | kinds::AINTC => put_sides(out, at, m, after),
        _ => at,
    }
}

fn put_sides(out: &mut [u8], at: usize, m: Machine, after: Machine) -> usize
    ensures { (out.new, result) ≡ write (out.old, at) (side_words m after) }
{
    let a = machine::record::shown(m);
    let b = machine::record::shown(after);
    let n = put_turn(
        out,
        at,
        b"; IRQ active",
        b"; IRQ inactive",
        a.first,
        b.first,
    );
    put_turn(
        out,
        n,
        b"; FIQ active",
        b"; FIQ inactive",
        a.second,
        b.second,
    )
}

fn put_turn(
    out: &mut [u8],
    at: usize,
    active: &[u8],
    inactive: &[u8],
    before: u32,
    after: u32,
) -> usize
    ensures { (out.new, result) ≡ write (out.old, at) (turn_words active.now inactive.now before after) }
{
    if before == after {
        return at;
    }
    if after == 1 {
        return text::put_all(out, at, active);
    }
    text::put_all(out, at, inactive)
}

// ---- texts

// Two numbers behind what they count.
fn put_pair(out: &mut [u8], at: usize, first: &[u8], m: u32, second: &[u8], n: u32) -> usize
    ensures { (out.new, result) ≡ write (out.old, at) (counted first.now m ++ counted second.now n) }
{
    let a = text::phrases::put_counted(out, at, first, m);
    text::phrases::put_counted(out, a, second, n)
}

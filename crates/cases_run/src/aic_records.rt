// AIC: no start is refused; which records are, by 12 (01, AIC, Configuration; A sound record; 02, 3/12 and 9/12).
use aic_record::{Aic, Seen};
use cases::lines;

fn start(external: u32, lines: u32) {
    let b = aic::start(external, lines);
    lines::four(external, lines, 0, 0, b.refusal);
}

// Every record is made from the one that starts with internal sources and low lines.
fn fresh() -> Aic {
    let b = aic::start(0, 0);
    b.aic
}

// A record is looked at by a read of IMR, which every sound record allows.
fn look(s: Aic) -> u32 {
    let a = aic::read(s, 0x110);
    a.refusal
}

// With a source and a level in a slot of the entries, of which so many are open.
fn entry(s: Aic, slot: u32, source: u8, level: u8, depth: u32) -> Aic {
    let t = aic_record::put_handler(s, slot, source, level, depth);
    lines::four(slot, source as u32, level as u32, depth, look(t));
    t
}

// In slot 0.
fn first(source: u8, level: u8, depth: u32) {
    entry(fresh(), 0, source, level, depth);
}

// In slot 1, over an entry of the source and the level `below`.
fn second(below: u8, at: u8, source: u8, level: u8) {
    let s = aic_record::put_handler(fresh(), 0, below, at, 1);
    entry(s, 1, source, level, 2);
}

// In slot 2, over a handler of source 9 at level 3 and a mark on it.
fn third(source: u8, level: u8) {
    let s = aic_record::put_handler(fresh(), 0, 9, 3, 1);
    let t = aic_record::put_handler(s, 1, 0, 3, 2);
    entry(t, 2, source, level, 3);
}

// Eight handlers at the levels 0 to 7, and a ninth.
fn tower() {
    let a = entry(fresh(), 0, 1, 0, 1);
    let b = entry(a, 1, 2, 1, 2);
    let c = entry(b, 2, 3, 2, 3);
    let d = entry(c, 3, 4, 3, 4);
    let e = entry(d, 4, 5, 4, 5);
    let f = entry(e, 5, 6, 5, 6);
    let g = entry(f, 6, 7, 6, 7);
    let h = entry(g, 7, 8, 7, 8);
    entry(h, 8, 9, 7, 9);
}

// Levels and sources at their limits, a second level below, at and above the first, and slots that are not in use.
fn handlers() {
    first(9, 7, 1);
    first(9, 8, 1);
    first(9, 255, 1);
    first(1, 3, 1);
    first(32, 3, 1);
    first(31, 3, 1);
    second(31, 3, 10, 2);
    second(31, 3, 10, 3);
    second(31, 3, 10, 4);
    first(9, 0, 0);
    first(0, 3, 0);
    first(0, 255, 0);
}

// A mark with nothing below it has no level, which 255 stands for; so has a mark on it, and a handler there any level.
fn marks_alone() {
    first(0, 0, 1);
    first(0, 3, 1);
    first(0, 254, 1);
    first(0, 255, 1);
    second(0, 255, 0, 0);
    second(0, 255, 0, 255);
    second(0, 255, 9, 0);
    second(0, 255, 9, 7);
    second(0, 255, 9, 8);
    second(0, 255, 9, 255);
}

// A mark on a handler has its level, so has a mark on that, and a handler there a higher one.
fn marks_over() {
    first(9, 3, 1);
    second(9, 3, 0, 0);
    second(9, 3, 0, 2);
    second(9, 3, 0, 4);
    second(9, 3, 0, 255);
    second(9, 3, 0, 3);
    third(0, 255);
    third(0, 3);
    third(10, 3);
    third(10, 255);
    third(10, 4);
}

// Seven marks.
fn seven_marks() -> Aic {
    let a = entry(fresh(), 0, 0, 255, 1);
    let b = entry(a, 1, 0, 255, 2);
    let c = entry(b, 2, 0, 255, 3);
    let d = entry(c, 3, 0, 255, 4);
    let e = entry(d, 4, 0, 255, 5);
    let f = entry(e, 5, 0, 255, 6);
    entry(f, 6, 0, 255, 7)
}

// An eighth on them, and a ninth.
fn eight_marks(seven: Aic) -> Aic {
    let h = entry(seven, 7, 0, 255, 8);
    entry(h, 8, 0, 255, 9);
    h
}

// With a mode of source 9, a word of memories, one of debug control and one of forced sources.
fn stored(mode: u8, memory: u32, debug: u32, forced: u32) {
    let t = aic_record::with_memory(aic_record::put_mode(fresh(), 9, mode), memory);
    let u = aic_record::with_forced(aic_record::with_debug(t, debug), forced);
    lines::four(mode as u32, memory, debug, forced, look(u));
}

// Memory on each type; the bits of a mode and of debug control that a write drops; sources 0 and 1 forced.
fn words() {
    stored(0x07, 0x200, 0, 0);
    stored(0x27, 0x200, 0, 0);
    stored(0x47, 0x200, 0, 0);
    stored(0x67, 0x200, 0, 0);
    stored(0x6F, 0, 0, 0);
    stored(0x77, 0, 0, 0);
    stored(0xE7, 0, 0, 0);
    stored(0, 0, 1, 0);
    stored(0, 0, 2, 0);
    stored(0, 0, 3, 0);
    stored(0, 0, 4, 0);
    stored(0, 0, 0, 2);
    stored(0, 0, 0, 1);
}

// With debug control, and what is remembered: nothing, a source or none; the source, its level and its vector.
fn seen(s: Aic, debug: u32, what: u32, source: u8, level: u8, vector: u32) {
    let n = Seen {
        what,
        source,
        level,
        vector,
    };
    let t = aic_record::with_seen(aic_record::with_debug(s, debug), n);
    lines::four(what, source as u32, level as u32, vector, look(t));
}

// Outside protect mode; in it, with no entry open, each field at its limits.
fn remembered() {
    let s = fresh();
    seen(s, 2, 1, 9, 3, 7);
    seen(s, 0, 2, 0, 0, 0);
    seen(s, 0, 0, 0, 0, 7);
    seen(s, 1, 0, 9, 0, 0);
    seen(s, 1, 0, 0, 3, 0);
    seen(s, 1, 1, 1, 0, 7);
    seen(s, 3, 1, 31, 7, 0xFFFFFFFF);
    seen(s, 1, 1, 0, 3, 0);
    seen(s, 1, 1, 32, 3, 0);
    seen(s, 1, 1, 9, 8, 0);
    seen(s, 1, 2, 0, 0, 0);
    seen(s, 1, 2, 9, 0, 0);
    seen(s, 1, 2, 0, 3, 0);
    seen(s, 1, 2, 0, 0, 7);
    seen(s, 1, 3, 0, 0, 0);
}

// At and above the level of the last entry, and over a mark that has none; with seven entries open room for a source, with eight only for none.
fn remembered_over(seven: Aic, eight: Aic) {
    let s = aic_record::put_handler(fresh(), 0, 31, 3, 1);
    seen(s, 1, 1, 9, 3, 0);
    seen(s, 1, 1, 9, 4, 0);
    seen(
        aic_record::put_handler(fresh(), 0, 0, 255, 1),
        1,
        1,
        9,
        0,
        0,
    );
    seen(seven, 1, 1, 9, 7, 0);
    seen(eight, 1, 1, 9, 7, 0);
    seen(eight, 1, 2, 0, 0, 0);
}

// Of an unsound record 12 stands before every other number, and its outputs are refused too.
fn first_of_all() {
    let s = aic_record::with_forced(fresh(), 1);
    let r = aic::read(s, 0x119);
    lines::one(0x119, r.refusal);
    let w = aic::write(s, 0x138, 1);
    lines::one(0x138, w.refusal);
    let l = aic::line(s, 32, 1);
    lines::one(32, l.refusal);
    let o = aic::outputs(s);
    lines::one(0, o.refusal);
}

pub(crate) fn all() {
    lines::heading(b"AIC starts\n");
    start(0xFFFFFFFF, 0xFFFFFFFF);
    start(0, 0);
    lines::heading(b"slot, source, level, depth\n");
    tower();
    handlers();
    marks_alone();
    marks_over();
    let seven = seven_marks();
    let eight = eight_marks(seven);
    lines::heading(b"mode, memory, debug, forced\n");
    words();
    first_of_all();
    lines::heading(b"remembered, source, level, vector\n");
    remembered();
    remembered_over(seven, eight);
}

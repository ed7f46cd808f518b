// An AIC and its levels along short runs: after each step the value, the byte and two of the words; then IRQ, FIQ, the entries open, and whether the two
// agree.
use aic_levels::{Answer, Levels};
use cases::lines;
use steps::Step;

fn word(l: Levels, p: u32) -> u32 {
    match p {
        0 => l.words[0],
        1 => l.words[1],
        2 => l.words[2],
        3 => l.words[3],
        4 => l.words[4],
        5 => l.words[5],
        6 => l.words[6],
        _ => l.words[7],
    }
}

// ---- the start

fn start(external: u32, lines: u32) {
    let b = aic_levels::start(external, lines);
    let l = b.levels;
    lines::four(external, lines, l.any as u32, word(l, 0), b.refusal);
}

// Nothing is enabled at reset, so no level has any, whatever is pending.
pub(crate) fn starts() {
    lines::heading(b"starts: external, lines, byte, level 0\n");
    start(0, 0);
    start(0, 0xFFFFFFFF);
    start(0xFFFFFFFF, 0);
}

// ---- steps of a pair

fn on(a: Answer, x: Step) -> Answer {
    let s = a.aic;
    let l = a.levels;
    aic_room::pair::step(s, l, x)
}

// A step, and what is to be seen after it: the words are those of the levels p and q.
fn see(a: Answer, x: Step, p: u32, q: u32) -> Answer {
    let b = on(a, x);
    let s = b.aic;
    let l = b.levels;
    lines::four(b.value, l.any as u32, word(l, p), word(l, q), b.refusal);
    let o = aic_levels::outputs(s, l);
    let same = aic_levels::agrees(s, l);
    lines::four(
        o.irq as u32,
        o.fiq as u32,
        o.entries,
        same as u32,
        o.refusal,
    );
    b
}

// With internal sources and low lines, every source enabled, and 0x55 as the spurious vector.
pub(crate) fn fresh() -> Answer {
    let b = aic_levels::start(0, 0);
    let s = b.aic;
    let l = b.levels;
    let a = Answer {
        refusal: b.refusal,
        value: 0,
        aic: s,
        levels: l,
    };
    let c = on(a, Step::Write(0x134, 0x55));
    on(c, Step::Write(0x120, 0xFFFFFFFF))
}

// The same with a mode at one offset and a vector at another.
pub(crate) fn with_source(a: Answer, mode: u32, value: u32, vector: u32, to: u32) -> Answer {
    let b = on(a, Step::Write(mode, value));
    on(b, Step::Write(vector, to))
}

// ---- the cases

// Sources 4, by edge, and 20, by level, of priority 3: the lower number starts first, and the level has any until both have left.
fn two_of_one_level() {
    lines::heading(b"two of one level: 3, 7\n");
    let mut a = with_source(fresh(), 0x10, 0x63, 0x90, 0xA4);
    a = with_source(a, 0x50, 0x43, 0xD0, 0xB4);
    a = see(a, Step::Line(20, 1), 3, 7);
    a = see(a, Step::Line(4, 1), 3, 7);
    a = see(a, Step::Read(0x100), 3, 7);
    a = see(a, Step::Write(0x130, 0), 3, 7);
    see(a, Step::Line(20, 0), 3, 7);
}

// Source 31 of priority 0 and source 1 of priority 7.
fn lowest_and_highest() {
    lines::heading(b"levels 0 and 7: 0, 7\n");
    let mut a = with_source(fresh(), 0x7C, 0x40, 0xFC, 0xBF);
    a = with_source(a, 0x04, 0x47, 0x84, 0xA1);
    a = see(a, Step::Line(31, 1), 0, 7);
    a = see(a, Step::Line(1, 1), 0, 7);
    a = see(a, Step::Read(0x100), 0, 7);
    a = see(a, Step::Line(1, 0), 0, 7);
    a = see(a, Step::Write(0x130, 0), 0, 7);
    a = see(a, Step::Read(0x100), 0, 7);
    see(a, Step::Line(31, 0), 0, 7);
}

// Source 9, by edge, alone in level 5 over source 3, by level, in level 2: cleared, disabled, started.
fn emptied() {
    lines::heading(b"a level that empties: 2, 5\n");
    let mut a = with_source(fresh(), 0x0C, 0x42, 0x8C, 0xA3);
    a = with_source(a, 0x24, 0x65, 0xA4, 0xA9);
    a = on(a, Step::Line(3, 1));
    a = see(a, Step::Write(0x12C, 0x200), 2, 5);
    a = see(a, Step::Write(0x128, 0x200), 2, 5);
    a = on(a, Step::Write(0x12C, 0x200));
    a = see(a, Step::Write(0x124, 0x200), 2, 5);
    a = see(a, Step::Write(0x120, 0x200), 2, 5);
    a = see(a, Step::Read(0x100), 2, 5);
    see(a, Step::Line(3, 0), 2, 5);
}

// Source 0 is in no level; sources 6 of priority 4 and 12 of priority 6 are in none while they are forced.
fn forced() {
    lines::heading(b"forced and unforced: 4, 6\n");
    let mut a = with_source(fresh(), 0x18, 0x44, 0x98, 0xA6);
    a = with_source(a, 0x30, 0x46, 0xB0, 0xAC);
    a = see(a, Step::Line(0, 1), 4, 6);
    a = on(a, Step::Line(0, 0));
    a = on(a, Step::Line(6, 1));
    a = see(a, Step::Line(12, 1), 4, 6);
    a = see(a, Step::Write(0x140, 0x1000), 4, 6);
    a = see(a, Step::Write(0x140, 0x41), 4, 6);
    a = see(a, Step::Write(0x144, 0x1000), 4, 6);
    a = see(a, Step::Write(0x30, 0x44), 4, 6);
    see(a, Step::Write(0x144, 0x40), 4, 6);
}

// Source 8, by edge, and source 5, by level, of priority 3, both waiting: another priority, dropped bits, another type.
fn moved() {
    lines::heading(b"mode change of a pending source: 3, 6\n");
    let mut a = with_source(fresh(), 0x20, 0x63, 0xA0, 0xA8);
    a = with_source(a, 0x14, 0x43, 0x94, 0xA5);
    a = on(a, Step::Line(5, 1));
    a = see(a, Step::Write(0x12C, 0x100), 3, 6);
    a = see(a, Step::Write(0x20, 0x66), 3, 6);
    a = see(a, Step::Write(0x20, 0xFE), 3, 6);
    a = see(a, Step::Write(0x14, 0x46), 3, 6);
    a = see(a, Step::Write(0x20, 0x26), 3, 6);
    a = see(a, Step::Write(0x14, 0x66), 3, 6);
    see(a, Step::Write(0x14, 0x03), 3, 6);
}

// A source of this mode is set by command and started; it is at this offset, and has this bit.
fn nest(a: Answer, mode: u32, value: u32, bit: u32) -> Answer {
    let b = on(a, Step::Write(mode, value));
    let c = on(b, Step::Write(0x12C, bit));
    on(c, Step::Read(0x100))
}

// Sources 16 to 23, by edge, started at the levels 0 to 7.
fn tower() -> Answer {
    let mut a = nest(fresh(), 0x40, 0x60, 0x10000);
    a = nest(a, 0x44, 0x61, 0x20000);
    a = nest(a, 0x48, 0x62, 0x40000);
    a = nest(a, 0x4C, 0x63, 0x80000);
    a = nest(a, 0x50, 0x64, 0x100000);
    a = nest(a, 0x54, 0x65, 0x200000);
    a = nest(a, 0x58, 0x66, 0x400000);
    nest(a, 0x5C, 0x67, 0x800000)
}

// Source 2 waits at level 7, then at level 6, over eight handlers, and starts over six.
fn eight_handlers() {
    lines::heading(b"eight handlers: 7, 6\n");
    let mut a = with_source(tower(), 0x08, 0x47, 0x88, 0xA2);
    a = see(a, Step::Line(2, 1), 7, 6);
    a = see(a, Step::Read(0x100), 7, 6);
    a = see(a, Step::Write(0x08, 0x46), 7, 6);
    a = see(a, Step::Write(0x130, 0), 7, 6);
    a = see(a, Step::Write(0x130, 0), 7, 6);
    see(a, Step::Read(0x100), 7, 6);
}

// Four reads of IVR.
fn four_reads(a: Answer) -> Answer {
    let b = on(a, Step::Read(0x100));
    let c = on(b, Step::Read(0x100));
    let d = on(c, Step::Read(0x100));
    on(d, Step::Read(0x100))
}

// Source 2 waits at level 7, then at level 0, over eight marks, and starts over seven.
fn eight_marks() {
    lines::heading(b"eight marks: 7, 0\n");
    let mut a = with_source(fresh(), 0x08, 0x47, 0x88, 0xA2);
    a = four_reads(four_reads(a));
    a = see(a, Step::Line(2, 1), 7, 0);
    a = see(a, Step::Read(0x100), 7, 0);
    a = see(a, Step::Write(0x08, 0x40), 7, 0);
    a = see(a, Step::Write(0x130, 0), 7, 0);
    see(a, Step::Read(0x100), 7, 0);
}

// Source 3, by level, of priority 2, and source 9, by edge, of priority 5, in protect mode (02, 9/12): a look changes no level, nor does the mark of one
// that finds none; source 9 is started by the write, at the level of the look, and leaves the level to which it has moved since.
fn protected() {
    lines::heading(b"protect mode: 2, 5\n");
    let mut a = with_source(fresh(), 0x0C, 0x42, 0x8C, 0xA3);
    a = with_source(a, 0x24, 0x65, 0xA4, 0xA9);
    a = on(a, Step::Line(3, 1));
    a = on(a, Step::Write(0x138, 1));
    a = see(a, Step::Write(0x12C, 0x200), 2, 5);
    a = see(a, Step::Read(0x100), 2, 5);
    a = see(a, Step::Write(0x24, 0x66), 2, 5);
    a = see(a, Step::Write(0x100, 0), 2, 5);
    a = see(a, Step::Read(0x100), 2, 5);
    a = see(a, Step::Write(0x100, 0), 2, 5);
    a = see(a, Step::Write(0x100, 0), 2, 5);
    a = on(a, Step::Read(0x100));
    a = see(a, Step::Write(0x138, 0), 2, 5);
    see(a, Step::Read(0x100), 2, 5);
}

// The heading of each says which levels its two words are.
pub(crate) fn all() {
    lines::heading(b"value, byte, two levels; IRQ, FIQ, entries, agree\n");
    two_of_one_level();
    lowest_and_highest();
    emptied();
    forced();
    moved();
    eight_handlers();
    eight_marks();
    protected();
}

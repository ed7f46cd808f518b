// Pairs whose record is not sound or whose words or byte are not the record's: 12 before all else, the value 0, and both come back as they were (02, 5/12).
use super::runs::{fresh, with_source};
use aic_levels::{Answer, Levels};
use cases::lines;
use steps::Step;

// Source 9, by level, waits at level 7, and nothing else does.
fn waiting() -> Answer {
    let a = with_source(fresh(), 0x24, 0x47, 0xA4, 0xA9);
    let s = a.aic;
    let l = a.levels;
    aic_room::pair::step(s, l, Step::Line(9, 1))
}

// The pair with word 7, the byte and the forced sources put so: a read of IVR, and what it leaves of these and of the entries.
fn put(seven: u32, byte: u8, forced: u32) {
    let a = waiting();
    let mut s = a.aic;
    s.forced = forced;
    let mut l = a.levels;
    l.words[7] = seven;
    l.any = byte;
    let r = aic_room::pair::step(s, l, Step::Read(0x100));
    lines::four(seven, byte as u32, forced, r.value, r.refusal);
    let t = r.aic;
    let m = r.levels;
    let o = aic_levels::outputs(t, m);
    lines::four(m.words[7], m.any as u32, t.forced, t.depth, o.refusal);
}

// The pair as it is; word 7 without the source, with source 0 too, with one that does not wait; the byte without the level, with another one too, with
// another one instead; a record that is not sound; source 9 forced and out of its word, and left in it.
fn pairs() {
    put(0x200, 0x80, 0);
    put(0, 0x80, 0);
    put(0x201, 0x80, 0);
    put(0x600, 0x80, 0);
    put(0x200, 0, 0);
    put(0x200, 0x81, 0);
    put(0x200, 0x40, 0);
    put(0x200, 0x80, 1);
    put(0, 0, 0x200);
    put(0x200, 0x80, 0x200);
}

// The levels with source 9 in word p; word 7 has it already.
fn spoiled(l: Levels, p: u32) -> Levels {
    let mut m = l;
    match p {
        0 => {
            m.words[0] = 0x200;
        }
        1 => {
            m.words[1] = 0x200;
        }
        2 => {
            m.words[2] = 0x200;
        }
        3 => {
            m.words[3] = 0x200;
        }
        4 => {
            m.words[4] = 0x200;
        }
        5 => {
            m.words[5] = 0x200;
        }
        6 => {
            m.words[6] = 0x200;
        }
        _ => {
            m.words[7] = 0x200;
        }
    }
    m
}

// Source 9 waits at level 7 and stands in word p too: whether the two agree, and a read of IMR.
fn also_in(p: u32) {
    let a = waiting();
    let s = a.aic;
    let m = a.levels;
    let l = spoiled(m, p);
    let same = aic_levels::agrees(s, l);
    let r = aic_room::pair::step(s, l, Step::Read(0x110));
    lines::four(p, same as u32, r.value, 0, r.refusal);
}

fn each_word() {
    also_in(0);
    also_in(1);
    also_in(2);
    also_in(3);
    also_in(4);
    also_in(5);
    also_in(6);
    also_in(7);
}

// Steps that a pair refuses by other numbers: 12 stands before them where the byte is wrong.
fn first_of_all(byte: u8) {
    let a = waiting();
    let s = a.aic;
    let mut l = a.levels;
    l.any = byte;
    let r = aic_room::pair::step(s, l, Step::Read(0x119));
    lines::one(0x119, r.refusal);
    let w = aic_room::pair::step(s, l, Step::Write(0x108, 1));
    lines::one(0x108, w.refusal);
    let i = aic_room::pair::step(s, l, Step::Line(32, 1));
    lines::one(32, i.refusal);
    let o = aic_levels::outputs(s, l);
    lines::one(0, o.refusal);
}

pub(crate) fn all() {
    lines::heading(b"word 7, byte, forced, value; word 7, byte, forced, entries\n");
    pairs();
    lines::heading(b"in this word too, agree, value\n");
    each_word();
    lines::heading(b"refused otherwise, and with a wrong byte\n");
    first_of_all(0x80);
    first_of_all(0);
}

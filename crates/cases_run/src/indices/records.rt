// Starts that are refused by 10, and records that are refused by 12 (D33, D34).
use super::part::{fresh, held_for};
use cases::lines;
use cic_held::{Held, Prioritised};

// The choice asked for, and the systems, the choice and the mode of the record: of a refused start all are 0.
fn start(systems: u32, channels: u32, hosts: u32, choice: u32) {
    let b = cic_prioritised::start(systems, channels, hosts, 7, choice);
    let p = b.prioritised;
    let c = p.cic;
    let h = p.held;
    lines::four(choice, c.systems, h.choice, h.hold, b.refusal);
}

pub(crate) fn starts() {
    lines::heading(b"starts: choice; systems, choice, hold\n");
    start(1, 1, 1, 0);
    start(1, 1, 1, 1);
    start(1, 1, 1, 2);
    start(1, 1, 1, 0xFFFFFFFF);
    start(1024, 256, 256, 1);
    start(1025, 256, 256, 1);
    start(0, 1, 1, 1);
    start(1, 257, 1, 1);
    start(1, 1, 257, 1);
    start(1, 1, 0, 2);
}

// The record with this held beside its CIC.
fn record_with(h: Held) -> Prioritised {
    let p = fresh(1);
    let c = p.cic;
    Prioritised { cic: c, held: h }
}

// A record is looked at by a read of its revision.
fn look(p: Prioritised) -> u32 {
    let a = cic_prioritised::read(p, 0x000);
    a.refusal
}

// With this choice and mode, this held globally and this for host 33, the last one.
fn put(choice: u32, hold: u32, global: u16, last: u16) {
    let p = fresh(1);
    let mut h = p.held;
    h.choice = choice;
    h.hold = hold;
    h.global = global;
    h.host[33] = last;
    lines::four(
        choice,
        hold,
        global as u32,
        last as u32,
        look(record_with(h)),
    );
}

// Choice and mode at their limits; what may be held of 40 systems; nothing outside the mode.
fn rules() {
    lines::heading(b"choice, hold, held globally, held for the last host\n");
    put(1, 1, 0, 0);
    put(1, 0, 0, 0);
    put(0, 0, 0, 0);
    put(2, 1, 0, 0);
    put(1, 2, 0, 0);
    put(0, 1, 0, 0);
    put(1, 1, 1, 1);
    put(1, 1, 41, 41);
    put(1, 1, 42, 0);
    put(1, 1, 0, 42);
    put(1, 0, 1, 0);
    put(1, 0, 0, 1);
}

// With this held for host 34, which there is not, and for host 255; and with this global enable of the CIC.
fn beyond(next: u16, last: u16, enable: u32) {
    let p = fresh(1);
    let mut h = p.held;
    h.host[34] = next;
    h.host[255] = last;
    let mut c = p.cic;
    c.global = enable;
    let q = Prioritised { cic: c, held: h };
    lines::four(next as u32, last as u32, enable, 0, look(q));
}

// Of an unsound record 12 stands before every other number, its outputs are refused too, and it comes back as it was.
fn first_of_all() {
    let p = fresh(1);
    let mut h = p.held;
    h.host[33] = 42;
    let q = record_with(h);
    let r = cic_prioritised::read(q, 0x905);
    lines::one(0x905, r.refusal);
    let w = cic_prioritised::write(q, 0x034, 34);
    lines::one(0x034, w.refusal);
    let l = cic_prioritised::line(q, 40, 2);
    lines::one(40, l.refusal);
    let o = cic_prioritised::outputs(q);
    lines::four(
        o.hosts,
        o.lowest,
        held_for(l.prioritised, 33),
        r.value,
        o.refusal,
    );
}

pub(crate) fn all() {
    rules();
    lines::heading(b"host 34, host 255, global enable\n");
    beyond(0, 0, 1);
    beyond(1, 0, 0);
    beyond(0, 1, 0);
    beyond(0, 0, 2);
    first_of_all();
}

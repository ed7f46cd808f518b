// CoreInterrupt: which starts and which records are refused, 10 and 12 (01, CoreInterrupt).
use cases::lines;
use coreinterrupt::Core;
use coreinterrupt::sides::Side;

fn start(fiqs: u32, irqs: u32, fiqlevel: u32, irqlevel: u32) {
    let b = coreinterrupt::start(fiqs, irqs, fiqlevel, irqlevel);
    lines::four(fiqs, irqs, fiqlevel, irqlevel, b.refusal);
}

fn starts() {
    start(0, 0, 0, 0);
    start(8, 32, 1, 1);
    start(9, 32, 1, 1);
    start(8, 33, 1, 1);
    start(8, 32, 2, 1);
    start(8, 32, 1, 2);
}

// A record is looked at by a read of its FIQ soft register: these two sides.
fn look(fiq: Side, irq: Side) -> u32 {
    let c = Core { fiq: fiq, irq: irq };
    let a = coreinterrupt::read(c, 0x000);
    a.refusal
}

// One side with this count and level, the other without sources.
fn counts(count: u32, level: u32) {
    let g = coreinterrupt::sides::idle(count, level);
    let none = coreinterrupt::sides::idle(0, 0);
    lines::four(count, level, 0, 0, look(g, none));
    lines::four(0, 0, count, level, look(none, g));
}

// A side of so many sources, with the words of its inputs, soft and enable bits.
fn side(count: u32, inputs: u32, soft: u32, enable: u32) -> Side {
    Side {
        count,
        level: 0,
        inputs,
        soft,
        enable,
    }
}

// This side as the FIQ side and as the IRQ side, the other without sources.
fn both(count: u32, inputs: u32, soft: u32, enable: u32) {
    let g = side(count, inputs, soft, enable);
    let none = coreinterrupt::sides::idle(0, 0);
    lines::four(count, inputs, soft, enable, look(g, none));
    lines::four(count, inputs, soft, enable, look(none, g));
}

// The last bit of 5 sources, and of 31, which only the IRQ side can have, and the one after it.
fn words() {
    both(5, 0x10, 0x10, 0x10);
    both(5, 0x20, 0, 0);
    both(5, 0, 0x20, 0);
    both(5, 0, 0, 0x20);
    both(31, 0x40000000, 0x40000000, 0x40000000);
    both(31, 0x80000000, 0, 0);
    both(31, 0, 0x80000000, 0);
    both(31, 0, 0, 0x80000000);
}

// Of an unsound record 12 stands before every other number, and its outputs are refused too.
fn first_of_all() {
    let c = Core {
        fiq: coreinterrupt::sides::idle(8, 2),
        irq: coreinterrupt::sides::idle(32, 1),
    };
    let r = coreinterrupt::read(c, 0x031);
    lines::one(0x031, r.refusal);
    let o = coreinterrupt::outputs(c);
    lines::one(0, o.refusal);
}

fn levels() {
    counts(8, 1);
    counts(8, 2);
    counts(9, 0);
    counts(32, 0);
    counts(33, 0);
}

pub(crate) fn all() {
    lines::heading(b"COREINTERRUPT starts\n");
    starts();
    lines::heading(b"FIQ count and level, IRQ count and level\n");
    levels();
    lines::heading(b"count, inputs, soft, enable\n");
    words();
    first_of_all();
}

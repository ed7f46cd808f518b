// Small boards, printed call by call: an input carries activity and not level, its own pin, the last wire put; unused inputs; chains that part and meet (02, 8/12).
use super::transcript::Transcript;
use board_wires::Wire;

// Controller 0 has active level 0 on both sides: inactive it shows 1 and raises nothing; active it shows 0 and raises IRQ input 0 and FIQ input 0 of controller 1.
fn activity<R: Print>(rt: &R) {
    let mut b = Transcript::titled(rt, "activity, not level");
    b.add(1, 1, 0, 0);
    b.add(1, 1, 1, 1);
    b.connect(1, 0, Wire::Irq(0));
    b.connect(1, 32, Wire::Fiq(0));
    b.write(1, 0x20, 1);
    b.write(1, 0x08, 1);
    shown(&b);
    b.write(0, 0x18, 1);
    shown(&b);
    b.write(0, 0x20, 1);
    shown(&b);
    b.write(0, 0x00, 1);
    b.write(0, 0x08, 1);
    b.write(0, 0x1C, 1);
    shown(&b)
}

fn shown<R: Print>(b: &Transcript<R>) {
    b.outputs(0);
    b.input(1, 0);
    b.input(1, 32);
    b.outputs(1)
}

// Inputs 1 and 33 of controller 1 are beyond its counts, and high.
fn spare<R: Print>(rt: &R) -> Transcript<'_, R> {
    let mut b = Transcript::titled(rt, "unused inputs");
    b.add(0, 1, 1, 1);
    b.add(1, 1, 1, 1);
    b.connect(0, 0, Wire::Pin(7));
    b.connect(1, 1, Wire::Irq(0));
    b.connect(1, 33, Wire::Pin(7));
    b.write(0, 0x20, 1);
    b.write(1, 0x20, 0xFFFFFFFF);
    b.write(1, 0x08, 0xFFFFFFFF);
    b.pin(7, 1);
    b
}

// They have values, raise nothing and make the chain of controller 1.
fn silent<R: Print>(b: &Transcript<R>) {
    b.outputs(0);
    b.input(1, 1);
    b.input(1, 33);
    b.read(1, 0x20);
    b.read(1, 0x28);
    b.read(1, 0x10);
    b.outputs(1);
    b.chain(1)
}

// Wired to input 0, which is used, the same output raises; unwired, there is no chain. Controller 0 has no FIQ source: a clear reads 0.
fn unused<R: Print>(rt: &R) {
    let mut b = spare(rt);
    silent(&b);
    b.connect(1, 0, Wire::Irq(0));
    b.read(1, 0x2C);
    b.outputs(1);
    b.connect(1, 1, Wire::Nothing);
    b.connect(1, 0, Wire::Nothing);
    b.input(1, 1);
    b.chain(1);
    b.read(0, 0x04);
    b.read(0, 0x14)
}

// Of controller 0 the FIQ is active, and pin 5 is high.
fn raised<R: Print>(rt: &R) -> Transcript<'_, R> {
    let mut b = Transcript::titled(rt, "the last wire counts");
    b.add(8, 32, 1, 1);
    b.add(8, 32, 1, 1);
    b.write(0, 0x08, 0x80);
    b.write(0, 0x00, 0x80);
    b.pin(5, 1);
    b.input(1, 31);
    b
}

// One input is wired to pin 4, to pin 5, to the IRQ and the FIQ of controller 0, to nothing: the last wire counts.
fn replaced<R: Print>(rt: &R) {
    let mut b = raised(rt);
    b.connect(1, 31, Wire::Pin(4));
    b.input(1, 31);
    b.connect(1, 31, Wire::Pin(5));
    last(&b);
    b.connect(1, 31, Wire::Irq(0));
    last(&b);
    b.connect(1, 31, Wire::Fiq(0));
    last(&b);
    b.connect(1, 31, Wire::Nothing);
    last(&b)
}

fn last<R: Print>(b: &Transcript<R>) {
    b.input(1, 31);
    b.read(1, 0x28);
    b.chain(1)
}

fn five<R: Print>(rt: &R) -> Transcript<'_, R> {
    let mut b = Transcript::titled(rt, "chains that part and meet");
    for _ in 0..5 {
        b.add(1, 2, 1, 1);
    }
    b
}

// 4 hears 3 and 0, 3 hears 0, 2 hears 1 and 0, twice, 1 hears 0; then 4 hears 2 in place of 3.
fn chains<R: Print>(rt: &R) {
    let mut b = five(rt);
    b.connect(1, 0, Wire::Irq(0));
    b.connect(2, 0, Wire::Irq(1));
    b.connect(2, 1, Wire::Fiq(1));
    b.connect(2, 39, Wire::Irq(0));
    b.connect(3, 0, Wire::Fiq(0));
    b.connect(4, 5, Wire::Irq(3));
    b.connect(4, 6, Wire::Irq(0));
    for c in 0..5 {
        b.chain(c);
    }
    b.connect(4, 5, Wire::Fiq(2));
    b.chain(4)
}

pub(crate) fn all<R: Print>(rt: &R) {
    activity(rt);
    unused(rt);
    replaced(rt);
    chains(rt)
}

// Both sides of every refusal, printed call by call: 10 and 6 of a controller added, 6 before 15 of a wire, 6 of a pin, 6 before the controller's own 1 to 4, 6 of a
// question (02, 8/12).
use super::transcript::Transcript;
use board_wires::Wire;

const FAR: u32 = 0xFFFFFFFF;

// Each number of a configuration beyond its limit.
fn misconfigured<R: Print>(rt: &R) -> Transcript<'_, R> {
    let mut b = Transcript::titled(rt, "controllers added");
    b.outputs(0);
    b.chain(0);
    b.add(9, 32, 1, 1);
    b.add(8, 33, 1, 1);
    b.add(8, 32, 2, 1);
    b.add(8, 32, 1, 2);
    b.add(FAR, FAR, FAR, FAR);
    b
}

// And at its limits; a ninth controller is 6 before its 10.
fn adding<R: Print>(rt: &R) {
    let mut b = misconfigured(rt);
    b.add(8, 32, 1, 1);
    b.add(0, 0, 0, 0);
    b.add(0, 32, 0, 1);
    b.add(8, 0, 1, 0);
    for _ in 0..3 {
        b.add(1, 1, 1, 1);
    }
    ninth(&mut b)
}

// On a board of seven.
fn ninth<R: Print>(b: &mut Transcript<R>) {
    b.outputs(7);
    b.add(1, 1, 1, 1);
    b.outputs(7);
    b.add(1, 1, 1, 1);
    b.add(9, 1, 1, 1);
    b.outputs(8)
}

fn three<'a, R: Print>(rt: &'a R, title: &str) -> Transcript<'a, R> {
    let mut b = Transcript::titled(rt, title);
    b.add(2, 3, 1, 1);
    b.add(2, 3, 0, 1);
    b.add(0, 3, 1, 1);
    b
}

// On a board of three: a wire to a number that is not there is 6, one to the same or a higher number 15, also on an unused input.
fn upward<R: Print>(rt: &R) -> Transcript<'_, R> {
    let mut b = three(rt, "wires of a board of three");
    b.connect(2, 0, Wire::Irq(1));
    b.connect(2, 0, Wire::Irq(2));
    b.connect(2, 0, Wire::Fiq(3));
    b.connect(1, 0, Wire::Irq(3));
    b.connect(1, 0, Wire::Irq(2));
    b.connect(1, 0, Wire::Fiq(1));
    b.connect(1, 20, Wire::Fiq(2));
    b.connect(1, 39, Wire::Irq(1));
    b
}

// A controller, an input or a pin beyond its limit is 6 before 15.
fn beyond<R: Print>(b: &mut Transcript<R>) {
    b.connect(0, 0, Wire::Irq(0));
    b.connect(0, 0, Wire::Fiq(7));
    b.connect(0, 0, Wire::Irq(FAR));
    b.connect(3, 0, Wire::Irq(0));
    b.connect(3, 0, Wire::Nothing);
    b.connect(FAR, 0, Wire::Nothing);
    b.connect(2, 39, Wire::Nothing);
    b.connect(2, 40, Wire::Nothing);
    b.connect(1, 40, Wire::Irq(1));
    b.connect(0, FAR, Wire::Pin(0))
}

fn wires<R: Print>(rt: &R) {
    let mut b = upward(rt);
    beyond(&mut b);
    b.connect(0, 0, Wire::Pin(319));
    b.connect(0, 0, Wire::Pin(320));
    b.connect(0, 0, Wire::Pin(FAR));
    b.pin(319, 1);
    b.pin(320, 1);
    b.pin(FAR, 0);
    b.pin(0, 2);
    b.pin(0, FAR);
    b.input(0, 0);
    b.chain(2)
}

// A controller that is not there before a misaligned offset, that before one with no register, a clear read and a status written.
fn reads<R: Print>(b: &Transcript<R>) {
    b.read(3, 1);
    b.read(FAR, 0);
    b.read(2, 1);
    b.read(2, 0x31);
    b.read(2, 0x2C);
    b.read(2, 0x30);
    b.read(0, 0x04);
    b.read(2, 0x04);
    b.read(2, 0x1C)
}

fn writes<R: Print>(b: &mut Transcript<R>) {
    b.write(3, 0x10, 1);
    b.write(2, 0x12, 1);
    b.write(2, 0x30, 1);
    b.write(2, 0x10, 1);
    b.write(2, 0x2C, 1);
    b.write(2, 0x18, 0xFF)
}

fn registers<R: Print>(rt: &R) {
    let mut b = three(rt, "registers of a board of three");
    reads(&b);
    writes(&mut b);
    b.read(2, 0x18);
    b.write(2, 0x1C, 2);
    b.read(2, 0x18);
    b.read(2, 0x28);
    b.read(2, 0x2C)
}

fn questions<R: Print>(rt: &R) {
    let b = three(rt, "questions to a board of three");
    b.outputs(2);
    b.outputs(3);
    b.outputs(FAR);
    b.input(2, 39);
    b.input(2, 40);
    b.input(3, 0);
    b.input(0, FAR);
    b.chain(2);
    b.chain(3);
    b.chain(8)
}

pub(crate) fn all<R: Print>(rt: &R) {
    adding(rt);
    wires(rt);
    registers(rt);
    questions(rt)
}

// Boards of eight controllers, each wired to the one below it, printed call by call: by one input, and by every input (02, 8/12).
ghost use Rattle.std.specs.Prelude.{◌<◌};

use super::transcript::Transcript;
use board_wires::Wire;

// The outputs and the chain of every controller.
fn ask<R: Print>(b: &Transcript<R>) {
    for c in 0..8 {
        b.outputs(c);
        b.chain(c);
    }
}

// Eight controllers of one FIQ and one IRQ source, both enabled. The active level of FIQ is 0 and 1 by turns, that of IRQ 1 and 0.
fn smalls<'a, R: Print>(rt: &'a R, title: &str) -> Transcript<'a, R> {
    let mut b = Transcript::titled(rt, title);
    for c in 0..8 {
        b.add(1, 1, c % 2, 1 - c % 2);
        b.write(c, 0x08, 1);
        b.write(c, 0x20, 1);
    }
    b
}

// IRQ input 0 of each controller goes to the IRQ of the one below, of the lowest to pin 0.
fn linked<R: Print>(rt: &R) -> Transcript<'_, R> {
    let mut b = smalls(rt, "a chain of eight by IRQ");
    b.connect(0, 0, Wire::Pin(0));
    for below in 0..7 {
        b.connect(below + 1, 0, Wire::Irq(below));
    }
    b
}

// The pin rises; the middle one is disabled; the pin falls and the middle one is raised by software; the highest is wired past it to the lowest.
fn by_irq<R: Print>(rt: &R) {
    let mut b = linked(rt);
    ask(&b);
    b.pin(0, 1);
    ask(&b);
    b.write(3, 0x24, 1);
    ask(&b);
    b.write(3, 0x20, 1);
    b.pin(0, 0);
    b.write(3, 0x18, 1);
    ask(&b);
    b.connect(7, 0, Wire::Irq(0));
    ask(&b)
}

// IRQ and FIQ by turns raise one another, so that only what is read right goes up.
fn by_turns<R: Print>(rt: &R) {
    let mut b = smalls(rt, "a chain of eight by FIQ and IRQ in turn");
    b.connect(0, 32, Wire::Pin(319));
    for below in 0..7 {
        if below % 2 == 0 {
            b.connect(below + 1, 0, Wire::Fiq(below));
        } else {
            b.connect(below + 1, 32, Wire::Irq(below));
        }
    }
    ask(&b);
    b.pin(319, 1);
    ask(&b)
}

// ---- every input

// A controller of all sources is added over the one that is told: all are enabled, its IRQ inputs go to the IRQ of that one, its FIQ inputs to its FIQ.
fn large<R: Print>(b: &mut Transcript<R>, below: u32)
    requires { below < 7 }
{
    let c = below + 1;
    b.add(8, 32, 1, 0);
    b.write(c, 0x08, 0xFF);
    b.write(c, 0x20, 0xFFFFFFFF);
    for i in 0..32 {
        b.connect(c, i, Wire::Irq(below));
    }
    for i in 32..40 {
        b.connect(c, i, Wire::Fiq(below));
    }
}

fn larges<R: Print>(rt: &R) -> Transcript<'_, R> {
    let mut b = Transcript::titled(rt, "every input to the controller below");
    b.add(8, 32, 1, 0);
    b.write(0, 0x08, 0x80);
    b.write(0, 0x20, 0x80000000);
    for below in 0..7 {
        large(&mut b, below);
    }
    b
}

// The last IRQ source of the lowest is raised by a pin, then its last FIQ source by another, then the first falls.
fn by_every_input<R: Print>(rt: &R) {
    let mut b = larges(rt);
    b.connect(0, 31, Wire::Pin(1));
    b.connect(0, 39, Wire::Pin(2));
    ask(&b);
    b.pin(1, 1);
    ask(&b);
    b.read(7, 0x28);
    b.read(7, 0x10);
    b.pin(2, 1);
    ask(&b);
    b.read(7, 0x10);
    b.input(7, 31);
    b.pin(1, 0);
    ask(&b);
    b.read(7, 0x2C);
    b.read(7, 0x14)
}

pub(crate) fn all<R: Print>(rt: &R) {
    by_irq(rt);
    by_turns(rt);
    by_every_input(rt)
}

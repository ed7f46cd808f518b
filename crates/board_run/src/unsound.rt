// Records that break a rule of a board, each by one number, printed with the refusals: every call is refused by 12 (02, 8/12).
use super::transcript::go_on;
use board_wires::{Board, Wire};
use coreinterrupt::Core;
use coreinterrupt::sides::Side;

// What every call is answered on a record that breaks a rule: the refusals of add, connect, pin, read, write, outputs, input and chain.
fn refused<R: Print>(rt: &R, title: &str, b: Board) {
    let made = board::add(b, 1, 1, 0, 0).refusal;
    let wired = board::connect(b, 0, 0, Wire::Nothing).refusal;
    let put = board::put_pin(b, 0, 0).refusal;
    let told = board::read(b, 0, 0).refusal;
    let taken = board::write(b, 0, 0, 0).refusal;
    let shown = board::outputs(b, 0).refusal;
    let value = board::input(b, 0, 0).refusal;
    let long = board::chain(b, 0).refusal;
    go_on(println!(rt;
        "unsound {title}: {made} {wired} {put} {told} {taken} {shown} {value} {long}"
    ));
}

// Three controllers of two FIQ and three IRQ sources; nothing is printed.
fn three() -> Board {
    let a = board::add(board::empty(), 2, 3, 1, 1);
    let b = board::add(a.board, 2, 3, 0, 0);
    let c = board::add(b.board, 2, 3, 1, 0);
    c.board
}

fn controllers<R: Print>(rt: &R) {
    let mut b = three();
    b.controllers = 9;
    refused(rt, "nine controllers", b);
    b.controllers = 2;
    refused(rt, "a third controller not counted", b)
}

fn wire<R: Print>(rt: &R, title: &str, at: usize, number: u16) {
    let mut b = three();
    if at < 320 {
        b.wire[at] = number;
    }
    refused(rt, title, b)
}

fn wires<R: Print>(rt: &R) {
    wire(rt, "a wire of controller 1 to its own IRQ", 79, 322);
    wire(rt, "a wire of controller 1 to the FIQ of 2", 40, 331);
    wire(rt, "a wire of controller 0 to the IRQ of 7", 0, 328);
    wire(rt, "a wire of number 337", 80, 337);
    wire(rt, "a wire of number 65535", 119, 65535);
    wire(rt, "a wire of a controller that is not there", 120, 1);
    wire(rt, "a wire of controller 7 of three", 319, 321)
}

fn pin<R: Print>(rt: &R, title: &str, p: usize, level: u8) {
    let mut b = three();
    if p < 320 {
        b.pin[p] = level;
    }
    refused(rt, title, b)
}

fn pins<R: Print>(rt: &R) {
    pin(rt, "pin 0 at 2", 0, 2);
    pin(rt, "pin 319 at 255", 319, 255)
}

// Controller c of the three, or beyond them, with this FIQ and this IRQ side.
fn core<R: Print>(rt: &R, title: &str, c: usize, fiq: Side, irq: Side) {
    let mut b = three();
    if c < 8 {
        b.core[c] = Core { fiq, irq };
    }
    refused(rt, title, b)
}

// A side of so many sources, all of its other numbers 0.
fn side(count: u32) -> Side {
    coreinterrupt::sides::idle(count, 0)
}

fn cores<R: Print>(rt: &R) {
    let none = side(0);
    core(rt, "nine FIQ sources", 0, side(9), none);
    core(rt, "33 IRQ sources", 1, none, side(33));
    core(
        rt,
        "an active level of 2",
        2,
        Side {
            level: 2,
            ..side(1)
        },
        none,
    );
    core(
        rt,
        "a soft bit beyond the count",
        0,
        none,
        Side { soft: 8, ..side(3) },
    );
    core(
        rt,
        "an enable bit beyond the count",
        0,
        Side {
            enable: 4,
            ..side(2)
        },
        none,
    );
    unstored(rt)
}

// Cores with a stored line, where a board keeps all of them low, and cores beyond the count.
fn unstored<R: Print>(rt: &R) {
    let none = side(0);
    core(
        rt,
        "a stored IRQ line",
        1,
        none,
        Side {
            inputs: 1,
            ..side(3)
        },
    );
    core(
        rt,
        "a stored FIQ line",
        2,
        Side {
            inputs: 2,
            ..side(2)
        },
        none,
    );
    core(rt, "a controller beyond the count", 3, side(1), none);
    core(
        rt,
        "an active level beyond the count",
        7,
        none,
        Side { level: 1, ..none },
    )
}

pub(crate) fn all<R: Print>(rt: &R) {
    controllers(rt);
    wires(rt);
    pins(rt);
    cores(rt)
}

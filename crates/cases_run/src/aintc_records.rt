// AINTC: which records are refused by 12 (02, 2/12).
use aintc_record::{Aintc, Chosen};
use cases::lines;

// Every case begins with what a reset leaves.
fn fresh() -> Aintc {
    let b = aintc::start();
    b.aintc
}

// A record is looked at by a privileged read of SYSSTATUS.
fn look(s: Aintc) -> u32 {
    let a = aintc::read(s, 1, 0x14);
    a.refusal
}

// With this one chosen for IRQ, or for FIQ.
fn chosen(active: bool, number: u8, priority: u8, fast: bool) {
    let c = Chosen {
        active,
        number,
        priority,
    };
    let mut s = fresh();
    if fast {
        s.fiq = c;
    } else {
        s.irq = c;
    }
    lines::four(
        active as u32,
        number as u32,
        priority as u32,
        fast as u32,
        look(s),
    );
}

fn both(active: bool, number: u8, priority: u8) {
    chosen(active, number, priority, false);
    chosen(active, number, priority, true);
}

// The bounds of a chosen one, and both numbers 0 where there is none.
fn bounds() {
    both(true, 127, 127);
    both(true, 128, 127);
    both(true, 127, 128);
    both(false, 0, 0);
    both(false, 1, 0);
    both(false, 0, 1);
}

// Input 5 is raised by its line, and no output has one chosen.
fn raised(mask: u32, route: u8, threshold: u8) {
    let mut s = fresh();
    s.lines[0] = 0x20;
    s.masks[0] = mask;
    s.routes[5] = route;
    s.threshold = threshold;
    lines::four(mask, route as u32, threshold as u32, 0, look(s));
}

// An output with none chosen has none that is eligible: masked, or kept away by the threshold, and just not.
fn quiet() {
    raised(0x20, 0, 255);
    raised(0xFFFFFFDF, 0, 255);
    raised(0xFFFFFFDF, 1, 255);
    raised(0xFFFFFFDF, 6, 3);
    raised(0xFFFFFFDF, 6, 4);
    raised(0xFFFFFFDF, 2, 1);
    raised(0xFFFFFFDF, 2, 0);
    raised(0xFFFFFFDF, 0, 0);
}

// Input 5 is raised by its soft bit and routed as this byte says; FIQ has one chosen, where `fast`, or IRQ, and the other none.
fn held(route: u8, fast: bool) {
    let c = Chosen {
        active: true,
        number: 9,
        priority: 4,
    };
    let mut s = fresh();
    s.soft[0] = 0x20;
    s.masks[0] = 0;
    s.routes[5] = route;
    if fast {
        s.fiq = c;
    } else {
        s.irq = c;
    }
    lines::four(route as u32, fast as u32, 0, 0, look(s));
}

// A chosen one keeps its own output quiet and not the other.
fn sides() {
    held(0, false);
    held(0, true);
    held(1, false);
    held(1, true);
}

// Of an unsound record 12 stands before every other number, and its outputs are refused too.
fn first_of_all() {
    let mut s = fresh();
    s.masks[0] = 0;
    s.lines[0] = 1;
    let r = aintc::read(s, 2, 0x15);
    lines::one(0x15, r.refusal);
    let o = aintc::outputs(s);
    lines::one(0, o.refusal);
}

pub(crate) fn all() {
    lines::heading(b"AINTC chosen, number, priority, FIQ\n");
    bounds();
    lines::heading(b"mask, route, threshold\n");
    quiet();
    lines::heading(b"route, FIQ held\n");
    sides();
    first_of_all();
}

// A CIC with prioritised indices, its steps one after the other, and what is to be seen after each.
use cases::lines;
use cic_held::{Answer, Prioritised};
use steps::Step;

// 40 systems, 3 channels, 34 hosts and the revision 7, with this choice.
pub(crate) fn fresh(choice: u32) -> Prioritised {
    let b = cic_prioritised::start(40, 3, 34, 7, choice);
    b.prioritised
}

pub(crate) fn on(a: Answer, x: Step) -> Answer {
    let p = a.prioritised;
    cic_prioritised::step(p, x)
}

// With the choice on: system 0 drives channel 2, system 1 channel 1, all others channel 0; channels 0 and 2 lead to host 1, channel 1 to host 33; systems 0
// to 31 are enabled. Neither a host nor all of them are.
pub(crate) fn opened() -> Answer {
    let a = cic_prioritised::write(fresh(1), 0x300, 0xFFFFFFFF);
    let b = on(a, Step::Write(0x400, 0x102));
    on(b, Step::Write(0x800, 0x12101))
}

// What is held for host 0, 1 or 33: 0 where nothing is, 1 for none, s + 2 for system interrupt s.
pub(crate) fn held_for(p: Prioritised, h: u32) -> u32 {
    let x = p.held;
    match h {
        0 => x.host[0] as u32,
        1 => x.host[1] as u32,
        _ => x.host[33] as u32,
    }
}

// A step, and after it the value, how many hosts are asserted, what is held for the global index and for that of host h.
pub(crate) fn see(a: Answer, x: Step, h: u32) -> Answer {
    let b = on(a, x);
    let p = b.prioritised;
    let o = cic_prioritised::outputs(p);
    let g = p.held;
    lines::four(b.value, o.hosts, g.global as u32, held_for(p, h), b.refusal);
    b
}

// A step, and after it the value, the hold mode, what is held for the global index, and the choice.
pub(crate) fn see_mode(a: Answer, x: Step) -> Answer {
    let b = on(a, x);
    let p = b.prioritised;
    let g = p.held;
    lines::four(b.value, g.hold, g.global as u32, g.choice, b.refusal);
    b
}

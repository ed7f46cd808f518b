// Which system interrupt an index names, with the hold mode off: set and enabled, the lowest channel first and in a channel the lowest number; no host's
// enable is asked (D21, D22, D29).
use super::part::{on, opened, see};
use cases::lines;
use cic_held::Answer;
use steps::Step;

// The global index is none, then of channel 2, 1, 0; the index of host 1 has channels 0 and 2, that of host 33 channel 1.
fn channels(a: Answer) -> Answer {
    let mut b = see(a, Step::Read(0x080), 1);
    b = on(b, Step::Line(0, 1));
    b = see(b, Step::Read(0x080), 1);
    b = on(b, Step::Line(1, 1));
    b = see(b, Step::Read(0x080), 1);
    b = see(b, Step::Read(0x904), 1);
    b = see(b, Step::Read(0x984), 33);
    b = see(b, Step::Read(0x900), 0);
    b = on(b, Step::Line(3, 1));
    b = see(b, Step::Read(0x080), 1);
    see(b, Step::Read(0x904), 1)
}

// Of channel 0 system 2 before system 3; disabled it is passed over, and 3 is once it is cleared.
fn numbers(a: Answer) -> Answer {
    let mut b = on(a, Step::Line(2, 1));
    b = see(b, Step::Read(0x904), 1);
    b = on(b, Step::Write(0x02C, 2));
    b = see(b, Step::Read(0x904), 1);
    b = on(b, Step::Write(0x024, 3));
    b = see(b, Step::Read(0x904), 1);
    see(b, Step::Read(0x080), 1)
}

// Channel 2 goes to host 0; then global enable is on, and then host 0 is enabled too, and asserted: the index is the same.
fn hosts(a: Answer) {
    let mut b = on(a, Step::Write(0x800, 0x2101));
    b = see(b, Step::Read(0x904), 1);
    b = see(b, Step::Read(0x900), 0);
    b = see(b, Step::Write(0x010, 1), 0);
    b = see(b, Step::Read(0x900), 0);
    b = see(b, Step::Write(0x034, 0), 0);
    see(b, Step::Read(0x900), 0);
}

pub(crate) fn all() {
    lines::heading(b"hold off: value, hosts asserted, held globally, held for the host\n");
    let a = on(opened(), Step::Write(0x004, 0));
    hosts(numbers(channels(a)));
}

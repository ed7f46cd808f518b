// What begins a hold, what ends it and what does not, with the hold mode on as a start leaves it (D23, D25 to D28, D30, D31).
use super::part::{on, opened, see};
use cases::lines;
use cic_held::Answer;
use steps::Step;

// None is held against system 3; a write of the index ends that. System 3 is held against system 2, and though it is cleared; the global index is held by
// itself.
fn begun() -> Answer {
    let mut a = see(opened(), Step::Read(0x904), 1);
    a = see(a, Step::Line(3, 1), 1);
    a = see(a, Step::Read(0x904), 1);
    a = see(a, Step::Write(0x904, 0xFFFFFFFF), 1);
    a = see(a, Step::Read(0x904), 1);
    a = see(a, Step::Line(2, 1), 1);
    a = see(a, Step::Read(0x904), 1);
    a = see(a, Step::Read(0x080), 1);
    a = see(a, Step::Write(0x024, 3), 1);
    see(a, Step::Read(0x904), 1)
}

// Writes that leave host 1's hold: of another host, of one beyond the count, its bit as 0, of other indices, refused ones; some of them end the global one.
fn left(a: Answer) -> Answer {
    let mut b = see(a, Step::Write(0x034, 33), 1);
    b = see(b, Step::Read(0x080), 1);
    b = see(b, Step::Write(0x034, 34), 1);
    b = see(b, Step::Write(0x034, 0x101), 1);
    b = see(b, Step::Write(0x1500, 0xFFFFFFFD), 1);
    b = see(b, Step::Write(0x980, 0), 1);
    b = see(b, Step::Write(0x080, 0), 1);
    b = see(b, Step::Write(0x988, 0), 1);
    b = see(b, Step::Write(0x905, 0), 1);
    b = see(b, Step::Write(0x02C, 3), 1);
    see(b, Step::Read(0x904), 1)
}

// The writes that end it: its bit as 1, once more though it is 1, host index set, host index clear, the mode. Outside the mode nothing is held.
fn ended(a: Answer) {
    let mut b = see(a, Step::Write(0x1500, 2), 1);
    b = see(b, Step::Read(0x904), 1);
    b = see(b, Step::Write(0x1500, 2), 1);
    b = see(b, Step::Read(0x904), 1);
    b = see(b, Step::Write(0x034, 1), 1);
    b = see(b, Step::Read(0x904), 1);
    b = see(b, Step::Write(0x038, 1), 1);
    b = see(b, Step::Read(0x904), 1);
    b = see(b, Step::Write(0x004, 0xFFFFFFEF), 1);
    b = see(b, Step::Read(0x904), 1);
    see(b, Step::Write(0x904, 0), 1);
}

// System 3 is held globally and none for host 33; then 1 and 2 are pending. What ends the hold of host 33 is apart from what ends the global one.
fn across() -> Answer {
    let mut a = on(opened(), Step::Line(3, 1));
    a = see(a, Step::Read(0x080), 33);
    a = see(a, Step::Read(0x984), 33);
    a = on(a, Step::Line(1, 1));
    a = on(a, Step::Line(2, 1));
    a = see(a, Step::Read(0x080), 33);
    a = see(a, Step::Write(0x984, 0), 33);
    see(a, Step::Read(0x984), 33)
}

// Host enables with no 1, and with a 1 for hosts that there are not, end nothing; any host set or cleared ends the global hold, and so does a write of it.
fn any_host(a: Answer) {
    let mut b = see(a, Step::Write(0x1500, 0), 33);
    b = see(b, Step::Write(0x1504, 0xFFFFFFFC), 33);
    b = see(b, Step::Write(0x1504, 2), 33);
    b = see(b, Step::Read(0x080), 33);
    b = see(b, Step::Read(0x984), 33);
    b = see(b, Step::Write(0x038, 0), 33);
    b = see(b, Step::Read(0x080), 33);
    b = see(b, Step::Write(0x038, 0x100), 33);
    b = see(b, Step::Write(0x080, 7), 33);
    b = see(b, Step::Read(0x080), 33);
    see(b, Step::Write(0x004, 0), 33);
}

pub(crate) fn all() {
    lines::heading(b"host 1: value, hosts asserted, held globally, held for the host\n");
    ended(left(begun()));
    lines::heading(b"global, host 33\n");
    any_host(across());
}

// The control register, and which of the registers there are with the choice on and off (D23, D24, D30, D32).
use super::part::{fresh, on, see_mode};
use cases::lines;
use cic_held::Answer;
use steps::Step;

// The record with this choice, as a line that does not rise leaves it.
fn begun(choice: u32) -> Answer {
    cic_prioritised::line(fresh(choice), 0, 0)
}

// Bit 4 is kept and nothing else; the mode turned off ends a hold, and turned on holds nothing.
fn control() {
    let mut a = see_mode(begun(1), Step::Read(0x004));
    a = see_mode(a, Step::Write(0x004, 0xFFFFFFEF));
    a = see_mode(a, Step::Read(0x004));
    a = see_mode(a, Step::Write(0x004, 0x30));
    a = see_mode(a, Step::Read(0x004));
    a = see_mode(a, Step::Read(0x080));
    a = see_mode(a, Step::Write(0x004, 0x10));
    a = see_mode(a, Step::Write(0x004, 0));
    a = see_mode(a, Step::Read(0x080));
    see_mode(a, Step::Write(0x004, 0x10));
}

// An access to each of them: control, the global index, the index of the first host, of the last, of the first beyond, the last of a full part; and a
// misaligned one.
fn each(a: Answer, x: Step, y: Step) -> Answer {
    let b = see_mode(a, x);
    see_mode(b, y)
}

fn there(choice: u32) {
    let mut a = each(begun(choice), Step::Read(0x004), Step::Write(0x004, 0x10));
    a = each(a, Step::Read(0x080), Step::Write(0x080, 0));
    a = each(a, Step::Read(0x900), Step::Write(0x900, 0));
    a = each(a, Step::Read(0x984), Step::Write(0x984, 0));
    a = each(a, Step::Read(0x988), Step::Write(0x988, 0));
    a = each(a, Step::Read(0xCFC), Step::Write(0xCFC, 0));
    a = each(a, Step::Read(0x901), Step::Write(0x006, 0));
    see_mode(on(a, Step::Line(3, 1)), Step::Read(0x000));
}

pub(crate) fn all() {
    lines::heading(b"control: value, hold, held globally, choice\n");
    control();
    lines::heading(b"choice on\n");
    there(1);
    lines::heading(b"choice off\n");
    there(0);
}

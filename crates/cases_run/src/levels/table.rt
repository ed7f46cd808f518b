// The table that gives the highest level of a byte, 255 for none: each level alone, levels below it, and no level at all.
use cases::lines;

// Two bytes, each with its highest level.
fn two(b: u8, c: u8) {
    let first = aic_levels::highest(b);
    let second = aic_levels::highest(c);
    lines::four(
        b as u32,
        first as u32,
        c as u32,
        second as u32,
        steps::CARRIED_OUT,
    );
}

pub(crate) fn all() {
    lines::heading(b"byte, highest level, byte, highest level\n");
    two(0x00, 0x01);
    two(0x02, 0x03);
    two(0x04, 0x07);
    two(0x08, 0x0F);
    two(0x10, 0x1F);
    two(0x20, 0x3F);
    two(0x40, 0x7F);
    two(0x80, 0xFF);
    two(0x41, 0x81);
    two(0x12, 0x55);
}

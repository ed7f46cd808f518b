// The numbers of generated calls: mostly within their limits, at times at a limit or beyond it.
use super::random::{below, next};
use board_wires::Wire;

// One of four numbers.
pub(crate) fn one_of(seed: u64, a: u32, b: u32, c: u32, d: u32) -> u32 {
    match below(seed, 4) {
        0 => a,
        1 => b,
        2 => c,
        _ => d,
    }
}

// Of so many controllers mostly one that is there.
pub(crate) fn controller(seed: u64, there: u32) -> u32 {
    let s = next(seed);
    match below(seed, 28) {
        0 => there,
        1 => one_of(s, 8, 9, 255, 0xFFFFFFFF),
        2 => below(s, 8),
        _ => below(s, there),
    }
}

pub(crate) fn input(seed: u64) -> u32 {
    let s = next(seed);
    match below(seed, 20) {
        0 => one_of(s, 40, 41, 64, 0xFFFFFFFF),
        1 => below(s, 40),
        2 => below(s, 40),
        3 => one_of(s, 31, 39, 31, 39),
        4 => one_of(s, 32, 33, 34, 35),
        5 => one_of(s, 32, 33, 34, 35),
        6 => one_of(s, 32, 32, 32, 33),
        7 => 32,
        _ => below(s, 3),
    }
}

pub(crate) fn pin(seed: u64) -> u32 {
    let s = next(seed);
    match below(seed, 24) {
        0 => one_of(s, 320, 321, 65536, 0xFFFFFFFF),
        1 => below(s, 320),
        2 => one_of(s, 255, 256, 319, 319),
        _ => below(s, 3),
    }
}

pub(crate) fn output(seed: u64, d: u32) -> Wire {
    if below(seed, 2) == 0 {
        return Wire::Irq(d);
    }
    Wire::Fiq(d)
}

// Of controller c, mostly a wire that leads to a lower number.
pub(crate) fn wire(seed: u64, there: u32, c: u32) -> Wire {
    let s = next(seed);
    let k = below(seed, 20);
    if k < 2 {
        return Wire::Nothing;
    }
    if k < 8 {
        return Wire::Pin(pin(s));
    }
    if k < 9 {
        return output(next(s), controller(s, there));
    }
    if k < 10 {
        return output(next(s), c);
    }
    output(next(s), below(s, c))
}

pub(crate) fn offset(seed: u64) -> u32 {
    let s = next(seed);
    match below(seed, 12) {
        0 => below(s, 0x40),
        1 => one_of(s, 0x30, 0x34, 0x100, 0xFFFFFFFC),
        2 => one_of(s, 0x10, 0x14, 0x28, 0x2C),
        3 => one_of(s, 0x10, 0x14, 0x28, 0x2C),
        4 => one_of(s, 0x10, 0x14, 0x28, 0x2C),
        5 => one_of(s, 0x10, 0x14, 0x28, 0x2C),
        _ => 4 * (s / 65536 % 12) as u32,
    }
}

// Mostly soft, enable or one of their clears.
pub(crate) fn written(seed: u64) -> u32 {
    let s = next(seed);
    if below(seed, 6) == 0 {
        return offset(s);
    }
    if below(next(s), 2) == 0 {
        return one_of(
            s,
            0x00,
            0x08,
            0x08,
            one_of(next(next(s)), 0x04, 0x04, 0x00, 0x0C),
        );
    }
    one_of(
        s,
        0x18,
        0x20,
        0x20,
        one_of(next(next(s)), 0x1C, 0x1C, 0x18, 0x24),
    )
}

// So many sources, at most the last number, of which the one before it is one less.
pub(crate) fn sources(seed: u64, less: u32, most: u32) -> u32 {
    let s = next(seed);
    match below(seed, 8) {
        0 => 0,
        1 => 1,
        2 => below(s, most),
        3 => below(s, most),
        4 => one_of(s, 1, 2, 3, 4),
        5 => less,
        _ => most,
    }
}

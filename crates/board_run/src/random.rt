// A small fixed generator: each seed has one next, and its upper half serves for a number.

// The draws of a tour, one seed after another.
#[derive(Clone, Copy)]
pub struct Random {
    seed: u64,
}

impl Random {
    // The draws of board k.
    pub fn of(k: u32) -> Random {
        let seed = next(next((k as u64) * 2654435761 % 4294967296));
        Random { seed: skip(seed) }
    }

    // The seed of the next draw, which stays the next.
    pub fn peek(&self) -> u64 {
        self.seed
    }

    // The seed of the next draw.
    pub fn draw(&mut self) -> u64 {
        let seed = self.seed;
        self.seed = skip(seed);
        seed
    }
}

pub fn next(seed: u64) -> u64 {
    (seed % 4294967296 * 1664525 + 1013904223) % 4294967296
}

// The seed after what one number takes of it.
fn skip(seed: u64) -> u64 {
    next(next(next(seed)))
}

// A number below n, 0 where n is 0.
pub fn below(seed: u64, n: u32) -> u32 {
    if n == 0 {
        return 0;
    }
    let x = (seed / 65536 % 65536) as u32;
    x % n
}

// A word of 32 bits.
pub fn word(seed: u64) -> u32 {
    let s = next(seed);
    (seed / 65536 % 65536 * 65536 + s / 65536 % 65536) as u32
}

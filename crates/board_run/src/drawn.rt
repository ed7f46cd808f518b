// One step of a generated board, printed call by call: its numbers are drawn from the seed, and the seed goes on (02, 8/12).
use super::numbers;
use super::random::{Random, below, word};
use super::transcript::Transcript;

// A board, and the draws of what comes next.
#[derive(Drop)]
pub struct Tour<'a, R: Print> {
    pub random: Random,
    pub board: Transcript<'a, R>,
}

// The value of n, or one beyond its limit where the draw says so.
fn spoilt(draw: u32, nth: u32, n: u32, beyond: u32) -> u32 {
    if draw == nth { beyond } else { n }
}

impl<'a, R: Print> Tour<'a, R> {
    pub fn new(rt: &'a R, k: u32) -> Tour<'a, R> {
        let board = Transcript::numbered(rt, k);
        let random = Random::of(k);
        Tour { random, board }
    }

    // A controller is added, or is not; where it would stand, most of its sources are enabled.
    pub fn grow(&mut self) {
        let at = self.board.controllers();
        let a = self.random.draw();
        let b = self.random.draw();
        let c = self.random.draw();
        let d = self.random.draw();
        let draw = below(d, 48);
        let fiqs = spoilt(draw, 0, numbers::sources(a, 7, 8), 9);
        let irqs = spoilt(draw, 1, numbers::sources(b, 31, 32), 33);
        let fiqlevel = spoilt(draw, 2, below(c, 2), 2);
        let irqlevel = spoilt(draw, 3, below(c / 4, 2), 0xFFFFFFFF);
        self.board.add(fiqs, irqs, fiqlevel, irqlevel);
        let fiq = numbers::one_of(c / 8, 1, 3, 0xFF, 0xFFFFFFFF);
        self.board.write(at, 0x08, fiq);
        let irq = numbers::one_of(d / 8, 1, 3, 0xFFFFFFFF, 0xFFFFFFFF);
        self.board.write(at, 0x20, irq)
    }

    // An input is wired, and asked.
    fn wire(&mut self) {
        let n = self.board.controllers();
        let c = numbers::controller(self.random.draw(), n);
        let i = numbers::input(self.random.draw());
        let w = numbers::wire(self.random.draw(), n, c);
        self.board.connect(c, i, w);
        self.board.input(c, i)
    }

    fn put_pin(&mut self) {
        let p = numbers::pin(self.random.draw());
        let b = self.random.draw();
        let level = numbers::one_of(b, 0, 1, 1, numbers::one_of(b / 4, 1, 0, 1, 2));
        self.board.pin(p, level)
    }

    fn write(&mut self) {
        let c = numbers::controller(self.random.draw(), self.board.controllers());
        let offset = numbers::written(self.random.draw());
        let d = self.random.draw();
        let value = numbers::one_of(d, word(d), below(d / 4, 16), 1, 3);
        self.board.write(c, offset, value)
    }

    fn ask(&mut self) {
        let c = numbers::controller(self.random.draw(), self.board.controllers());
        let b = self.random.draw();
        match below(self.random.draw(), 5) {
            0 | 1 => self.board.read(c, numbers::offset(b)),
            2 => self.board.outputs(c),
            3 => self.board.chain(c),
            _ => self.board.input(c, numbers::input(b)),
        }
    }

    // Any step: a wire, a pin, a register, a question, at times one more controller.
    pub fn step(&mut self) {
        match below(self.random.draw(), 32) {
            0..=9 => self.wire(),
            10..=14 => self.put_pin(),
            15..=19 => self.write(),
            20..=30 => self.ask(),
            _ => self.grow(),
        }
    }

    // Controller c is wired to the one below, by an input that may be unused.
    pub fn link(&mut self, c: u32) {
        let i = numbers::one_of(self.random.draw(), 0, 1, 32, 39);
        let w = numbers::output(self.random.draw(), c.saturating_sub(1));
        self.board.connect(c, i, w)
    }
}

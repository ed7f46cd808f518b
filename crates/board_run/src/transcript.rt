// A board and the transcript of its calls: each is printed as it is made, with what it was answered, one a line: the name of the call and its numbers, a
// colon, the refusal and what else was answered.
use board_wires::{Board, Wire};
use std::io;

#[derive(Drop)]
pub struct Transcript<'a, R: Print> {
    rt: &'a R,
    board: Board,
}

// A line that cannot be written is passed over, and those behind it are printed all the same: whoever compares the lines finds which are missing.
pub fn go_on(printed: io::Result<()>) {
    match printed {
        Ok(()) => {}
        Err(_) => {}
    }
}

impl<'a, R: Print> Transcript<'a, R> {
    // A new board with no controller, by its title.
    pub fn titled(rt: &'a R, title: &str) -> Transcript<'a, R> {
        go_on(println!(rt; "board {title}"));
        let board = board::empty();
        Transcript { rt, board }
    }

    // A new board by its number.
    pub fn numbered(rt: &'a R, n: u32) -> Transcript<'a, R> {
        go_on(println!(rt; "board {n}"));
        let board = board::empty();
        Transcript { rt, board }
    }

    pub fn controllers(&self) -> u32 {
        self.board.controllers
    }

    // ---- the calls that change the board

    pub fn add(&mut self, fiqs: u32, irqs: u32, fiqlevel: u32, irqlevel: u32) {
        let a = board::add(self.board, fiqs, irqs, fiqlevel, irqlevel);
        self.board = a.board;
        go_on(println!(self.rt;
            "add {fiqs} {irqs} {fiqlevel} {irqlevel}: {} {}",
            a.refusal, a.value
        ));
    }

    pub fn connect(&mut self, c: u32, i: u32, w: Wire) {
        let a = board::connect(self.board, c, i, w);
        self.board = a.board;
        let refusal = a.refusal;
        go_on(match w {
            Wire::Nothing => println!(self.rt; "connect {c} {i} nothing: {refusal}"),
            Wire::Pin(p) => println!(self.rt; "connect {c} {i} pin {p}: {refusal}"),
            Wire::Irq(d) => println!(self.rt; "connect {c} {i} irq {d}: {refusal}"),
            Wire::Fiq(d) => println!(self.rt; "connect {c} {i} fiq {d}: {refusal}"),
        });
    }

    pub fn pin(&mut self, p: u32, level: u32) {
        let a = board::put_pin(self.board, p, level);
        self.board = a.board;
        go_on(println!(self.rt; "pin {p} {level}: {}", a.refusal));
    }

    pub fn write(&mut self, c: u32, offset: u32, value: u32) {
        let a = board::write(self.board, c, offset, value);
        self.board = a.board;
        go_on(println!(self.rt; "write {c} {offset} {value}: {}", a.refusal));
    }

    // ---- the questions

    pub fn read(&self, c: u32, offset: u32) {
        let a = board::read(self.board, c, offset);
        go_on(println!(self.rt; "read {c} {offset}: {} {}", a.refusal, a.value));
    }

    // Whether each output is active, IRQ first, and then its level.
    pub fn outputs(&self, c: u32) {
        let s = board::outputs(self.board, c);
        let irq = u32::from(s.irq);
        let fiq = u32::from(s.fiq);
        go_on(println!(self.rt;
            "outputs {c}: {} {irq} {fiq} {} {}",
            s.refusal, s.irqlevel, s.fiqlevel
        ));
    }

    pub fn input(&self, c: u32, i: u32) {
        let r = board::input(self.board, c, i);
        go_on(println!(self.rt; "input {c} {i}: {} {}", r.refusal, r.value));
    }

    // The chain is counted in controllers.
    pub fn chain(&self, c: u32) {
        let r = board::chain(self.board, c);
        go_on(println!(self.rt; "chain {c}: {} {} controllers", r.refusal, r.value));
    }
}

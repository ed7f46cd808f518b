// Generated boards, printed call by call: controllers are added, mostly taken; then wires, pins, registers and questions come in any order. Few inputs, pins and
// bits are used much, so that they meet; some numbers are beyond their limits (02, 8/12).
use super::drawn::Tour;
use super::random::below;

// Tour k: one in three has its controllers linked. Last the outputs and the chain of each controller.
fn play<R: Print>(rt: &R, k: u32) {
    let mut t = Tour::new(rt, k);
    let added = 1 + (t.random.peek() / 65536 % 9) as u32;
    for _ in 0..added {
        t.random.draw();
        t.grow();
    }
    if below(t.random.peek(), 3) == 0 {
        for c in 0..8 {
            t.random.draw();
            t.link(c);
        }
    }
    let steps = 8 + (t.random.peek() / 65536 % 60) as u32;
    for _ in 0..steps {
        t.step();
    }
    for c in 0..t.board.controllers() {
        t.board.outputs(c);
        t.board.chain(c);
    }
}

pub(crate) fn all<R: Print>(rt: &R, n: u32) {
    for k in 0..n {
        play(rt, k);
    }
}

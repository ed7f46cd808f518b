// Prints calls on boards of CoreInterrupts and what each was answered, one a line: first boards that were worked out by hand, then as many generated ones
// as the number on standard input says (02, 8/12). No contract can say what stands on standard output: it is compared with the file `stdout`, and with an
// independent model.
#![tactic(auto)]

mod cases;
mod drawn;
mod limits;
mod numbers;
mod random;
mod tours;
mod towers;
mod transcript;
mod unsound;

use std::io::Read;

fn main(rt: HostRuntime) {
    let n = number(&said(&rt));
    towers::all(&rt);
    cases::all(&rt);
    limits::all(&rt);
    unsound::all(&rt);
    tours::all(&rt, n);
}

// The first 16 bytes of standard input; 0 for each that is not there or cannot be read.
fn said<R: Input>(rt: &R) -> [u8; 16] {
    let mut bytes = [0; 16];
    match rt.reader().read_exact(&mut bytes) {
        Ok(()) => {}
        Err(_) => {}
    }
    bytes
}

// The decimal number at the start of a text, with its first six digits.
fn number(text: &[u8]) -> u32 {
    let mut n: u32 = 0;
    for b in text {
        let Some(d) = (*b as char).to_digit(10) else {
            return n;
        };
        if 99999 < n {
            return n;
        }
        n = 10 * n + d;
    }
    n
}

// The lines that the programs of cases print: the numbers of a case and what came of it. No contract can say what stands on standard output; what each
// program prints is compared with its file `stdout`.

// The line above some cases: what their numbers are.
pub fn heading(t: &[u8]) {
    io::write_all(1, t);
}

fn number(n: u32) {
    io::write_all(1, b" 0x");
    io::print_hex(1, n as u64, 1);
}

fn outcome(refusal: u32) {
    if refusal == steps::CARRIED_OUT {
        io::write_all(1, b": accepted\n");
        return;
    }
    io::write_all(1, b": refusal ");
    io::print_decimal(1, refusal as u64);
    io::write_all(1, b"\n");
}

pub fn four(a: u32, b: u32, c: u32, d: u32, refusal: u32) {
    number(a);
    number(b);
    number(c);
    number(d);
    outcome(refusal);
}

pub fn one(a: u32, refusal: u32) {
    number(a);
    outcome(refusal);
}

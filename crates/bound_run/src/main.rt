// Prints the waits of a source over the trace on standard input, each with its bound: the argument is the number of the source. Where there are none to be
// listed, the trace cannot be read or the lines not be written, one line on standard error says so.
#![tactic(auto)]

ghost use Rattle.std.specs.Prelude.{◌≡◌, List, ℕ, ◌≤◌, length};
ghost use Rattle.trace_bounds.specs.Listing.{bound_text};

use std::rt::Env;

// One byte more is read than a trace may have, so that a longer one is told apart.
fn main(rt: HostRuntime) {
    let mut input = [0u8; 65537];
    let came = reading::read(&mut rt.reader(), &mut input);
    if came.failed {
        tell(&rt, b"bound: the trace could not be read\n");
        return;
    }
    let n = came.bytes;
    print(&rt, &input[..n], argument(&rt, 1));
}

// The number that the ith argument is; 0, a source that never waits, where it is none.
fn argument(rt: &HostRuntime, i: usize) -> u32 {
    let mut typed = [0u8; 16];
    let n = rt.arg(i, &mut typed).unwrap_or(0);
    text::arguments::number(&typed[..n])
}

// Writes the lines to standard output, or why there are none to standard error.
fn print(rt: &HostRuntime, trace: &[u8], source: u32) {
    let mut out = room();
    let d = trace_bounds::list(trace, source, &mut out);
    let k = d.bytes;
    if d.listed {
        if rt.write_all(&out[..k]).is_err() {
            tell(rt, b"bound: the waits could not be written\n");
        }
    } else {
        tell(rt, &out[..k]);
    }
}

fn tell(rt: &HostRuntime, what: &[u8]) {
    let _ = rt.stderr().write_all(what);
}

// A buffer that all such lines fit.
fn room() -> [u8; 1940334]
    ensures value { 1940334 ≡ length result }
    ensures any { (s : List ℕ) (k : ℕ) → length (bound_text s k) ≤ length result }
{
    [0; 1940334]
}

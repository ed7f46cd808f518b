// Prints the waves of the trace on standard input, a value change dump for a wave viewer. Where the trace cannot be read, or its waves not be written, one
// line on standard error says so.
#![tactic(auto)]

ghost use Rattle.std.specs.Prelude.{◌≡◌, List, ℕ, ◌≤◌, length, IfOk};
ghost use Rattle.text.specs.Text.{laid};
ghost use Rattle.waves.specs.Waves.{waves_of};

use std::alloc::{AllocError, Global};

// The most steps that are played.
const LIMIT: u32 = 20000;

// One byte more is read than a trace may have, so that a longer one is told apart.
fn main(rt: HostRuntime) {
    let mut input = [0u8; 65537];
    let came = reading::read(&mut rt.reader(), &mut input);
    if came.failed {
        tell(&rt, b"wave: the trace could not be read\n");
        return;
    }
    let n = came.bytes;
    print(&rt, &input[..n]);
}

// Writes the waves to standard output.
fn print(rt: &HostRuntime, trace: &[u8]) {
    let Ok(mut out) = room(rt.alloc()) else {
        tell(rt, b"wave: there is no memory for the waves\n");
        return;
    };
    let k = dumped(trace, &mut out);
    if rt.write_all(&out[..k]).is_err() {
        tell(rt, b"wave: the waves could not be written\n");
    }
}

fn tell(rt: &HostRuntime, what: &[u8]) {
    let _ = rt.stderr().write_all(what);
}

// The waves that are printed.
fn dumped(trace: &[u8], out: &mut [u8]) -> usize
    ensures { (out.new, result) ≡ laid out.old (waves_of trace.now 20000) }
{
    waves::waves(trace, LIMIT, out)
}

// A buffer that any such waves fit. It is on the heap, since a stack of 8 MB has no room for such an array and its copies.
fn room(alloc: Global) -> Result<Vec<u8>, AllocError>
    ensures value { IfOk result (λ out. 4280737 ≡ length out.items) }
    ensures any { IfOk result (λ out. (s : List ℕ) → length (waves_of s 20000) ≤ length out.items) }
{
    vec![in alloc; 0; 4280737]
}

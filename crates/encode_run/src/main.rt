// Prints the bytes of the trace that standard input has as text. Where the text is refused, nothing is printed, and one line on standard error says in which
// line and what was expected; one line says so too where the text cannot be read, or the trace not be written.
#![tactic(auto)]

ghost use Rattle.std.specs.Prelude.{◌≡◌, length, IfOk};

use encode::Refusal;
use std::alloc::{AllocError, Global};

// One byte more is read than a text may have, so that a longer one is told apart.
fn main(rt: HostRuntime) {
    let Ok(mut input) = text_room(rt.alloc()) else {
        tell(&rt, b"encode: there is no memory for the text\n");
        return;
    };
    let came = reading::read(&mut rt.reader(), &mut input);
    if came.failed {
        tell(&rt, b"encode: the text could not be read\n");
        return;
    }
    let n = came.bytes;
    print(&rt, &input[..n]);
}

// Writes the trace to standard output, or why there is none to standard error.
fn print(rt: &HostRuntime, text: &[u8]) {
    let mut out = [0u8; 65536];
    let e = encode::encode(text, &mut out);
    let r = e.refusal;
    let k = e.bytes;
    if r.expected != encode::statements::AS_IT_SHOULD_BE {
        say(rt, r);
        return;
    }
    if rt.write_all(&out[..k]).is_err() {
        tell(rt, b"encode: the trace could not be written\n");
    }
}

// The line of a refusal, which never has more bytes than this.
fn say(rt: &HostRuntime, r: Refusal) {
    let mut line = [0u8; 120];
    let k = encode::put_refusal(&mut line, r);
    tell(rt, &line[..k]);
}

fn tell(rt: &HostRuntime, what: &[u8]) {
    let _ = rt.stderr().write_all(what);
}

// A room for the longest text and a byte more. It is on the heap, since a stack of 8 MB has no room for such an array and its copies.
fn text_room(alloc: Global) -> Result<Vec<u8>, AllocError>
    ensures { IfOk result (λ room. 5242881 ≡ length room.items) }
{
    vec![in alloc; 0; 5242881]
}

// Prints the picture of a window of the trace on standard input, as SVG: the first argument is the number of its first step, the second how many steps it
// has. Where there is no such picture, the trace cannot be read or the picture not be written, one line on standard error says so.
#![tactic(auto)]

ghost use Rattle.std.specs.Prelude.{◌≡◌, List, ℕ, ◌≤◌, length};
ghost use Rattle.picture.specs.Picture.{picture_of};

use std::rt::Env;

// One byte more is read than a trace may have, so that a longer one is told apart.
fn main(rt: HostRuntime) {
    let mut input = [0u8; 65537];
    let came = reading::read(&mut rt.reader(), &mut input);
    if came.failed {
        tell(&rt, b"picture: the trace could not be read\n");
        return;
    }
    let n = came.bytes;
    print(&rt, &input[..n], argument(&rt, 1), argument(&rt, 2));
}

// The number that the ith argument is; 0, which no window has, where it is none.
fn argument(rt: &HostRuntime, i: usize) -> u32 {
    let mut typed = [0u8; 16];
    let n = rt.arg(i, &mut typed).unwrap_or(0);
    text::arguments::number(&typed[..n])
}

// Writes the picture to standard output, or why there is none to standard error.
fn print(rt: &HostRuntime, trace: &[u8], first: u32, steps: u32) {
    let mut out = room();
    let d = picture::picture(trace, first, steps, &mut out);
    let k = d.bytes;
    if d.drawn {
        if rt.write_all(&out[..k]).is_err() {
            tell(rt, b"picture: the picture could not be written\n");
        }
    } else {
        tell(rt, &out[..k]);
    }
}

fn tell(rt: &HostRuntime, what: &[u8]) {
    let _ = rt.stderr().write_all(what);
}

// A buffer that any such picture fits.
fn room() -> [u8; 219082]
    ensures value { 219082 ≡ length result }
    ensures any { (s : List ℕ) (first steps : ℕ) → length (picture_of s first steps) ≤ length result }
{
    [0; 219082]
}

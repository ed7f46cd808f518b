// Prints the explanation of the trace on standard input: its statements, and what each step that is played did. With two arguments it prints the lines of a
// window: the first is the number of its first step, the second how many steps it has. Where an argument is no such number, the trace cannot be read or its
// explanation not be written, one line on standard error says so.
#![tactic(auto)]

ghost use Rattle.std.specs.Prelude.{◌≡◌, List, ℕ, ◌≤◌, length, IfOk};
ghost use Rattle.words.specs.Choice.{pick};
ghost use Rattle.text.specs.Text.{laid};
ghost use Rattle.explain.specs.Explain.{explained_of, explained_window};

use std::alloc::{AllocError, Global};
use std::env::FillError;
use std::rt::Env;

// The most steps that are played.
const LIMIT: u32 = 20000;

// One byte more is read than a trace may have, so that a longer one is told apart.
fn main(rt: HostRuntime) {
    let whole = has_none(&rt);
    let first = argument(&rt, 1);
    let steps = argument(&rt, 2);
    if misses(whole, first, steps) {
        tell(
            &rt,
            b"explain: a window is the number of its first step and how many steps it has, each a decimal number from 1 on\n",
        );
        return;
    }
    let mut input = [0u8; 65537];
    let came = reading::read(&mut rt.reader(), &mut input);
    if came.failed {
        tell(&rt, b"explain: the trace could not be read\n");
        return;
    }
    let n = came.bytes;
    print(&rt, &input[..n], whole, first, steps);
}

// Whether no argument was given.
fn has_none(rt: &HostRuntime) -> bool {
    let mut none = [0u8; 1];
    matches!(rt.arg(1, &mut none), Err(FillError::NotPresent))
}

// The number that the ith argument is; 0, which no window has, where it is none.
fn argument(rt: &HostRuntime, i: usize) -> u32 {
    let mut typed = [0u8; 16];
    let n = rt.arg(i, &mut typed).unwrap_or(0);
    text::arguments::number(&typed[..n])
}

// Whether there are arguments that are no window.
fn misses(whole: bool, first: u32, steps: u32) -> bool {
    if whole {
        return false;
    }
    (first == 0) | (steps == 0)
}

// Writes the explanation to standard output.
fn print(rt: &HostRuntime, trace: &[u8], whole: bool, first: u32, steps: u32) {
    let Ok(mut out) = room(rt.alloc()) else {
        tell(rt, b"explain: there is no memory for the explanation\n");
        return;
    };
    let k = explained(trace, whole, first, steps, &mut out);
    if rt.write_all(&out[..k]).is_err() {
        tell(rt, b"explain: the explanation could not be written\n");
    }
}

fn tell(rt: &HostRuntime, what: &[u8]) {
    let _ = rt.stderr().write_all(what);
}

// What is printed of a whole trace, or of a window.
fn explained(trace: &[u8], whole: bool, first: u32, steps: u32, out: &mut [u8]) -> usize
    ensures { (out.new, result) ≡ laid out.old (pick whole (explained_of trace.now 20000) (explained_window trace.now 20000 first steps)) }
{
    if whole {
        return explain::explain(trace, LIMIT, out);
    }
    explain::explain_window(trace, LIMIT, first, steps, out)
}

// A buffer that any such explanation fits. It is on the heap, since a stack of 8 MB has no room for such an array and its copies.
fn room(alloc: Global) -> Result<Vec<u8>, AllocError>
    ensures value { IfOk result (λ out. 5242880 ≡ length out.items) }
    ensures any { IfOk result (λ out. (s : List ℕ) → length (explained_of s 20000) ≤ length out.items) }
    ensures window { IfOk result (λ out. (s : List ℕ) (first steps : ℕ) → length (explained_window s 20000 first steps) ≤ length out.items) }
{
    vec![in alloc; 0; 5242880]
}

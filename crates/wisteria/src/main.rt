// Prints the listing of the trace on standard input. Where the trace cannot be read, or its listing not be written, one line on standard error says so.
#![tactic(auto)]

ghost use Rattle.std.specs.Prelude.{◌≡◌, List, ℕ, ◌≤◌, length};
ghost use Rattle.text.specs.Text.{laid};
ghost use Rattle.lines.specs.Listing.{listing_of};

// The most steps that are played.
const LIMIT: u32 = 20000;

// One byte more is read than a trace may have, so that a longer one is told apart.
fn main(rt: HostRuntime) {
    let mut input = [0u8; 65537];
    let came = reading::read(&mut rt.reader(), &mut input);
    if came.failed {
        tell(&rt, b"wisteria: the trace could not be read\n");
        return;
    }
    let n = came.bytes;
    print(&rt, &input[..n]);
}

// Writes the listing to standard output.
fn print(rt: &HostRuntime, trace: &[u8]) {
    let mut out = room();
    let k = listed(trace, &mut out);
    if rt.write_all(&out[..k]).is_err() {
        tell(rt, b"wisteria: the listing could not be written\n");
    }
}

fn tell(rt: &HostRuntime, what: &[u8]) {
    let _ = rt.stderr().write_all(what);
}

// The listing that is printed.
fn listed(trace: &[u8], out: &mut [u8]) -> usize
    ensures { (out.new, result) ≡ laid out.old (listing_of trace.now 20000) }
{
    listing::list(trace, LIMIT, out)
}

// A buffer that any such listing fits.
fn room() -> [u8; 580058]
    ensures value { 580058 ≡ length result }
    ensures any { (s : List ℕ) → length (listing_of s 20000) ≤ length result }
{
    [0; 580058]
}

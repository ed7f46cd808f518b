// Prints the priority table that the trace on standard input leaves in an AIC, as it is typed. Where there is none, the trace cannot be read or the table not
// be written, one line on standard error says so.
#![tactic(auto)]

ghost use Rattle.std.specs.Prelude.{◌≡◌, List, ℕ, ◌≤◌, length};
ghost use Rattle.table_text.specs.Text.{text_of};

// One byte more is read than a trace may have, so that a longer one is told apart.
fn main(rt: HostRuntime) {
    let mut input = [0u8; 65537];
    let came = reading::read(&mut rt.reader(), &mut input);
    if came.failed {
        tell(&rt, b"table: the trace could not be read\n");
        return;
    }
    let n = came.bytes;
    print(&rt, &input[..n]);
}

// Writes the table to standard output, or why there is none to standard error.
fn print(rt: &HostRuntime, trace: &[u8]) {
    let mut out = room();
    let d = table_text::print(trace, &mut out);
    let k = d.bytes;
    if d.tabled {
        if rt.write_all(&out[..k]).is_err() {
            tell(rt, b"table: the table could not be written\n");
        }
    } else {
        tell(rt, &out[..k]);
    }
}

fn tell(rt: &HostRuntime, what: &[u8]) {
    let _ = rt.stderr().write_all(what);
}

// A buffer that any such text fits.
fn room() -> [u8; 750]
    ensures value { 750 ≡ length result }
    ensures any { (s : List ℕ) → length (text_of s) ≤ length result }
{
    [0; 750]
}

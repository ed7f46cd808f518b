// Prints the stack size of the typed table on standard input; of a refused table also, on standard error, the line that leads to the slip. Where the
// table cannot be read, or its line not be written, one line on standard error says so.
#![tactic(auto)]

ghost use Rattle.std.specs.Prelude.{◌≡◌, List, ℕ, ◌≤◌, length};
ghost use Rattle.tables.specs.Reading.{answer_to};
ghost use Rattle.tables.specs.Slips.{slip_line};

// One byte more is read than a table may have, so that a longer one is told apart.
fn main(rt: HostRuntime) {
    let mut input = [0u8; 65537];
    let came = reading::read(&mut rt.reader(), &mut input);
    if came.failed {
        tell(&rt, b"stacksize: the table could not be read\n");
        return;
    }
    let n = came.bytes;
    print(&rt, &input[..n]);
}

// Writes the line that answers the table to standard output.
fn print(rt: &HostRuntime, text: &[u8]) {
    let mut out = room();
    let k = tables::put_answer(&mut out, text);
    if rt.write_all(&out[..k]).is_err() {
        tell(rt, b"stacksize: the line could not be written\n");
        return;
    }
    lead(rt, text);
}

// Tells where the slip of a refused table is.
fn lead(rt: &HostRuntime, text: &[u8]) {
    let mut line = slip_room();
    let k = tables::slips::put_slip(&mut line, text);
    if k == 0 {
        return;
    }
    tell(rt, b"stacksize: ");
    tell(rt, &line[..k]);
}

fn tell(rt: &HostRuntime, what: &[u8]) {
    let _ = rt.stderr().write_all(what);
}

// A buffer that any line of a slip fits.
fn slip_room() -> [u8; 85]
    ensures value { 85 ≡ length result }
    ensures any { (s : List ℕ) → length (slip_line s) ≤ length result }
{
    [0; 85]
}

// A buffer that any line of an answer fits.
fn room() -> [u8; 13]
    ensures value { 13 ≡ length result }
    ensures any { (s : List ℕ) → length (answer_to s) ≤ length result }
{
    [0; 13]
}

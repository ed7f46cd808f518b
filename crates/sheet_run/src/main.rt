// Prints the tuning sheet over the traces whose names stand on standard input, one to a line: the argument is the name of the typed table's file. The page's
// beginning comes first, a row for each name as its trace is played, then all the rest. Of a table that is refused there is no page: one line on standard error
// says why; so it does where the table or the names cannot be read, or the page cannot be written.
#![tactic(auto)]

ghost use Rattle.std.specs.Prelude.{◌≡◌, List, ℕ, ◌≤◌, length};
ghost use Rattle.tables.specs.Slips.{slip_line};

mod held;
mod names;
mod progress;
mod traces;

use progress::Unfinished;
use stack::Table;
use std::rt::Env;
use totals::sheets::Sheet;

// One byte more is read than a table may have, so that a longer one is told apart.
fn main(rt: HostRuntime) {
    let mut name = [0u8; 4096];
    let k = rt.arg(1, &mut name).unwrap_or(0);
    let mut text = [0u8; 65537];
    let came = reading::read_file(&rt, &name[..k], &mut text);
    if came.failed {
        tell(&rt, b"sheet_run: the table could not be read\n");
        return;
    }
    check(&rt, &text[..came.bytes]);
}

// The page of a table that is not refused, and else its line.
fn check(rt: &HostRuntime, text: &[u8]) {
    let r = tables::read_table(text);
    let needed = stack::needed_by(r.table);
    if (r.refusal != steps::CARRIED_OUT) | (needed.refusal != steps::CARRIED_OUT) {
        refuse(rt, text);
        return;
    }
    if let Err(why) = print(rt, text, r.table) {
        let _ = eprintln!(rt; "sheet_run: {why}");
    }
}

// The line that leads to the slip of a refused table.
fn refuse(rt: &HostRuntime, text: &[u8]) {
    let mut line = slip_room();
    let k = tables::slips::put_slip(&mut line, text);
    tell(rt, b"sheet_run: ");
    tell(rt, &line[..k]);
}

// The whole page.
fn print(rt: &HostRuntime, text: &[u8], t: Table) -> Result<(), Unfinished> {
    begin(rt)?;
    let mut all = room();
    match names::take(rt, &mut all, t, totals::sheets::none()) {
        Ok(sheet) => end(rt, text, t, sheet),
        Err(stopped) => Err(stopped.why),
    }
}

// How the page begins.
fn begin(rt: &HostRuntime) -> Result<(), Unfinished> {
    let mut out = sheet::head_room();
    let k = sheet::put_head(&mut out);
    progress::write(rt, &out[..k])
}

// How it ends.
fn end(rt: &HostRuntime, text: &[u8], t: Table, s: Sheet) -> Result<(), Unfinished> {
    let named = tables::names::names_of(text);
    let mut out = sheet::end_room();
    let k = sheet::put_end(&mut out, t, &named.bytes, named.lengths, s);
    progress::write(rt, &out[..k])
}

// A buffer that any line of a slip fits.
fn slip_room() -> [u8; 85]
    ensures value { 85 ≡ length result }
    ensures any { (s : List ℕ) → length (slip_line s) ≤ length result }
{
    [0; 85]
}

// A file's name has at most 4,095 bytes; a carriage return and a line feed may stand behind it.
fn room() -> [u8; 4097] {
    [0; 4097]
}

fn tell(rt: &HostRuntime, what: &[u8]) {
    let _ = rt.stderr().write_all(what);
}

// What becomes of the page while names are taken: why it may stay unfinished, and the row of a name that cannot be opened or read.
ghost use Rattle.std.specs.Prelude.{◌≡◌};
ghost use Rattle.totals.specs.Sheet.{left_unopened};
ghost use Rattle.sheet_run.specs.Put.{sheet_of};

use std::fmt;
use totals::sheets::Sheet;

// Why the page stays unfinished: the names could not be read, or a part of it could not be written.
#[derive(Clone, Copy, Debug, PartialEq, Eq)]
pub enum Unfinished {
    Unread,
    Unwritten,
}

impl fmt::Display for Unfinished {
    fn fmt<W: fmt::Write>(&self, f: &mut fmt::Formatter<W>) -> fmt::Result {
        match self {
            Unfinished::Unread => write!(f, "the names could not be read"),
            Unfinished::Unwritten => write!(f, "the page could not be written"),
        }
    }
}

// A page that stays unfinished, and the sheet of the names up to there.
#[derive(Clone, Copy)]
pub struct Stopped {
    pub why: Unfinished,
    pub sheet: Sheet,
}

// The sheet, if what was to be printed of it is.
pub(crate) fn printed(done: Result<(), Unfinished>, sheet: Sheet) -> Result<Sheet, Stopped>
    ensures { sheet_of result ≡ sheet }
{
    match done {
        Ok(()) => Ok(sheet),
        Err(why) => Err(Stopped { why, sheet }),
    }
}

// Writes a part of the page.
pub(crate) fn write<R: Print>(rt: &R, part: &[u8]) -> Result<(), Unfinished> {
    rt.write_all(part).map_err(|_| Unfinished::Unwritten)
}

// A name whose file cannot be opened or read: it is counted, and no figure of a trace changes.
pub(crate) fn unopened<R: Print>(rt: &R, name: &[u8], sheet: Sheet) -> Result<Sheet, Stopped>
    ensures { sheet_of result ≡ left_unopened sheet }
{
    let s = totals::sheets::unopened(sheet);
    printed(print_unopened(rt, s.named, name), s)
}

// The row of such a name.
fn print_unopened<R: Print>(rt: &R, n: u32, name: &[u8]) -> Result<(), Unfinished> {
    let mut out = sheet::row_room();
    let k = sheet::put_left_out(&mut out, n, steps::UNOPENED, 0, 0, name);
    write(rt, &out[..k])
}

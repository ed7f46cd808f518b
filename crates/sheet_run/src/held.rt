// What is held of the names between two reads: the bytes of a begun one, at the start of the room.
ghost use Rattle.std.specs.Prelude.{◌≡◌, ◌+◌, ◌≤◌, length, IfOk, IfErr, IfSome};
ghost use Rattle.stack.specs.declared.Table.{Table as Priorities};
ghost use Rattle.sheet_run.specs.Put.{Put};

use super::progress;
use super::progress::{Stopped, Unfinished};
use totals::sheets::Sheet;

// Of a name that is too long so many bytes are printed; no file has a name of so many.
const SHOWN: usize = 4096;

// How many bytes of a begun name stand at the start of the room, or None while one is passed over as too long; and the sheet so far.
#[derive(Clone, Copy)]
pub struct State {
    pub begun: Option<usize>,
    pub sheet: Sheet,
}

// Reads more names behind those that are held; how many bytes came, 0 where there are no more. Where reading fails, the sheet is the one so far.
pub(crate) fn fill<R: Input>(
    rt: &R,
    names: &mut [u8],
    held: usize,
    sheet: Sheet,
) -> Result<usize, Stopped>
    requires { held ≤ length names.old }
    ensures within { IfOk result (λ n. held + n ≤ length names.new) }
    ensures stopped { IfErr result (λ e. e.sheet ≡ sheet) }
{
    let came = reading::read_once(&mut rt.reader(), &mut names[held..]);
    if came.failed {
        return Err(Stopped {
            why: Unfinished::Unread,
            sheet,
        });
    }
    Ok(came.bytes)
}

// What is kept of a begun name: nothing where it is passed over, nor where it fills the room, for then it is too long to be opened. Of that one the first
// 4,096 bytes are told, and it is counted.
pub(crate) fn settle<R: Print>(
    rt: &R,
    names: &[u8],
    held: usize,
    skipping: bool,
    sheet: Sheet,
) -> Result<State, Stopped>
    ensures within { IfOk result (λ s. IfSome s.begun (λ n. n ≤ length names.now)) }
    ensures put { IfOk result (λ s. (t : Priorities) → Put t sheet s.sheet) }
    ensures stopped { IfErr result (λ e. (t : Priorities) → Put t sheet e.sheet) }
{
    if skipping {
        return Ok(State { begun: None, sheet });
    }
    if held < names.len() {
        return Ok(State {
            begun: Some(held),
            sheet,
        });
    }
    let n = names.len().min(SHOWN);
    let told = progress::unopened(rt, &names[..n], sheet)?;
    Ok(State {
        begun: None,
        sheet: told,
    })
}

// What is held of the names between two reads: the bytes of a begun one, at the start of the room (02, 11/12).
ghost use Rattle.std.specs.Prelude.{◌≡◌, ◌+◌, ◌≤◌, length};

use super::progress;
use super::progress::Sum;
use reading::Came;

// Of a name that is too long so many bytes are printed; no file has a name of so many.
const SHOWN: usize = 4096;

// Whether more names may come after a read: none do after the last one, nor once a line could not be written.
#[derive(Clone, Copy, PartialEq)]
pub enum Reading {
    More,
    Ended,
    Failed,
}

// How many bytes of a begun name stand at the start of the room, whether a name that is too long is passed over, whether more names may come, and the report
// so far.
#[derive(Clone, Copy)]
pub struct State {
    pub held: usize,
    pub skipping: bool,
    pub reading: Reading,
    pub sum: Sum,
}

// Before any name: nothing is held, and the report is the one given.
pub(crate) fn begin(first: Sum) -> State
    ensures { (result.held ≡ 0) × (result.sum ≡ first) }
{
    State {
        held: 0,
        skipping: false,
        reading: Reading::More,
        sum: first,
    }
}

// Reads more names behind those that are held.
pub(crate) fn fill<R: Input>(rt: &R, names: &mut [u8], held: usize) -> Came
    requires { held ≤ length names.old }
    ensures { held + result.bytes ≤ length names.new }
{
    reading::read_once(&mut rt.reader(), &mut names[held..])
}

// What is kept of a begun name: nothing where it is passed over, nor where it fills the room, for then it is too long to be opened. Of the one that is
// passed over the first 4,096 bytes have been told. The totals are as they were.
pub(crate) fn settle<R: Print>(
    rt: &R,
    names: &[u8],
    held: usize,
    skipping: bool,
    sum: Sum,
    came: Came,
) -> State
    ensures { (result.held ≤ length names.now) × (result.sum.totals ≡ sum.totals) }
{
    if skipping | !sum.written {
        return standing(0, true, sum, came);
    }
    if held < names.len() {
        return standing(held, false, sum, came);
    }
    let n = names.len().min(SHOWN);
    let told = progress::unopened(rt, &names[..n], sum);
    standing(0, true, told, came)
}

fn standing(held: usize, skipping: bool, sum: Sum, came: Came) -> State
    ensures { (result.held ≡ held) × (result.sum ≡ sum) }
{
    State {
        held,
        skipping,
        reading: after(came, sum.written),
        sum,
    }
}

// More names may come while some came and the report could be written.
fn after(came: Came, written: bool) -> Reading {
    if came.failed {
        return Reading::Failed;
    }
    if written && came.bytes > 0 {
        return Reading::More;
    }
    Reading::Ended
}

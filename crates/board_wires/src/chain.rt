// The longest chain below a controller, counted in controllers (02, 8/12).
ghost use Rattle.std.specs.Prelude.{◌≡◌, ◌<◌, ◌≤◌, ◌+◌};
ghost use Rattle.words.specs.Choice.{pick};
ghost use Rattle.board_wires.specs.Chain.{leads_to, feeds_in, feeds, lower_of, chain};

use super::{Board, Wire};

// Whether a wire leads to an output of controller d.
fn leads(w: Wire, d: u32) -> bool
    ensures { result ≡ leads_to w d }
{
    match w {
        Wire::Nothing => false,
        Wire::Pin(p) => false,
        Wire::Irq(e) => e == d,
        Wire::Fiq(e) => e == d,
    }
}

// Whether some input of controller c, used or not, is wired to an output of d, in the lent table of wires.
fn is_fed_in(wire: &[u16; 320], c: u32, d: u32) -> bool
    ensures { result ≡ feeds_in wire.now c d }
{
    let mut on = false;
    for i in 0..40 {
        on |= leads(super::wire_in(wire, c, i), d);
    }
    on
}

// The same of the board.
pub(crate) fn is_fed(b: Board, c: u32, d: u32) -> bool
    ensures { result ≡ feeds b c d }
{
    is_fed_in(&b.wire, c, d)
}

// One more than n where the test holds, else 0.
fn counted(on: bool, n: u32) -> u32
    requires { n < 8 }
    ensures { result ≡ pick on (n + 1) 0 }
{
    if on {
        return n + 1;
    }
    0
}

// The numbers that controller c may be wired to are those below this one: c, and none beyond the eight.
pub(crate) fn lower(c: u32) -> u32
    ensures { (result ≡ lower_of c) × (result ≤ c) × (result < 8) }
{
    if c < 8 {
        return c;
    }
    0
}

// How many controllers the longest chain below controller c has, itself not counted. At most 128 calls.
pub fn chain(b: Board, c: u32) -> u32
    ensures { result ≡ chain b c }
{
    let n = lower(c);
    let mut most: u32 = 0;
    for d in 0..n {
        let below = chain(b, d);
        most = words::larger(most, counted(is_fed(b, c, d), below));
    }
    most
}

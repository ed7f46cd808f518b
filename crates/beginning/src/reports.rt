// What a player reports of a trace (01, "House trace"; 02, 2/12).
ghost use Rattle.std.specs.Prelude.{◌≡◌};
ghost use Rattle.trace.specs.Trace.{ends};
ghost use Rattle.beginning.specs.Play.{report};

use super::Begun;
use machine::record::Machine;

// What a player reports: how many steps it played, refused ones among them, the machine after them, and the ending.
#[derive(Clone, Copy)]
pub struct Played {
    pub steps: u32,
    pub machine: Machine,
    pub refusal: u32,
    pub offset: usize,
}

// The report on a trace that has no beginning.
pub fn not_played(b: Begun) -> Played
    ensures { result ≡ report 0 b.machine (ends b.refusal b.place) }
{
    let m = b.machine;
    Played {
        steps: 0,
        machine: m,
        refusal: b.refusal,
        offset: b.place,
    }
}

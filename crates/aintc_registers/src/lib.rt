// The AINTC's registers: what each allows. What a read of one answers and what a write of it does is defined here; the code of that stands in
// aintc_room.
#![tactic(auto)]

ghost use Rattle.std.specs.Prelude.{◌≡◌};
ghost use Rattle.aintc_registers.specs.Registers.{refused};

pub mod choice;
pub mod map;
pub mod model;

use aintc_record::Aintc;

// What a step answers: its refusal, the value read, and the record after it. The refusal is a number beside the two others, since the promises speak
// of all three, of a refused step too.
#[derive(Clone, Copy)]
pub struct Answer {
    pub refusal: u32,
    pub value: u32,
    pub aintc: Aintc,
}

// The answer of a step that is refused by number n.
pub fn refusal_of(s: Aintc, n: u32) -> Answer
    ensures { result ≡ refused s n }
{
    Answer {
        refusal: n,
        value: 0,
        aintc: s,
    }
}

// The AT91 controller's registers: what each allows, what a read of it answers, and what a write of it or a line step does.
#![tactic(auto)]

ghost use Rattle.std.specs.Prelude.{◌≡◌};
ghost use Rattle.aic_registers.specs.Handlers.{answered, refused};

pub mod effects;
pub mod handlers;
pub mod map;
pub mod registers;

use aic_record::Aic;

// What a step answers: its refusal, the value read, and the record after it.
// A number and no Result: the promises name these fields, and a refused step too answers a value and a record.
#[derive(Clone, Copy)]
pub struct Answer {
    pub refusal: u32,
    pub value: u32,
    pub aic: Aic,
}

// The answer of a step that is carried out.
pub fn answer_of(s: Aic, v: u32) -> Answer
    ensures { result ≡ answered s v }
{
    Answer {
        refusal: steps::CARRIED_OUT,
        value: v,
        aic: s,
    }
}

// The answer of a step that is refused by number n.
pub fn refusal_of(s: Aic, n: u32) -> Answer
    ensures { result ≡ refused s n }
{
    Answer {
        refusal: n,
        value: 0,
        aic: s,
    }
}

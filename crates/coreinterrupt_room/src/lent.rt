// CoreInterrupt on a record that the caller lends and that is updated in it (01, "CoreInterrupt"): what is answered, and what the record is afterwards. The
// functions that are lent a record are those of `exports`, thin ones over these two.
ghost use Rattle.std.specs.Prelude.{◌≡◌};
ghost use Rattle.coreinterrupt_room.specs.Lent.{start_over, step_told};

// What a step or a start answers; the record stays with the caller, who is in C: so the refusal is a number beside the value, and a kind one below.
#[repr(C)]
#[derive(Clone, Copy)]
pub struct Reply {
    pub refusal: u32,
    pub value: u32,
}

// A start over a record that is there: the new record; where a number is beyond its limit, refusal 10 and the record as it was.
pub fn start_over(
    c: coreinterrupt::Core,
    fiqs: u32,
    irqs: u32,
    fiqlevel: u32,
    irqlevel: u32,
) -> coreinterrupt::Answer
    ensures { result ≡ start_over c fiqs irqs fiqlevel irqlevel }
{
    let b = coreinterrupt::start(fiqs, irqs, fiqlevel, irqlevel);
    let d = b.core;
    coreinterrupt::unless_refused(c, b.refusal, coreinterrupt::answer_of(d, 0))
}

// A step that is told by its kind and its numbers, as a trace tells it: an offset; an offset and a value; a line and a level. Of a read the second number plays
// no part. Any other kind is refused by 9, with the record as it was.
pub fn step_told(
    c: coreinterrupt::Core,
    kind: u32,
    first: u32,
    second: u32,
) -> coreinterrupt::Answer
    ensures { result ≡ step_told c kind first second }
{
    match kind {
        trace::READ => coreinterrupt::step(c, steps::Step::Read(first)),
        trace::WRITE => coreinterrupt::step(c, steps::Step::Write(first, second)),
        trace::LINE => coreinterrupt::step(c, steps::Step::Line(first, second)),
        _ => coreinterrupt::refusal_of(c, steps::UNKNOWN),
    }
}

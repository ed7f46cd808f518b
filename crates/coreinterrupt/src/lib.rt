// CoreInterrupt by value: the model of 01, "CoreInterrupt". What each function answers is defined in specs/Model.antt.
#![tactic(auto)]

ghost use Rattle.std.specs.Prelude.{◌≡◌, true};
ghost use Rattle.coreinterrupt.specs.Model.{side, with_side, sound, within, all_within, start, answered, refused, unless_refused, register, access, value_at, written, read, write, input, line_moved, line, step, outputs};

pub mod sides;

// The controller: its FIQ side and its IRQ side.
#[repr(C)]
#[derive(Clone, Copy)]
pub struct Core {
    pub fiq: sides::Side,
    pub irq: sides::Side,
}

// What a start answers. The refusal is a number beside the record, here and below, since the promises speak of both, of a refused step too.
#[derive(Clone, Copy)]
pub struct Begun {
    pub refusal: u32,
    pub core: Core,
}

// What a step answers.
#[derive(Clone, Copy)]
pub struct Answer {
    pub refusal: u32,
    pub value: u32,
    pub core: Core,
}

// Whether each output is active, and at which level it is.
#[derive(Clone, Copy)]
pub struct Signals {
    pub refusal: u32,
    pub irq: bool,
    pub fiq: bool,
    pub irqlevel: u32,
    pub fiqlevel: u32,
}

// How many sources each side may have, and so how many inputs it has.
pub const FIQ_LIMIT: u32 = 8;

pub const IRQ_LIMIT: u32 = 32;

// All lines: the IRQ inputs, then the FIQ inputs.
pub const LINE_LIMIT: u32 = 40;

// The offset of the first IRQ register; the FIQ registers stand before it.
pub const IRQ_BASE: u32 = 0x18;

// Whether the nth number of the configuration may have this value: FIQ count, IRQ count, FIQ level, IRQ level, from 0:
// a number's place tells it, since `kinds` asks so of every kind of controller.
pub fn within(nth: u32, value: u32) -> bool
    ensures { result ≡ within nth value }
{
    match nth {
        0 => value <= FIQ_LIMIT,
        1 => value <= IRQ_LIMIT,
        2 => value <= 1,
        3 => value <= 1,
        _ => false,
    }
}

// Whether every number of the configuration is within its limit.
fn all_within(fiqs: u32, irqs: u32, fiqlevel: u32, irqlevel: u32) -> bool
    ensures { result ≡ all_within fiqs irqs fiqlevel irqlevel }
{
    within(0, fiqs) & within(1, irqs) & within(2, fiqlevel) & within(3, irqlevel)
}

// The record as configured; refusal 10 and a record of zeros where a number is beyond its limit.
pub fn start(fiqs: u32, irqs: u32, fiqlevel: u32, irqlevel: u32) -> Begun
    ensures { result ≡ start fiqs irqs fiqlevel irqlevel }
{
    if all_within(fiqs, irqs, fiqlevel, irqlevel) {
        return Begun {
            refusal: steps::CARRIED_OUT,
            core: Core {
                fiq: sides::idle(fiqs, fiqlevel),
                irq: sides::idle(irqs, irqlevel),
            },
        };
    }
    Begun {
        refusal: steps::MISCONFIGURED,
        core: Core {
            fiq: sides::idle(0, 0),
            irq: sides::idle(0, 0),
        },
    }
}

// Whether the record keeps the rules of the model.
pub fn is_sound(c: Core) -> bool
    ensures { result ≡ sound c }
{
    sides::is_sound(FIQ_LIMIT, c.fiq) & sides::is_sound(IRQ_LIMIT, c.irq)
}

// The answer of a step that is carried out.
pub fn answer_of(c: Core, value: u32) -> Answer
    ensures { result ≡ answered c value }
{
    Answer {
        refusal: steps::CARRIED_OUT,
        value,
        core: c,
    }
}

// The answer of a refused step: its number, the value 0, the same record.
pub fn refusal_of(c: Core, n: u32) -> Answer
    ensures { result ≡ refused c n }
{
    Answer {
        refusal: n,
        value: 0,
        core: c,
    }
}

// The answer a, or the refusal n with the record as it was.
pub fn unless_refused(c: Core, n: u32, a: Answer) -> Answer
    ensures { result ≡ unless_refused c n a }
{
    if n == steps::CARRIED_OUT {
        return a;
    }
    refusal_of(c, n)
}

// The FIQ side or the IRQ side.
fn side(c: Core, fast: bool) -> sides::Side
    ensures { result ≡ side c fast }
{
    if fast { c.fiq } else { c.irq }
}

// The record with one side replaced.
fn with_side(c: Core, fast: bool, s: sides::Side) -> Core
    ensures { result ≡ with_side c fast s }
{
    let mut d = c;
    if fast {
        d.fiq = s;
    } else {
        d.irq = s;
    }
    d
}

// The number of the register at an offset, within its side: a number, since the definitions go by it; `sides::Register` names it.
pub fn register(offset: u32) -> u32
    ensures { result ≡ register offset }
{
    if offset < IRQ_BASE {
        return offset / 4;
    }
    (offset - IRQ_BASE) / 4
}

// What the register at an offset may be used for.
fn access(c: Core, offset: u32) -> steps::Access
    ensures { result ≡ access c offset }
{
    sides::access(side(c, offset < IRQ_BASE), register(offset))
}

// What the register at an offset answers.
fn value_at(c: Core, offset: u32) -> u32
    ensures { result ≡ value_at c offset }
{
    sides::read(side(c, offset < IRQ_BASE), register(offset))
}

// The record after the register at an offset took a value.
fn written(c: Core, offset: u32, value: u32) -> Core
    ensures { result ≡ written c offset value }
{
    let fast = offset < IRQ_BASE;
    let s = sides::write(side(c, fast), register(offset), value);
    with_side(c, fast, s)
}

// The number of a line within its side.
pub fn input(k: u32) -> u32
    ensures { result ≡ input k }
{
    if IRQ_LIMIT <= k {
        return k - IRQ_LIMIT;
    }
    k
}

// The record after line k is put high or low.
fn line_moved(c: Core, k: u32, high: bool) -> Core
    ensures { result ≡ line_moved c k high }
{
    let fast = IRQ_LIMIT <= k;
    let s = sides::moved(side(c, fast), input(k), high);
    with_side(c, fast, s)
}

// ---- the steps and the outputs of a record that is known to be sound

fn read_sound(c: Core, offset: u32) -> Answer
    requires { sound c ≡ true }
    ensures { result ≡ read c offset }
{
    let n = steps::read_refusal(true, offset, access(c, offset));
    unless_refused(c, n, answer_of(c, value_at(c, offset)))
}

fn write_sound(c: Core, offset: u32, value: u32) -> Answer
    requires { sound c ≡ true }
    ensures { result ≡ write c offset value }
{
    let n = steps::write_refusal(true, offset, access(c, offset), steps::CARRIED_OUT);
    unless_refused(c, n, answer_of(written(c, offset, value), 0))
}

fn line_sound(c: Core, k: u32, level: u32) -> Answer
    requires { sound c ≡ true }
    ensures { result ≡ line c k level }
{
    let n = steps::line_refusal(true, LINE_LIMIT, k, level);
    unless_refused(c, n, answer_of(line_moved(c, k, level == 1), 0))
}

// One step of any kind, for callers that know the record to be sound.
pub fn step_sound(c: Core, x: steps::Step) -> Answer
    requires { sound c ≡ true }
    ensures { result ≡ step c x }
{
    match x {
        steps::Step::Read(offset) => read_sound(c, offset),
        steps::Step::Write(offset, value) => write_sound(c, offset, value),
        steps::Step::Line(k, level) => line_sound(c, k, level),
    }
}

// Both outputs, for callers that know the record to be sound.
pub fn outputs_sound(c: Core) -> Signals
    requires { sound c ≡ true }
    ensures { result ≡ outputs c }
{
    Signals {
        refusal: steps::CARRIED_OUT,
        irq: sides::active(c.irq),
        fiq: sides::active(c.fiq),
        irqlevel: sides::output_level(c.irq),
        fiqlevel: sides::output_level(c.fiq),
    }
}

// ---- of any record

// A read of the register at an offset.
pub fn read(c: Core, offset: u32) -> Answer
    ensures { result ≡ read c offset }
{
    if is_sound(c) {
        return read_sound(c, offset);
    }
    refusal_of(c, steps::UNSOUND)
}

// A write of a value to the register at an offset.
pub fn write(c: Core, offset: u32, value: u32) -> Answer
    ensures { result ≡ write c offset value }
{
    if is_sound(c) {
        return write_sound(c, offset, value);
    }
    refusal_of(c, steps::UNSOUND)
}

// Line k is put to a level: 0 to 31 are the IRQ inputs, 32 to 39 the FIQ inputs.
pub fn line(c: Core, k: u32, level: u32) -> Answer
    ensures { result ≡ line c k level }
{
    if is_sound(c) {
        return line_sound(c, k, level);
    }
    refusal_of(c, steps::UNSOUND)
}

// One step of any kind.
pub fn step(c: Core, x: steps::Step) -> Answer
    ensures { result ≡ step c x }
{
    if is_sound(c) {
        return step_sound(c, x);
    }
    refusal_of(c, steps::UNSOUND)
}

// Both outputs; refusal 12 and zeros where the record is not sound.
pub fn outputs(c: Core) -> Signals
    ensures { result ≡ outputs c }
{
    if is_sound(c) {
        return outputs_sound(c);
    }
    Signals {
        refusal: steps::UNSOUND,
        irq: false,
        fiq: false,
        irqlevel: 0,
        fiqlevel: 0,
    }
}

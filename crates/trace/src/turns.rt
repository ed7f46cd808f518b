// One turn of a loop over the steps of a trace, as numbers and with the short forms of numbers first: most have one byte or two.
// A loop asks `sure(quick(..), ..)`: so `quick` is small and calls nothing that is not, and becomes a part of the loop.
ghost use Rattle.std.specs.Prelude.{◌≡◌, ◌<◌, ◌≤◌, ◌+◌, length, Ok, IfSome};
ghost use Rattle.numbers.specs.Number.{Value, number_at};
ghost use Rattle.trace.specs.declared.Turn.TheVariants.{Found, Ended};
ghost use Rattle.trace.specs.Steps.{read_kind, step_at};
ghost use Rattle.trace.specs.Trace.{turn_at};
ghost use Rattle.trace.specs.Turns.{ended_kind, unsure_kind, made, step_of, turn_of, told_of, Spare, privilege_at};

use super::Turn;
use numbers::Taken;
use steps::Step;

// One turn as numbers: kind 0 is the end, with its refusal and the offset in `next`; 1 to 3 a step of that kind with the place after it;
// UNSURE says nothing.
// The loops of other crates take it apart by these numbers, which docs/CONTRACTS.md names, and so it is no enum and UNSURE no None.
#[derive(Clone, Copy)]
pub struct Told {
    pub kind: u32,
    pub x: u32,
    pub y: u32,
    pub privilege: u32,
    pub next: usize,
    pub refusal: u32,
}

pub const ENDED: u32 = 0;

pub const UNSURE: u32 = 4;

// The turn at a place with `left` of the limit, where it is a step of short numbers and as many bytes are there as its longest form has, seven: one
// test of the length serves for all of them. Else UNSURE, as at an end. Where `told`, a privilege number follows each offset.
pub fn quick(trace: &[u8], at: usize, left: u32, told: bool) -> Told
    ensures { ((result.kind ≡ unsure_kind → ⊥) → turn_of result ≡ turn_at told trace.now at left) × (result.kind < 5) × ((result.kind ≡ unsure_kind → ⊥) → result ≡ told_of (turn_at told trace.now at left)) }
{
    if trace.len() < 7 {
        return unsure();
    }
    if trace.len() - 7 < at {
        return unsure();
    }
    if left == 0 {
        return unsure();
    }
    quick_step(trace, at, told)
}

// The turn at a place, whatever its numbers are.
pub fn slow(trace: &[u8], at: usize, left: u32, told: bool) -> Told
    ensures { (turn_of result ≡ turn_at told trace.now at left) × (result.kind < 4) × (result ≡ told_of (turn_at told trace.now at left)) }
{
    told_of(super::turn_at(trace, at, left, told))
}

// What `quick` has answered of this turn, or the slow answer where that is UNSURE.
pub fn sure(q: Told, trace: &[u8], at: usize, left: u32, told: bool) -> Told
    requires { ((q.kind ≡ unsure_kind → ⊥) → turn_of q ≡ turn_at told trace.now at left) × (q.kind < 5) × ((q.kind ≡ unsure_kind → ⊥) → q ≡ told_of (turn_at told trace.now at left)) }
    ensures { (turn_of result ≡ turn_at told trace.now at left) × (result.kind < 4) × (result ≡ told_of (turn_at told trace.now at left)) }
{
    if q.kind == UNSURE {
        return slow(trace, at, left, told);
    }
    q
}

// The step at a place, if its numbers are short.
fn quick_step(trace: &[u8], at: usize, told: bool) -> Told
    requires { at + 7 ≤ length trace.now }
    ensures { ((result.kind ≡ unsure_kind → ⊥) → turn_of result ≡ step_at told trace.now at) × (result.kind < 5) × ((result.kind ≡ unsure_kind → ⊥) → Spare result) }
{
    let kind = numbers::wide(trace[at]);
    if (0 < kind) & (kind < 4) {
        return by_kind(trace, at, told, kind);
    }
    unsure()
}

// The step of a kind that is one byte at a place, if its other numbers are short.
fn by_kind(trace: &[u8], at: usize, told: bool, kind: u32) -> Told
    requires { (at + 7 ≤ length trace.now) × ((0 < kind) × (kind < 4)) }
    ensures { ((result.kind ≡ unsure_kind → ⊥) → number_at trace.now at ≡ Value kind (at + 1) → turn_of result ≡ step_at told trace.now at) × (result.kind < 5) × ((result.kind ≡ unsure_kind → ⊥) → Spare result) }
{
    let Some(a) = short_in(trace, at + 1) else {
        return unsure();
    };
    let Some(p) = privilege_at(trace, a.next, told, kind) else {
        return unsure();
    };
    if kind == super::READ {
        return found(kind, a.value, 0, p.value, p.next);
    }
    let Some(b) = short_in(trace, p.next) else {
        return unsure();
    };
    found(kind, a.value, b.value, p.value, b.next)
}

// The privilege after the first number of a step, if it is short; where none is told, 1 and no byte.
fn privilege_at(trace: &[u8], at: usize, told: bool, kind: u32) -> Option<Taken>
    requires { at + 2 ≤ length trace.now }
    ensures { IfSome result (λ t. (privilege_at told kind trace.now at ≡ Ok t) × (t.next ≤ at + 2)) }
{
    if told & (kind != super::LINE) {
        return short_in(trace, at);
    }
    Some(Taken {
        value: steps::PRIVILEGED,
        next: at,
    })
}

// The number at a place, if it has one byte or two; two bytes are there.
fn short_in(trace: &[u8], at: usize) -> Option<Taken>
    requires { at + 2 ≤ length trace.now }
    ensures { IfSome result (λ t. (number_at trace.now at ≡ Ok t) × (t.next ≤ at + 2)) }
{
    let a = numbers::wide(trace[at]);
    if a < 128 {
        return Some(Taken {
            value: a,
            next: at + 1,
        });
    }
    let b = numbers::wide(trace[at + 1]);
    if b < 128 {
        return Some(Taken {
            value: a - 128 + 128 * b,
            next: at + 2,
        });
    }
    None
}

// A turn as numbers.
fn told_of(t: Turn) -> Told
    ensures { (turn_of result ≡ t) × (result.kind < 4) × Spare result }
{
    match t {
        Turn::Ended(refusal, offset) => ended(refusal, offset),
        Turn::Found(x, next) => {
            let step = x.step;
            by_step(step, x.privilege, next)
        }
    }
}

// A step as numbers.
fn by_step(x: Step, privilege: u32, next: usize) -> Told
    ensures { (turn_of result ≡ Found (made x privilege) next) × (result.kind < 4) × Spare result }
{
    match x {
        Step::Read(offset) => found(super::READ, offset, 0, privilege, next),
        Step::Write(offset, value) => found(super::WRITE, offset, value, privilege, next),
        Step::Line(line, level) => found(super::LINE, line, level, privilege, next),
    }
}

// An end.
fn ended(refusal: u32, offset: usize) -> Told
    ensures { (turn_of result ≡ Ended refusal offset) × (result.kind ≡ ended_kind) × Spare result }
{
    Told {
        kind: ENDED,
        x: 0,
        y: 0,
        privilege: 0,
        next: offset,
        refusal,
    }
}

// A step of a kind.
fn found(kind: u32, x: u32, y: u32, privilege: u32, next: usize) -> Told
    ensures { (0 < kind → turn_of result ≡ Found (made (step_of kind x y) privilege) next) × (result.kind ≡ kind) × (0 < kind → (kind ≡ read_kind → y ≡ 0) → Spare result) }
{
    Told {
        kind,
        x,
        y,
        privilege,
        next,
        refusal: steps::CARRIED_OUT,
    }
}

// What says nothing.
fn unsure() -> Told
    ensures { result.kind ≡ unsure_kind }
{
    Told {
        kind: UNSURE,
        x: 0,
        y: 0,
        privilege: 0,
        next: 0,
        refusal: 0,
    }
}

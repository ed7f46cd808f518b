// One controller of any kind for a caller outside, who keeps it in 2,048 words. Whatever stands in them, every call gets an answer: where it is not the room
// of a sound record, derived and unused words among it, 12, and nothing changes (01, Numbers).
ghost use Rattle.std.specs.Prelude.{◌≡◌, true, false, ◌*◌, ◌/◌, ◌≤◌, ◌<◌, min, length};
ghost use Rattle.words.specs.Choice.{pick};
ghost use Rattle.steps.specs.Refusals.{carried_out, misconfigured, unsound, privileged};
ghost use Rattle.steps.specs.declared.Step.TheVariants.{Read, Write, Line};
ghost use Rattle.rooms.specs.Reply.{reply, told};
ghost use Rattle.trace.specs.Turns.{made, step_of};
ghost use Rattle.machine.specs.declared.record.Machine.{Machine};
ghost use Rattle.machine_room.specs.Batch.{step_told, Taken, after_steps, kth_reply, answers_in, steps_in, SteppedAll};
ghost use Rattle.machine_room.specs.Controller.{Stands, Vacant, same, accepted, start_refusal, Started, Stepped, Showing};

use kinds::Configuration;
use machine::record::Machine;
use rooms::Room;

// The three numbers of a listing's line, or the refusal, as a caller from C is answered.
#[derive(Clone, Copy)]
pub struct Shown {
    pub refusal: u32,
    pub first: u32,
    pub second: u32,
    pub third: u32,
}

// Starts a controller of a kind with the numbers that configure it; numbers beyond its own are not looked at. A refused start writes nothing.
pub fn start(room: &mut Room, kind: u32, c: Configuration) -> u32
    ensures { Started room.old kind c room.new result }
{
    let refusal = start_refusal(kind, c);
    if refusal == steps::CARRIED_OUT {
        *room = super::lay(machine::record::start(kind, c), true);
    }
    refusal
}

// The refusal of a start as a number, 0 for none: `start` answers it to callers from C.
fn start_refusal(kind: u32, c: Configuration) -> u32
    ensures { result ≡ start_refusal kind c }
{
    if kinds::is_kind(kind) {
        return numbers_refusal(kind, c);
    }
    steps::UNKNOWN
}

fn numbers_refusal(kind: u32, c: Configuration) -> u32
    ensures { result ≡ pick (accepted kind c) carried_out misconfigured }
{
    if is_accepted(kind, c) {
        return steps::CARRIED_OUT;
    }
    steps::MISCONFIGURED
}

fn is_accepted(kind: u32, c: Configuration) -> bool
    ensures { result ≡ accepted kind c }
{
    let wanted = kinds::wanted(kind);
    let numbers = c.numbers;
    let mut ok = true;
    // The limit goes by the place of the number, so n is more than an index.
    for n in 0..wanted {
        ok &= kinds::within(kind, n, numbers[n as usize]);
    }
    ok
}

// A read of a register; the privilege is looked at by an AINTC alone.
pub fn read(room: &mut Room, offset: u32, privilege: u32) -> u64
    ensures { Stepped room.old (made (Read offset) privilege) room.new (told result) }
{
    step(room, trace::READ, offset, 0, privilege)
}

// A write of one.
pub fn write(room: &mut Room, offset: u32, value: u32, privilege: u32) -> u64
    ensures { Stepped room.old (made (Write offset value) privilege) room.new (told result) }
{
    step(room, trace::WRITE, offset, value, privilege)
}

// A change of a line, which needs no privilege.
pub fn line(room: &mut Room, number: u32, level: u32) -> u64
    ensures { Stepped room.old (made (Line number level) privileged) room.new (told result) }
{
    step(room, trace::LINE, number, level, steps::PRIVILEGED)
}

// The step of a kind, 1 to 3 as in a trace, with its numbers, made by a privilege.
fn step(room: &mut Room, kind: u32, x: u32, y: u32, privilege: u32) -> u64
    requires { (0 < kind) × (kind < 4) }
    ensures { Stepped room.old (made (step_of kind x y) privilege) room.new (told result) }
{
    if is_controller(room) {
        return super::step(room, kind, x, y, privilege);
    }
    rooms::refuse(steps::UNSOUND)
}

// ---- many steps at once

// Four words tell a step: its kind, 1 to 3 as in a trace, its two numbers and its privilege. Two answer it: refusal and value. The words of the controller are
// looked through once, before the first.
pub fn steps_in(room: &mut Room, words: &[u32], answers: &mut [u32]) -> u32
    ensures { SteppedAll room.old words.now answers.old (steps_in words.now answers.old) room.new answers.new result }
{
    let n = number_of(words.len(), answers.len());
    if is_controller(room) {
        take_all(room, words, answers, n);
        return steps::CARRIED_OUT;
    }
    refuse_all(answers, n);
    steps::UNSOUND
}

// As many steps as are told whole and as there is room to answer.
fn number_of(words: usize, room: usize) -> usize
    ensures { result ≡ min (words / 4) (room / 2) }
{
    (words / 4).min(room / 2)
}

fn take_all(room: &mut Room, words: &[u32], answers: &mut [u32], n: usize)
    requires { (4 * n ≤ length words.now) × (2 * n ≤ length answers.old) }
    ensures { (m : Machine) → Stands room.old m → Stands room.new (after_steps m words.now n) × (answers.new ≡ answers_in (kth_reply m words.now) answers.old n) }
{
    // Step k has four words and its answer two, so k is a place in both; chunks of each would be zipped with no fewer lines.
    for k in 0..n {
        let at = 4 * k;
        let a = take(room, words[at], words[at + 1], words[at + 2], words[at + 3]);
        answers[2 * k] = rooms::refusal_in(a);
        answers[2 * k + 1] = rooms::value_in(a);
    }
}

// The step of a kind; there is none of another than 1 to 3.
fn take(room: &mut Room, kind: u32, x: u32, y: u32, privilege: u32) -> u64
    ensures { (m : Machine) → Stands room.old m → Taken (step_told m kind x y privilege) room.new (told result) }
{
    if (0 < kind) & (kind < 4) {
        return super::step(room, kind, x, y, privilege);
    }
    rooms::refuse(steps::UNKNOWN)
}

fn refuse_all(answers: &mut [u32], n: usize)
    requires { 2 * n ≤ length answers.old }
    ensures { answers.new ≡ answers_in (λ _. reply unsound 0) answers.old n }
{
    for k in 0..n {
        answers[2 * k] = steps::UNSOUND;
        answers[2 * k + 1] = 0;
    }
}

// ---- what it shows, and whether it is one

// What a listing shows of it.
pub fn outputs(room: &Room) -> Shown
    ensures { Showing room.now result }
{
    if is_controller(room) {
        let c = super::columns(room);
        return Shown {
            refusal: steps::CARRIED_OUT,
            first: c.first,
            second: c.second,
            third: c.third,
        };
    }
    Shown {
        refusal: steps::UNSOUND,
        first: 0,
        second: 0,
        third: 0,
    }
}

// Whether a sound machine stands in the words: the one that is read there is laid once more, and every word must be the same.
pub fn is_controller(room: &Room) -> bool
    ensures { (result ≡ true → (m : Machine) × Stands room.now m) × (result ≡ false → Vacant room.now) }
{
    let first = Machine {
        kind: room[super::KIND],
        ..machine::record::empty()
    };
    is_laid(*room, super::record_of(room, first))
}

// Whether this machine is sound, and the words are those of its room. They are passed, not lent, so that their number is known.
fn is_laid(room: Room, m: Machine) -> bool
    ensures { (result ≡ true → Stands room m) × (result ≡ false → Stands room m → ⊥) }
{
    if machine::record::is_sound(m) {
        let again = super::lay(m, true);
        return is_same(&room, &again);
    }
    false
}

fn is_same(a: &Room, b: &Room) -> bool
    ensures { result ≡ same a.now b.now }
{
    let mut same = true;
    // A place in two rooms at once.
    for k in 0..2048 {
        same &= a[k] == b[k];
    }
    same
}

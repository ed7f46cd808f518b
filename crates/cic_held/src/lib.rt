// What a CIC with prioritised indices holds beside its record: the start, which records are sound, and words as they are held (02, 6/12; 001, 1.3.5 and 2.2.2).
#![tactic(auto)]

ghost use Rattle.std.specs.Prelude.{◌≡◌, ◌&&◌, ◌-◌, ◌≤◌, eqb, ltb, get_or};
ghost use Rattle.words.specs.Counting.{all_below};
ghost use Rattle.cic_record.specs.Kinds.{system};
ghost use Rattle.cic_held.specs.Held.{prioritised, nothing_held, word_held, within, entry_sound, held_sound, sound, start};

pub mod indices;

use cic_record::{Cic, Host, System};

// Whether prioritisation is chosen, whether a read of an index holds it, and what is held for the global index and for that of each host: 0 where
// nothing is, 1 for the word of none, s + 2 for system interrupt s. The promise on sound records, `Rules` with its `HeldAsOne`, names these numbers.
#[derive(Clone, Copy)]
pub struct Held {
    pub choice: u32,
    pub hold: u32,
    pub global: u16,
    pub host: [u16; 256],
}

// A CIC, and what is held beside it.
#[derive(Clone, Copy)]
pub struct Prioritised {
    pub cic: Cic,
    pub held: Held,
}

// What a start answers: its refusal, and the record.
#[derive(Clone, Copy)]
pub struct Begun {
    pub refusal: u32,
    pub prioritised: Prioritised,
}

// What a step answers: its refusal, the value read, and the record after it.
#[derive(Clone, Copy)]
pub struct Answer {
    pub refusal: u32,
    pub value: u32,
    pub prioritised: Prioritised,
}

// Whether the nth configuration number, in the order systems, channels, hosts, revision, choice, may be `value`. The first is number 0.
pub fn within(nth: u32, value: u32) -> bool
    ensures { result ≡ within nth value }
{
    if nth == 4 {
        return value <= 1;
    }
    cic_record::within(nth, value)
}

// Nothing is held.
pub fn nothing_held(choice: u32, hold: u32) -> Held
    ensures { result ≡ nothing_held choice hold }
{
    Held {
        choice,
        hold,
        global: 0,
        host: [0; 256],
    }
}

// A CIC and what is held beside it.
pub fn join(c: Cic, h: Held) -> Prioritised
    ensures { result ≡ prioritised c h }
{
    Prioritised { cic: c, held: h }
}

// The CIC at reset with nothing held, or refusal 10 and a record of zeros where a number is beyond its limit.
pub fn start(systems: u32, channels: u32, hosts: u32, revision: u32, choice: u32) -> Begun
    ensures { result ≡ start systems channels hosts revision choice }
{
    let b = cic_record::start(systems, channels, hosts, revision);
    if (b.refusal == steps::CARRIED_OUT) & within(4, choice) {
        let c = b.cic;
        let h = nothing_held(choice, choice);
        let p = join(c, h);
        return Begun {
            refusal: steps::CARRIED_OUT,
            prioritised: p,
        };
    }
    let z = cic_record::start(0, 0, 0, 0);
    let none = z.cic;
    let nothing = nothing_held(0, 0);
    let zeros = join(none, nothing);
    Begun {
        refusal: steps::MISCONFIGURED,
        prioritised: zeros,
    }
}

// Whether what is held, where something may be, is nothing, none or a configured system interrupt; else whether it is nothing.
fn entry_sound(systems: u32, may: bool, x: u16) -> bool
    ensures { result ≡ entry_sound systems may x }
{
    if may {
        return (x as u64) <= (systems as u64) + 1;
    }
    x == 0
}

// Whether what is held for each host is sound. No early exit, as over the words of a CIC.
fn hosts_sound(m: &[u16; 256], systems: u32, hosts: u32, hold: u32) -> bool
    ensures { result ≡ all_below 256 (λ k. entry_sound systems (ltb k hosts && eqb hold 1) (get_or m.now k 0)) }
{
    let mut ok = true;
    for (k, x) in m.iter().enumerate() {
        ok &= entry_sound(systems, ((k as u32) < hosts) & (hold == 1), *x);
    }
    ok
}

// Whether what is held beside a CIC keeps every rule.
fn held_sound(c: Cic, h: Held) -> bool
    ensures { result ≡ held_sound c h }
{
    let systems = c.systems;
    let hosts = c.hosts;
    let choice = h.choice;
    let hold = h.hold;
    let global = entry_sound(systems, hold == 1, h.global);
    (choice <= 1) & ((hold <= choice) & (global & hosts_sound(&h.host, systems, hosts, hold)))
}

// Whether the record keeps every rule of its model.
pub fn is_sound(p: Prioritised) -> bool
    ensures { result ≡ sound p }
{
    cic_record::is_sound(p.cic) & held_sound(p.cic, p.held)
}

// The system interrupt that is held as x.
fn system_held(x: u16) -> System
    requires { 2 ≤ x }
    ensures { result ≡ system (x - 2) }
{
    System(x - 2)
}

// The word that is held.
pub fn word_held(x: u16) -> u32
    ensures { result ≡ word_held x }
{
    match x {
        0 => 0,
        1 => indices::NONE,
        _ => u32::from(system_held(x).0),
    }
}

// What is held for a host interrupt; nothing past the last.
pub fn host_at(host: &[u16], n: Host) -> u16
    ensures { result ≡ get_or host.now n.0 0 }
{
    host.get(usize::from(n.0)).copied().unwrap_or(0)
}

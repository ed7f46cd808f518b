// What a read of a CIC with prioritised indices would answer, and how many status words it would look at (02, 10/12).
ghost use Rattle.std.specs.Prelude.{◌≡◌, true, ◌≤◌};
ghost use Rattle.cic_held.specs.Held.{sound};
ghost use Rattle.cic_indexed.specs.declared.Own.TheVariants.{GlobalIndex, HostIndex};
ghost use Rattle.cic_indexed.specs.Registers.{own_at};
ghost use Rattle.cic_indexed.specs.Model.{read};
ghost use Rattle.cic_prioritised.specs.Looking.{looked, found_now, looked_from, look_as, look_at};

use cic_held::Prioritised;
use cic_held::indices::Found;
use cic_indexed::Own;
use cic_record::{Cic, Host};
use steps::{Access, Step};

// What a read would answer, and the status words of 32 system interrupts that it would look at: the promise `looks_same` names the refusal beside the value.
#[derive(Clone, Copy)]
pub struct Looked {
    pub refusal: u32,
    pub value: u32,
    pub words: u32,
}

// What a read of the register at an offset would answer, and the words that a search for it, channel by channel, looks at: 0 where the read would be
// refused, where the index is held, and where the register is no index. Nothing is read: the record stays as it is, and nothing is held.
pub fn look_at(p: Prioritised, offset: u32) -> Looked
    ensures { result ≡ look_at p offset }
{
    if cic_held::is_sound(p) {
        return look_sound(p, offset);
    }
    answer(steps::UNSOUND, 0, 0)
}

// The same of a sound record.
fn look_sound(p: Prioritised, offset: u32) -> Looked
    requires { sound p ≡ true }
    ensures { result ≡ look_as true p offset (own_at p offset) }
{
    match indexed_room::own::own_at(p.held.choice, offset) {
        Own::Elsewhere => look_other(p, offset),
        Own::Control => look_other(p, offset),
        Own::GlobalIndex => look_global(p, offset),
        Own::HostIndex(h) => look_host(p, offset, h),
    }
}

// A register that is no index: nothing is searched for.
fn look_other(p: Prioritised, offset: u32) -> Looked
    requires { sound p ≡ true }
    ensures { result ≡ looked_from (read p offset) 0 }
{
    let a = super::step_sound(p, Step::Read(offset));
    answer(a.refusal, a.value, 0)
}

// The global index.
fn look_global(p: Prioritised, offset: u32) -> Looked
    requires { sound p ≡ true }
    ensures { result ≡ look_as true p offset GlobalIndex }
{
    let n = steps::read_refusal(true, offset, Access::ReadWrite);
    if n != steps::CARRIED_OUT {
        return answer(n, 0, 0);
    }
    let f = look_now(p.cic, p.held.global, true, Host(0));
    answer(steps::CARRIED_OUT, f.index, f.words)
}

// The index of host interrupt h.
fn look_host(p: Prioritised, offset: u32, h: Host) -> Looked
    requires { sound p ≡ true }
    ensures { result ≡ look_as true p offset (HostIndex h) }
{
    let n = steps::read_refusal(true, offset, cic_indexed::host_access(p, h));
    if n != steps::CARRIED_OUT {
        return answer(n, 0, 0);
    }
    let was = cic_indexed::host_held(p.held, h);
    let f = look_now(p.cic, was, false, h);
    answer(steps::CARRIED_OUT, f.index, f.words)
}

// The word of an index, and the words looked at for it: none where it is held as x.
fn look_now(c: Cic, x: u16, every: bool, h: Host) -> Found
    requires { (c.systems ≤ 1024) × (c.channels ≤ 256) }
    ensures { result ≡ found_now c x every h }
{
    if x == 0 {
        return cic_held::indices::look(c, every, h);
    }
    Found {
        index: cic_held::word_held(x),
        words: 0,
    }
}

fn answer(refusal: u32, value: u32, words: u32) -> Looked
    ensures { result ≡ looked refusal value words }
{
    Looked {
        refusal,
        value,
        words,
    }
}

// The bound of a wait of one source, from the words of the room in which the AIC stands.
ghost use Rattle.std.specs.Prelude.{◌≡◌, true, ltb, ◌<◌};
ghost use Rattle.words.specs.Word.{word_of};
ghost use Rattle.aic_record.specs.declared.Aic.{Aic};
ghost use Rattle.aic_record.specs.Mode.{priority};
ghost use Rattle.aic_record.specs.Sound.{sound};
ghost use Rattle.aic_room.specs.Room.{Laid};
ghost use Rattle.aic_runs.specs.Counted.{carries};
ghost use Rattle.aic_runs.specs.Promises.{rival_of};
ghost use Rattle.aic_runs.specs.Turns.{held};
ghost use Rattle.aic_bounds.specs.Bounds.{fresh};
ghost use Rattle.aic_bounds.specs.Following.{dues, plus, grown_by, bound_by};

use aic_bounds::{Bound, Marks};
use aic_room::layout::{CLASS, DEPTH, EDGES, ENABLED, FORCED, LEVEL, MODE, SOURCE};
use rooms::Room;

// ---- the words of a record

// Whether a source other than k is remembered.
fn is_carried(room: &Room, k: u32) -> bool
    ensures { (t : Aic) → Laid t room.now → result ≡ carries k t }
{
    (room[aic_room::layout::SEEN] == 1) & (k != room[aic_room::layout::SEEN_SOURCE])
}

// The sources of a priority above p.
fn above(room: &Room, p: u32) -> u32
    requires { p < 8 }
    ensures { (t : Aic) → Laid t room.now → result ≡ word_of 32 (λ i. ltb p (priority t i)) }
{
    let mut w: u32 = 0;
    for q in p + 1..8 {
        w = words::join(w, room[CLASS + q as usize]);
    }
    w
}

// The sources ahead of source k that are not fast.
fn rivals(room: &Room, k: u32) -> u32
    requires { k < 32 }
    ensures { (t : Aic) → Laid t room.now → result ≡ word_of 32 (rival_of t k) }
{
    let p = room[MODE + k as usize] % 8;
    let before = words::keep(k, room[CLASS + p as usize]);
    let ahead = words::join(above(room, p), before);
    words::drop_bits(ahead, words::join(1, room[FORCED]))
}

// The sources of which a handler is open at their priority or above.
fn held_word(room: &Room) -> u32
    ensures { (t : Aic) → sound t ≡ true → Laid t room.now → result ≡ word_of 32 (held t) }
{
    let depth = room[DEPTH];
    if 8 < depth {
        return 0;
    }
    let mut w: u32 = 0;
    for d in 0..depth {
        let j = room[SOURCE + d as usize] % 32;
        let over = room[MODE + j as usize] % 8 <= room[LEVEL + d as usize];
        w = words::with_bit(w, j, words::has(w, j) | over);
    }
    words::drop_bits(w, 1)
}

// The sources that are due a start.
fn due_word(room: &Room) -> u32
    ensures { (t : Aic) → sound t ≡ true → Laid t room.now → result ≡ word_of 32 (dues t) }
{
    let pending = aic_room::layout::pending(room);
    let free = words::drop_bits(pending, held_word(room));
    words::join(words::meet(pending, room[EDGES]), free)
}

// n and the number of some sources that are due a start: mostly there are none to look for.
fn with_due(room: &Room, n: u32, some: u32) -> u32
    ensures { (t : Aic) → sound t ≡ true → Laid t room.now → result ≡ plus n some (word_of 32 (dues t)) }
{
    if some == 0 {
        return n;
    }
    aic_bounds::plus(n, some, due_word(room))
}

// ---- the three ways of a step

// The bound of source k after the n-th step, which brought m: how it stands after it is w.
pub(crate) fn bound_after(room: &Room, k: u32, w: u32, n: u32, b: Bound, m: Marks) -> Bound
    requires { k < 32 }
    ensures { (t : Aic) → sound t ≡ true → Laid t room.now → result ≡ bound_by k w n b m t }
{
    if w < 2 {
        return aic_bounds::idle(w);
    }
    if b.wait < 2 {
        return fresh(room, k);
    }
    grown(room, w, b, n, m)
}

// A wait that begins.
fn fresh(room: &Room, k: u32) -> Bound
    requires { k < 32 }
    ensures { (t : Aic) → sound t ≡ true → Laid t room.now → result ≡ fresh k t }
{
    let ahead = rivals(room, k);
    let on = words::meet(ahead, room[ENABLED]);
    let pending = with_due(room, 0, on);
    let remembered = words::one_if(is_carried(room, k));
    Bound {
        wait: 2,
        rivals: ahead,
        on,
        pending,
        edges: 0,
        commands: 0,
        turns: 0,
        closed: 0,
        remembered,
        broke: 0,
    }
}

// A wait that goes on.
fn grown(room: &Room, w: u32, b: Bound, n: u32, m: Marks) -> Bound
    ensures { (t : Aic) → sound t ≡ true → Laid t room.now → result ≡ grown_by w b n m t }
{
    let enabled = words::meet(b.rivals, room[ENABLED]);
    let on = words::join(b.on, enabled);
    let first = words::drop_bits(enabled, b.on);
    let pending = with_due(room, b.pending, first);
    let edges = aic_bounds::plus(b.edges, b.on, m.edges);
    let commands = aic_bounds::plus(b.commands, b.on, m.commands);
    let turns = aic_bounds::plus(b.turns, b.on, m.turns);
    let closed = aic_bounds::plus(b.closed, b.on, m.closed);
    let broke = aic_bounds::either((b.broke == 0) & m.rewrote, n, b.broke);
    Bound {
        wait: w,
        rivals: b.rivals,
        on,
        pending,
        edges,
        commands,
        turns,
        closed,
        remembered: b.remembered,
        broke,
    }
}

// The figures of an AIC that stands in a room (02, 11/12), kept in a book beside it: a wait is the number of handlers started when it began, settled where
// it ends, and a step after which the same sources ask and no entry has opened costs a test.
#![tactic(auto)]

ghost use Rattle.std.specs.Prelude.{◌≡◌, true, not, ◌&&◌, ◌||◌, ℕ, ◌+◌, ◌-◌, ◌<◌, ◌≤◌, max, eqb, ltb, length, get_or, set};
ghost use Rattle.words.specs.Choice.{pick};
ghost use Rattle.words.specs.Word.{bit, word_of};
ghost use Rattle.steps.specs.declared.Step.{Step};
ghost use Rattle.aic_record.specs.declared.Aic.{Aic};
ghost use Rattle.aic_record.specs.Promises.{Shaped};
ghost use Rattle.aic_record.specs.Sound.{sound};
ghost use Rattle.aic_sources.specs.Normal.{waiting};
ghost use Rattle.aic.specs.Model.{step};
ghost use Rattle.aic_room.specs.Room.{Laid};
ghost use Rattle.aic_waits.specs.Figures.{entries_now};
ghost use Rattle.aic_waits.specs.Following.{Figures, capped, no_figures, started_from, followed};
ghost use Rattle.aic_figures.specs.Book.{Kept, Put, Moved, settled_at};

pub mod waits;

use rooms::Room;
use std::array;
use totals::Totals;

pub type Book = [u32; 160];

// The sources that are pending, enabled and not fast, those of them that wait, and the handlers started.
const ASKED: usize = 0;

const WAITING: usize = 1;

const STARTS: usize = 2;

// For each source: handlers started, those of all sources when its wait began, the most of waits that have ended, the most entries.
const STARTED: usize = 32;

const BEGAN: usize = 64;

const WAITED: usize = 96;

const ENTRIES: usize = 128;

// ---- waits

// The wait of source i ends.
fn settle(book: &mut Book, i: u32)
    requires { i < 32 }
    ensures { book.new ≡ set book.old (96 + i) (settled_at book.old i) }
{
    let k = i as usize;
    let n = book[STARTS].saturating_sub(book[BEGAN + k]);
    let m = book[WAITED + k].max(n);
    book[WAITED + k] = m;
}

// The waits of some sources end.
fn settle_all(book: &mut Book, some: u32)
    ensures { length book.old ≡ 160 → Put 96 (λ i. pick (bit some i) (settled_at book.old i) (get_or book.old (96 + i) 0)) book.old book.new }
{
    let mut left = some;
    while left != 0 {
        let i = words::lowest(left);
        settle(book, i);
        left = words::with_bit(left, i, false);
    }
}

// The waits of some sources begin.
fn begin_all(book: &mut Book, some: u32)
    ensures { length book.old ≡ 160 → Put 64 (λ i. pick (bit some i) (get_or book.old 2 0) (get_or book.old (64 + i) 0)) book.old book.new }
{
    let mut left = some;
    while left != 0 {
        let i = words::lowest(left);
        let starts = book[STARTS];
        book[BEGAN + i as usize] = starts;
        left = words::with_bit(left, i, false);
    }
}

// ---- entries and starts

// The source of the entry above so many, 32 where there is none or it is a mark.
pub(crate) fn started_from(room: &Room, before: u32) -> u32
    ensures { (t : Aic) → sound t ≡ true → Laid t room.now → result ≡ started_from before t }
{
    if room[aic_room::layout::DEPTH] <= before {
        return 32;
    }
    let k = room[aic_room::layout::SOURCE + (before % 8) as usize];
    if k == 0 {
        return 32;
    }
    k
}

// Source k has seen so many entries; a mark is no source.
fn see(book: &mut Book, k: u32, depth: u32)
    requires { k < 32 }
    ensures { book.new ≡ pick (ltb 0 k) (set book.old (128 + k) (max (get_or book.old (128 + k) 0) depth)) book.old }
{
    if k == 0 {
        return;
    }
    let at = ENTRIES + k as usize;
    let m = book[at].max(depth);
    book[at] = m;
}

// Whoever is open has seen all entries that are.
fn deepen<'a>(book: &'a mut Book, room: &'a Room)
    ensures { (t : Aic) → sound t ≡ true → Laid t room.now → length book.old ≡ 160 → Put 128 (λ i. max (get_or book.old (128 + i) 0) (entries_now t i)) book.old book.new }
{
    let depth = room[aic_room::layout::DEPTH];
    if 8 < depth {
        return;
    }
    for d in 0..depth {
        let k = room[aic_room::layout::SOURCE + d as usize] % 32;
        see(book, k, depth);
    }
}

// A handler of source `by` is started; 32 is none.
fn count_start(book: &mut Book, by: u32)
    ensures { book.new ≡ pick (ltb by 32) (set (set book.old (32 + by) (capped (get_or book.old (32 + by) 0 + 1))) 2 (capped (get_or book.old 2 0 + 1))) book.old }
{
    if 32 <= by {
        return;
    }
    let at = STARTED + by as usize;
    let n = book[at].saturating_add(1);
    let m = book[STARTS].saturating_add(1);
    book[at] = n;
    book[STARTS] = m;
}

// ---- a step

// Those that wait after a step: they ask, are not started by it, and waited before it or did not ask.
pub(crate) fn waits_after(asks: u32, by: u32, asked: u32, waiting: u32) -> u32
    ensures { ((i : ℕ) → i < 32 → bit result i ≡ ((bit asks i && not (eqb i by)) && (bit waiting i || not (bit asked i)))) × (result < 4294967296) }
{
    let others = words::with_bit(asks, by, false);
    words::join(
        words::meet(others, waiting),
        words::drop_bits(others, asked),
    )
}

// The book after a step after which other sources ask, or an entry is open that was not.
fn move_on<'a>(book: &'a mut Book, room: &'a Room, before: u32, asks: u32)
    ensures { (t : Aic) → sound t ≡ true → Laid t room.now → length book.old ≡ 160 → Moved (started_from before t) asks t book.old book.new }
{
    let by = started_from(room, before);
    let waiting = book[WAITING];
    let waits = waits_after(asks, by, book[ASKED], waiting);
    deepen(book, room);
    settle_all(book, words::drop_bits(waiting, waits));
    count_start(book, by);
    begin_all(book, words::drop_bits(waits, waiting));
    book[ASKED] = asks;
    book[WAITING] = waits;
}

// The book after a step with so many entries open before it. What is rare is called from two places, so that the tests alone become part of a loop.
pub fn follow<'a>(book: &'a mut Book, room: &'a Room, before: u32)
    ensures { (f : Figures) (s : Aic) (n : ℕ) (x : Step) → sound s ≡ true → Shaped s → n < 4294967290 → before ≡ s.depth → Kept f s n book.old → Laid (step s x).aic room.now → Kept (followed f s x) (step s x).aic (n + 1) book.new }
{
    let asks = aic_room::layout::waiting(room);
    if asks != book[ASKED] {
        move_on(book, room, before, asks);
        return;
    }
    if before < room[aic_room::layout::DEPTH] {
        move_on(book, room, before, asks);
        return;
    }
}

// ---- at the end

// The book of a run that has no step yet.
pub fn start() -> Book
    ensures { (s : Aic) → s.depth ≡ 0 → Kept no_figures s 0 result }
{
    [0; 160]
}

// The 32 words of the book from a place on.
fn words_from(book: &Book, at: usize) -> [u32; 32]
    requires { at ≤ 128 }
    ensures { (length result ≡ 32) × ((k : ℕ) → k < 32 → get_or result k 0 ≡ get_or book.now (at + k) 0) }
{
    array::from_fn(|k| book[at + k])
}

// The figures in the book: whoever waits has waited as long as this.
pub fn totals_in(book: &mut Book) -> Totals
    ensures { (f : Figures) (s : Aic) (n : ℕ) → Kept f s n book.old → result ≡ record { started = f.started; waited = f.waited; entries = f.entries } }
{
    let waiting = book[WAITING];
    settle_all(book, waiting);
    Totals {
        started: words_from(book, STARTED),
        waited: words_from(book, WAITED),
        entries: words_from(book, ENTRIES),
    }
}

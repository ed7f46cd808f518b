// The figures of the waits of all sources of an AIC that stands in a room, each wait with its bound (02, 11/12 and 12/12), kept in a book beside it: only
// sources that wait have anything to move on, and a step that brings nothing to anybody costs a test.
ghost use Rattle.std.specs.Prelude.{◌≡◌, true, false, not, ◌&&◌, [], ℕ, ◌+◌, ◌-◌, ◌<◌, ◌≤◌, ◌^◌, eqb, length, get_or};
ghost use Rattle.words.specs.Choice.{pick};
ghost use Rattle.words.specs.Counting.{one};
ghost use Rattle.words.specs.Word.{bit, word_of, either};
ghost use Rattle.steps.specs.declared.Step.{Step};
ghost use Rattle.trace.specs.Turns.{step_of};
ghost use Rattle.aic_record.specs.declared.Aic.{Aic};
ghost use Rattle.aic_record.specs.Promises.{Shaped};
ghost use Rattle.aic_record.specs.Mode.{edge};
ghost use Rattle.aic_record.specs.Sound.{source_at, sound};
ghost use Rattle.aic_sources.specs.Pending.{active_at, active};
ghost use Rattle.aic_registers.specs.Map.{eoicr};
ghost use Rattle.aic_registers.specs.Effects.{turns};
ghost use Rattle.aic.specs.Model.{step};
ghost use Rattle.aic_room.specs.Room.{Laid};
ghost use Rattle.aic_waits.specs.Following.{capped, started_from};
ghost use Rattle.aic_bounds.specs.Following.{plus, no_marks, hot_last, write_marks, line_marks, marks_by};
ghost use Rattle.aic_bounds.specs.declared.figures.Figures.{Figures};
ghost use Rattle.aic_bounds.specs.Figures.{no_figures};
ghost use Rattle.aic_figures.specs.Waits.{waits_now, followed};
ghost use Rattle.aic_figures.specs.WaitsBook.{row_of, figures_in, row_after, numbers_of, cell_in, row_at, Columns, word_in, Kept, is_quiet, gained, Stands, Rows, Cells, Worded, Moved};

mod bounds;

use aic_bounds::figures::Figures;
use aic_bounds::{Bound, Marks};
use aic_registers::map;
use rooms::Room;
use std::array;
use totals::waits::Waits;

// A column for each number of a source, and the words of all of them in the last.
pub type Book = [[u32; 32]; 19];

const WORDS: usize = 18;

// The words of the last column: the sources that are pending, enabled and not fast, those of them that wait, and those enabled at the last look.
const ASKED: usize = 0;

const WAITING: usize = 1;

const ENABLED: usize = 2;

// Columns: the sources that count; their edges, set commands, turns and closes.
const ON: usize = 1;

const EDGES: usize = 3;

const COMMANDS: usize = 4;

const TURNS: usize = 5;

const CLOSED: usize = 6;

// ---- what a step brings

// What a step brings if it is carried out, from the room that it meets: its kind and its numbers are those of a turn.
pub fn marks(room: &Room, kind: u32, x: u32, y: u32) -> Marks
    ensures { (s : Aic) → sound s ≡ true → Laid s room.now → result ≡ marks_by true s (step_of kind x y) }
{
    if kind == trace::READ {
        return no_marks();
    }
    if kind == trace::WRITE {
        return write_marks(room, x, y);
    }
    line_marks(room, x, y)
}

// What a step brings that is refused.
pub fn no_marks() -> Marks
    ensures { result ≡ no_marks }
{
    aic_bounds::no_marks()
}

// A write of v at the offset o.
fn write_marks(room: &Room, o: u32, v: u32) -> Marks
    ensures { (s : Aic) → sound s ≡ true → Laid s room.now → result ≡ write_marks true s o v }
{
    let commands = aic_bounds::either(
        o == map::ISCR,
        words::meet(v, room[aic_room::layout::EDGES]),
        0,
    );
    let closed = closed_hot(room, o);
    Marks {
        edges: 0,
        commands,
        turns: 0,
        closed,
        rewrote: (o < map::SVR) | (o == map::FFER) | (o == map::FFDR),
    }
}

// The source whose handler a write at the offset o closes while its line is active.
fn closed_hot(room: &Room, o: u32) -> u32
    ensures { (s : Aic) → sound s ≡ true → Laid s room.now → result ≡ pick (eqb o eoicr && not (eqb s.depth 0)) (word_of 32 (hot_last s (source_at s (s.depth - 1)))) 0 }
{
    let depth = room[aic_room::layout::DEPTH];
    if (o == map::EOICR) & (depth != 0) {
        return hot_word(room, last_source(room, depth));
    }
    0
}

// The source of the last of so many entries.
fn last_source(room: &Room, depth: u32) -> u32
    ensures { (result < 32) × ((s : Aic) → sound s ≡ true → Laid s room.now → depth ≡ s.depth → (depth ≡ 0 → ⊥) → result ≡ source_at s (s.depth - 1)) }
{
    if depth == 0 {
        return 0;
    }
    room[aic_room::layout::SOURCE + ((depth - 1) % 8) as usize] % 32
}

// Source j alone, if it is level-sensitive and its line is active; source 0 is a mark's.
fn hot_word(room: &Room, j: u32) -> u32
    requires { j < 32 }
    ensures { (s : Aic) → Laid s room.now → result ≡ word_of 32 (hot_last s j) }
{
    words::with_bit(0, j, (j != 0) & !is_edge(room, j) & is_active(room, j))
}

// The line of source k goes to the level l.
fn line_marks(room: &Room, k: u32, l: u32) -> Marks
    ensures { (s : Aic) → Laid s room.now → result ≡ line_marks true s k l }
{
    if 31 < k {
        return no_marks();
    }
    let rises = turns_active(room, k, l == 1);
    let edge = is_edge(room, k);
    let edges = words::with_bit(0, k, rises & edge);
    let turns = words::with_bit(0, k, rises & !edge);
    Marks {
        edges,
        commands: 0,
        turns,
        closed: 0,
        rewrote: false,
    }
}

fn is_edge(room: &Room, k: u32) -> bool
    requires { k < 32 }
    ensures { (s : Aic) → Laid s room.now → result ≡ edge s k }
{
    words::has(room[aic_room::layout::EDGES], k)
}

// Whether a line that is high, or low, is at the active level of source k.
fn is_active_at(room: &Room, k: u32, high: bool) -> bool
    requires { k < 32 }
    ensures { (s : Aic) → Laid s room.now → result ≡ active_at s k high }
{
    if words::has(room[aic_room::layout::LOW], k) {
        return !high;
    }
    high
}

fn is_active(room: &Room, k: u32) -> bool
    requires { k < 32 }
    ensures { (s : Aic) → Laid s room.now → result ≡ active s k }
{
    is_active_at(room, k, words::has(room[aic_room::layout::LINES], k))
}

// Whether a line that goes to this level turns source k from inactive to active.
fn turns_active(room: &Room, k: u32, high: bool) -> bool
    requires { k < 32 }
    ensures { (s : Aic) → Laid s room.now → result ≡ turns s k high }
{
    !is_active(room, k) & is_active_at(room, k, high)
}

// ---- rows

// The figures of a row, of a source that waits or does not.
fn figures_of(row: [u32; 18], waits: bool) -> Figures
    ensures { result ≡ figures_in waits row }
{
    let wait = aic_bounds::either(waits, 2, 0);
    let bound = Bound {
        wait,
        rivals: row[0],
        on: row[1],
        pending: row[2],
        edges: row[3],
        commands: row[4],
        turns: row[5],
        closed: row[6],
        remembered: row[7],
        broke: row[8],
    };
    let largest = Bound {
        wait: 0,
        rivals: 0,
        on: 0,
        pending: row[9],
        edges: row[10],
        commands: row[11],
        turns: row[12],
        closed: row[13],
        remembered: row[14],
        broke: 0,
    };
    Figures {
        bound,
        largest,
        begun: row[15],
        unbounded: row[16],
        first: row[17],
    }
}

// The row of a source's figures.
fn row_of(f: Figures) -> [u32; 18]
    ensures { result ≡ row_of f }
{
    let b = f.bound;
    let c = f.largest;
    [
        b.rivals,
        b.on,
        b.pending,
        b.edges,
        b.commands,
        b.turns,
        b.closed,
        b.remembered,
        b.broke,
        c.pending,
        c.edges,
        c.commands,
        c.turns,
        c.closed,
        c.remembered,
        f.begun,
        f.unbounded,
        f.first,
    ]
}

// The row of source k after the n-th step, by whether it waited and whether it waits then.
fn row_after(
    room: &Room,
    k: u32,
    was: bool,
    is: bool,
    n: u32,
    m: Marks,
    row: [u32; 18],
) -> [u32; 18]
    requires { k < 32 }
    ensures { (t : Aic) → sound t ≡ true → Laid t room.now → result ≡ row_after k was is n m t row }
{
    let f = figures_of(row, was);
    let w = aic_bounds::either(is, 2, 0);
    let b = bounds::bound_after(room, k, w, n, f.bound, m);
    row_of(aic_bounds::figures::figures_with(n, f, b))
}

// The row of source k.
fn row_at(book: &Book, k: u32) -> [u32; 18]
    requires { k < 32 }
    ensures { result ≡ row_at book.now k }
{
    array::from_fn(|j| book[j][k as usize])
}

// The same put anew.
fn put_row(book: &mut Book, k: u32, row: [u32; 18])
    requires { k < 32 }
    ensures { Columns book.old → Rows (λ i. row) (2 ^ k) book.old book.new }
{
    // Column j of the book and number j of the row go together, and the book's last column holds words: the place says both.
    for j in 0..18 {
        book[j][k as usize] = row[j];
    }
}

// The row of source k after the n-th step, by whether it waited and whether it waits then.
fn move_row<'a>(book: &'a mut Book, room: &'a Room, k: u32, was: bool, is: bool, n: u32, m: Marks)
    requires { k < 32 }
    ensures { (t : Aic) → sound t ≡ true → Laid t room.now → Columns book.old → Rows (λ i. row_after k was is n m t (row_at book.old k)) (2 ^ k) book.old book.new }
{
    let row = row_at(book, k);
    let next = row_after(room, k, was, is, n, m, row);
    put_row(book, k, next);
}

// The rows of some sources, by whether they waited before the n-th step and wait after it.
fn move_rows<'a>(book: &'a mut Book, room: &'a Room, some: u32, was: u32, is: u32, n: u32, m: Marks)
    ensures { (t : Aic) → sound t ≡ true → Laid t room.now → Columns book.old → Rows (λ i. row_after i (bit was i) (bit is i) n m t (row_at book.old i)) some book.old book.new }
{
    let mut left = some;
    while left != 0 {
        let i = words::lowest(left);
        move_row(book, room, i, words::has(was, i), words::has(is, i), n, m);
        left = words::with_bit(left, i, false);
    }
}

// ---- what a step brings, by columns

// n, and one more where source i is one of these.
fn one_more(n: u32, on: u32, i: u32) -> u32
    requires { i < 32 }
    ensures { result ≡ capped (n + one (bit on i)) }
{
    n.saturating_add((on >> i) % 2)
}

// One more in column j for each source for which source i counts.
fn bump(book: &mut Book, j: usize, i: u32)
    requires { (j < 18) × (i < 32) }
    ensures { Columns book.old → Cells (λ a b. eqb a j) (λ a b. capped (cell_in book.old j b + one (bit (cell_in book.old 1 b) i))) book.old book.new }
{
    // Two columns of one book, of which one is written: places tell them apart for the borrow checker, two iterators do not.
    for k in 0..32 {
        let n = one_more(book[j][k], book[ON][k], i);
        book[j][k] = n;
    }
}

// In column j as many more for each source as of these count for it.
fn grow(book: &mut Book, j: usize, w: u32)
    requires { (1 < j) × (j < 18) }
    ensures { Columns book.old → ((i : ℕ) → i < 32 → cell_in book.old j i ≤ 4294967295) → Cells (λ a b. eqb a j) (λ a b. plus (cell_in book.old j b) (cell_in book.old 1 b) w) book.old book.new }
{
    let mut left = w;
    while left != 0 {
        let i = words::lowest(left);
        bump(book, j, i);
        left = words::with_bit(left, i, false);
    }
}

// What a step brought to those that count, for each source that waits on: these do.
fn grow_all(book: &mut Book, some: u32, m: Marks)
    ensures { (f : ℕ → Figures) → Stands f book.old → ((i : ℕ) → i < 32 → bit some i ≡ false → (f i).bound.on ≡ 0) → Stands (λ i. gained (f i) m) book.new × (get_or book.new 18 [] ≡ get_or book.old 18 []) }
{
    if some == 0 {
        return;
    }
    grow(book, EDGES, m.edges);
    grow(book, COMMANDS, m.commands);
    grow(book, TURNS, m.turns);
    grow(book, CLOSED, m.closed);
}

// ---- a step

// The rows after a step that enables no source and rewrites no mode: waits end, those that go on are brought something, others begin.
fn move_steady<'a>(book: &'a mut Book, room: &'a Room, was: u32, is: u32, n: u32, m: Marks)
    ensures { (f : ℕ → Figures) (t : Aic) → sound t ≡ true → Laid t room.now → Kept f book.old → was ≡ word_in book.old 1 → t.enabled ≡ word_in book.old 2 → m.rewrote ≡ false → Rows (λ i. row_after i (bit was i) (bit is i) n m t (row_at book.old i)) (either was is) book.old book.new }
{
    move_rows(book, room, words::drop_bits(was, is), was, is, n, m);
    grow_all(book, words::meet(was, is), m);
    move_rows(book, room, words::drop_bits(is, was), was, is, n, m);
}

// The rows of those that waited before the n-th step or wait after it.
fn move_all<'a>(book: &'a mut Book, room: &'a Room, was: u32, is: u32, n: u32, m: Marks)
    ensures { (f : ℕ → Figures) (t : Aic) → sound t ≡ true → Laid t room.now → Kept f book.old → was ≡ word_in book.old 1 → Rows (λ i. row_after i (bit was i) (bit is i) n m t (row_at book.old i)) (either was is) book.old book.new }
{
    if (room[aic_room::layout::ENABLED] == book[WORDS][ENABLED]) & !m.rewrote {
        move_steady(book, room, was, is, n, m);
        return;
    }
    move_rows(book, room, words::join(was, is), was, is, n, m);
}

// The words of the last column.
fn put_words(book: &mut Book, asks: u32, is: u32, enabled: u32)
    ensures { Columns book.old → Worded asks is enabled book.old book.new }
{
    book[WORDS][ASKED] = asks;
    book[WORDS][WAITING] = is;
    book[WORDS][ENABLED] = enabled;
}

// The book after a step that may have moved something.
fn move_on<'a>(book: &'a mut Book, room: &'a Room, before: u32, asks: u32, n: u32, m: Marks)
    ensures { (f : ℕ → Figures) (t : Aic) → sound t ≡ true → Laid t room.now → Kept f book.old → Moved (started_from before t) asks n m t book.old book.new }
{
    let by = super::started_from(room, before);
    let was = book[WORDS][WAITING];
    let is = super::waits_after(asks, by, book[WORDS][ASKED], was);
    move_all(book, room, was, is, n, m);
    put_words(book, asks, is, room[aic_room::layout::ENABLED]);
}

// Whether a step brought nothing.
fn is_quiet(m: Marks) -> bool
    ensures { result ≡ is_quiet m }
{
    (m.edges == 0) & (m.commands == 0) & (m.turns == 0) & (m.closed == 0) & !m.rewrote
}

// The book after the n-th step, which brought m, with so many entries open before it; the room is as it stands after it.
pub fn follow<'a>(book: &'a mut Book, room: &'a Room, before: u32, n: u32, m: Marks)
    ensures { (f : ℕ → Figures) (s : Aic) (x : Step) → sound s ≡ true → Shaped s → before ≡ s.depth → Kept f book.old → Laid (step s x).aic room.now → Kept (followed n m f s x) book.new }
{
    let asks = aic_room::layout::waiting(room);
    let same = (asks == book[WORDS][ASKED])
        & (room[aic_room::layout::ENABLED] == book[WORDS][ENABLED])
        & (room[aic_room::layout::DEPTH] <= before);
    if same & is_quiet(m) {
        return;
    }
    move_on(book, room, before, asks, n, m);
}

// ---- at the beginning and at the end

// The book of a run that has no step yet.
pub fn start() -> Book
    ensures { Kept (λ k. no_figures) result }
{
    [[0; 32]; 19]
}

// What is told of a source in the end.
fn numbers_of(f: Figures) -> [u32; 10]
    ensures { result ≡ numbers_of f }
{
    let b = aic_bounds::figures::largest_now(f);
    [
        f.begun,
        aic_bounds::figures::unended_now(f),
        f.unbounded,
        f.first,
        b.pending,
        b.edges,
        b.commands,
        b.turns,
        b.closed,
        b.remembered,
    ]
}

// The same of source k.
fn numbers_at(book: &Book, k: usize) -> [u32; 10]
    requires { k < 32 }
    ensures { (f : ℕ → Figures) → Kept f book.now → result ≡ numbers_of (f k) }
{
    let i = k as u32;
    numbers_of(figures_of(row_at(book, i), words::has(book[WORDS][WAITING], i)))
}

// The same of all sources.
fn table_of(book: &Book) -> [[u32; 10]; 32]
    ensures { (length result ≡ 32) × ((f : ℕ → Figures) → Kept f book.now → (k : ℕ) → k < 32 → get_or result k [] ≡ numbers_of (f k)) }
{
    let mut out = [[0; 10]; 32];
    // A range, and not `from_fn`: it was not proved of a closure that borrows the book and calls `numbers_at` that it may be called, nor what it gives.
    for k in 0..32 {
        out[k] = numbers_at(book, k);
    }
    out
}

// Number j of each source.
fn column(table: &[[u32; 10]; 32], j: usize) -> [u32; 32]
    requires { j < 10 }
    ensures { (length result ≡ 32) × ((k : ℕ) → k < 32 → get_or result k 0 ≡ get_or (get_or table.now k []) j 0) }
{
    array::from_fn(|k| table[k][j])
}

// The figures in the book, that of a wait that stands among the bounds.
pub fn waits_in(book: &Book) -> Waits
    ensures { (f : ℕ → Figures) → Kept f book.now → result ≡ waits_now f }
{
    let table = table_of(book);
    Waits {
        begun: column(&table, 0),
        unended: column(&table, 1),
        unbounded: column(&table, 2),
        first: column(&table, 3),
        pending: column(&table, 4),
        edges: column(&table, 5),
        commands: column(&table, 6),
        turns: column(&table, 7),
        closed: column(&table, 8),
        remembered: column(&table, 9),
    }
}

// The stack on the page: what all levels need, a bar and a row for each level, and whose frame it is (02, 4/12).
ghost use Rattle.std.specs.Prelude.{◌≡◌, ◌<◌, get_or};
ghost use Rattle.text.specs.Text.{write};
ghost use Rattle.stack.specs.Bytes.{level_bytes, stack_bytes};
ghost use Rattle.sheet.specs.Texts.{down};
ghost use Rattle.sheet.specs.Levels.{tallest, width, bar, owns, owner, called, whose, level_row, figure, bars, levels, stack_part};

use super::board::Board;
use super::{cells, escapes, order};
use stack::Table;

pub(crate) fn put_stack(out: &mut [u8], at: usize, board: &Board) -> usize
    ensures { (out.new, result) ≡ write (out.old, at) (stack_part board.now.table board.now.names board.now.lengths) }
{
    let a = put_figure(out, at, board.table);
    let b = put_bars(out, a, board.table);
    put_levels(out, b, board)
}

// What all eight levels need.
fn put_figure(out: &mut [u8], at: usize, t: Table) -> usize
    ensures { (out.new, result) ≡ write (out.old, at) (figure t) }
{
    let n = all_levels(t);
    let a = text::put_all(
        out,
        at,
        b"<section id=\"stack\">\n<h2>Stack</h2>\n<p>Open handlers and marks take at most <b data-figure=\"stack-bytes\">",
    );
    let b = cells::put_amount(out, a, n, b"bytes");
    text::put_all(
        out,
        b,
        b"</b>, at every moment of every trace counted: a frame for each of eight levels.</p>\n",
    )
}

// ---- bars

fn put_bars(out: &mut [u8], at: usize, t: Table) -> usize
    ensures { (out.new, result) ≡ write (out.old, at) (bars t) }
{
    let a = text::put_all(
        out,
        at,
        b"<svg xmlns=\"http://www.w3.org/2000/svg\" viewBox=\"0 0 640 200\" width=\"640\" height=\"200\" font-family=\"sans-serif\" font-size=\"12\">\n",
    );
    let b = put_eight(out, a, t);
    text::put_all(out, b, b"</svg>\n")
}

fn put_eight(out: &mut [u8], at: usize, t: Table) -> usize
    ensures { (out.new, result) ≡ write (out.old, at) (down (λ l. bar (tallest t 8) (level_bytes t l) l) 8) }
{
    let most = tallest(t);
    let mut next = at;
    for l in (0..8).rev() {
        let b = stack::level_bytes(t, l);
        next = put_bar(out, next, most, b, l);
    }
    next
}

// The bar of level l, which needs b bytes, where one needs the most.
fn put_bar(out: &mut [u8], at: usize, most: u32, b: u32, l: u32) -> usize
    requires { l < 8 }
    ensures { (out.new, result) ≡ write (out.old, at) (bar most b l) }
{
    let w = width(most, b);
    let y = 8 + (7 - l) * 24;
    let a = text::phrases::put_counted(out, at, b"<text x=\"8\" y=\"", y + 12);
    let c = text::phrases::put_counted(out, a, b"\">level ", l);
    let d = text::phrases::put_counted(out, c, b"</text><rect x=\"64\" y=\"", y);
    let e = cells::put_number(out, d, b"\" width=\"", w);
    let f = cells::put_number(
        out,
        e,
        b"\" height=\"16\" fill=\"none\" stroke=\"black\"/><text x=\"",
        w + 72,
    );
    let g = text::phrases::put_counted(out, f, b"\" y=\"", y + 12);
    let h = text::put_all(out, g, b"\">");
    let i = cells::put_amount(out, h, b as u64, b"bytes");
    text::put_all(out, i, b"</text>\n")
}

// How wide it is.
fn width(most: u32, b: u32) -> u64
    ensures { (result ≡ width most b) × (result < 1889785610240) }
{
    b as u64 * 440 / words::larger(1, most) as u64
}

// ---- rows

fn put_levels(out: &mut [u8], at: usize, board: &Board) -> usize
    ensures { (out.new, result) ≡ write (out.old, at) (levels board.now.table board.now.names board.now.lengths) }
{
    let a = text::put_all(
        out,
        at,
        b"<table>\n<thead>\n<tr><th>level</th><th>at most</th><th>whose frame</th></tr>\n</thead>\n<tbody>\n",
    );
    let b = put_rows(out, a, board);
    text::put_all(out, b, b"</tbody>\n</table>\n</section>\n")
}

fn put_rows(out: &mut [u8], at: usize, board: &Board) -> usize
    ensures { (out.new, result) ≡ write (out.old, at) (down (level_row board.now.table board.now.names board.now.lengths) 8) }
{
    let mut next = at;
    for l in (0..8).rev() {
        next = put_row(out, next, board, l);
    }
    next
}

fn put_row(out: &mut [u8], at: usize, board: &Board, l: u32) -> usize
    ensures { (out.new, result) ≡ write (out.old, at) (level_row board.now.table board.now.names board.now.lengths l) }
{
    let n = stack::level_bytes(board.table, l);
    let a = text::phrases::put_counted(out, at, b"<tr><th>level ", l);
    let b = text::phrases::put_counted(
        out,
        a,
        b"</th><td data-figure=\"level-bytes\" data-level=\"",
        l,
    );
    let c = text::put_all(out, b, b"\">");
    let d = cells::put_amount(out, c, n as u64, b"bytes");
    let e = text::phrases::put_counted(
        out,
        d,
        b"</td><td data-figure=\"level-source\" data-level=\"",
        l,
    );
    let f = text::put_all(out, e, b"\">");
    let g = put_whose(out, f, board, l);
    text::put_all(out, g, b"</td></tr>\n")
}

// Whose frame it is.
fn put_whose(out: &mut [u8], at: usize, board: &Board, l: u32) -> usize
    ensures { (out.new, result) ≡ write (out.old, at) (whose board.now.table board.now.names board.now.lengths l) }
{
    let t = board.table;
    let n = stack::level_bytes(t, l);
    if t.mark < n {
        let i = owner(t, l, n);
        return put_called(out, at, board, i);
    }
    text::put_all(out, at, b"the mark")
}

// Source i by its number, and by its name if it has one.
fn put_called(out: &mut [u8], at: usize, board: &Board, i: u32) -> usize
    ensures { (out.new, result) ≡ write (out.old, at) (called board.now.names (get_or board.now.lengths i 0) i) }
{
    let a = text::phrases::put_counted(out, at, b"source ", i);
    let Some(name) = board.name(i) else {
        return a;
    };
    let b = text::put_all(out, a, b", ");
    escapes::put_escaped(out, b, name)
}

// ---- numbers

// The lowest normal source of level l whose frame is n bytes, 32 where none is.
// A level that needs more than the mark's frame has one: an Option would give put_whose an arm that nothing reaches.
fn owner(t: Table, l: u32, n: u32) -> u32
    ensures { result ≡ owner t l n }
{
    for i in 0..32 {
        if owns(t, l, n, i) {
            return i;
        }
    }
    32
}

fn owns(t: Table, l: u32, n: u32, i: u32) -> bool
    requires { i < 32 }
    ensures { result ≡ owns t l n i }
{
    let at = i as usize;
    order::is_normal(t, i) & (t.priority[at] == l) & (t.frame[at] == n)
}

// What the level needs that needs the most.
fn tallest(t: Table) -> u32
    ensures { result ≡ tallest t 8 }
{
    let mut most: u32 = 0;
    for l in 0..8 {
        most = words::larger(most, stack::level_bytes(t, l));
    }
    most
}

// What all levels need together, for any table.
fn all_levels(t: Table) -> u64
    ensures { result ≡ stack_bytes t }
{
    let mut sum: u64 = 0;
    for l in 0..8 {
        sum += stack::level_bytes(t, l) as u64;
    }
    sum
}

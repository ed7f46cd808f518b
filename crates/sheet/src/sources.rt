// The sources on the page: two tables with a row for each source that is shown (02, 11/12 and 12/12).
ghost use Rattle.std.specs.Prelude.{◌≡◌, eqb, get_or};
ghost use Rattle.words.specs.Choice.{pick};
ghost use Rattle.text.specs.Text.{write};
ghost use Rattle.text.specs.Phrases.{bytes};
ghost use Rattle.sheet.specs.Texts.{each};
ghost use Rattle.sheet.specs.Names.{escaped, name_of};
ghost use Rattle.sheet.specs.Sources.{
  source_head,
  typed,
  tabled,
  ahead_cell,
  bounded,
  bound_of,
  most,
  others,
  waited,
  first,
  term,
  started_cells,
  source_row,
  terms,
  waits_row,
};

use super::board::Board;
use super::{cells, escapes, order};
use stack::Table;
use totals::sheets::Sheet;
use totals::waits::Waits;

// ---- rows

// The rows of the sources given, a byte each.
pub(crate) fn put_sources(out: &mut [u8], at: usize, is: &[u8], board: &Board, s: Sheet) -> usize
    ensures { (out.new, result) ≡ write (out.old, at) (each (source_row board.now.table board.now.names board.now.lengths s) is.now) }
{
    let mut next = at;
    for i in is {
        next = put_source(out, next, board, s, *i as u32);
    }
    next
}

// Their rows in the table of waits.
pub(crate) fn put_waits(out: &mut [u8], at: usize, is: &[u8], w: Waits, trace: [u32; 32]) -> usize
    ensures { (out.new, result) ≡ write (out.old, at) (each (waits_row w trace) is.now) }
{
    let mut next = at;
    for i in is {
        next = put_wait(out, next, w, trace, *i as u32);
    }
    next
}

fn put_source(out: &mut [u8], at: usize, board: &Board, s: Sheet, i: u32) -> usize
    ensures { (out.new, result) ≡ write (out.old, at) (source_row board.now.table board.now.names board.now.lengths s i) }
{
    let t = board.table;
    let p = order::word_at(t.priority, i);
    let q = order::word_at(t.kind, i);
    let f = order::word_at(t.frame, i);
    let a = put_source_head(out, at, board, i);
    let b = put_tabled(out, a, i, p, q, f);
    let c = put_ahead(out, b, t, s.used, i);
    let d = put_started(out, c, s, i);
    text::put_all(out, d, b"</tr>\n")
}

fn put_wait(out: &mut [u8], at: usize, w: Waits, trace: [u32; 32], i: u32) -> usize
    ensures { (out.new, result) ≡ write (out.old, at) (waits_row w trace i) }
{
    let e = order::word_at(w.unended, i);
    let u = order::word_at(w.unbounded, i);
    let n = order::word_at(w.begun, i);
    let f = order::word_at(w.first, i);
    let m = order::word_at(trace, i);
    let a = text::phrases::put_counted(out, at, b"<tr><th>source ", i);
    let b = text::put_all(out, a, b"</th>");
    let c = cells::put_source_cell(out, b, b"waits-unended", i, e, b"waits");
    let d = cells::put_source_cell(out, c, b"waits-unbounded", i, u, b"waits");
    let g = cells::put_cell_of(out, d, b"first-unbounded", i);
    let h = put_first(out, g, u, f, m);
    let j = text::put_all(out, h, b"</td>");
    let k = put_terms(out, j, w, i, bounded(n, u));
    text::put_all(out, k, b"</tr>\n")
}

// ---- what the table says of a source

fn put_source_head(out: &mut [u8], at: usize, board: &Board, i: u32) -> usize
    ensures { (out.new, result) ≡ write (out.old, at) (source_head board.now.names (get_or board.now.lengths i 0) i) }
{
    let a = text::phrases::put_counted(out, at, b"<tr><th>source ", i);
    let b = text::put_all(out, a, b"</th><td>");
    let c = put_name_or(out, b, board, i);
    text::put_all(out, c, b"</td>")
}

// Its name, or - where it has none.
fn put_name_or(out: &mut [u8], at: usize, board: &Board, i: u32) -> usize
    ensures { (out.new, result) ≡ write (out.old, at) (pick (eqb (get_or board.now.lengths i 0) 0) (bytes "-") (escaped (name_of board.now.names (get_or board.now.lengths i 0) i))) }
{
    match board.name(i) {
        Some(name) => escapes::put_escaped(out, at, name),
        None => text::put_all(out, at, b"-"),
    }
}

fn put_tabled(out: &mut [u8], at: usize, i: u32, priority: u32, kind: u32, frame: u32) -> usize
    ensures { (out.new, result) ≡ write (out.old, at) (tabled i priority kind frame) }
{
    let a = cells::put_cell_of(out, at, b"priority", i);
    let b = text::phrases::put_counted(out, a, b"level ", priority);
    let c = text::put_all(out, b, b"</td><td>");
    let d = put_typed(out, c, kind);
    let e = text::put_all(out, d, b"</td>");
    cells::put_source_cell(out, e, b"frame-bytes", i, frame, b"bytes")
}

// Its type is a number, as the promise `types` has it.
fn put_typed(out: &mut [u8], at: usize, kind: u32) -> usize
    ensures { (out.new, result) ≡ write (out.old, at) (typed kind) }
{
    match kind {
        0 => text::put_all(out, at, b"level, low if external"),
        1 => text::put_all(out, at, b"edge, falling if external"),
        2 => text::put_all(out, at, b"level, high"),
        _ => text::put_all(out, at, b"edge, rising"),
    }
}

fn put_ahead(out: &mut [u8], at: usize, t: Table, used: u32, i: u32) -> usize
    ensures { (out.new, result) ≡ write (out.old, at) (ahead_cell t used i) }
{
    if order::is_normal(t, i) {
        let n = order::ahead_of(t, used, i);
        return cells::put_source_cell(out, at, b"ahead-sources", i, n, b"sources");
    }
    cells::put_empty_cell(out, at, b"ahead-sources", i)
}

// ---- what the traces say of it

fn put_started(out: &mut [u8], at: usize, s: Sheet, i: u32) -> usize
    ensures { (out.new, result) ≡ write (out.old, at) (started_cells s i) }
{
    let w = s.waits;
    let f = s.figures;
    let x = order::word_at(f.started, i);
    let y = order::word_at(f.waited, i);
    let z = order::word_at(f.entries, i);
    let n = order::word_at(w.begun, i);
    let u = order::word_at(w.unbounded, i);
    let most = bound_of(w, i);
    let a = cells::put_source_cell(out, at, b"handlers-started", i, x, b"handlers");
    let b = cells::put_source_cell(out, a, b"most-started-while-waiting", i, y, b"handlers");
    let c = cells::put_cell_of(out, b, b"most-startable-while-waiting", i);
    let d = put_most(out, c, n, u, most);
    let e = text::put_all(out, d, b"</td>");
    let g = put_waited(out, e, i, n, u);
    cells::put_source_cell(out, g, b"most-entries-open", i, z, b"entries")
}

fn put_most(out: &mut [u8], at: usize, begun: u32, unbounded: u32, bound: u64) -> usize
    ensures { (out.new, result) ≡ write (out.old, at) (most begun unbounded bound) }
{
    if begun == 0 {
        return text::put_all(out, at, b"-");
    }
    if unbounded == begun {
        return text::put_all(out, at, b"none");
    }
    cells::put_amount(out, at, bound, b"handlers")
}

fn put_waited(out: &mut [u8], at: usize, i: u32, begun: u32, unbounded: u32) -> usize
    ensures { (out.new, result) ≡ write (out.old, at) (waited i begun unbounded) }
{
    let a = text::phrases::put_counted(
        out,
        at,
        b"<td><span data-figure=\"waits\" data-source=\"",
        i,
    );
    let b = text::put_all(out, a, b"\">");
    let c = cells::put_amount(out, b, begun as u64, b"waits");
    let d = text::put_all(out, c, b"</span>");
    let e = put_unbounded(out, d, unbounded);
    text::put_all(out, e, b"</td>")
}

fn put_unbounded(out: &mut [u8], at: usize, unbounded: u32) -> usize
    ensures { (out.new, result) ≡ write (out.old, at) (others unbounded) }
{
    if unbounded == 0 {
        return at;
    }
    let a = text::phrases::put_counted(out, at, b", ", unbounded);
    text::put_all(out, a, b" without a bound")
}

fn put_first(out: &mut [u8], at: usize, unbounded: u32, step: u32, trace: u32) -> usize
    ensures { (out.new, result) ≡ write (out.old, at) (first unbounded step trace) }
{
    if unbounded == 0 {
        return text::put_all(out, at, b"-");
    }
    let a = text::phrases::put_counted(out, at, b"step ", step);
    text::phrases::put_counted(out, a, b" of trace ", trace)
}

// ---- the largest bound

fn put_terms(out: &mut [u8], at: usize, w: Waits, i: u32, told: bool) -> usize
    ensures { (out.new, result) ≡ write (out.old, at) (terms w i told) }
{
    let p = order::word_at(w.pending, i);
    let e = order::word_at(w.edges, i);
    let c = order::word_at(w.commands, i);
    let t = order::word_at(w.turns, i);
    let d = order::word_at(w.closed, i);
    let r = order::word_at(w.remembered, i);
    let f = put_term(out, at, b"bound-pending", i, told, p);
    let g = put_term(out, f, b"bound-edges", i, told, e);
    let h = put_term(out, g, b"bound-commands", i, told, c);
    let j = put_term(out, h, b"bound-turns", i, told, t);
    let k = put_term(out, j, b"bound-closed-active", i, told, d);
    put_term(out, k, b"bound-remembered", i, told, r)
}

// Whether it is told stands beside its value, as the promises `term_told` and `term_empty` have it.
fn put_term(out: &mut [u8], at: usize, figure: &[u8], i: u32, told: bool, n: u32) -> usize
    ensures { (out.new, result) ≡ write (out.old, at) (term figure.now i told n) }
{
    if told {
        return cells::put_source_cell(out, at, figure, i, n, b"handlers");
    }
    cells::put_empty_cell(out, at, figure, i)
}

// Whether some wait has a bound.
fn bounded(begun: u32, unbounded: u32) -> bool
    ensures { result ≡ bounded begun unbounded }
{
    (begun != 0) & (unbounded != begun)
}

// The sum of the six terms.
fn bound_of(w: Waits, i: u32) -> u64
    ensures { result ≡ bound_of w i }
{
    let p = order::word_at(w.pending, i);
    let e = order::word_at(w.edges, i);
    let c = order::word_at(w.commands, i);
    let t = order::word_at(w.turns, i);
    let d = order::word_at(w.closed, i);
    let r = order::word_at(w.remembered, i);
    p as u64 + e as u64 + c as u64 + t as u64 + d as u64 + r as u64
}

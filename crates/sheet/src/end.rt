// How the page ends.
ghost use Rattle.std.specs.Prelude.{◌≡◌};
ghost use Rattle.text.specs.Text.{write};
ghost use Rattle.sheet.specs.End.{
  head_row,
  out_row,
  traces_named,
  sums,
  head_part,
  sources_head,
  waits_head,
  hidden_line,
  sources_of,
  sources_part,
  page_end,
};

use super::board::Board;
use super::{cells, levels, meaning, order, sources};
use stack::Table;
use totals::sheets::Sheet;

pub(crate) fn put_page(out: &mut [u8], at: usize, board: &Board, s: Sheet) -> usize
    ensures { (out.new, result) ≡ write (out.old, at) (page_end board.now.table board.now.names board.now.lengths s) }
{
    let a = put_head(out, at, s);
    let b = levels::put_stack(out, a, board);
    let c = put_sources(out, b, board, s);
    meaning::put_meaning(out, c)
}

// ---- the head of the page

fn put_head(out: &mut [u8], at: usize, s: Sheet) -> usize
    ensures { (out.new, result) ≡ write (out.old, at) (head_part s) }
{
    let a = text::put_all(
        out,
        at,
        b"</tbody>\n</table>\n</section>\n<header>\n<h1>Tuning sheet</h1>\n<table>\n",
    );
    let b = put_traces(out, a, s);
    let c = put_sums(out, b, s);
    text::put_all(out, c, b"</table>\n</header>\n")
}

// The traces named and left out.
fn put_traces(out: &mut [u8], at: usize, s: Sheet) -> usize
    ensures { (out.new, result) ≡ write (out.old, at) (traces_named s) }
{
    let left = s.full as u64 + s.unopened as u64 + s.unkept as u64;
    let a = put_row(
        out,
        at,
        b"traces named",
        b"traces",
        s.named as u64,
        b"traces",
    );
    let b = put_row(
        out,
        a,
        b"traces left out",
        b"traces-left-out",
        left,
        b"traces",
    );
    let c = put_out(
        out,
        b,
        b"16: a sum would be too large</th><td data-refusal=\"16\">",
        s.full,
    );
    let d = put_out(
        out,
        c,
        b"17: not to be opened or read</th><td data-refusal=\"17\">",
        s.unopened,
    );
    put_out(
        out,
        d,
        b"18: the table is not kept</th><td data-refusal=\"18\">",
        s.unkept,
    )
}

// What was added up of the others.
fn put_sums(out: &mut [u8], at: usize, s: Sheet) -> usize
    ensures { (out.new, result) ≡ write (out.old, at) (sums s) }
{
    let a = put_row(out, at, b"steps played", b"steps", s.steps as u64, b"steps");
    let b = put_row(
        out,
        a,
        b"steps refused",
        b"steps-refused",
        s.refused as u64,
        b"steps",
    );
    let c = put_row(
        out,
        b,
        b"spurious marks opened",
        b"marks",
        s.marks as u64,
        b"marks",
    );
    let d = put_row(
        out,
        c,
        b"ends of interrupt that found no entry open",
        b"idle-ends",
        s.idle as u64,
        b"ends",
    );
    put_row(
        out,
        d,
        b"entries left open at the end of a trace",
        b"entries-left-open",
        s.left as u64,
        b"entries",
    )
}

fn put_row(out: &mut [u8], at: usize, words: &[u8], figure: &[u8], n: u64, unit: &[u8]) -> usize
    ensures { (out.new, result) ≡ write (out.old, at) (head_row words.now figure.now n unit.now) }
{
    let a = text::put_all(out, at, b"<tr><th>");
    let b = text::put_all(out, a, words);
    let c = text::put_all(out, b, b"</th>");
    let d = cells::put_cell(out, c, figure, n, unit);
    text::put_all(out, d, b"</tr>\n")
}

fn put_out(out: &mut [u8], at: usize, words: &[u8], n: u32) -> usize
    ensures { (out.new, result) ≡ write (out.old, at) (out_row words.now n) }
{
    let a = text::put_all(out, at, b"<tr><th>left out by ");
    let b = text::put_all(out, a, words);
    let c = cells::put_amount(out, b, n as u64, b"traces");
    text::put_all(out, c, b"</td></tr>\n")
}

// ---- the sources

fn put_sources(out: &mut [u8], at: usize, board: &Board, s: Sheet) -> usize
    ensures { (out.new, result) ≡ write (out.old, at) (sources_part board.now.table board.now.names board.now.lengths s) }
{
    let mut room = [0u8; 32];
    let n = order::put_order(&mut room, board.table, s.used);
    put_ordered(out, at, &room[..n], board, s)
}

// The two tables of the sources given, and how many are not shown.
fn put_ordered(out: &mut [u8], at: usize, is: &[u8], board: &Board, s: Sheet) -> usize
    ensures { (out.new, result) ≡ write (out.old, at) (sources_of is.now board.now.table board.now.names board.now.lengths s) }
{
    let a = put_sources_head(out, at);
    let b = sources::put_sources(out, a, is, board, s);
    let c = put_waits_head(out, b);
    let d = sources::put_waits(out, c, is, s.waits, s.trace);
    put_hidden(out, d, board.table, s.used)
}

fn put_sources_head(out: &mut [u8], at: usize) -> usize
    ensures { (out.new, result) ≡ write (out.old, at) sources_head }
{
    text::put_all(
        out,
        at,
        b"<section id=\"sources\">\n<h2>Sources</h2>\n<table>\n<thead>\n\
        <tr><th>source</th><th>name</th><th>priority</th><th>type</th><th>frame</th><th>ahead of it</th><th>started</th>\
        <th>started while it waited: most seen</th><th>at most</th><th>waits</th><th>entries open while it was: most</th></tr>\n\
        </thead>\n<tbody>\n",
    )
}

fn put_waits_head(out: &mut [u8], at: usize) -> usize
    ensures { (out.new, result) ≡ write (out.old, at) waits_head }
{
    text::put_all(
        out,
        at,
        b"</tbody>\n</table>\n<table>\n<thead>\n\
        <tr><th>source</th><th>waits not ended</th><th>waits without a bound</th><th>first of these</th><th>pending</th><th>edges</th>\
        <th>commands</th><th>turns</th><th>closed while active</th><th>remembered</th></tr>\n\
        </thead>\n<tbody>\n",
    )
}

fn put_hidden(out: &mut [u8], at: usize, t: Table, used: u32) -> usize
    ensures { (out.new, result) ≡ write (out.old, at) (hidden_line t used) }
{
    let n = order::hidden(t, used);
    let a = text::put_all(
        out,
        at,
        b"</tbody>\n</table>\n<p><span data-figure=\"sources-left-out\">",
    );
    let b = cells::put_amount(out, a, n as u64, b"sources");
    text::put_all(
        out,
        b,
        b"</span> are left out: enabled in no trace, and 0 0 0 in the table.</p>\n</section>\n",
    )
}

// The page of the tuning sheet, byte for byte, in a buffer that the caller lends: its beginning, a row for each trace as it is read, and its end
// (02, 4/12, 11/12 and 12/12). What finds no room is dropped; the rooms here take every page whole.
#![tactic(auto)]

ghost use Rattle.std.specs.Prelude.{◌≡◌, List, ℕ, ◌≤◌, length};
ghost use Rattle.text.specs.Text.{laid};
ghost use Rattle.stack.specs.declared.Table.{Table as Priorities};
ghost use Rattle.totals.specs.declared.sheets.Noted.{Noted as Figures};
ghost use Rattle.totals.specs.declared.sheets.Sheet.{Sheet as Sums};
ghost use Rattle.sheet.specs.Head.{page_head};
ghost use Rattle.sheet.specs.Rows.{trace_row, left_out_row};
ghost use Rattle.sheet.specs.End.{page_end};

mod board;
mod cells;
mod end;
mod escapes;
mod head;
mod levels;
mod meaning;
mod order;
mod rows;
mod sources;

use board::Board;
use stack::Table;
use totals::sheets::{Noted, Sheet};

// How the page begins.
pub fn put_head(out: &mut [u8]) -> usize
    ensures { (out.new, result) ≡ laid out.old page_head }
{
    head::put_page(out, 0)
}

// The row of the nth name, of a trace that is counted.
pub fn put_trace(out: &mut [u8], n: u32, t: Noted, name: &[u8]) -> usize
    ensures { (out.new, result) ≡ laid out.old (trace_row n t name.now) }
{
    rows::put_counted(out, 0, n, t, name)
}

// The row of the nth name, of a trace that is left out by 16, 17 or 18; of 18 after which step, and by which source.
// The refusal is a number with a step and a source beside it: docs/CONTRACTS.md names this function so.
pub fn put_left_out(
    out: &mut [u8],
    n: u32,
    refusal: u32,
    step: u32,
    source: u32,
    name: &[u8],
) -> usize
    ensures { (out.new, result) ≡ laid out.old (left_out_row n refusal step source name.now) }
{
    rows::put_out(out, 0, n, refusal, step, source, name)
}

// How the page ends: of the table, the names of its sources, 24 bytes apart, their lengths, and the figures of all traces.
// Names and lengths stand beside the table: docs/CONTRACTS.md names this function so.
pub fn put_end(out: &mut [u8], t: Table, names: &[u8; 768], lengths: [u32; 32], s: Sheet) -> usize
    ensures { (out.new, result) ≡ laid out.old (page_end t names.now lengths s) }
{
    let board = Board {
        table: t,
        names: *names,
        lengths,
    };
    end::put_page(out, 0, &board, s)
}

// ---- rooms

// Room for the beginning.
pub fn head_room() -> [u8; 1400]
    ensures value { 1400 ≡ length result }
    ensures any { length page_head ≤ length result }
{
    [0; 1400]
}

// Room for the row of any name of at most 4,096 bytes.
pub fn row_room() -> [u8; 25060]
    ensures value { 25060 ≡ length result }
    ensures any { (n refusal step source : ℕ) (t : Figures) (name : List ℕ) → length name ≤ 4096 → (length (trace_row n t name) ≤ length result) × (length (left_out_row n refusal step source name) ≤ length result) }
{
    [0; 25060]
}

// Room for the end of any page.
pub fn end_room() -> [u8; 81000]
    ensures value { 81000 ≡ length result }
    ensures any { (t : Priorities) (names lengths : List ℕ) (s : Sums) → length (page_end t names lengths s) ≤ length result }
{
    [0; 81000]
}

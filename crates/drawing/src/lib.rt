// The nesting of an AIC as a drawing, SVG, in a buffer that the caller lends.
#![tactic(auto)]

ghost use Rattle.std.specs.Prelude.{◌≡◌, [], ◌≤◌, ◌<◌, ◌-◌, ◌/◌, ◌%◌, length, get_or};
ghost use Rattle.words.specs.Choice.{pick};
ghost use Rattle.text.specs.Text.{write, laid};
ghost use Rattle.drawing.specs.Bars.{column, free, opens, opened, opened_from, stayed, still};
ghost use Rattle.drawing.specs.Drawing.{column_text, column_texts, bar_text, bar_texts, drawing};

mod frame;
mod shapes;

// The drawing of a window whose first step has the number `first`: its columns as words, the first of them what held before that step, and the sources and
// levels of the entries that were open then. It stands at the start of the buffer; answers how many bytes were written, and what finds no room is dropped.
// Sources and levels stand in two rows, as in the record of an AIC, whose rows they are, and as this documented function takes them.
pub fn draw(out: &mut [u8], first: u32, ws: &[u64], source: &[u8], level: &[u8]) -> usize
    requires { (length ws.now ≤ 501) × (first ≤ 65536) }
    ensures { (out.new, result) ≡ laid out.old (drawing first ws.now source.now level.now) }
{
    let n = steps_of(ws);
    let a = frame::put_head(out, 0, first, n);
    let b = frame::put_rows(out, a);
    let c = put_columns(out, b, first, ws);
    let d = put_stayed(out, c, ws, source, level);
    let e = put_opened(out, d, ws);
    text::put_all(out, e, b"</svg>\n")
}

// ---- columns

// Every column but the one before the first step.
fn put_columns(out: &mut [u8], at: usize, first: u32, ws: &[u64]) -> usize
    requires { (length ws.now ≤ 501) × (first ≤ 65536) }
    ensures { (out.new, result) ≡ write (out.old, at) (column_texts (length ws.now - 1) first ws.now 1) }
{
    let mut next = at;
    for k in 1..ws.len() {
        next = put_column(out, next, first, k as u32, ws[k]);
    }
    next
}

// The kth column.
fn put_column(out: &mut [u8], at: usize, first: u32, k: u32, w: u64) -> usize
    requires { (k ≤ 501) × (1 ≤ k) × (first ≤ 65536) }
    ensures { (out.new, result) ≡ write (out.old, at) (column_text first k (column w)) }
{
    let a = shapes::put_active(out, at, 26, k, (w % 2) as u32);
    let b = shapes::put_active(out, a, 46, k, (w / 2 % 2) as u32);
    let c = shapes::put_refused(out, b, k, (w / 524288 % 4294967296) as u32);
    shapes::put_numbered(out, c, k, first + k - 1)
}

// ---- bars

// The entries that were open before the window and still are after its first step.
fn put_stayed(out: &mut [u8], at: usize, ws: &[u64], source: &[u8], level: &[u8]) -> usize
    requires { length ws.now ≤ 501 }
    ensures { (out.new, result) ≡ write (out.old, at) (bar_texts (stayed (still ws.now) ws.now source.now level.now)) }
{
    let n = stay(ws);
    let mut next = at;
    for place in 0..n {
        next = put_stay(out, next, ws, source, level, place);
    }
    next
}

// The one of them in a place.
fn put_stay(out: &mut [u8], at: usize, ws: &[u64], source: &[u8], level: &[u8], place: u32) -> usize
    requires { length ws.now ≤ 501 }
    ensures { (out.new, result) ≡ write (out.old, at) (bar_text (record { place = place; from = 1; to = free ws.now place 1; source = get_or source.now place 0; level = get_or level.now place 0 })) }
{
    let to = free(ws, place, 1);
    let s = byte_at(source, place as usize);
    let l = byte_at(level, place as usize);
    shapes::put_bar(out, at, place, 1, to as u32, s, l)
}

// The entries that the steps of the window open.
fn put_opened(out: &mut [u8], at: usize, ws: &[u64]) -> usize
    requires { length ws.now ≤ 501 }
    ensures { (out.new, result) ≡ write (out.old, at) (bar_texts (opened_from (length ws.now - 1) ws.now 1)) }
{
    let mut next = at;
    for k in 1..ws.len() {
        next = put_opening(out, next, ws, k);
    }
    next
}

// The one that the step of a column opens, if it does.
fn put_opening(out: &mut [u8], at: usize, ws: &[u64], k: usize) -> usize
    requires { (length ws.now ≤ 501) × (1 ≤ k) × (k < length ws.now) }
    ensures { (out.new, result) ≡ write (out.old, at) (pick (opens ws.now k) (bar_text (opened ws.now k)) []) }
{
    let was = entries_of(ws[k - 1]);
    let is = entries_of(ws[k]);
    if was < is {
        let to = free(ws, is - 1, k + 1);
        let s = (ws[k] / 64 % 32) as u32;
        let l = (ws[k] / 2048 % 256) as u32;
        return shapes::put_bar(out, at, is - 1, k as u32, to as u32, s, l);
    }
    at
}

// ---- numbers

// The first column from the kth on in which a place is free.
fn free(ws: &[u64], place: u32, k: usize) -> usize
    ensures { result ≡ free ws.now place k }
{
    for j in k..ws.len() {
        if entries_of(ws[j]) <= place {
            return j;
        }
    }
    k.max(ws.len())
}

// How many entries were open before the window and still are after its first step.
fn stay(ws: &[u64]) -> u32
    ensures { result ≡ still ws.now }
{
    let was = entries_of(word_at(ws, 0));
    let is = entries_of(word_at(ws, 1));
    was.min(is)
}

// How many steps the window has.
fn steps_of(ws: &[u64]) -> u32
    requires { length ws.now ≤ 501 }
    ensures { result ≡ length ws.now - 1 }
{
    ws.len().saturating_sub(1) as u32
}

// How many entries are open, of a column.
fn entries_of(w: u64) -> u32
    ensures { result ≡ w / 4 % 16 }
{
    (w / 4 % 16) as u32
}

// A word of a row; beyond its end 0.
fn word_at(ws: &[u64], k: usize) -> u64
    ensures { result ≡ get_or ws.now k 0 }
{
    ws.get(k).copied().unwrap_or(0)
}

// A byte of a row; beyond its end 0.
fn byte_at(s: &[u8], k: usize) -> u32
    ensures { result ≡ get_or s.now k 0 }
{
    s.get(k).copied().unwrap_or(0) as u32
}

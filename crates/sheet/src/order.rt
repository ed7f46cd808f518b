// Which sources the page shows, and in which order.
ghost use Rattle.std.specs.Prelude.{◌≡◌, Bool, true, false, not, ◌&&◌, [], ◌∷◌, ◌<◌, get_or};
ghost use Rattle.words.specs.Choice.{pick};
ghost use Rattle.text.specs.Text.{write, laid};
ghost use Rattle.stack.specs.Bytes.{normal};
ghost use Rattle.sheet.specs.Order.{shown, stands, chosen, by_level, in_order, ahead, ahead_of, hidden};

use stack::Table;

// The numbers of the sources shown, a byte each, from the start of the buffer on; answers how many.
pub(crate) fn put_order(out: &mut [u8], t: Table, used: u32) -> usize
    ensures { (out.new, result) ≡ laid out.old (in_order t used) }
{
    let a = put_levels(out, 0, t, used, false);
    put_levels(out, a, t, used, true)
}

// Those that are fast, or normal, by level.
// A bool tells which, as the promises `normal_at` and `fast_at` have it.
fn put_levels(out: &mut [u8], at: usize, t: Table, used: u32, fast: bool) -> usize
    ensures { (out.new, result) ≡ write (out.old, at) (by_level (stands t used fast)) }
{
    let mut next = at;
    for l in (0..8).rev() {
        next = put_level(out, next, t, used, fast, l);
    }
    next
}

// Those of one level.
fn put_level(out: &mut [u8], at: usize, t: Table, used: u32, fast: bool, l: u32) -> usize
    ensures { (out.new, result) ≡ write (out.old, at) (chosen (stands t used fast l) 32) }
{
    let mut next = at;
    for i in 0..32 {
        let here = stands(t, used, fast, l, i);
        next = put_if(out, next, here, i);
    }
    next
}

fn put_if(out: &mut [u8], at: usize, here: bool, i: u32) -> usize
    requires { i < 32 }
    ensures { (out.new, result) ≡ write (out.old, at) (pick here (i ∷ []) []) }
{
    if here {
        return text::put(out, at, i as u8);
    }
    at
}

// Whether source i stands among those.
fn stands(t: Table, used: u32, fast: bool, l: u32, i: u32) -> bool
    requires { i < 32 }
    ensures { result ≡ stands t used fast l i }
{
    let at = i as usize;
    let is = shown(t, used, i);
    let n = is_normal(t, i);
    if fast {
        return is & (!n & (t.priority[at] == l));
    }
    is & (n & (t.priority[at] == l))
}

// Whether source i is shown.
fn shown(t: Table, used: u32, i: u32) -> bool
    requires { i < 32 }
    ensures { result ≡ shown t used i }
{
    let at = i as usize;
    words::has(used, i) | ((t.priority[at] != 0) | ((t.kind[at] != 0) | (t.frame[at] != 0)))
}

// Whether it is a normal one.
pub(crate) fn is_normal(t: Table, i: u32) -> bool
    ensures { result ≡ normal t i }
{
    (i != 0) & !words::has(t.forced, i)
}

// How many normal sources that are shown are ahead of source i.
pub(crate) fn ahead_of(t: Table, used: u32, i: u32) -> u32
    ensures { result ≡ ahead_of t used i }
{
    let mut n: u32 = 0;
    for j in 0..32 {
        let before = counts(t, used, j, i);
        n += words::one_if(before);
    }
    n
}

fn counts(t: Table, used: u32, j: u32, i: u32) -> bool
    requires { j < 32 }
    ensures { result ≡ (shown t used j && (normal t j && ahead t j i)) }
{
    let is = shown(t, used, j);
    let n = is_normal(t, j);
    let p = word_at(t.priority, j);
    let q = word_at(t.priority, i);
    is & (n & ((q < p) | ((p == q) & (j < i))))
}

// How many sources are not shown.
pub(crate) fn hidden(t: Table, used: u32) -> u32
    ensures { result ≡ hidden t used }
{
    let mut n: u32 = 0;
    for i in 0..32 {
        let is = shown(t, used, i);
        n += words::one_if(!is);
    }
    n
}

// The word of source i; of none 0.
pub(crate) fn word_at(a: [u32; 32], i: u32) -> u32
    ensures { result ≡ get_or a i 0 }
{
    let at = i as usize;
    if at < 32 { a[at] } else { 0 }
}

// The stack that open handlers and marks need, in bytes (02, 4/12).
#![tactic(auto)]

ghost use Rattle.std.specs.Prelude.{◌≡◌, true, ◌<◌};
ghost use Rattle.text.specs.Text.{write, laid};
ghost use Rattle.stack.specs.Bytes.{is_of, taller, level_bytes, stack_bytes, source_within, within_limits, needed};
ghost use Rattle.stack.specs.Printed.{figure_line, number_line, text_of};

pub mod kept;

// For each of the 32 sources its priority, its type and the frame of its handler in bytes; the word of forced sources; the frame of a mark in
// bytes. The numbers are wide, so that those beyond their limits can be handed in and refused.
// An array for each number, and not a struct for each source, since the promises `refused_is`, `set_is` and others name the arrays.
#[derive(Clone, Copy)]
pub struct Table {
    pub priority: [u32; 32],
    pub kind: [u32; 32],
    pub forced: u32,
    pub frame: [u32; 32],
    pub mark: u32,
}

// A refusal, or the stack size in bytes.
// The number stands beside the size, and not in a Result, since the promises `refused_none` and `figure_text` speak of both fields.
#[derive(Clone, Copy)]
pub struct Needed {
    pub refusal: u32,
    pub bytes: u32,
}

// Whether source i is a normal source of level l: neither source 0 nor forced.
fn is_of(t: Table, l: u32, i: u32) -> bool
    requires { i < 32 }
    ensures { result ≡ is_of t l i }
{
    (i != 0) & !words::has(t.forced, i) & (t.priority[i as usize] == l)
}

// The larger of b and the frame of source i, where that is a normal source of level l.
fn taller(t: Table, l: u32, b: u32, i: u32) -> u32
    requires { i < 32 }
    ensures { result ≡ taller t l b i }
{
    if is_of(t, l, i) {
        return b.max(t.frame[i as usize]);
    }
    b
}

// What level l needs: the largest among the mark's frame and those of its normal sources.
pub fn level_bytes(t: Table, l: u32) -> u32
    ensures { result ≡ level_bytes t l }
{
    let mut b = t.mark;
    for i in 0..32 {
        b = taller(t, l, b, i);
    }
    b
}

// Whether the priority, the type and the frame of source i are within their limits.
fn source_within(t: Table, i: u32) -> bool
    requires { i < 32 }
    ensures { result ≡ source_within t i }
{
    let at = i as usize;
    (t.priority[at] <= 7) & (t.kind[at] <= 3) & (t.frame[at] <= 65535)
}

// Whether no number of the table is beyond its limit.
fn within_limits(t: Table) -> bool
    ensures { result ≡ within_limits t }
{
    (t.mark <= 65535) & (0..32).all(|i| source_within(t, i))
}

// What all eight levels need.
fn sum_levels(t: Table) -> u32
    requires { within_limits t ≡ true }
    ensures { result ≡ stack_bytes t }
{
    let mut sum: u32 = 0;
    for l in 0..8 {
        sum += level_bytes(t, l);
    }
    sum
}

// The stack size in bytes, or 14 where a number is beyond its limit.
pub fn needed_by(t: Table) -> Needed
    ensures { result ≡ needed t }
{
    if within_limits(t) {
        return Needed {
            refusal: steps::CARRIED_OUT,
            bytes: sum_levels(t),
        };
    }
    Needed {
        refusal: steps::OVERSIZED,
        bytes: 0,
    }
}

// The figure and the word bytes.
fn put_figure(out: &mut [u8], bytes: u32) -> usize
    ensures { (out.new, result) ≡ write (out.old, 0) (figure_line bytes) }
{
    let at = text::put_decimal(out, 0, bytes as u64);
    text::put_all(out, at, b" bytes\n")
}

// E and the number of a refusal.
fn put_number(out: &mut [u8], refusal: u32) -> usize
    ensures { (out.new, result) ≡ write (out.old, 0) (number_line refusal) }
{
    let first = text::put(out, 0, b'E');
    let next = text::put_field(out, first, refusal as u64);
    text::put(out, next, text::NEWLINE)
}

// The line that states what is needed, from the start of the buffer on; answers how many bytes were written. What finds no room is dropped.
pub fn put_needed(out: &mut [u8], n: Needed) -> usize
    ensures { (out.new, result) ≡ laid out.old (text_of n) }
{
    if n.refusal == steps::CARRIED_OUT {
        return put_figure(out, n.bytes);
    }
    put_number(out, n.refusal)
}

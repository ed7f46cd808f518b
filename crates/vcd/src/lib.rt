// The text of a value change dump, VCD, in a buffer that the caller lends: what is declared, the first values, and at each tick what changed
// (IEEE 1364-2005, 18.2). What finds no room is dropped.
#![tactic(auto)]

ghost use Rattle.std.specs.Prelude.{◌≡◌, [], ◌∷◌, ◌++◌, ◌+◌, ◌%◌, eqb, get_or};
ghost use Rattle.words.specs.Choice.{pick};
ghost use Rattle.text.specs.Text.{write, space, newline};
ghost use Rattle.vcd.specs.Dump.{opening, declared, declaration, binary_of, change, values_from, changes_from, tick, first_tick, next_tick, ending};

use text::{NEWLINE, SPACE};

// ---- what is declared

// What a tick is, and the time unit.
pub fn put_opening(out: &mut [u8], at: usize) -> usize
    ensures { (out.new, result) ≡ write (out.old, at) opening }
{
    text::put_all(
        out,
        at,
        b"$comment one tick is one step of the trace, refused steps counted; tick 0 is the start $end\n$timescale 1 ns $end\n",
    )
}

// The kth signal, by its name and its width in bits.
pub fn put_declaration(out: &mut [u8], at: usize, k: u32, name: &[u8], width: u32) -> usize
    ensures { (out.new, result) ≡ write (out.old, at) (declaration k (record { name = name.entry.now; width = width })) }
{
    let a = text::phrases::put_counted(out, at, b"$var wire ", width);
    let b = put_identifier(out, a, SPACE, k, SPACE);
    let c = text::put_all(out, b, name);
    text::put_all(out, c, b" $end\n")
}

// No more is declared.
pub fn put_declared(out: &mut [u8], at: usize) -> usize
    ensures { (out.new, result) ≡ write (out.old, at) declared }
{
    text::put_all(out, at, b"$enddefinitions $end\n")
}

// The identifier of the kth signal, between two bytes.
fn put_identifier(out: &mut [u8], at: usize, front: u8, k: u32, back: u8) -> usize
    ensures { (out.new, result) ≡ write (out.old, at) (front ∷ (33 + k % 94) ∷ back ∷ []) }
{
    let a = text::put(out, at, front);
    let b = text::put(out, a, 33 + (k % 94) as u8);
    text::put(out, b, back)
}

// ---- values

// The value of the kth signal: where it has one bit a digit, else b and digits.
pub fn put_change(out: &mut [u8], at: usize, width: u32, k: u32, v: u32) -> usize
    ensures { (out.new, result) ≡ write (out.old, at) (change width k v) }
{
    if width == 1 {
        return put_identifier(out, at, 48 + (v % 2) as u8, k, NEWLINE);
    }
    put_bits(out, at, width, k, v)
}

// The values of all signals of these widths.
pub fn put_values(out: &mut [u8], at: usize, widths: &[u32], values: &[u32]) -> usize
    ensures { (out.new, result) ≡ write (out.old, at) (values_from 0 widths.now values.now) }
{
    let mut next = at;
    for (k, &width) in widths.iter().enumerate() {
        next = put_change(out, next, width, (k % 94) as u32, number_at(values, k));
    }
    next
}

// Of those values only the ones that differ from what they were before.
pub fn put_changes(
    out: &mut [u8],
    at: usize,
    widths: &[u32],
    before: &[u32],
    values: &[u32],
) -> usize
    ensures { (out.new, result) ≡ write (out.old, at) (changes_from 0 widths.now before.now values.now) }
{
    let mut next = at;
    for (k, &width) in widths.iter().enumerate() {
        next = put_if_changed(
            out,
            next,
            width,
            (k % 94) as u32,
            number_at(before, k),
            number_at(values, k),
        );
    }
    next
}

// The value of the kth signal, which was u before; nothing where it is the same.
fn put_if_changed(out: &mut [u8], at: usize, width: u32, k: u32, u: u32, v: u32) -> usize
    ensures { (out.new, result) ≡ write (out.old, at) (pick (eqb u v) [] (change width k v)) }
{
    if u == v {
        return at;
    }
    put_change(out, at, width, k, v)
}

// A value that is no single bit.
fn put_bits(out: &mut [u8], at: usize, width: u32, k: u32, v: u32) -> usize
    ensures { (out.new, result) ≡ write (out.old, at) ((98 ∷ []) ++ binary_of width v ++ (space ∷ (33 + k % 94) ∷ newline ∷ [])) }
{
    let a = text::put(out, at, b'b');
    let b = put_binary(out, a, v, width);
    put_identifier(out, b, SPACE, k, NEWLINE)
}

// The binary digits of v, at most `digits` of them.
fn put_binary(out: &mut [u8], at: usize, v: u32, digits: u32) -> usize
    ensures { (out.new, result) ≡ write (out.old, at) (binary_of digits v) }
{
    if digits == 0 {
        return at;
    }
    if v < 2 {
        return text::put(out, at, 48 + (v % 2) as u8);
    }
    let next = put_binary(out, at, v / 2, digits - 1);
    text::put(out, next, 48 + (v % 2) as u8)
}

// The kth number; 0 where there is none.
fn number_at(s: &[u32], k: usize) -> u32
    ensures { result ≡ get_or s.now k 0 }
{
    s.get(k).copied().unwrap_or(0)
}

// ---- ticks

// The number of a tick.
pub fn put_tick(out: &mut [u8], at: usize, n: u32) -> usize
    ensures { (out.new, result) ≡ write (out.old, at) (tick n) }
{
    let a = text::put(out, at, b'#');
    let b = text::put_decimal(out, a, n as u64);
    text::put(out, b, NEWLINE)
}

// Tick 0: every value.
pub fn put_first(out: &mut [u8], at: usize, widths: &[u32], values: &[u32]) -> usize
    ensures { (out.new, result) ≡ write (out.old, at) (first_tick widths.now values.now) }
{
    let a = text::put_all(out, at, b"#0\n$dumpvars\n");
    let b = put_values(out, a, widths, values);
    text::put_all(out, b, b"$end\n")
}

// Tick n: what changed.
pub fn put_next(
    out: &mut [u8],
    at: usize,
    n: u32,
    widths: &[u32],
    before: &[u32],
    values: &[u32],
) -> usize
    ensures { (out.new, result) ≡ write (out.old, at) (next_tick n widths.now before.now values.now) }
{
    let a = put_tick(out, at, n);
    put_changes(out, a, widths, before, values)
}

// The refusal that ends a trace and its offset; nothing where there is none.
pub fn put_ending(out: &mut [u8], at: usize, refusal: u32, offset: usize) -> usize
    ensures { (out.new, result) ≡ write (out.old, at) (ending refusal offset) }
{
    if refusal == 0 {
        return at;
    }
    let a = text::put_all(out, at, b"$comment E");
    let b = text::put_field(out, a, refusal as u64);
    let c = text::put_field(out, b, offset as u64);
    text::put_all(out, c, b" $end\n")
}

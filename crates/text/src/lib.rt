// Text into a buffer that the caller lends. What finds no room is dropped, so no function here has to know how long a text is.
#![tactic(auto)]

ghost use Rattle.std.specs.Prelude.{◌≡◌, [], ◌∷◌, ◌<◌, ◌%◌};
ghost use Rattle.text.specs.Text.{write, decimal, decimal_of, last_of, field, hex, hex_digit};

pub mod arguments;
pub mod phrases;
pub mod room;

pub const SPACE: u8 = b' ';

pub const NEWLINE: u8 = b'\n';

// One byte where the next one goes; answers where the one after it goes.
pub fn put(out: &mut [u8], at: usize, b: u8) -> usize
    ensures { (out.new, result) ≡ write (out.old, at) (b ∷ []) }
{
    if at < out.len() {
        out[at] = b;
        at + 1
    } else {
        at
    }
}

// All bytes of a text, one after the other.
pub fn put_all(out: &mut [u8], at: usize, text: &[u8]) -> usize
    ensures { (out.new, result) ≡ write (out.old, at) text.now }
{
    let mut next = at;
    for b in text {
        next = put(out, next, *b);
    }
    next
}

// The eight hexadecimal digits of a word, the letters upper case.
pub fn put_hex(out: &mut [u8], at: usize, v: u32) -> usize
    ensures { (out.new, result) ≡ write (out.old, at) (hex v) }
{
    let a = put_hex_digit(out, at, v / 268435456);
    let b = put_hex_digit(out, a, v / 16777216);
    let c = put_hex_digit(out, b, v / 1048576);
    let d = put_hex_digit(out, c, v / 65536);
    let e = put_hex_digit(out, d, v / 4096);
    let f = put_hex_digit(out, e, v / 256);
    let g = put_hex_digit(out, f, v / 16);
    put_hex_digit(out, g, v)
}

// The decimal digits of a number. Nearly all numbers of a listing have at most five.
pub fn put_decimal(out: &mut [u8], at: usize, n: u64) -> usize
    ensures { (out.new, result) ≡ write (out.old, at) (decimal n) }
{
    if n < 100000 {
        return put_short(out, at, n as u32);
    }
    put_decimal_digits(out, at, n, 20)
}

// A space and the decimal digits of a number.
pub fn put_field(out: &mut [u8], at: usize, n: u64) -> usize
    ensures { (out.new, result) ≡ write (out.old, at) (field n) }
{
    let next = put(out, at, SPACE);
    put_decimal(out, next, n)
}

// The lowest hexadecimal digit of v.
fn put_hex_digit(out: &mut [u8], at: usize, v: u32) -> usize
    ensures { (out.new, result) ≡ write (out.old, at) (hex_digit (v % 16) ∷ []) }
{
    put(out, at, digit((v % 16) as usize))
}

// The decimal digits of a number of at most five, without a loop.
fn put_short(out: &mut [u8], at: usize, n: u32) -> usize
    requires { n < 100000 }
    ensures { (out.new, result) ≡ write (out.old, at) (decimal n) }
{
    if n < 10 {
        return put_one(out, at, n);
    }
    if n < 100 {
        return put_two(out, at, n);
    }
    if n < 1000 {
        return put_three(out, at, n);
    }
    if n < 10000 {
        return put_four(out, at, n);
    }
    put_five(out, at, n)
}

// The last decimal digit of n.
fn put_one(out: &mut [u8], at: usize, n: u32) -> usize
    ensures { (out.new, result) ≡ write (out.old, at) (last_of 1 n) }
{
    put(out, at, 48 + (n % 10) as u8)
}

// Its last two.
fn put_two(out: &mut [u8], at: usize, n: u32) -> usize
    ensures { (out.new, result) ≡ write (out.old, at) (last_of 2 n) }
{
    let next = put_one(out, at, n / 10);
    put_one(out, next, n)
}

// Its last three.
fn put_three(out: &mut [u8], at: usize, n: u32) -> usize
    ensures { (out.new, result) ≡ write (out.old, at) (last_of 3 n) }
{
    let next = put_two(out, at, n / 10);
    put_one(out, next, n)
}

// Its last four.
fn put_four(out: &mut [u8], at: usize, n: u32) -> usize
    ensures { (out.new, result) ≡ write (out.old, at) (last_of 4 n) }
{
    let next = put_three(out, at, n / 10);
    put_one(out, next, n)
}

// Its last five.
fn put_five(out: &mut [u8], at: usize, n: u32) -> usize
    ensures { (out.new, result) ≡ write (out.old, at) (last_of 5 n) }
{
    let next = put_four(out, at, n / 10);
    put_one(out, next, n)
}

// The decimal digits of n, at most `digits` of them.
fn put_decimal_digits(out: &mut [u8], at: usize, n: u64, digits: u32) -> usize
    ensures { (out.new, result) ≡ write (out.old, at) (decimal_of digits n) }
{
    if digits == 0 {
        return at;
    }
    if n < 10 {
        return put(out, at, 48 + (n % 10) as u8);
    }
    let next = put_decimal_digits(out, at, n / 10, digits - 1);
    put(out, next, 48 + (n % 10) as u8)
}

// The hexadecimal digit of a number below 16.
pub fn digit(d: usize) -> u8
    requires { d < 16 }
    ensures { result ≡ hex_digit d }
{
    if d < 10 { 48 + d as u8 } else { 55 + d as u8 }
}

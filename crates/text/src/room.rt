// Text into a lent buffer that has room for it: whoever calls has tested once for a whole line, so no byte is tested for. A text is that of `text`;
// each function says how far it goes at most, and that the buffer keeps its length, so that the next one finds its room.
ghost use Rattle.std.specs.Prelude.{◌≡◌, [], ◌∷◌, ◌+◌, ◌%◌, ◌<◌, ◌≤◌, length};
ghost use Rattle.text.specs.Text.{write, decimal, last_of, field, hex};
ghost use Rattle.text.specs.Bytes.{bytes_of};
ghost use Rattle.text.specs.Numeral.{packed, numeral_of};

use super::SPACE;

// The text of a number of at most five digits in a word, its first byte in the lowest; how many bytes that is, and 1 where the last of them stands; and the
// number's last digit. So the text of the next number is a sum, but after a 9. Of a longer number no text is kept.
#[derive(Clone, Copy)]
pub struct Numeral {
    pub digits: u64,
    pub width: usize,
    pub unit: u64,
    pub last: u32,
}

// One byte where the next one goes; answers where the one after it goes.
pub fn put_in(out: &mut [u8], at: usize, b: u8) -> usize
    requires { at < length out.old }
    ensures { ((out.new, result) ≡ write (out.old, at) (b ∷ [])) × ((result ≡ at + 1) × (length out.new ≡ length out.old)) }
{
    out[at] = b;
    at + 1
}

// The eight hexadecimal digits of a word.
pub fn hex_in(out: &mut [u8], at: usize, v: u32) -> usize
    requires { at + 8 ≤ length out.old }
    ensures { ((out.new, result) ≡ write (out.old, at) (hex v)) × ((result ≡ at + 8) × (length out.new ≡ length out.old)) }
{
    word_in(out, at, digits(v))
}

// All eight digits at once, the first in the lowest byte: the halves of the word change places, then its bytes and its half bytes move apart, and
// `super::digit`'s rule makes a digit of each: 48 is added, and 7 more from ten on.
pub fn digits(v: u32) -> u64
    ensures { bytes_of 8 result ≡ hex v }
{
    let a = v as u64;
    let b = a / 65536 + a % 65536 * 4294967296;
    let c = ((b / 256) & 0x000000FF000000FF) + (b & 0x000000FF000000FF) * 65536;
    let d = ((c / 16) & 0x000F000F000F000F) + (c & 0x000F000F000F000F) * 256;
    let letters = ((d + 0x0606060606060606) / 16) & 0x0101010101010101;
    d + 0x3030303030303030 + 7 * letters
}

// The eight bytes of a word, the lowest first: the compiler makes one store of them.
pub fn word_in(out: &mut [u8], at: usize, w: u64) -> usize
    requires { at + 8 ≤ length out.old }
    ensures { ((out.new, result) ≡ write (out.old, at) (bytes_of 8 w)) × ((result ≡ at + 8) × (length out.new ≡ length out.old)) }
{
    let a = put_in(out, at, (w % 256) as u8);
    let b = put_in(out, a, (w / 256 % 256) as u8);
    let c = put_in(out, b, (w / 65536 % 256) as u8);
    let d = put_in(out, c, (w / 16777216 % 256) as u8);
    let e = put_in(out, d, (w / 4294967296 % 256) as u8);
    let f = put_in(out, e, (w / 1099511627776 % 256) as u8);
    let g = put_in(out, f, (w / 281474976710656 % 256) as u8);
    put_in(out, g, (w / 72057594037927936 % 256) as u8)
}

// The decimal digits of a number. Nearly all numbers of a listing have at most five.
fn decimal_in(out: &mut [u8], at: usize, n: u32) -> usize
    requires { at + 10 ≤ length out.old }
    ensures { ((out.new, result) ≡ write (out.old, at) (decimal n)) × ((result ≤ at + 10) × (length out.new ≡ length out.old)) }
{
    if n < 10 {
        return one_in(out, at, n);
    }
    if n < 100 {
        return two_in(out, at, n);
    }
    if n < 1000 {
        return three_in(out, at, n);
    }
    if n < 10000 {
        return four_in(out, at, n);
    }
    if n < 100000 {
        return five_in(out, at, n);
    }
    super::put_decimal(out, at, n as u64)
}

// A space and the decimal digits of a number. Nearly all fields have one digit.
pub fn field_in(out: &mut [u8], at: usize, n: u32) -> usize
    requires { at + 11 ≤ length out.old }
    ensures { ((out.new, result) ≡ write (out.old, at) (field n)) × ((result ≤ at + 11) × (length out.new ≡ length out.old)) }
{
    let next = put_in(out, at, SPACE);
    if n < 10 {
        return one_in(out, next, n);
    }
    decimal_in(out, next, n)
}

// The last decimal digit of n.
fn one_in(out: &mut [u8], at: usize, n: u32) -> usize
    requires { at < length out.old }
    ensures { ((out.new, result) ≡ write (out.old, at) (last_of 1 n)) × ((result ≡ at + 1) × (length out.new ≡ length out.old)) }
{
    put_in(out, at, 48 + (n % 10) as u8)
}

// Its last two.
fn two_in(out: &mut [u8], at: usize, n: u32) -> usize
    requires { at + 2 ≤ length out.old }
    ensures { ((out.new, result) ≡ write (out.old, at) (last_of 2 n)) × ((result ≡ at + 2) × (length out.new ≡ length out.old)) }
{
    let next = one_in(out, at, n / 10);
    one_in(out, next, n)
}

// Its last three.
fn three_in(out: &mut [u8], at: usize, n: u32) -> usize
    requires { at + 3 ≤ length out.old }
    ensures { ((out.new, result) ≡ write (out.old, at) (last_of 3 n)) × ((result ≡ at + 3) × (length out.new ≡ length out.old)) }
{
    let next = two_in(out, at, n / 10);
    one_in(out, next, n)
}

// Its last four.
fn four_in(out: &mut [u8], at: usize, n: u32) -> usize
    requires { at + 4 ≤ length out.old }
    ensures { ((out.new, result) ≡ write (out.old, at) (last_of 4 n)) × ((result ≡ at + 4) × (length out.new ≡ length out.old)) }
{
    let next = three_in(out, at, n / 10);
    one_in(out, next, n)
}

// Its last five.
fn five_in(out: &mut [u8], at: usize, n: u32) -> usize
    requires { at + 5 ≤ length out.old }
    ensures { ((out.new, result) ≡ write (out.old, at) (last_of 5 n)) × ((result ≡ at + 5) × (length out.new ≡ length out.old)) }
{
    let next = four_in(out, at, n / 10);
    one_in(out, next, n)
}

// The text of a number in a word.
pub fn numeral_of(n: u32) -> Numeral
    ensures { result ≡ numeral_of n }
{
    if n < 10 {
        return kept(one_digit(n), 1, 1, n);
    }
    if n < 100 {
        return kept(two_digits(n), 2, 256, n);
    }
    if n < 1000 {
        return kept(three_digits(n), 3, 65536, n);
    }
    if n < 10000 {
        return kept(four_digits(n), 4, 16777216, n);
    }
    if n < 100000 {
        return kept(five_digits(n), 5, 4294967296, n);
    }
    kept(0, 0, 0, 9)
}

fn kept(digits: u64, width: usize, unit: u64, n: u32) -> Numeral
    ensures { result ≡ record { digits = digits; width = width; unit = unit; last = n % 10 } }
{
    Numeral {
        digits,
        width,
        unit,
        last: n % 10,
    }
}

// The last decimal digit of n in a word.
fn one_digit(n: u32) -> u64
    ensures { result ≡ packed (last_of 1 n) }
{
    (n % 10 + 48) as u64
}

// Its last two.
fn two_digits(n: u32) -> u64
    ensures { result ≡ packed (last_of 2 n) }
{
    (n / 10 % 10 + 48) as u64 + 256 * (n % 10 + 48) as u64
}

// Its last three.
fn three_digits(n: u32) -> u64
    ensures { result ≡ packed (last_of 3 n) }
{
    (n / 100 % 10 + 48) as u64 + 256 * (n / 10 % 10 + 48) as u64 + 65536 * (n % 10 + 48) as u64
}

// Its last four.
fn four_digits(n: u32) -> u64
    ensures { result ≡ packed (last_of 4 n) }
{
    let first = (n / 1000 % 10 + 48) as u64 + 256 * (n / 100 % 10 + 48) as u64;
    first + 65536 * (n / 10 % 10 + 48) as u64 + 16777216 * (n % 10 + 48) as u64
}

// Its last five.
fn five_digits(n: u32) -> u64
    ensures { result ≡ packed (last_of 5 n) }
{
    let first = (n / 10000 % 10 + 48) as u64
        + 256 * (n / 1000 % 10 + 48) as u64
        + 65536 * (n / 100 % 10 + 48) as u64;
    first + 16777216 * (n / 10 % 10 + 48) as u64 + 4294967296 * (n % 10 + 48) as u64
}

// The text of the next number: after a 9 it is made anew.
pub fn following(t: Numeral, n: u32) -> Numeral
    requires { (t ≡ numeral_of n) × (n < 4294967295) }
    ensures { result ≡ numeral_of (n + 1) }
{
    if t.last == 9 {
        return numeral_of(n + 1);
    }
    Numeral {
        digits: t.digits + t.unit,
        last: t.last + 1,
        ..t
    }
}

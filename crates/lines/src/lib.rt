// The lines of a listing, as text in a buffer that the caller lends (01, "House trace").
#![tactic(auto)]

ghost use Rattle.std.specs.Prelude.{◌≡◌, true, [], ◌∷◌, ◌++◌, ◌+◌, ◌/◌, ◌^◌, ◌<◌, ◌≤◌, eqb, length};
ghost use Rattle.std.specs.Int.Bits.{bit_or};
ghost use Rattle.words.specs.Choice.{pick};
ghost use Rattle.steps.specs.Refusals.{carried_out};
ghost use Rattle.text.specs.Text.{space, write};
ghost use Rattle.text.specs.Bytes.{bytes_of};
ghost use Rattle.text.specs.Numeral.{numeral_of};
ghost use Rattle.lines.specs.Behind.{behind};
ghost use Rattle.lines.specs.Listing.{letter_of, letter, letter_of_kind, letter_by, shown_value, line_of, end_line, end_of};

use machine::record::Columns;
use steps::Step;
use text::room::Numeral;
use text::{NEWLINE, SPACE};

// The line of a step: its number, its letter, the value in eight digits, and the machine's three numbers. Byte by byte: what finds no room is dropped.
pub fn put_line(out: &mut [u8], at: usize, n: u32, letter: u8, value: u32, c: Columns) -> usize
    ensures { (out.new, result) ≡ write (out.old, at) (line_of n letter value c) }
{
    let a = text::put_decimal(out, at, n as u64);
    let b = text::put(out, a, SPACE);
    let d = text::put(out, b, letter);
    let e = text::put(out, d, SPACE);
    let f = text::put_hex(out, e, value);
    let g = text::put_field(out, f, c.first as u64);
    let h = text::put_field(out, g, c.second as u64);
    let i = text::put_field(out, h, c.third as u64);
    text::put(out, i, NEWLINE)
}

// The line of a step of which the number of its kind is known, with what it answered, by a loop that keeps the text of the line's number (text_room,
// `following`). It has one caller, of which it becomes a part; one test for room serves for all its bytes.
pub fn put_numbered(
    out: &mut [u8],
    at: usize,
    n: u32,
    t: Numeral,
    kind: u32,
    refusal: u32,
    value: u32,
    c: Columns,
) -> usize
    requires { t ≡ numeral_of n }
    ensures { (out.new, result) ≡ write (out.old, at) (line_of n (letter_by kind refusal) (shown_value refusal value) c) }
{
    let letter = letter_by(kind, refusal);
    let shown = shown_value(refusal, value);
    put_numbered_line(out, at, n, t, letter, shown, c)
}

// A line whose number has its text in a word; one that finds no room, or has no such text, is written byte by byte.
fn put_numbered_line(
    out: &mut [u8],
    at: usize,
    n: u32,
    t: Numeral,
    letter: u8,
    value: u32,
    c: Columns,
) -> usize
    requires { t ≡ numeral_of n }
    ensures { (out.new, result) ≡ write (out.old, at) (line_of n letter value c) }
{
    if t.width == 0 {
        return put_line(out, at, n, letter, value, c);
    }
    if has_room(out.len(), at) {
        return numbered_in(out, at, t.digits, t.width, letter, value, c);
    }
    put_line(out, at, n, letter, value, c)
}

// Whether a line finds room, however long its numbers are: it has at most 55 bytes.
fn has_room(length: usize, at: usize) -> bool
    ensures { result ≡ true → at + 55 ≤ length }
{
    if length < 55 {
        return false;
    }
    at <= length - 55
}

// A line that finds room, the text of its number in a word: eight bytes are stored, and what follows the number is written over those that are none of it.
fn numbered_in(
    out: &mut [u8],
    at: usize,
    digits: u64,
    width: usize,
    letter: u8,
    value: u32,
    c: Columns,
) -> usize
    requires { (at + 55 ≤ length out.old) × (width ≤ 8) }
    ensures { (out.new, result) ≡ write (out.old, at) (bytes_of width digits ++ behind letter value c) }
{
    text::room::word_in(out, at, digits);
    behind_in(out, at + width, letter, value, c)
}

// What follows the number. Nearly always the three decimals have one digit each.
fn behind_in(out: &mut [u8], at: usize, letter: u8, value: u32, c: Columns) -> usize
    requires { at + 45 ≤ length out.old }
    ensures { (out.new, result) ≡ write (out.old, at) (behind letter value c) }
{
    if (c.first | c.second | c.third) < 8 {
        return short_in(out, at, letter, value, c);
    }
    long_in(out, at, letter, value, c)
}

// With three decimals of one digit: eighteen bytes, of which two words are stored.
fn short_in(out: &mut [u8], at: usize, letter: u8, value: u32, c: Columns) -> usize
    requires { (at + 18 ≤ length out.old) × (bit_or (bit_or c.first c.second) c.third < 8) }
    ensures { (out.new, result) ≡ write (out.old, at) (behind letter value c) }
{
    let w = text::room::digits(value);
    let a = text::room::word_in(out, at, opening(letter, w));
    let b = text::room::word_in(out, a, middle(w, c.first, c.second));
    let d = text::room::put_in(out, b, (c.third + 48) as u8);
    text::room::put_in(out, d, NEWLINE)
}

// A space, the letter, a space, and the first five of eight digits.
fn opening(letter: u8, digits: u64) -> u64
    ensures { bytes_of 8 result ≡ space ∷ letter ∷ space ∷ bytes_of 5 digits }
{
    0x200020 + 256 * letter as u64 + digits % 1099511627776 * 16777216
}

// The last three of eight digits, and two numbers below ten, with a space before each and behind them.
fn middle(digits: u64, first: u32, second: u32) -> u64
    requires { (first < 10) × (second < 10) }
    ensures { bytes_of 8 result ≡ bytes_of 3 (digits / 256 ^ 5) ++ (space ∷ (48 + first) ∷ space ∷ (48 + second) ∷ space ∷ []) }
{
    digits / 1099511627776
        + 0x2030203020000000
        + first as u64 * 4294967296
        + second as u64 * 281474976710656
}

// With decimals of any length.
fn long_in(out: &mut [u8], at: usize, letter: u8, value: u32, c: Columns) -> usize
    requires { at + 45 ≤ length out.old }
    ensures { (out.new, result) ≡ write (out.old, at) (behind letter value c) }
{
    let a = text::room::put_in(out, at, SPACE);
    let b = text::room::put_in(out, a, letter);
    let d = text::room::put_in(out, b, SPACE);
    let e = text::room::hex_in(out, d, value);
    let f = text::room::field_in(out, e, c.first);
    let g = text::room::field_in(out, f, c.second);
    let h = text::room::field_in(out, g, c.third);
    text::room::put_in(out, h, NEWLINE)
}

// The last line of a listing that ends with a refusal; nothing where there is none.
pub fn put_end(out: &mut [u8], at: usize, refusal: u32, offset: usize) -> usize
    ensures { (out.new, result) ≡ write (out.old, at) (end_of refusal offset) }
{
    if refusal == steps::CARRIED_OUT {
        return at;
    }
    put_refusal(out, at, refusal, offset)
}

// E, the refusal's number and its offset.
fn put_refusal(out: &mut [u8], at: usize, refusal: u32, offset: usize) -> usize
    ensures { (out.new, result) ≡ write (out.old, at) (end_line refusal offset) }
{
    let a = text::put(out, at, b'E');
    let b = text::put_field(out, a, refusal as u64);
    let c = text::put_field(out, b, offset as u64);
    text::put(out, c, NEWLINE)
}

// The letter of a step: R, W or L, and X where it is refused.
pub fn letter_of(x: Step, refusal: u32) -> u8
    ensures { result ≡ letter x refusal }
{
    unless_refused(letter_by_kind(x), refusal)
}

// The letter of a step of which only the number of its kind is known: 1, 2 or 3, as in a trace.
pub fn letter_by(kind: u32, refusal: u32) -> u8
    ensures { result ≡ letter_by kind refusal }
{
    unless_refused(letter_by_number(kind), refusal)
}

fn unless_refused(letter: u8, refusal: u32) -> u8
    ensures { result ≡ pick (eqb refusal carried_out) letter 88 }
{
    if refusal != steps::CARRIED_OUT {
        return b'X';
    }
    letter
}

fn letter_by_kind(x: Step) -> u8
    ensures { result ≡ letter_of x }
{
    match x {
        Step::Read(_) => b'R',
        Step::Write(_, _) => b'W',
        Step::Line(_, _) => b'L',
    }
}

fn letter_by_number(kind: u32) -> u8
    ensures { result ≡ letter_of_kind kind }
{
    match kind {
        trace::READ => b'R',
        trace::WRITE => b'W',
        _ => b'L',
    }
}

// What the eight digits show: the value read, else 0, or the refusal's number.
pub fn shown_value(refusal: u32, value: u32) -> u32
    ensures { result ≡ shown_value refusal value }
{
    if refusal != steps::CARRIED_OUT {
        return refusal;
    }
    value
}

// A table as a person types it, and the line that answers it. A slip of the typing is refused where it stands, and nothing is guessed (docs/STACK.md).
#![tactic(auto)]

ghost use Rattle.std.specs.Prelude.{◌≡◌, ◌≤◌, ◌<◌, true, length};
ghost use Rattle.words.specs.Choice.{pick};
ghost use Rattle.text.specs.Text.{write, laid};
ghost use Rattle.tables.specs.Typed.{white, bare, start_from, end_from};
ghost use Rattle.tables.specs.Reading.{fits_at, entered, every_third, table_of, refused_at, read_bare, read_table, refused_line, answer_to};
ghost use Rattle.tables.specs.Passes.{capped, digit_to, read_digits, read_word, read_next, value_at, values_of};

pub mod names;
pub mod slips;

use stack::Table;

// What came of a text: the table, or a refusal with the byte offset of what is at fault.
// Its refusal is a number, 0 for none: `read_table` is a documented function, and the promises of typed tables speak of that number.
#[derive(Clone, Copy)]
pub struct Reading {
    pub refusal: u32,
    pub offset: usize,
    pub table: Table,
}

// The next word of a text: what it is worth if it is a number, where it begins, and the offset behind it. 2^32 stands for whatever is more.
#[derive(Clone, Copy)]
pub struct Next {
    pub number: Option<u64>,
    pub start: usize,
    pub past: usize,
}

// How many of the 98 numbers come before the first fault, where the fault or what follows them begins, and their values.
#[derive(Clone, Copy)]
pub struct Fault {
    pub count: usize,
    pub start: usize,
    pub values: [u32; 98],
}

pub const MOST: usize = 65536;

// The place of the word of forced sources among the 98, and the first number over 32 bits.
const FORCED: usize = 96;

const OVER: u64 = 4294967296;

// ---- what is read

// The line that answers a typed table, from the start of the buffer on; answers how many bytes were written. What finds no room is dropped.
pub fn put_answer(out: &mut [u8], text: &[u8]) -> usize
    ensures { (out.new, result) ≡ laid out.old (answer_to text.now) }
{
    let r = read_table(text);
    if r.refusal == steps::CARRIED_OUT {
        let t = r.table;
        return stack::put_needed(out, stack::needed_by(t));
    }
    put_refused(out, r.refusal, r.offset)
}

// The table that was typed, or the refusal and where.
pub fn read_table(text: &[u8]) -> Reading
    ensures { result ≡ read_table text.now }
{
    if MOST < text.len() {
        return refused_at(steps::TOO_LONG, MOST);
    }
    let mut room = [0u8; 65536];
    let n = names::clear(text, &mut room);
    read_bare(&room[..n])
}

// The same of a text without names and comments.
fn read_bare(bare: &[u8]) -> Reading
    ensures { result ≡ read_bare bare.now }
{
    match read_values(bare) {
        Ok(values) => Reading {
            refusal: steps::CARRIED_OUT,
            offset: 0,
            table: table_of(&values),
        },
        Err(fault) => refused_at(steps::DAMAGED, fault.start),
    }
}

fn refused_at(refusal: u32, offset: usize) -> Reading
    ensures { result ≡ refused_at refusal offset }
{
    let zeros = Table {
        priority: [0; 32],
        kind: [0; 32],
        forced: 0,
        frame: [0; 32],
        mark: 0,
    };
    Reading {
        refusal,
        offset,
        table: zeros,
    }
}

// E, the refusal and the offset.
fn put_refused(out: &mut [u8], refusal: u32, offset: usize) -> usize
    ensures { (out.new, result) ≡ laid out.old (refused_line refusal offset) }
{
    let first = text::put(out, 0, b'E');
    let second = text::put_field(out, first, refusal as u64);
    let third = text::put_field(out, second, offset as u64);
    text::put(out, third, text::NEWLINE)
}

// ---- the 98 numbers

// For each source its priority, its type and its frame, then the word of forced sources and the mark's frame.
fn table_of(values: &[u32; 98]) -> Table
    ensures { result ≡ table_of values.now }
{
    Table {
        priority: every_third(values, 0),
        kind: every_third(values, 1),
        forced: values[96],
        frame: every_third(values, 2),
        mark: values[97],
    }
}

// One number for each source.
fn every_third(values: &[u32; 98], first: usize) -> [u32; 32]
    requires { first < 3 }
    ensures { result ≡ every_third values.now first }
{
    let mut out = [0u32; 32];
    for i in 0..32 {
        out[i] = values[3 * i + first];
    }
    out
}

// The values of the 98 numbers, where nothing follows them.
pub fn read_values(text: &[u8]) -> Result<[u32; 98], Fault>
    ensures { result ≡ values_of text.now }
{
    let mut values = [0u32; 98];
    let mut past: usize = 0;
    for n in 0..98 {
        let next = read_next(text, past);
        let Some(value) = value_at(n, next.number) else {
            return Err(Fault {
                count: n,
                start: next.start,
                values,
            });
        };
        values[n] = value;
        past = next.past;
    }
    let start = seek(text, past, false);
    if start < text.len() {
        return Err(Fault {
            count: 98,
            start,
            values,
        });
    }
    Ok(values)
}

// What the table has of what was read as the nth of the 98.
fn value_at(n: usize, number: Option<u64>) -> Option<u32>
    ensures { result ≡ value_at n number }
{
    let value = number?;
    if fits_at(n, value) {
        return Some(entered_as(value));
    }
    None
}

// Whether the nth number is as it must be: as the word of forced sources one of 32 bits.
fn fits_at(n: usize, value: u64) -> bool
    ensures { result ≡ fits_at n true value }
{
    (n != FORCED) | (value < OVER)
}

// What the table has of a number: the largest word where it is more than that.
pub fn entered_as(value: u64) -> u32
    ensures { result ≡ entered value }
{
    u32::try_from(value).unwrap_or(u32::MAX)
}

// The next number from an offset on.
pub fn read_next(text: &[u8], past: usize) -> Next
    requires { past ≤ length text.now }
    ensures { result ≡ read_next text.now past }
{
    let start = seek(text, past, false);
    let end = seek(text, start, true);
    Next {
        number: read_word(&text[start..end]),
        start,
        past: end,
    }
}

// The first byte from an offset on that is white, or that is not, as `wanted` says.
pub fn seek(text: &[u8], at: usize, wanted: bool) -> usize
    ensures { result ≡ pick wanted (end_from text.now at) (start_from text.now at) }
{
    for i in at..text.len() {
        if is_white(text[i]) == wanted {
            return i;
        }
    }
    at.max(text.len())
}

// ---- one number

// Decimal, or hexadecimal after 0x.
fn read_word(word: &[u8]) -> Option<u64>
    ensures { result ≡ read_word word.now }
{
    match word.strip_prefix(b"0x") {
        Some(digits) => read_digits(digits, 16),
        None => read_digits(word, 10),
    }
}

// Digits to a base: one at least, and no other character. However many there are, no sum wraps.
fn read_digits(digits: &[u8], base: u32) -> Option<u64>
    requires { (1 ≤ base) × (base ≤ 16) }
    ensures { result ≡ read_digits base digits.now }
{
    if digits.is_empty() {
        return None;
    }
    let mut worth: u64 = 0;
    for &b in digits {
        let d = digit_of(b, base)?;
        worth = capped_at(base as u64 * worth + d as u64);
    }
    Some(worth)
}

// 2^32 where it is more.
fn capped_at(worth: u64) -> u64
    ensures { result ≡ capped worth }
{
    worth.min(OVER)
}

// What a character is worth as a digit to a base.
fn digit_of(b: u8, base: u32) -> Option<u32>
    requires { base ≤ 16 }
    ensures { result ≡ digit_to base b }
{
    let digit = match b {
        b'0'..=b'9' => b - b'0',
        b'A'..=b'F' => b - b'A' + 10,
        b'a'..=b'f' => b - b'a' + 10,
        _ => return None,
    };
    if (digit as u32) < base {
        return Some(digit as u32);
    }
    None
}

// ---- white space and comments

pub(crate) fn is_white(b: u8) -> bool
    ensures { result ≡ white b }
{
    matches!(b, b' ' | b'\t' | b'\r' | b'\n')
}

// The text with each byte of a comment made a space.
pub(crate) fn strip(text: &[u8], out: &mut [u8]) -> usize
    ensures { (out.new, result) ≡ write (out.old, 0) (bare text.now) }
{
    let mut at: usize = 0;
    let mut inside = false;
    for &b in text {
        let covered = inside | (b == b'#');
        at = text::put(out, at, shown(covered, b));
        inside = covered & (b != b'\n');
    }
    at
}

fn shown(covered: bool, b: u8) -> u8
    ensures { result ≡ pick covered 32 b }
{
    if covered {
        return text::SPACE;
    }
    b
}

// The line that leads to the slip of a typed table: in which line of the text it stands, and what was expected there (docs/STACK.md).
ghost use Rattle.std.specs.Prelude.{◌≡◌, ◌++◌, ◌≤◌, eqb, length, get_or};
ghost use Rattle.words.specs.Counting.{one};
ghost use Rattle.text.specs.Text.{write, laid};
ghost use Rattle.text.specs.Phrases.{bytes, counted};
ghost use Rattle.tables.specs.Slips.{line_of, limit_of, goes_over, over_in, shortened, between, over_words, line_over, expected_words, fault_line, slip_in, slip_line};

const NUMBERS: usize = 98;

const MARK: usize = 97;

const FORCED: usize = 96;

// The line of a refused table, from the start of the buffer on, and nothing of a table that is fine; answers how many bytes were written.
pub fn put_slip(out: &mut [u8], text: &[u8]) -> usize
    ensures { (out.new, result) ≡ laid out.old (slip_line text.now) }
{
    if super::MOST < text.len() {
        return text::put_all(out, 0, b"the text is longer than 65536 bytes\n");
    }
    let mut room = [0u8; 65536];
    let n = super::names::clear(text, &mut room);
    put_slip_in(out, text, &room[..n])
}

// The same of a text whose names and comments are spaces beside it.
fn put_slip_in(out: &mut [u8], text: &[u8], cleared: &[u8]) -> usize
    requires { length cleared.now ≤ 65536 }
    ensures { (out.new, result) ≡ write (out.old, 0) (slip_in text.now cleared.now) }
{
    match super::read_values(cleared) {
        Ok(_) => put_over(out, text, cleared, first_over(cleared)),
        Err(fault) => put_fault(out, text, cleared, fault.count),
    }
}

// ---- a slip of the typing

// The line of the nth word, which is at fault.
fn put_fault(out: &mut [u8], text: &[u8], cleared: &[u8], n: usize) -> usize
    requires { length cleared.now ≤ 65536 }
    ensures { (out.new, result) ≡ write (out.old, 0) (fault_line text.now cleared.now n) }
{
    let w = super::read_next(cleared, super::names::past_nth(cleared, n));
    let quote = super::names::byte_or(cleared, w.start, 0) == b'"';
    let a = put_line(out, text, w.start);
    let b = put_expected(out, a, quote, n, w.number.is_some());
    text::put(out, b, text::NEWLINE)
}

fn put_expected(out: &mut [u8], at: usize, quote: bool, n: usize, number: bool) -> usize
    ensures { (out.new, result) ≡ write (out.old, at) (expected_words quote n number) }
{
    if quote {
        return text::put_all(
            out,
            at,
            b"a name has 1 to 24 characters and stands behind a source's three numbers",
        );
    }
    if n == NUMBERS {
        return text::put_all(out, at, b"nothing may follow the mark's frame");
    }
    if number {
        return text::put_all(out, at, b"the word of forced sources has more than 32 bits");
    }
    text::put_all(out, at, b"a number was expected")
}

// ---- a number over its limit

// The line of the number that is over its limit, where one is.
fn put_over(out: &mut [u8], text: &[u8], cleared: &[u8], over: Option<usize>) -> usize
    requires { length cleared.now ≤ 65536 }
    ensures { (out.new, result) ≡ write (out.old, 0) (line_over text.now cleared.now over) }
{
    let Some(n) = over else {
        return 0;
    };
    let w = super::read_next(cleared, super::names::past_nth(cleared, n));
    let start = w.start;
    let end = w.past;
    let a = put_line(out, text, start);
    let b = put_over_words(out, a, n, &cleared[start..end]);
    text::put(out, b, text::NEWLINE)
}

fn put_over_words(out: &mut [u8], at: usize, n: usize, word: &[u8]) -> usize
    ensures { (out.new, result) ≡ write (out.old, at) (over_words n word.now) }
{
    if n == MARK {
        return put_between(out, at, b"frame ", word, b" of the mark is over 65535");
    }
    if n % 3 == 0 {
        return put_between(out, at, b"priority ", word, b" is over 7");
    }
    if n % 3 == 1 {
        return put_between(out, at, b"type ", word, b" is over 3");
    }
    put_between(out, at, b"frame ", word, b" is over 65535")
}

fn put_between(out: &mut [u8], at: usize, before: &[u8], word: &[u8], behind: &[u8]) -> usize
    ensures { (out.new, result) ≡ write (out.old, at) (between before.now word.now behind.now) }
{
    let a = text::put_all(out, at, before);
    let b = put_shortened(out, a, word);
    text::put_all(out, b, behind)
}

// At most 20 characters of a word.
fn put_shortened(out: &mut [u8], at: usize, word: &[u8]) -> usize
    ensures { (out.new, result) ≡ write (out.old, at) (shortened word.now) }
{
    if word.len() <= 20 {
        return text::put_all(out, at, word);
    }
    let next = text::put_all(out, at, &word[..20]);
    text::put_all(out, next, b"..")
}

// The first of the 98 numbers that is over its limit.
fn first_over(cleared: &[u8]) -> Option<usize>
    ensures { result ≡ over_in cleared.now }
{
    let mut past: usize = 0;
    for n in 0..NUMBERS {
        let next = super::read_next(cleared, past);
        if is_over(n, next.number) {
            return Some(n);
        }
        past = next.past;
    }
    None
}

fn is_over(n: usize, number: Option<u64>) -> bool
    ensures { result ≡ goes_over n number }
{
    match number {
        Some(value) => (n != FORCED) & (limit_of(n) < value),
        None => false,
    }
}

// The most that the nth number may be.
fn limit_of(n: usize) -> u64
    ensures { result ≡ limit_of n }
{
    if n == MARK {
        return 65535;
    }
    if n % 3 == 0 {
        return 7;
    }
    if n % 3 == 1 {
        return 3;
    }
    65535
}

// ---- which line of the text

// The line of an offset, and a colon.
fn put_line(out: &mut [u8], text: &[u8], at: usize) -> usize
    requires { at ≤ 65536 }
    ensures { (out.new, result) ≡ write (out.old, 0) (counted (bytes "line ") (line_of text.now at) ++ bytes ": ") }
{
    let n = line_of(text, at);
    let a = text::put_all(out, 0, b"line ");
    let b = text::put_decimal(out, a, n as u64);
    text::put_all(out, b, b": ")
}

fn line_of(text: &[u8], at: usize) -> usize
    requires { at ≤ 65536 }
    ensures { result ≡ line_of text.now at }
{
    let mut lines: usize = 1;
    for k in 0..at {
        lines += feeds_at(text, k);
    }
    lines
}

// 1 where a line feed stands, else 0.
fn feeds_at(text: &[u8], k: usize) -> usize
    ensures { result ≡ one (eqb (get_or text.now k 0) 10) }
{
    if super::names::byte_or(text, k, 0) == b'\n' {
        return 1;
    }
    0
}

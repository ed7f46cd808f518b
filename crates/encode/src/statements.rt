// The text form of a trace, one line: its words are read as a statement, and the numbers that it stands for are written as bytes (docs/TEXT.md).
ghost use Rattle.std.specs.Prelude.{◌≡◌, length};
ghost use Rattle.text.specs.Text.{write};
ghost use Rattle.trace.specs.Steps.{operands_of};
ghost use Rattle.encode.specs.Bytes.{groups, shortest, bytes_of};
ghost use Rattle.encode.specs.Words.{same, no_kind, kind_of, no_step, step_of};
ghost use Rattle.encode.specs.Statements.{place_from, values_in};
ghost use Rattle.encode.specs.Statements.{silent, astray, controller_by, step_by, by_numbers};
ghost use Rattle.encode.specs.Passes.{number_of, unless, opened, opens_as, opening_in, by_opened, short_of, numbers_in};
ghost use Rattle.encode.specs.declared.statements.Expected.TheVariants.{Controller, Step};
ghost use Rattle.encode.specs.Statements.{statement_in, statement_of, numbers_of, bytes_in};

// What a line says: what was expected in it and as which word, counted from 1; the controller's kind behind it; the number of its first word, how many
// words it has, and how many bytes they take.
// What was expected and the kind are numbers, 0 and 5 for none: `statement_of` is a documented function, and the promises state this record.
#[derive(Clone, Copy)]
pub struct Statement {
    pub expected: u32,
    pub word: usize,
    pub kind: u32,
    pub first: u32,
    pub words: usize,
    pub size: usize,
}

// What the first word of a statement says: the controller's kind, its own number, and how many numbers follow it.
#[derive(Clone, Copy)]
struct Opening {
    kind: u32,
    first: u32,
    numbers: u32,
}

// Where the word behind the numbers of a line begins, and how many bytes the numbers take.
#[derive(Clone, Copy)]
struct Numbers {
    start: usize,
    size: usize,
}

// What may be expected in a text.
#[derive(Clone, Copy)]
pub enum Expected {
    Controller,
    Step,
    Number,
    LineEnd,
    ShorterTrace,
    ShorterText,
}

impl Expected {
    // Its number in a refusal.
    pub fn number(self) -> u32
        ensures { result ≡ number_of self }
    {
        match self {
            Expected::Controller => 1,
            Expected::Step => 2,
            Expected::Number => 3,
            Expected::LineEnd => 4,
            Expected::ShorterTrace => 5,
            Expected::ShorterText => 6,
        }
    }
}

// Nothing is expected of a line that is as it should be.
pub const AS_IT_SHOULD_BE: u32 = 0;

// No kind: a text has it before its controller is named.
pub const NO_KIND: u32 = 5;

// The first number over 32 bits.
const OVER: u64 = 4294967296;

// ---- statements

// The statement of a line, of a text that has named this kind.
pub fn statement_of(kind: u32, line: &[u8]) -> Statement
    ensures { result ≡ statement_of kind line.now }
{
    let stop = find(line, 0, b'#');
    statement_in(kind, &line[..stop])
}

// The same without a comment.
fn statement_in(kind: u32, line: &[u8]) -> Statement
    ensures { result ≡ statement_in kind line.now }
{
    let first = tables::read_next(line, 0);
    let start = first.start;
    let past = first.past;
    if start == line.len() {
        return says_nothing(kind);
    }
    by_opening(line, opening_of(kind, &line[start..past]))
}

// What is expected, by its number, and as which word.
pub fn goes_astray(expected: u32, word: usize) -> Statement
    ensures { result ≡ astray expected word }
{
    Statement {
        expected,
        word,
        kind: NO_KIND,
        first: 0,
        words: 0,
        size: 0,
    }
}

// The same of what is expected.
pub(crate) fn expects(expected: Expected, word: usize) -> Statement
    ensures { result ≡ astray (number_of expected) word }
{
    goes_astray(expected.number(), word)
}

fn says_nothing(kind: u32) -> Statement
    ensures { result ≡ silent kind }
{
    Statement {
        expected: AS_IT_SHOULD_BE,
        word: 0,
        kind,
        first: 0,
        words: 0,
        size: 0,
    }
}

// What the first word says, and the rest.
fn by_opening(line: &[u8], opening: Result<Opening, Expected>) -> Statement
    ensures { result ≡ by_opened line.now opening }
{
    match opening {
        Ok(o) => by_numbers(line, o),
        Err(expected) => expects(expected, 1),
    }
}

// The numbers behind the first word, and nothing behind them.
fn by_numbers(line: &[u8], o: Opening) -> Statement
    ensures { result ≡ by_numbers line.now (opened o) }
{
    let n = match numbers_in(line, o.numbers) {
        Ok(n) => n,
        Err(count) => return expects(Expected::Number, count as usize + 2),
    };
    if n.start < line.len() {
        return expects(Expected::LineEnd, o.numbers as usize + 2);
    }
    Statement {
        expected: AS_IT_SHOULD_BE,
        word: 0,
        kind: o.kind,
        first: o.first,
        words: o.numbers as usize + 1,
        size: size_of(o.first) + n.size,
    }
}

// ---- its first word

// The controller where none is named yet, else a step.
fn opening_of(kind: u32, word: &[u8]) -> Result<Opening, Expected>
    ensures { result ≡ opening_in kind word.now }
{
    if kind == NO_KIND {
        return controller_by(word);
    }
    step_by(kind, word)
}

fn controller_by(word: &[u8]) -> Result<Opening, Expected>
    ensures { result ≡ opens_as Controller (controller_by (kind_of word.now)) }
{
    let Some(kind) = kind_of(word) else {
        return Err(Expected::Controller);
    };
    Ok(Opening {
        kind,
        first: kind,
        numbers: kinds::wanted(kind),
    })
}

fn step_by(kind: u32, word: &[u8]) -> Result<Opening, Expected>
    ensures { result ≡ opens_as Step (step_by kind (step_of word.now)) }
{
    let Some(step) = step_of(word) else {
        return Err(Expected::Step);
    };
    Ok(Opening {
        kind,
        first: step,
        numbers: operands(kinds::tells_privilege(kind), step),
    })
}

// How many numbers go with a step; each offset has a privilege behind it where one is told.
fn operands(told: bool, step: u32) -> u32
    ensures { result ≡ operands_of told step }
{
    if step == trace::READ {
        if told {
            return 2;
        }
        return 1;
    }
    if step == trace::WRITE {
        if told {
            return 3;
        }
        return 2;
    }
    if step == trace::LINE {
        return 2;
    }
    0
}

// The kind of controller that a word names.
fn kind_of(word: &[u8]) -> Option<u32>
    ensures { result ≡ unless no_kind (kind_of word.now) }
{
    if is_same(word, b"aic") {
        return Some(kinds::AIC);
    }
    if is_same(word, b"coreinterrupt") {
        return Some(kinds::CORE);
    }
    if is_same(word, b"cic") {
        return Some(kinds::CIC);
    }
    if is_same(word, b"aintc") {
        return Some(kinds::AINTC);
    }
    if is_same(word, b"indexed") {
        return Some(kinds::INDEXED);
    }
    None
}

// The kind of step that a word names.
fn step_of(word: &[u8]) -> Option<u32>
    ensures { result ≡ unless no_step (step_of word.now) }
{
    if is_same(word, b"read") {
        return Some(trace::READ);
    }
    if is_same(word, b"write") {
        return Some(trace::WRITE);
    }
    if is_same(word, b"line") {
        return Some(trace::LINE);
    }
    None
}

fn is_same(a: &[u8], b: &[u8]) -> bool
    ensures { result ≡ same a.now b.now }
{
    a == b
}

// ---- the numbers behind it

// The n numbers behind the first word; or how many come before the first that is none of 32 bits.
fn numbers_in(line: &[u8], n: u32) -> Result<Numbers, u32>
    ensures { result ≡ numbers_in line.now n }
{
    let first = tables::read_next(line, 0);
    let mut past = first.past;
    let mut size: usize = 0;
    for k in 0..n {
        let next = tables::read_next(line, past);
        let Some(value) = fitting(next.number) else {
            return Err(k);
        };
        size += size_of(value);
        past = next.past;
    }
    Ok(Numbers {
        start: tables::seek(line, past, false),
        size,
    })
}

// A number of 32 bits.
fn fitting(number: Option<u64>) -> Option<u32>
    ensures { result ≡ short_of number }
{
    let value = number?;
    if value < OVER {
        return Some(tables::entered_as(value));
    }
    None
}

// The first place from `at` on where a byte stands.
pub fn find(text: &[u8], at: usize, b: u8) -> usize
    ensures { result ≡ place_from b text.now at }
{
    for i in at..text.len() {
        if text[i] == b {
            return i;
        }
    }
    at.max(text.len())
}

// ---- bytes

// The bytes of a statement of a line.
pub fn put_statement(out: &mut [u8], at: usize, line: &[u8], first: u32, words: usize) -> usize
    ensures { (out.new, result) ≡ write (out.old, at) (bytes_in line.now first words) }
{
    let stop = find(line, 0, b'#');
    put_words(out, at, &line[..stop], first, words)
}

// The same without a comment.
fn put_words(out: &mut [u8], at: usize, line: &[u8], first: u32, words: usize) -> usize
    ensures { (out.new, result) ≡ write (out.old, at) (bytes_of (numbers_of line.now first words)) }
{
    if words == 0 {
        return at;
    }
    let next = put_number(out, at, first);
    put_values(out, next, line, words - 1)
}

// The numbers of n words behind the first.
fn put_values(out: &mut [u8], at: usize, line: &[u8], n: usize) -> usize
    ensures { (out.new, result) ≡ write (out.old, at) (bytes_of (values_in line.now n)) }
{
    let first = tables::read_next(line, 0);
    let mut past = first.past;
    let mut place = at;
    for k in 0..n {
        let next = tables::read_next(line, past);
        place = put_number(out, place, tables::entered_as(next.number.unwrap_or(0)));
        past = next.past;
    }
    place
}

// A number in its shortest form.
fn put_number(out: &mut [u8], at: usize, v: u32) -> usize
    ensures { (out.new, result) ≡ write (out.old, at) (shortest v) }
{
    put_groups(out, at, v, 5)
}

// Its groups of seven bits, at most so many.
fn put_groups(out: &mut [u8], at: usize, v: u32, most: u32) -> usize
    ensures { (out.new, result) ≡ write (out.old, at) (groups most v) }
{
    if most == 0 {
        return at;
    }
    if v < 128 {
        return text::put(out, at, v as u8);
    }
    let next = text::put(out, at, 128 + (v % 128) as u8);
    put_groups(out, next, v / 128, most - 1)
}

// How many bytes the shortest form of a number takes.
fn size_of(v: u32) -> usize
    ensures { result ≡ length (shortest v) }
{
    if v < 128 {
        return 1;
    }
    if v < 16384 {
        return 2;
    }
    if v < 2097152 {
        return 3;
    }
    if v < 268435456 {
        return 4;
    }
    5
}

// A trace that is typed as text, a statement to a line, as bytes in a buffer that the caller lends; or what was expected in the text, and in which line
// (docs/TEXT.md).
#![tactic(auto)]

ghost use Rattle.std.specs.Prelude.{◌≡◌, ◌≤◌};
ghost use Rattle.text.specs.Text.{write, laid};
ghost use Rattle.encode.specs.Encode.{longest_trace, room_for, line_of, ended_by, encoded};
ghost use Rattle.encode.specs.Lines.{expected_words, refused_line};

pub mod statements;

use statements::{Expected, Statement};

// What was expected, 0 where nothing else was; the line, and the word in it, each counted from 1. They are numbers, as `wisteria_encode` hands them to C.
#[derive(Clone, Copy)]
pub struct Refusal {
    pub expected: u32,
    pub line: usize,
    pub word: usize,
}

// What came of a text: its refusal, and how many bytes of the statements before that, or of all, are in the buffer.
#[derive(Clone, Copy)]
pub struct Encoded {
    pub refusal: Refusal,
    pub bytes: usize,
}

// The most bytes of a text, and of a trace.
pub const LONGEST_TEXT: usize = 5242880;

pub const LONGEST_TRACE: usize = 65536;

// The bytes of a text, from the start of the buffer on, and what came of it; what finds no room is dropped.
pub fn encode(text: &[u8], out: &mut [u8]) -> Encoded
    ensures { (result.refusal ≡ (encoded text.now).refusal) × ((out.new, result.bytes) ≡ laid out.old (encoded text.now).bytes) }
{
    let mut place: usize = 0;
    let mut kind = statements::NO_KIND;
    let mut size: usize = 0;
    let mut lines: usize = 0;
    let mut at: usize = 0;
    while at <= text.len() {
        let end = statements::find(text, at, b'\n');
        let s = line_of(&text[at..end], end, kind, size);
        if s.expected != statements::AS_IT_SHOULD_BE {
            let r = Refusal {
                expected: s.expected,
                line: lines + 1,
                word: s.word,
            };
            return Encoded {
                refusal: r,
                bytes: place,
            };
        }
        place = statements::put_statement(out, place, &text[at..end], s.first, s.words);
        kind = s.kind;
        size += s.size;
        lines += 1;
        at = end + 1;
    }
    let r = ended_by(kind, lines);
    Encoded {
        refusal: r,
        bytes: place,
    }
}

// The statement of a line that ends at an offset, behind so many bytes of the trace.
fn line_of(line: &[u8], end: usize, kind: u32, size: usize) -> Statement
    requires { size ≤ longest_trace }
    ensures { result ≡ line_of end kind size line.now }
{
    if LONGEST_TEXT < end {
        return statements::expects(Expected::ShorterText, 0);
    }
    room_for(size, statements::statement_of(kind, line))
}

// It is taken where the trace does not get too long by it.
fn room_for(size: usize, s: Statement) -> Statement
    requires { size ≤ longest_trace }
    ensures { result ≡ room_for size s }
{
    if LONGEST_TRACE - size < s.size {
        return statements::expects(Expected::ShorterTrace, 0);
    }
    s
}

// At the end of a text its controller has been named.
fn ended_by(kind: u32, lines: usize) -> Refusal
    ensures { result ≡ ended_by kind lines }
{
    if kind == statements::NO_KIND {
        return Refusal {
            expected: Expected::Controller.number(),
            line: lines,
            word: 1,
        };
    }
    Refusal {
        expected: statements::AS_IT_SHOULD_BE,
        line: 0,
        word: 0,
    }
}

// ---- what is said of a refusal

// Its line, from the start of the buffer on.
pub fn put_refusal(out: &mut [u8], r: Refusal) -> usize
    ensures { (out.new, result) ≡ laid out.old (refused_line r) }
{
    let a = text::put_all(out, 0, b"line ");
    let b = text::put_decimal(out, a, r.line as u64);
    let c = put_expected(out, b, r.expected, r.word);
    text::put(out, c, text::NEWLINE)
}

// What was expected.
fn put_expected(out: &mut [u8], at: usize, expected: u32, word: usize) -> usize
    ensures { (out.new, result) ≡ write (out.old, at) (expected_words expected word) }
{
    match expected {
        1 => text::put_all(
            out,
            at,
            b": a controller was expected: aic, coreinterrupt, cic, aintc or indexed",
        ),
        2 => text::put_all(out, at, b": a step was expected: read, write or line"),
        3 => {
            let next = text::put_all(
                out,
                at,
                b": a number of at most 32 bits was expected as word ",
            );
            text::put_decimal(out, next, word as u64)
        }
        4 => {
            let next = text::put_all(out, at, b": the end of the line was expected before word ");
            text::put_decimal(out, next, word as u64)
        }
        5 => text::put_all(out, at, b": the trace is longer than 65536 bytes"),
        _ => text::put_all(out, at, b": the text is longer than 5242880 bytes"),
    }
}

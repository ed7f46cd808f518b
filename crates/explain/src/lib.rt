// A trace explained, as text in a buffer that the caller lends: the statement of each step that is played, and what it did in the maker's words
// (docs/TEXT.md, "A trace explained").
#![tactic(auto)]

ghost use Rattle.std.specs.Prelude.{◌≡◌, [], ◌∷◌, ◌++◌, ◌%◌, replicate};
ghost use Rattle.words.specs.Choice.{pick};
ghost use Rattle.steps.specs.Refusals.{carried_out};
ghost use Rattle.numbers.specs.Promises.{told_at};
ghost use Rattle.text.specs.Text.{space, write, laid, hex_digit, hex_of};
ghost use Rattle.trace.specs.Trace.{steps_from};
ghost use Rattle.kinds.specs.Kinds.{wanted, tells_privilege};
ghost use Rattle.machine.specs.RecordPromises.{Ready};
ghost use Rattle.machine.specs.Steps.{step};
ghost use Rattle.beginning.specs.Begin.{begin_of};
ghost use Rattle.explain.specs.Stated.{offset_digits, hex_field, fields, kind_word, numbers_at, controller, privilege_field, read_stated, write_stated, line_stated, stated_by, stated, gap, to_column};
ghost use Rattle.explain.specs.Explain.{commented, cic_document, document_words, controller_line, reason_words, refused_words, value_words, access_words, did_words, step_words, step_line};
ghost use Rattle.explain.specs.Explain.{end_reason, end_line, shows, lines_from, end_of, text_from, head_of, started_text, explained_by, explained_of, explained_window};

use beginning::Begun;
use machine::Answer;
use machine::record::Machine;
use steps::{Recorded, Step};
use text::NEWLINE;
use trace::Turn;

// All lines; or those of a part, so many steps from one on, counted from 1, and nothing else.
#[derive(Clone, Copy)]
pub enum Window {
    Whole,
    Part { first: u32, steps: u32 },
}

// A number of a trace and the place behind it; 0 and its own place where it is damaged.
#[derive(Clone, Copy)]
struct Said {
    value: u32,
    place: usize,
}

// The explanation of a trace of which at most `limit` steps are played; answers how many bytes were written, and what finds no room is dropped.
pub fn explain(trace: &[u8], limit: u32, out: &mut [u8]) -> usize
    ensures { (out.new, result) ≡ laid out.old (explained_of trace.now limit) }
{
    explain_by(trace, limit, Window::Whole, out)
}

// Its lines of `steps` steps from the step `first` on, counted from 1, and nothing else.
pub fn explain_window(trace: &[u8], limit: u32, first: u32, steps: u32, out: &mut [u8]) -> usize
    ensures { (out.new, result) ≡ laid out.old (explained_window trace.now limit first steps) }
{
    explain_by(trace, limit, Window::Part { first, steps }, out)
}

fn explain_by(trace: &[u8], limit: u32, w: Window, out: &mut [u8]) -> usize
    ensures { (out.new, result) ≡ laid out.old (explained_by w trace.now limit) }
{
    let b = beginning::begin(trace);
    if b.refusal != steps::CARRIED_OUT {
        return put_end(out, 0, w, b.refusal, b.place);
    }
    put_begun(trace, limit, w, b, out)
}

// Of a trace that has begun.
fn put_begun(trace: &[u8], limit: u32, w: Window, b: Begun, out: &mut [u8]) -> usize
    requires { (b ≡ begin_of trace.now) × (b.refusal ≡ carried_out) }
    ensures { (out.new, result) ≡ write (out.old, 0) (started_text w trace.now b.machine (steps_from (tells_privilege b.machine.kind) limit trace.now b.place)) }
{
    let m = b.machine;
    let kind = m.kind;
    let a = put_head(out, w, trace, kind);
    put_steps(trace, limit, w, b.place, m, out, a)
}

// The lines of the steps from a place on, and how they end, on a machine that is known to be sound. The limit falls by one with each step.
fn put_steps(
    trace: &[u8],
    limit: u32,
    w: Window,
    start: usize,
    first: Machine,
    out: &mut [u8],
    from: usize,
) -> usize
    requires { Ready first }
    ensures { (out.new, result) ≡ write (out.old, from) (text_from w (tells_privilege first.kind) 0 first (steps_from (tells_privilege first.kind) limit trace.now start)) }
{
    let told = kinds::tells_privilege(first.kind);
    let mut at = start;
    let mut m = first;
    let mut more = limit;
    let mut number: u32 = 0;
    let mut to = from;
    // A turn ends the loop, and no range: what is left of the limit is what it asks for.
    loop {
        match trace::turn_at(trace, at, more, told) {
            Turn::Ended(refusal, offset) => {
                return put_end(out, to, w, refusal, offset);
            }
            Turn::Found(x, next) => {
                let a = machine::step_sound(m, x);
                at = next;
                more -= 1;
                number += 1;
                to = put_shown(out, to, w, told, number, m, x, a);
                m = a.machine;
            }
        }
    }
}

// ---- the lines

// The controller's, where all lines are shown.
fn put_head(out: &mut [u8], w: Window, trace: &[u8], kind: u32) -> usize
    ensures { (out.new, result) ≡ write (out.old, 0) (head_of w trace.now kind) }
{
    match w {
        Window::Whole => put_controller_line(out, trace, kind),
        Window::Part { .. } => 0,
    }
}

fn put_controller_line(out: &mut [u8], trace: &[u8], kind: u32) -> usize
    ensures { (out.new, result) ≡ write (out.old, 0) (controller_line trace.now kind) }
{
    let mut line = [0u8; 128];
    let n = put_controller(&mut line, trace, kind);
    let a = put_column(out, 0, &line[..n]);
    let b = text::put_all(out, a, b"# ");
    let c = put_document(out, b, kind);
    text::put(out, c, NEWLINE)
}

// That of a step, where it is shown.
fn put_shown(
    out: &mut [u8],
    at: usize,
    w: Window,
    told: bool,
    number: u32,
    m: Machine,
    x: Recorded,
    a: Answer,
) -> usize
    ensures { (out.new, result) ≡ write (out.old, at) (pick (shows w number) (step_line told number m x a) []) }
{
    if shows(w, number) {
        return put_step_line(out, at, told, number, m, x, a);
    }
    at
}

fn shows(w: Window, n: u32) -> bool
    ensures { result ≡ shows w n }
{
    match w {
        Window::Whole => true,
        Window::Part { first, steps } => {
            if n < first {
                return false;
            }
            n - first < steps
        }
    }
}

fn put_step_line(
    out: &mut [u8],
    at: usize,
    told: bool,
    number: u32,
    m: Machine,
    x: Recorded,
    a: Answer,
) -> usize
    ensures { (out.new, result) ≡ write (out.old, at) (step_line told number m x a) }
{
    let mut line = [0u8; 128];
    let n = put_stated(&mut line, told, x);
    let b = put_column(out, at, &line[..n]);
    let c = text::put_all(out, b, b"# ");
    let d = put_step_words(out, c, number, m, x, a);
    text::put(out, d, NEWLINE)
}

// That of a last E, where all lines are shown; nothing where the trace ended without a refusal.
fn put_end(out: &mut [u8], at: usize, w: Window, refusal: u32, offset: usize) -> usize
    ensures { (out.new, result) ≡ write (out.old, at) (end_of w refusal offset) }
{
    match w {
        Window::Whole => {
            if refusal == steps::CARRIED_OUT {
                return at;
            }
            put_end_line(out, at, refusal, offset)
        }
        Window::Part { .. } => at,
    }
}

fn put_end_line(out: &mut [u8], at: usize, refusal: u32, offset: usize) -> usize
    ensures { (out.new, result) ≡ write (out.old, at) (end_line refusal offset) }
{
    let a = text::put_all(out, at, b"# E");
    let b = text::put_field(out, a, refusal as u64);
    let c = text::put_field(out, b, offset as u64);
    let d = text::put_all(out, c, b": ");
    let e = put_end_reason(out, d, refusal);
    text::put(out, e, NEWLINE)
}

fn put_end_reason(out: &mut [u8], at: usize, refusal: u32) -> usize
    ensures { (out.new, result) ≡ write (out.old, at) (end_reason refusal) }
{
    if refusal == steps::LIMIT_REACHED {
        return text::put_all(
            out,
            at,
            b"the limit of steps is reached, and bytes are left",
        );
    }
    if refusal == steps::DAMAGED {
        return text::put_all(
            out,
            at,
            b"a number breaks off here, or has more than 32 bits or five bytes",
        );
    }
    if refusal == steps::UNKNOWN {
        return text::put_all(out, at, b"no controller or step has this number");
    }
    if refusal == steps::MISCONFIGURED {
        return text::put_all(out, at, b"the controller cannot be configured so");
    }
    text::put_all(out, at, b"the trace has more than 65536 bytes")
}

// ---- statements

// The controller's.
fn put_controller(out: &mut [u8], trace: &[u8], kind: u32) -> usize
    ensures { (out.new, result) ≡ write (out.old, 0) (controller kind (numbers_at (wanted kind) trace.now (told_at trace.now 0).place)) }
{
    let a = put_kind(out, 0, kind);
    let first = read_at(trace, 0);
    let n = kinds::wanted(kind);
    put_numbers(out, a, trace, first.place, n)
}

fn put_kind(out: &mut [u8], at: usize, kind: u32) -> usize
    ensures { (out.new, result) ≡ write (out.old, at) (kind_word kind) }
{
    if kind == kinds::AIC {
        return text::put_all(out, at, b"aic");
    }
    if kind == kinds::CORE {
        return text::put_all(out, at, b"coreinterrupt");
    }
    if kind == kinds::CIC {
        return text::put_all(out, at, b"cic");
    }
    if kind == kinds::AINTC {
        return text::put_all(out, at, b"aintc");
    }
    if kind == kinds::INDEXED {
        return text::put_all(out, at, b"indexed");
    }
    at
}

// So many numbers of a trace from a place on.
fn put_numbers(out: &mut [u8], at: usize, trace: &[u8], start: usize, n: u32) -> usize
    ensures { (out.new, result) ≡ write (out.old, at) (fields (numbers_at n trace.now start)) }
{
    let mut to = at;
    let mut place = start;
    for k in 0..n {
        let v = read_at(trace, place);
        to = text::put_field(out, to, v.value as u64);
        place = v.place;
    }
    to
}

fn read_at(trace: &[u8], place: usize) -> Said
    ensures { (result.value ≡ (told_at trace.now place).value) × (result.place ≡ (told_at trace.now place).place) }
{
    match numbers::read_number(trace, place) {
        Ok(n) => Said {
            value: n.value,
            place: n.next,
        },
        Err(fault) => Said {
            value: 0,
            place: fault.at,
        },
    }
}

// A step's.
fn put_stated(out: &mut [u8], told: bool, x: Recorded) -> usize
    ensures { (out.new, result) ≡ write (out.old, 0) (stated told x) }
{
    let step = x.step;
    put_stated_by(out, told, x.privilege, step)
}

fn put_stated_by(out: &mut [u8], told: bool, privilege: u32, step: Step) -> usize
    ensures { (out.new, result) ≡ write (out.old, 0) (stated_by told privilege step) }
{
    match step {
        Step::Read(offset) => put_read(out, told, privilege, offset),
        Step::Write(offset, value) => put_write(out, told, privilege, offset, value),
        Step::Line(line, level) => put_line(out, line, level),
    }
}

fn put_read(out: &mut [u8], told: bool, privilege: u32, offset: u32) -> usize
    ensures { (out.new, result) ≡ write (out.old, 0) (read_stated told privilege offset) }
{
    let a = text::put_all(out, 0, b"read");
    let n = offset_digits(offset);
    let b = put_hex_field(out, a, offset, n);
    put_privilege(out, b, told, privilege)
}

fn put_write(out: &mut [u8], told: bool, privilege: u32, offset: u32, value: u32) -> usize
    ensures { (out.new, result) ≡ write (out.old, 0) (write_stated told privilege offset value) }
{
    let a = text::put_all(out, 0, b"write");
    let n = offset_digits(offset);
    let b = put_hex_field(out, a, offset, n);
    let c = put_privilege(out, b, told, privilege);
    put_hex_field(out, c, value, 8)
}

fn put_line(out: &mut [u8], line: u32, level: u32) -> usize
    ensures { (out.new, result) ≡ write (out.old, 0) (line_stated line level) }
{
    let a = text::put_all(out, 0, b"line");
    let b = text::put_field(out, a, line as u64);
    text::put_field(out, b, level as u64)
}

fn put_privilege(out: &mut [u8], at: usize, told: bool, privilege: u32) -> usize
    ensures { (out.new, result) ≡ write (out.old, at) (privilege_field told privilege) }
{
    if told {
        return text::put_field(out, at, privilege as u64);
    }
    at
}

fn offset_digits(v: u32) -> u32
    ensures { result ≡ offset_digits v }
{
    if v < 0x1000 {
        return 3;
    }
    if v < 0x10000 {
        return 4;
    }
    if v < 0x100000 {
        return 5;
    }
    if v < 0x1000000 {
        return 6;
    }
    if v < 0x10000000 {
        return 7;
    }
    8
}

fn put_hex_field(out: &mut [u8], at: usize, v: u32, digits: u32) -> usize
    ensures { (out.new, result) ≡ write (out.old, at) (hex_field digits v) }
{
    let a = text::put_all(out, at, b" 0x");
    put_digits(out, a, v, digits)
}

// The last hexadecimal digits of v, so many of them.
fn put_digits(out: &mut [u8], at: usize, v: u32, digits: u32) -> usize
    ensures { (out.new, result) ≡ write (out.old, at) (hex_of digits v) }
{
    if digits == 0 {
        return at;
    }
    let next = put_digits(out, at, v / 16, digits - 1);
    put_digit(out, next, v)
}

// The last of them.
fn put_digit(out: &mut [u8], at: usize, v: u32) -> usize
    ensures { (out.new, result) ≡ write (out.old, at) (hex_digit (v % 16) ∷ []) }
{
    text::put(out, at, text::digit((v % 16) as usize))
}

// A statement, and spaces up to the column of its comment.
fn put_column(out: &mut [u8], at: usize, statement: &[u8]) -> usize
    ensures { (out.new, result) ≡ write (out.old, at) (to_column statement.now) }
{
    let a = text::put_all(out, at, statement);
    put_spaces(out, a, gap(statement.len()))
}

fn gap(n: usize) -> usize
    ensures { result ≡ gap n }
{
    if 28 <= n {
        return 1;
    }
    28 - n
}

fn put_spaces(out: &mut [u8], at: usize, n: usize) -> usize
    ensures { (out.new, result) ≡ write (out.old, at) (replicate n space) }
{
    let mut to = at;
    for k in 0..n {
        to = text::put(out, to, text::SPACE);
    }
    to
}

// ---- comments

// The maker's document.
fn put_document(out: &mut [u8], at: usize, kind: u32) -> usize
    ensures { (out.new, result) ≡ write (out.old, at) (document_words kind) }
{
    if kind == kinds::AIC {
        return text::put_all(
            out,
            at,
            b"003: Advanced Interrupt Controller (AIC), chapter 27 of a data sheet of AT91 products",
        );
    }
    if kind == kinds::CORE {
        return text::put_all(out, at, b"004: Actel, CoreInterrupt, data sheet v2.1");
    }
    if kind == kinds::CIC {
        return put_cic_document(out, at);
    }
    if kind == kinds::AINTC {
        return text::put_all(
            out,
            at,
            b"000: Texas Instruments, KeyStone I Architecture ARM CorePac User Guide, SPRUHC4B",
        );
    }
    if kind == kinds::INDEXED {
        return put_cic_document(out, at);
    }
    at
}

// That of both kinds of CIC.
fn put_cic_document(out: &mut [u8], at: usize) -> usize
    ensures { (out.new, result) ≡ write (out.old, at) cic_document }
{
    text::put_all(
        out,
        at,
        b"001: Texas Instruments, KeyStone Architecture Chip Interrupt Controller (CIC) User Guide, SPRUGW4A",
    )
}

// A step's: its number, where it went, and what it did.
fn put_step_words(
    out: &mut [u8],
    at: usize,
    number: u32,
    m: Machine,
    x: Recorded,
    a: Answer,
) -> usize
    ensures { (out.new, result) ≡ write (out.old, at) (step_words number m x a) }
{
    let b = text::put_decimal(out, at, number as u64);
    let c = register_words::put_place(out, b, m, x);
    put_did(out, c, m, x, a)
}

fn put_did(out: &mut [u8], at: usize, m: Machine, x: Recorded, a: Answer) -> usize
    ensures { (out.new, result) ≡ write (out.old, at) (did_words m x a) }
{
    if a.refusal != steps::CARRIED_OUT {
        return put_refused(out, at, m, x, a.refusal);
    }
    let step = x.step;
    let b = put_access(out, at, m, x, a.value, step);
    let after = a.machine;
    let c = deeds::put_deeds(out, b, m, x, after);
    deeds::put_outputs(out, c, m, after)
}

// What an access read or wrote.
fn put_access(out: &mut [u8], at: usize, m: Machine, x: Recorded, value: u32, step: Step) -> usize
    ensures { (out.new, result) ≡ write (out.old, at) (access_words m x value step) }
{
    match step {
        Step::Read(_) => put_value(out, at, value),
        Step::Write(_, _) => register_words::put_fields(out, at, m, x),
        Step::Line(_, _) => at,
    }
}

fn put_value(out: &mut [u8], at: usize, value: u32) -> usize
    ensures { (out.new, result) ≡ write (out.old, at) (value_words value) }
{
    let a = text::put_all(out, at, b" = 0x");
    text::put_hex(out, a, value)
}

fn put_refused(out: &mut [u8], at: usize, m: Machine, x: Recorded, refusal: u32) -> usize
    ensures { (out.new, result) ≡ write (out.old, at) (refused_words m x refusal) }
{
    let a = text::phrases::put_counted(out, at, b" refused by ", refusal);
    let b = text::put_all(out, a, b": ");
    put_reason(out, b, m, x, refusal)
}

// Why, by the number of the refusal.
fn put_reason(out: &mut [u8], at: usize, m: Machine, x: Recorded, refusal: u32) -> usize
    ensures { (out.new, result) ≡ write (out.old, at) (reason_words m x refusal) }
{
    if refusal == steps::MISALIGNED {
        return text::put_all(out, at, b"the offset is no multiple of 4");
    }
    if refusal == steps::ABSENT {
        return text::put_all(out, at, b"no register at this offset");
    }
    if refusal == steps::UNREADABLE {
        return text::put_all(out, at, b"this register can only be written");
    }
    if refusal == steps::UNWRITABLE {
        return text::put_all(out, at, b"this register can only be read");
    }
    if refusal == steps::BEYOND {
        return register_words::put_limit(out, at, m, x);
    }
    if refusal == steps::UNPRIVILEGED {
        return text::put_all(out, at, b"only a privileged access may do this");
    }
    text::put_all(out, at, b"a step that no rule takes")
}

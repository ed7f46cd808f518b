// What a step touches, in words: the register or the line, the fields of a write, and which number is beyond its limit (docs/TEXT.md).
#![tactic(auto)]

ghost use Rattle.std.specs.Prelude.{◌≡◌, eqb};
ghost use Rattle.words.specs.Choice.{pick};
ghost use Rattle.text.specs.Text.{write};
ghost use Rattle.register_names.specs.Rows.{place_in};
ghost use Rattle.register_names.specs.Maps.{cic_rows, index_rows};
ghost use Rattle.register_words.specs.Registers.{register_words, sizes_of, below, input_words, line_words, place_words, written_words, field_words, beyond_words, access_words, level_words, limit_words};

use cic_record::Cic;
use machine::record::Machine;
use register_names::Sizes;
use steps::{Recorded, Step};

pub mod fields;

// ---- the place

// Name and section of a register, or the line, behind a space; nothing where there is none.
pub fn put_place(out: &mut [u8], at: usize, m: Machine, x: Recorded) -> usize
    ensures { (out.new, result) ≡ write (out.old, at) (place_words m x) }
{
    match x.step {
        Step::Read(o) => put_register(out, at, m, false, o),
        Step::Write(o, _) => put_register(out, at, m, true, o),
        Step::Line(k, _) => put_line(out, at, m, k),
    }
}

// The register at an offset.
fn put_register(out: &mut [u8], at: usize, m: Machine, written: bool, o: u32) -> usize
    ensures { (out.new, result) ≡ write (out.old, at) (register_words m written o) }
{
    match m.kind {
        kinds::AIC => register_names::put_aic(out, at, o, written),
        kinds::CORE => register_names::put_core(out, at, o),
        kinds::CIC => register_names::put_cic(out, at, o, written, sizes_of(m.cic)),
        kinds::AINTC => register_names::put_aintc(out, at, o, written),
        kinds::INDEXED => put_indexed(out, at, m, written, o),
        _ => at,
    }
}

// Where the choice is on, those of prioritised indices too.
fn put_indexed(out: &mut [u8], at: usize, m: Machine, written: bool, o: u32) -> usize
    ensures { (out.new, result) ≡ write (out.old, at) (pick (eqb m.held.choice 1) (place_in (index_rows written m.cic.systems m.cic.channels m.cic.hosts) o) (place_in (cic_rows written m.cic.systems m.cic.channels m.cic.hosts) o)) }
{
    let n = sizes_of(m.cic);
    if m.held.choice == 1 {
        return register_names::put_indices(out, at, o, written, n);
    }
    register_names::put_cic(out, at, o, written, n)
}

// What the configuration of a CIC counts.
fn sizes_of(c: Cic) -> Sizes
    ensures { result ≡ sizes_of c }
{
    Sizes {
        systems: c.systems,
        channels: c.channels,
        hosts: c.hosts,
    }
}

// A line that there is.
fn put_line(out: &mut [u8], at: usize, m: Machine, k: u32) -> usize
    ensures { (out.new, result) ≡ write (out.old, at) (line_words m k) }
{
    match m.kind {
        kinds::AIC => put_below(out, at, 32, b" source ", k),
        kinds::CORE => put_input(out, at, k),
        kinds::CIC => put_below(out, at, m.cic.systems, b" system ", k),
        kinds::AINTC => put_below(out, at, 128, b" input ", k),
        kinds::INDEXED => put_below(out, at, m.cic.systems, b" system ", k),
        _ => at,
    }
}

fn put_below(out: &mut [u8], at: usize, n: u32, what: &[u8], k: u32) -> usize
    ensures { (out.new, result) ≡ write (out.old, at) (below n what.now k) }
{
    if k < n {
        return text::phrases::put_counted(out, at, what, k);
    }
    at
}

// An input of a CoreInterrupt.
fn put_input(out: &mut [u8], at: usize, k: u32) -> usize
    ensures { (out.new, result) ≡ write (out.old, at) (input_words k) }
{
    if k < 32 {
        return text::phrases::put_counted(out, at, b" IRQ input ", k);
    }
    if k < 40 {
        return text::phrases::put_counted(out, at, b" FIQ input ", k - 32);
    }
    at
}

// ---- the fields

// Those of a write that is carried out, behind a semicolon; nothing of other steps, and of registers without fields.
pub fn put_fields(out: &mut [u8], at: usize, m: Machine, x: Recorded) -> usize
    ensures { (out.new, result) ≡ write (out.old, at) (field_words m x) }
{
    match x.step {
        Step::Read(_) => at,
        Step::Write(o, v) => put_written(out, at, m, o, v),
        Step::Line(_, _) => at,
    }
}

fn put_written(out: &mut [u8], at: usize, m: Machine, o: u32, v: u32) -> usize
    ensures { (out.new, result) ≡ write (out.old, at) (written_words m o v) }
{
    match m.kind {
        kinds::AIC => fields::put_aic(out, at, m.aic.external, o, v),
        kinds::CORE => fields::put_core(out, at, m.core.fiq.count, m.core.irq.count, o, v),
        kinds::CIC => fields::put_cic(out, at, sizes_of(m.cic), o, v),
        kinds::AINTC => fields::put_aintc(out, at, o, v),
        kinds::INDEXED => fields::put_indexed(out, at, sizes_of(m.cic), o, v),
        _ => at,
    }
}

// ---- what is beyond its limit

// Of a step that is refused by 6.
pub fn put_limit(out: &mut [u8], at: usize, m: Machine, x: Recorded) -> usize
    ensures { (out.new, result) ≡ write (out.old, at) (limit_words m x) }
{
    match x.step {
        Step::Read(o) => put_access(out, at, m.kind, x.privilege, o),
        Step::Write(o, _) => put_access(out, at, m.kind, x.privilege, o),
        Step::Line(_, l) => put_level(out, at, l),
    }
}

fn put_level(out: &mut [u8], at: usize, l: u32) -> usize
    ensures { (out.new, result) ≡ write (out.old, at) (level_words l) }
{
    if 1 < l {
        return text::put_all(out, at, b"a level is 0 or 1");
    }
    text::put_all(out, at, b"no such line")
}

fn put_access(out: &mut [u8], at: usize, kind: u32, privilege: u32, o: u32) -> usize
    ensures { (out.new, result) ≡ write (out.old, at) (access_words kind privilege o) }
{
    if 1 < privilege {
        return text::put_all(out, at, b"a privilege is 0 or 1");
    }
    if (kind == kinds::CIC) | (kind == kinds::INDEXED) {
        return put_beyond(out, at, o);
    }
    text::put_all(out, at, b"a number is beyond its limit")
}

fn put_beyond(out: &mut [u8], at: usize, o: u32) -> usize
    ensures { (out.new, result) ≡ write (out.old, at) (beyond_words o) }
{
    if o < 0x020 {
        return text::put_all(out, at, b"a number is beyond its limit");
    }
    if o < 0x030 {
        return text::put_all(out, at, b"no such system");
    }
    if o < 0x400 {
        return text::put_all(out, at, b"no such host");
    }
    if o < 0x800 {
        return text::put_all(out, at, b"a byte names no channel");
    }
    if o < 0x900 {
        return text::put_all(out, at, b"a byte names no host");
    }
    text::put_all(out, at, b"a number is beyond its limit")
}

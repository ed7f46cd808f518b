// The heading and the ticks of a dump for each kind of controller, as text in a buffer that the caller lends.
ghost use Rattle.std.specs.Prelude.{◌≡◌};
ghost use Rattle.text.specs.Text.{write};
ghost use Rattle.vcd.specs.Dump.{heading, declarations, first_tick, next_tick};
ghost use Rattle.kinds.specs.Kinds.{name};
ghost use Rattle.waves.specs.Signals.{own_rows, declared_of, signals, widths};

use super::names;

// What is declared of a kind, in a scope of its name.
pub(crate) fn put_heading(out: &mut [u8], at: usize, kind: u32) -> usize
    ensures { (out.new, result) ≡ write (out.old, at) (heading (name kind) (signals kind)) }
{
    let a = vcd::put_opening(out, at);
    let b = text::put_all(out, a, b"$scope module ");
    let c = kinds::put_name(out, b, kind);
    let d = text::put_all(out, c, b"$end\n");
    let e = names::put_every(out, d);
    let f = put_own(out, e, kind);
    let g = text::put_all(out, f, b"$upscope $end\n");
    vcd::put_declared(out, g)
}

// Those that a kind has beside them; a CIC has the same with prioritised indices and without.
fn put_own(out: &mut [u8], at: usize, kind: u32) -> usize
    ensures { (out.new, result) ≡ write (out.old, at) (declarations 3 (declared_of (own_rows kind))) }
{
    if kind == kinds::AIC {
        return names::put_aic(out, at);
    }
    if kind == kinds::CORE {
        return names::put_core(out, at);
    }
    if kind == kinds::CIC {
        return names::put_cic(out, at);
    }
    if kind == kinds::AINTC {
        return names::put_aintc(out, at);
    }
    if kind == kinds::INDEXED {
        return names::put_cic(out, at);
    }
    at
}

// Tick 0, of the signals of a kind.
pub(crate) fn put_first(out: &mut [u8], at: usize, kind: u32, values: &[u32; 11]) -> usize
    ensures { (out.new, result) ≡ write (out.old, at) (first_tick (widths kind) values.now) }
{
    vcd::put_first(out, at, super::signals::widths(kind), values)
}

// Tick n: what changed since the values before.
pub(crate) fn put_next(
    out: &mut [u8],
    at: usize,
    kind: u32,
    n: u32,
    before: &[u32; 11],
    values: &[u32; 11],
) -> usize
    ensures { (out.new, result) ≡ write (out.old, at) (next_tick n (widths kind) before.now values.now) }
{
    vcd::put_next(out, at, n, super::signals::widths(kind), before, values)
}

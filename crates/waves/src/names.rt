// What is declared of each kind of controller, as text in a buffer that the caller lends: the names of its signals, in the order of its table.
ghost use Rattle.std.specs.Prelude.{◌≡◌};
ghost use Rattle.text.specs.Text.{write};
ghost use Rattle.vcd.specs.Dump.{declarations};
ghost use Rattle.waves.specs.Signals.{of_every, of_aic as aic_rows, of_core as core_rows, of_cic as cic_rows, of_aintc as aintc_rows, declared_of};

// The signals of every kind.
pub(crate) fn put_every(out: &mut [u8], at: usize) -> usize
    ensures { (out.new, result) ≡ write (out.old, at) (declarations 0 (declared_of of_every)) }
{
    let a = vcd::put_declaration(out, at, 0, b"refusal", 8);
    let b = vcd::put_declaration(out, a, 1, b"value", 32);
    vcd::put_declaration(out, b, 2, b"step", 8)
}

// Those of an AIC beside them.
pub(crate) fn put_aic(out: &mut [u8], at: usize) -> usize
    ensures { (out.new, result) ≡ write (out.old, at) (declarations 3 (declared_of aic_rows)) }
{
    let a = vcd::put_declaration(out, at, 3, b"irq", 1);
    let b = vcd::put_declaration(out, a, 4, b"fiq", 1);
    let c = vcd::put_declaration(out, b, 5, b"entries", 4);
    let d = vcd::put_declaration(out, c, 6, b"source", 5);
    let e = vcd::put_declaration(out, d, 7, b"level", 8);
    let f = vcd::put_declaration(out, e, 8, b"lines", 32);
    let g = vcd::put_declaration(out, f, 9, b"pending", 32);
    vcd::put_declaration(out, g, 10, b"enabled", 32)
}

// Of a CoreInterrupt.
pub(crate) fn put_core(out: &mut [u8], at: usize) -> usize
    ensures { (out.new, result) ≡ write (out.old, at) (declarations 3 (declared_of core_rows)) }
{
    let a = vcd::put_declaration(out, at, 3, b"irq", 1);
    let b = vcd::put_declaration(out, a, 4, b"fiq", 1);
    let c = vcd::put_declaration(out, b, 5, b"irq_raw", 32);
    let d = vcd::put_declaration(out, c, 6, b"irq_status", 32);
    let e = vcd::put_declaration(out, d, 7, b"fiq_raw", 8);
    vcd::put_declaration(out, e, 8, b"fiq_status", 8)
}

// Of a CIC, with prioritised indices or without.
pub(crate) fn put_cic(out: &mut [u8], at: usize) -> usize
    ensures { (out.new, result) ≡ write (out.old, at) (declarations 3 (declared_of cic_rows)) }
{
    let a = vcd::put_declaration(out, at, 3, b"hosts", 9);
    vcd::put_declaration(out, a, 4, b"lowest", 9)
}

// Of an AINTC.
pub(crate) fn put_aintc(out: &mut [u8], at: usize) -> usize
    ensures { (out.new, result) ≡ write (out.old, at) (declarations 3 (declared_of aintc_rows)) }
{
    let a = vcd::put_declaration(out, at, 3, b"irq", 1);
    let b = vcd::put_declaration(out, a, 4, b"fiq", 1);
    let c = vcd::put_declaration(out, b, 5, b"irq_number", 7);
    let d = vcd::put_declaration(out, c, 6, b"irq_priority", 7);
    let e = vcd::put_declaration(out, d, 7, b"fiq_number", 7);
    vcd::put_declaration(out, e, 8, b"fiq_priority", 7)
}

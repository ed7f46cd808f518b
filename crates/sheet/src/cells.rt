// The pieces of the page: a number with its unit, and the cells of figures (02, 11/12).
ghost use Rattle.std.specs.Prelude.{◌≡◌};
ghost use Rattle.text.specs.Text.{write};
ghost use Rattle.text.specs.Phrases.{counted};
ghost use Rattle.sheet.specs.Texts.{amount, cell, cell_of, source_cell, empty_cell};

// A number behind words.
pub(crate) fn put_number(out: &mut [u8], at: usize, words: &[u8], n: u64) -> usize
    ensures { (out.new, result) ≡ write (out.old, at) (counted words.now n) }
{
    let a = text::put_all(out, at, words);
    text::put_decimal(out, a, n)
}

// A number with its unit.
pub(crate) fn put_amount(out: &mut [u8], at: usize, n: u64, unit: &[u8]) -> usize
    ensures { (out.new, result) ≡ write (out.old, at) (amount n unit.now) }
{
    let a = text::put_decimal(out, at, n);
    let b = text::put_all(out, a, b" ");
    text::put_all(out, b, unit)
}

// The cell of a figure.
pub(crate) fn put_cell(out: &mut [u8], at: usize, figure: &[u8], n: u64, unit: &[u8]) -> usize
    ensures { (out.new, result) ≡ write (out.old, at) (cell figure.now n unit.now) }
{
    let a = text::put_all(out, at, b"<td data-figure=\"");
    let b = text::put_all(out, a, figure);
    let c = text::put_all(out, b, b"\">");
    let d = put_amount(out, c, n, unit);
    text::put_all(out, d, b"</td>")
}

// How the cell of a source's figure begins.
pub(crate) fn put_cell_of(out: &mut [u8], at: usize, figure: &[u8], i: u32) -> usize
    ensures { (out.new, result) ≡ write (out.old, at) (cell_of figure.now i) }
{
    let a = text::put_all(out, at, b"<td data-figure=\"");
    let b = text::put_all(out, a, figure);
    let c = text::phrases::put_counted(out, b, b"\" data-source=\"", i);
    text::put_all(out, c, b"\">")
}

// That cell.
pub(crate) fn put_source_cell(
    out: &mut [u8],
    at: usize,
    figure: &[u8],
    i: u32,
    n: u32,
    unit: &[u8],
) -> usize
    ensures { (out.new, result) ≡ write (out.old, at) (source_cell figure.now i n unit.now) }
{
    let a = put_cell_of(out, at, figure, i);
    let b = put_amount(out, a, n as u64, unit);
    text::put_all(out, b, b"</td>")
}

// The same where there is nothing to count.
pub(crate) fn put_empty_cell(out: &mut [u8], at: usize, figure: &[u8], i: u32) -> usize
    ensures { (out.new, result) ≡ write (out.old, at) (empty_cell figure.now i) }
{
    let a = put_cell_of(out, at, figure, i);
    text::put_all(out, a, b"-</td>")
}

// What stands around the columns and bars of a drawing, in a buffer that the caller lends.
ghost use Rattle.std.specs.Prelude.{◌≡◌, ◌≤◌, ◌-◌};
ghost use Rattle.text.specs.Text.{write};
ghost use Rattle.drawing.specs.Frame.{wide, title, axes, signs, head, rows};

use super::shapes;

// What stands beside the steps, of which there are n.
pub(crate) fn put_head(out: &mut [u8], at: usize, first: u32, n: u32) -> usize
    requires { (n ≤ 500) × (first ≤ 65536) }
    ensures { (out.new, result) ≡ write (out.old, at) (head first n) }
{
    let a = put_title(out, at, first, n);
    let b = put_axes(out, a, n);
    put_signs(out, b)
}

// The numbers of the rows, 1 to 8.
pub(crate) fn put_rows(out: &mut [u8], at: usize) -> usize
    ensures { (out.new, result) ≡ write (out.old, at) (rows 8) }
{
    let mut next = at;
    for n in 0..8 {
        next = shapes::put_centred(out, next, 52, 306 - 28 * n, n + 1);
    }
    next
}

// What a column is, and which steps are drawn.
fn put_title(out: &mut [u8], at: usize, first: u32, n: u32) -> usize
    requires { (n ≤ 500) × (first ≤ 65536) }
    ensures { (out.new, result) ≡ write (out.old, at) (title first n) }
{
    let w = wide(n);
    let last = one_less(first + n);
    let a = text::phrases::put_counted(
        out,
        at,
        b"<svg xmlns=\"http://www.w3.org/2000/svg\" font-family=\"sans-serif\" font-size=\"10\" height=\"390\" width=\"",
        w,
    );
    let b = text::put_all(
        out,
        a,
        b"\">\n<rect width=\"100%\" height=\"100%\" fill=\"white\"/>\n",
    );
    let c = text::phrases::put_counted(out, b, b"<text x=\"8\" y=\"14\">AIC, steps ", first);
    let d = text::phrases::put_counted(out, c, b" to ", last);
    text::put_all(
        out,
        d,
        b" of the trace: a column is one step, and shows what holds after it</text>\n",
    )
}

// The names of the rows, and the axes.
fn put_axes(out: &mut [u8], at: usize, n: u32) -> usize
    requires { n ≤ 500 }
    ensures { (out.new, result) ≡ write (out.old, at) (axes n) }
{
    let a = text::put_all(
        out,
        at,
        b"<text x=\"8\" y=\"36\">IRQ</text>\n<text x=\"8\" y=\"56\">FIQ</text>\n<text x=\"8\" y=\"80\">refused by</text>\n<text x=\"8\" y=\"332\">steps</text>\n",
    );
    let b = text::put_all(
        out,
        a,
        b"<text transform=\"translate(24 262) rotate(-90)\">entries open, at most 8</text>\n",
    );
    let c = text::phrases::put_counted(out, b, b"<path d=\"M64 92V316H", 40 + 24 * (n + 1));
    text::put_all(out, c, b"\" fill=\"none\" stroke=\"black\"/>\n")
}

// What the signs mean.
fn put_signs(out: &mut [u8], at: usize) -> usize
    ensures { (out.new, result) ≡ write (out.old, at) signs }
{
    let a = text::put_all(
        out,
        at,
        b"<text x=\"8\" y=\"352\">A bar is one open entry, from the step that opens it to the one that closes it or to the last one: S is its source, L its level;</text>\n",
    );
    let b = text::put_all(
        out,
        a,
        b"<text x=\"8\" y=\"366\">a dashed bar is a spurious mark. A dark box says that the output is active.</text>\n",
    );
    text::put_all(
        out,
        b,
        b"<text x=\"8\" y=\"380\">A tick says that the step is refused, by the number under it.</text>\n",
    )
}

// The width of a drawing of n steps.
fn wide(n: u32) -> u32
    requires { n ≤ 500 }
    ensures { result ≡ wide n }
{
    if n < 26 { 704 } else { 80 + 24 * n }
}

fn one_less(n: u32) -> u32
    ensures { result ≡ n - 1 }
{
    n.saturating_sub(1)
}

// The shapes of a drawing as SVG, in a buffer that the caller lends.
ghost use Rattle.std.specs.Prelude.{◌≡◌, ◌≤◌};
ghost use Rattle.text.specs.Text.{write};
ghost use Rattle.drawing.specs.Shapes.{top, box, label, centred, active, refused, numbered, mark, handler, bar};

// ---- what a column shows

// A dark box where an output is active.
pub(crate) fn put_active(out: &mut [u8], at: usize, y: u32, k: u32, on: u32) -> usize
    requires { k ≤ 501 }
    ensures { (out.new, result) ≡ write (out.old, at) (active y k on) }
{
    if on == 0 {
        return at;
    }
    put_box(out, at, 40 + 24 * k, y, 24, 14, b"fill=\"#333\"")
}

// A tick and the number of the refusal, where the step is refused.
pub(crate) fn put_refused(out: &mut [u8], at: usize, k: u32, refusal: u32) -> usize
    requires { k ≤ 501 }
    ensures { (out.new, result) ≡ write (out.old, at) (refused k refusal) }
{
    if refusal == 0 {
        return at;
    }
    let a = text::phrases::put_counted(out, at, b"<path d=\"M", 52 + 24 * k);
    let b = text::put_all(out, a, b" 64v8\" stroke=\"black\"/>\n");
    put_centred(out, b, 52 + 24 * k, 84, refusal)
}

// The number of a step, if it is a fifth one.
pub(crate) fn put_numbered(out: &mut [u8], at: usize, k: u32, step: u32) -> usize
    requires { k ≤ 501 }
    ensures { (out.new, result) ≡ write (out.old, at) (numbered k step) }
{
    if step % 5 == 0 {
        return put_centred(out, at, 52 + 24 * k, 332, step);
    }
    at
}

// ---- bars

// A bar, over the columns `from` on and before `to`.
pub(crate) fn put_bar(
    out: &mut [u8],
    at: usize,
    place: u32,
    from: u32,
    to: u32,
    source: u32,
    level: u32,
) -> usize
    requires { (from ≤ to) × (to ≤ 501) }
    ensures { (out.new, result) ≡ write (out.old, at) (bar place from to source level) }
{
    let y = top(place);
    if source == 0 {
        return put_mark(out, at, 40 + 24 * from, y, 24 * (to - from));
    }
    put_handler(out, at, 40 + 24 * from, y, 24 * (to - from), source, level)
}

// The box of a mark.
fn put_mark(out: &mut [u8], at: usize, x: u32, y: u32, w: u32) -> usize
    requires { (x ≤ 65536) × (y ≤ 288) }
    ensures { (out.new, result) ≡ write (out.old, at) (mark x y w) }
{
    let a = put_box(
        out,
        at,
        x,
        y,
        w,
        26,
        b"fill=\"#ddd\" stroke=\"black\" stroke-dasharray=\"3 2\"",
    );
    let b = text::phrases::put_counted(out, a, b"<text font-size=\"9\" x=\"", x + 1);
    let c = text::phrases::put_counted(out, b, b"\" y=\"", y + 17);
    text::put_all(out, c, b"\">mark</text>\n")
}

// The box of a handler, with its source and its level.
fn put_handler(out: &mut [u8], at: usize, x: u32, y: u32, w: u32, source: u32, level: u32) -> usize
    requires { (x ≤ 65536) × (y ≤ 288) }
    ensures { (out.new, result) ≡ write (out.old, at) (handler x y w source level) }
{
    let a = put_box(out, at, x, y, w, 26, b"fill=\"white\" stroke=\"black\"");
    let b = put_label(out, a, x + 3, y + 11, b"S", source);
    put_label(out, b, x + 3, y + 22, b"L", level)
}

// ---- texts

fn put_box(out: &mut [u8], at: usize, x: u32, y: u32, w: u32, h: u32, look: &[u8]) -> usize
    ensures { (out.new, result) ≡ write (out.old, at) (box x y w h look.now) }
{
    let a = text::phrases::put_counted(out, at, b"<rect x=\"", x);
    let b = text::phrases::put_counted(out, a, b"\" y=\"", y);
    let c = text::phrases::put_counted(out, b, b"\" width=\"", w);
    let d = text::phrases::put_counted(out, c, b"\" height=\"", h);
    let e = text::put_all(out, d, b"\" ");
    let f = text::put_all(out, e, look);
    text::put_all(out, f, b"/>\n")
}

// A number behind a word.
fn put_label(out: &mut [u8], at: usize, x: u32, y: u32, word: &[u8], n: u32) -> usize
    ensures { (out.new, result) ≡ write (out.old, at) (label x y word.now n) }
{
    let a = text::phrases::put_counted(out, at, b"<text x=\"", x);
    let b = text::phrases::put_counted(out, a, b"\" y=\"", y);
    let c = text::put_all(out, b, b"\">");
    let d = text::phrases::put_counted(out, c, word, n);
    text::put_all(out, d, b"</text>\n")
}

// A number in the middle of a place.
pub(crate) fn put_centred(out: &mut [u8], at: usize, x: u32, y: u32, n: u32) -> usize
    ensures { (out.new, result) ≡ write (out.old, at) (centred x y n) }
{
    let a = text::phrases::put_counted(out, at, b"<text text-anchor=\"middle\" x=\"", x);
    let b = text::phrases::put_counted(out, a, b"\" y=\"", y);
    let c = text::phrases::put_counted(out, b, b"\">", n);
    text::put_all(out, c, b"</text>\n")
}

// The top of the row of a place.
fn top(place: u32) -> u32
    ensures { result ≡ top place }
{
    if place <= 10 { 288 - 28 * place } else { 0 }
}

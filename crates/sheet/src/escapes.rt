// Names as the page shows them: ASCII that no reader of XML takes for markup.
ghost use Rattle.std.specs.Prelude.{◌≡◌};
ghost use Rattle.text.specs.Text.{write};
ghost use Rattle.sheet.specs.Names.{plain, escape, escaped};

// A whole name.
pub(crate) fn put_escaped(out: &mut [u8], at: usize, name: &[u8]) -> usize
    ensures { (out.new, result) ≡ write (out.old, at) (escaped name.now) }
{
    let mut next = at;
    for b in name {
        next = put_byte(out, next, *b);
    }
    next
}

// One byte of a name.
fn put_byte(out: &mut [u8], at: usize, b: u8) -> usize
    ensures { (out.new, result) ≡ write (out.old, at) (escape b) }
{
    match b {
        b'&' => text::put_all(out, at, b"&amp;"),
        b'<' => text::put_all(out, at, b"&lt;"),
        b'>' => text::put_all(out, at, b"&gt;"),
        b'"' => text::put_all(out, at, b"&quot;"),
        b'\\' => text::put_all(out, at, b"\\\\"),
        _ => put_plain(out, at, b),
    }
}

// One that is no markup.
fn put_plain(out: &mut [u8], at: usize, b: u8) -> usize
    ensures { (out.new, result) ≡ write (out.old, at) (plain b) }
{
    if (32 <= b) & (b <= 126) {
        return text::put(out, at, b);
    }
    let a = text::put_all(out, at, b"\\x");
    let c = text::put(out, a, text::digit((b / 16 % 16) as usize));
    text::put(out, c, text::digit((b % 16) as usize))
}

// Why there is no picture: one line, at the start of a buffer that the caller lends.
ghost use Rattle.std.specs.Prelude.{◌≡◌};
ghost use Rattle.text.specs.Text.{laid};
ghost use Rattle.picture.specs.Lines.{no_beginning, no_entries, wrong_window};

use text::NEWLINE;

// The trace has no beginning: the refusal and its offset.
pub(crate) fn put_no_beginning(out: &mut [u8], refusal: u32, offset: usize) -> usize
    ensures { (out.new, result) ≡ laid out.old (no_beginning refusal offset) }
{
    let a = text::put_all(out, 0, b"no picture: the trace has no beginning, E");
    let b = text::put_field(out, a, refusal as u64);
    let c = text::put_field(out, b, offset as u64);
    text::put(out, c, NEWLINE)
}

// Its controller has no entries.
pub(crate) fn put_no_entries(out: &mut [u8]) -> usize
    ensures { (out.new, result) ≡ laid out.old no_entries }
{
    text::put_all(
        out,
        0,
        b"no picture: the trace is not of an AIC, and no other controller has entries\n",
    )
}

// The window is wrong: what one is, and how many steps are played.
pub(crate) fn put_wrong_window(out: &mut [u8], played: u32) -> usize
    ensures { (out.new, result) ≡ laid out.old (wrong_window played) }
{
    let a = text::phrases::put_counted(
        out,
        0,
        b"no picture: a window has 1 to 500 steps and begins with a step that is played, steps played ",
        played,
    );
    text::put(out, a, NEWLINE)
}

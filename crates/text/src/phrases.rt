// Texts for people: a number behind what it counts (02, 11/12).
ghost use Rattle.std.specs.Prelude.{◌≡◌};
ghost use Rattle.text.specs.Text.{write};
ghost use Rattle.text.specs.Phrases.{counted};

// A number behind what it counts.
pub fn put_counted(out: &mut [u8], at: usize, what: &[u8], n: u32) -> usize
    ensures { (out.new, result) ≡ write (out.old, at) (counted what.now n) }
{
    let a = super::put_all(out, at, what);
    super::put_decimal(out, a, n as u64)
}

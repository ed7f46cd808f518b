// Numbers as they are typed behind a command.
ghost use Rattle.std.specs.Prelude.{◌≡◌, ◌+◌, ◌-◌, ◌*◌, ◌≤◌, ◌<◌};
ghost use Rattle.text.specs.Typed.{goes_on, typed};

// The number that is typed; 0 for anything else, as the theorems on arguments have it.
pub fn number(text: &[u8]) -> u32
    ensures { result ≡ typed text.now }
{
    let mut v: u32 = 0;
    for b in text {
        if !goes_on(v, *b) {
            return 0;
        }
        v = with_digit(v, *b);
    }
    v
}

// Whether another digit may follow.
fn goes_on(v: u32, b: u8) -> bool
    ensures { result ≡ goes_on v b }
{
    (48 <= b) & (b <= 57) & (v < 100000000)
}

// The number with that digit.
fn with_digit(v: u32, b: u8) -> u32
    requires { (48 ≤ b) × (b ≤ 57) × (v < 100000000) }
    ensures { result ≡ 10 * v + (b - 48) }
{
    10 * v + (b - 48) as u32
}

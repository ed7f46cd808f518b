// A number of the house trace: groups of seven bits, the lowest first; the top bit of a byte says that another follows (01, "House trace").
#![tactic(auto)]

ghost use Rattle.std.specs.Prelude.{◌≡◌, ◌+◌, ◌≤◌, ◌<◌, length, get_or, Ok, IfSome};
ghost use Rattle.numbers.specs.Number.{size_at, worth_at, faulty, number_at};

// A number that was read, with the place after it.
#[derive(Clone, Copy)]
pub struct Taken {
    pub value: u32,
    pub next: usize,
}

// What is wrong at a place of a trace: the refusal, and the offset that it is told with.
#[derive(Clone, Copy)]
pub struct Fault {
    pub refusal: u32,
    pub at: usize,
}

// The lent trace and a place in it, as one thing; functions and no methods, since docs/MANUAL.md names them.
#[derive(Drop)]
pub struct Reader<'a> {
    pub trace: &'a [u8],
    pub at: usize,
}

// A reader of the trace that stands at a place.
pub fn reader_at<'a>(trace: &'a [u8], at: usize) -> Reader<'a>
    ensures { (result.trace ≡ trace.entry) × (result.at ≡ at) }
{
    Reader { trace, at }
}

// The number where the reader stands.
pub fn next_number<'a>(r: Reader<'a>) -> Result<Taken, Fault>
    ensures { result ≡ number_at r.entry.trace.now r.entry.at }
{
    number_at(r.trace, r.at)
}

// The number at a place of a trace, by way of a reader. Callers use this one: its parameters are plain, so they need no reader of their own.
pub fn read_number(trace: &[u8], at: usize) -> Result<Taken, Fault>
    ensures { result ≡ number_at trace.now at }
{
    next_number(reader_at(trace, at))
}

// A byte as a number.
pub fn wide(b: u8) -> u32
    ensures { (result ≡ b) × (result < 256) }
{
    b as u32
}

// The number at a place, if it has one byte or two.
pub fn short_at(trace: &[u8], at: usize) -> Option<Taken>
    ensures { IfSome result (λ t. number_at trace.now at ≡ Ok t) }
{
    if trace.len() <= at {
        return None;
    }
    let a = wide(trace[at]);
    if a < 128 {
        return Some(Taken {
            value: a,
            next: at + 1,
        });
    }
    if trace.len() - at < 2 {
        return None;
    }
    let b = wide(trace[at + 1]);
    if b < 128 {
        return Some(Taken {
            value: a - 128 + 128 * b,
            next: at + 2,
        });
    }
    None
}

// The number at a place: nearly all are short.
fn number_at(trace: &[u8], at: usize) -> Result<Taken, Fault>
    ensures { result ≡ number_at trace.now at }
{
    match short_at(trace, at) {
        Some(t) => Ok(t),
        None => any_at(trace, at),
    }
}

// The number at a place, of any size. A place past the end is told apart first, so that no sum of a place wraps.
fn any_at(trace: &[u8], at: usize) -> Result<Taken, Fault>
    ensures { result ≡ number_at trace.now at }
{
    if trace.len() <= at {
        return Err(Fault {
            refusal: steps::DAMAGED,
            at,
        });
    }
    let n = size_at(trace, at);
    let v = worth_at(trace, at, n);
    if is_faulty(trace, at, n, v) {
        return Err(Fault {
            refusal: steps::DAMAGED,
            at,
        });
    }
    Ok(Taken {
        value: v as u32,
        next: at + n,
    })
}

// Whether a number of n bytes worth v is cut short, over 32 bits or over five bytes; groups of 0 on top are no fault.
fn is_faulty(trace: &[u8], at: usize, n: usize, v: u64) -> bool
    requires { (at < length trace.now) × (n ≤ 6) }
    ensures { result ≡ faulty trace.now at n v }
{
    (trace.len() < at + n) | (4294967296 <= v) | (5 < n)
}

// How many bytes the number at a place asks for; 6 where five bytes do not end it.
fn size_at(trace: &[u8], at: usize) -> usize
    requires { at < length trace.now }
    ensures { result ≡ size_at trace.now at }
{
    // k is a place beyond the slice's end too, where a byte counts 0, and what is answered.
    for k in 0..5 {
        if byte_at(trace, at + k) < 128 {
            return k + 1;
        }
    }
    6
}

// What the groups of n bytes are worth, the first one lowest.
fn worth_at(trace: &[u8], at: usize, n: usize) -> u64
    requires { (at < length trace.now) × (n ≤ 6) }
    ensures { result ≡ worth_at trace.now at n }
{
    let mut worth: u64 = 0;
    let mut unit: u64 = 1;
    // k is a place beyond the slice's end too, where a byte counts 0.
    for k in 0..n {
        let group = (byte_at(trace, at + k) % 128) as u64;
        worth += group * unit;
        unit *= 128;
    }
    worth
}

// The byte at a place, 0 past the end.
fn byte_at(trace: &[u8], at: usize) -> u8
    ensures { result ≡ get_or trace.now at 0 }
{
    trace.get(at).copied().unwrap_or(0)
}

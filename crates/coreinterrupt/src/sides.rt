// One side of CoreInterrupt. FIQ and IRQ differ only in how many sources they may have; what is answered is defined in specs/Side.antt.
ghost use Rattle.std.specs.Prelude.{◌≡◌};
ghost use Rattle.coreinterrupt.specs.Side.{Numbered, idle, with_inputs, with_soft, with_enable, raw, status, active, other, output_level, clear_access, side_access, side_read, set_bits, clear_bits, side_write, moved, side_sound};

// One side, FIQ or IRQ: how many sources it has, the active level of its output, its lines and its two stored registers.
#[repr(C)]
#[derive(Clone, Copy)]
pub struct Side {
    pub count: u32,
    pub level: u32,
    pub inputs: u32,
    pub soft: u32,
    pub enable: u32,
}

// The six registers of a side, in the order of their offsets.
#[derive(Clone, Copy)]
pub enum Register {
    Soft,
    SoftClear,
    Enable,
    EnableClear,
    Raw,
    Status,
}

impl Register {
    // The register of a number within its side, one each four bytes; there are six.
    pub fn numbered(i: u32) -> Option<Register>
        ensures { Numbered result i }
    {
        match i {
            0 => Some(Register::Soft),
            1 => Some(Register::SoftClear),
            2 => Some(Register::Enable),
            3 => Some(Register::EnableClear),
            4 => Some(Register::Raw),
            5 => Some(Register::Status),
            _ => None,
        }
    }
}

// A side as configured: its lines low, its registers 0.
pub fn idle(count: u32, level: u32) -> Side
    ensures { result ≡ idle count level }
{
    Side {
        count,
        level,
        inputs: 0,
        soft: 0,
        enable: 0,
    }
}

// The side with its lines as the word w says.
fn with_inputs(s: Side, w: u32) -> Side
    ensures { result ≡ with_inputs s w }
{
    Side { inputs: w, ..s }
}

// The side with w in its soft register.
fn with_soft(s: Side, w: u32) -> Side
    ensures { result ≡ with_soft s w }
{
    Side { soft: w, ..s }
}

// The side with w in its enable register.
fn with_enable(s: Side, w: u32) -> Side
    ensures { result ≡ with_enable s w }
{
    Side { enable: w, ..s }
}

// The sources raised by their line or by software.
pub fn raw(s: Side) -> u32
    ensures { result ≡ raw s }
{
    words::join(s.inputs, s.soft)
}

// The raised sources that are enabled.
pub fn status(s: Side) -> u32
    ensures { result ≡ status s }
{
    words::meet(raw(s), s.enable)
}

// Whether the side's output is active.
pub fn active(s: Side) -> bool
    ensures { result ≡ active s }
{
    status(s) != 0
}

// The level that is not this one.
fn other(level: u32) -> u32
    ensures { result ≡ other level }
{
    if level == 0 { 1 } else { 0 }
}

// The level of the side's output.
pub fn output_level(s: Side) -> u32
    ensures { result ≡ output_level s }
{
    if active(s) {
        return s.level;
    }
    other(s.level)
}

// What the clear registers may be used for: where there are no sources they read 0.
fn clear_access(s: Side) -> steps::Access
    ensures { result ≡ clear_access s }
{
    if s.count == 0 {
        return steps::Access::ReadWrite;
    }
    steps::Access::WriteOnly
}

// What register i may be used for.
pub(crate) fn access(s: Side, i: u32) -> steps::Access
    ensures { result ≡ side_access s i }
{
    match Register::numbered(i) {
        Some(Register::Soft) => steps::Access::ReadWrite,
        Some(Register::SoftClear) => clear_access(s),
        Some(Register::Enable) => steps::Access::ReadWrite,
        Some(Register::EnableClear) => clear_access(s),
        Some(Register::Raw) => steps::Access::ReadOnly,
        Some(Register::Status) => steps::Access::ReadOnly,
        None => steps::Access::NoRegister,
    }
}

// What register i answers.
pub(crate) fn read(s: Side, i: u32) -> u32
    ensures { result ≡ side_read s i }
{
    match Register::numbered(i) {
        Some(Register::Soft) => s.soft,
        Some(Register::SoftClear) => 0,
        Some(Register::Enable) => s.enable,
        Some(Register::EnableClear) => 0,
        Some(Register::Raw) => raw(s),
        Some(Register::Status) => status(s),
        None => 0,
    }
}

// The word w with the bits of v below n set.
fn set_bits(n: u32, w: u32, v: u32) -> u32
    ensures { result ≡ set_bits n w v }
{
    words::join(w, words::keep(n, v))
}

// The word w with the bits of v below n cleared.
fn clear_bits(n: u32, w: u32, v: u32) -> u32
    ensures { result ≡ clear_bits n w v }
{
    words::drop_bits(w, words::keep(n, v))
}

// The side after register i took the value v.
pub(crate) fn write(s: Side, i: u32, v: u32) -> Side
    ensures { result ≡ side_write s i v }
{
    match Register::numbered(i) {
        Some(Register::Soft) => with_soft(s, set_bits(s.count, s.soft, v)),
        Some(Register::SoftClear) => with_soft(s, clear_bits(s.count, s.soft, v)),
        Some(Register::Enable) => with_enable(s, set_bits(s.count, s.enable, v)),
        Some(Register::EnableClear) => with_enable(s, clear_bits(s.count, s.enable, v)),
        Some(Register::Raw) => s,
        Some(Register::Status) => s,
        None => s,
    }
}

// The side after its input k is put high or low. An input beyond the count is not stored.
pub fn moved(s: Side, k: u32, high: bool) -> Side
    ensures { result ≡ moved s k high }
{
    if k < s.count {
        return with_inputs(s, words::with_bit(s.inputs, k, high));
    }
    s
}

// Whether the side keeps its rules: at most `limit` sources, a level of 0 or 1, no stored bit beyond the count.
pub(crate) fn is_sound(limit: u32, s: Side) -> bool
    ensures { result ≡ side_sound limit s }
{
    let n = s.count;
    (n <= limit)
        & (s.level <= 1)
        & words::is_clean(n, s.inputs)
        & words::is_clean(n, s.soft)
        & words::is_clean(n, s.enable)
}

// The kinds of controller: the number and the name of each, the numbers that configure it, and whether its steps tell a privilege. What a kind does is
// `machine`'s; above it only `player` and `listing` tell one kind from another, to choose its loop (01, "House trace"; 02, 2/12 and 6/12).
#![tactic(auto)]

ghost use Rattle.std.specs.Prelude.{◌≡◌};
ghost use Rattle.text.specs.Text.{write};
ghost use Rattle.kinds.specs.Kinds.{is_kind, wanted, within, tells_privilege, name};
ghost use Rattle.kinds.specs.Configuration.{no_numbers, with_number};

// The numbers of a configuration in their order; one that was not put yet is 0.
#[derive(Clone, Copy)]
pub struct Configuration {
    pub numbers: [u32; 5],
}

// Kinds are the numbers that a trace and the C interface name them by, and so no enum: any number may stand there.
pub const AIC: u32 = 0;

pub const CORE: u32 = 1;

pub const CIC: u32 = 2;

pub const AINTC: u32 = 3;

// A CIC with prioritised indices.
pub const INDEXED: u32 = 4;

// ---- kinds

// Whether there is a controller of this kind.
pub fn is_kind(kind: u32) -> bool
    ensures { result ≡ is_kind kind }
{
    (kind == AIC) | (kind == CORE) | (kind == CIC) | (kind == AINTC) | (kind == INDEXED)
}

// How many numbers configure a kind; an AINTC has none.
pub fn wanted(kind: u32) -> u32
    ensures { result ≡ wanted kind }
{
    if kind == AIC {
        return 2;
    }
    if kind == CORE {
        return 4;
    }
    if kind == CIC {
        return 4;
    }
    if kind == INDEXED {
        return 5;
    }
    0
}

// Whether the nth number that configures a kind, counted from 0, may have this value.
pub fn within(kind: u32, nth: u32, value: u32) -> bool
    ensures { result ≡ within kind nth value }
{
    if kind == AIC {
        return aic::within(nth, value);
    }
    if kind == CORE {
        return coreinterrupt::within(nth, value);
    }
    if kind == CIC {
        return cic::within(nth, value);
    }
    if kind == INDEXED {
        return cic_prioritised::within(nth, value);
    }
    false
}

// Whether a privilege number follows each offset in the steps of a kind.
pub fn tells_privilege(kind: u32) -> bool
    ensures { result ≡ tells_privilege kind }
{
    kind == AINTC
}

// The line with the name of a kind, that of the CIC with or without prioritised indices; nothing for any other number.
pub fn put_name(out: &mut [u8], at: usize, kind: u32) -> usize
    ensures { (out.new, result) ≡ write (out.old, at) (name kind) }
{
    if kind == AIC {
        return text::put_all(out, at, b"AIC\n");
    }
    if kind == CORE {
        return text::put_all(out, at, b"COREINTERRUPT\n");
    }
    if kind == CIC {
        return text::put_all(out, at, b"CIC\n");
    }
    if kind == AINTC {
        return text::put_all(out, at, b"AINTC\n");
    }
    if kind == INDEXED {
        return text::put_all(out, at, b"CIC\n");
    }
    at
}

// ---- configurations

// No number yet.
pub fn no_numbers() -> Configuration
    ensures { result ≡ no_numbers }
{
    Configuration { numbers: [0; 5] }
}

// A configuration with its nth number put anew. Past the last one nothing changes.
pub fn with_number(c: Configuration, nth: u32, v: u32) -> Configuration
    ensures { result ≡ with_number c nth v }
{
    if 5 <= nth {
        return c;
    }
    let at = nth as usize;
    let mut d = c;
    d.numbers[at] = v;
    d
}

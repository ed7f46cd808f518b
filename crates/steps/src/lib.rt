// What a recorded step is, and the numbers given when one is not carried out (01, "Numbers given when a step is not carried out"; 02, 2/12).
#![tactic(auto)]

ghost use Rattle.std.specs.Prelude.{◌≡◌};
ghost use Rattle.steps.specs.Refusals.{read_access, write_access, read_refusal, write_refusal, line_refusal};

// An access to a register, or a line that is put to a level. Offsets are in bytes.
#[derive(Clone, Copy)]
pub enum Step {
    Read(u32),
    Write(u32, u32),
    Line(u32, u32),
}

// A step as a trace records it: what is done, and by which privilege, 1 where the trace does not say.
#[derive(Clone, Copy)]
pub struct Recorded {
    pub step: Step,
    pub privilege: u32,
}

pub const PRIVILEGED: u32 = 1;

// What the register at an offset may be used for.
#[derive(Clone, Copy)]
pub enum Access {
    NoRegister,
    ReadOnly,
    WriteOnly,
    ReadWrite,
}

// The numbers given when a step is not carried out are those of a listing and of the C interface, and so no enum.
pub const CARRIED_OUT: u32 = 0;

pub const MISALIGNED: u32 = 1;

pub const ABSENT: u32 = 2;

pub const UNREADABLE: u32 = 3;

pub const UNWRITABLE: u32 = 4;

pub const PROTECTING: u32 = 5;

pub const BEYOND: u32 = 6;

pub const LIMIT_REACHED: u32 = 7;

pub const DAMAGED: u32 = 8;

pub const UNKNOWN: u32 = 9;

pub const MISCONFIGURED: u32 = 10;

pub const TOO_LONG: u32 = 11;

pub const UNSOUND: u32 = 12;

pub const UNPRIVILEGED: u32 = 13;

pub const OVERSIZED: u32 = 14;

pub const UPWARD: u32 = 15;

pub const OVERFULL: u32 = 16;

pub const UNOPENED: u32 = 17;

// The refusal of a read that is aligned, 0 where it may be read.
fn read_access(access: Access) -> u32
    ensures { result ≡ read_access access }
{
    match access {
        Access::NoRegister => ABSENT,
        Access::ReadOnly => CARRIED_OUT,
        Access::WriteOnly => UNREADABLE,
        Access::ReadWrite => CARRIED_OUT,
    }
}

// The refusal of a write that is aligned, of a value that is itself refused by `value`, 0 where it may be written.
fn write_access(access: Access, value: u32) -> u32
    ensures { result ≡ write_access access value }
{
    match access {
        Access::NoRegister => ABSENT,
        Access::ReadOnly => UNWRITABLE,
        Access::WriteOnly => value,
        Access::ReadWrite => value,
    }
}

// The checks of a read in their order, 12, 1, 2, 3: the number of the first that fails, else 0.
pub fn read_refusal(sound: bool, offset: u32, access: Access) -> u32
    ensures { result ≡ read_refusal sound offset access }
{
    if !sound {
        return UNSOUND;
    }
    if offset % 4 != 0 {
        return MISALIGNED;
    }
    read_access(access)
}

// The checks of a write in their order, 12, 1, 2, 4, then the refusal of the value: the number of the first that fails, else 0.
pub fn write_refusal(sound: bool, offset: u32, access: Access, value: u32) -> u32
    ensures { result ≡ write_refusal sound offset access value }
{
    if !sound {
        return UNSOUND;
    }
    if offset % 4 != 0 {
        return MISALIGNED;
    }
    write_access(access, value)
}

// The checks of a line step in their order, 12, then 6 for the line number or the level.
pub fn line_refusal(sound: bool, inputs: u32, line: u32, level: u32) -> u32
    ensures { result ≡ line_refusal sound inputs line level }
{
    if !sound {
        return UNSOUND;
    }
    if (line < inputs) & (level <= 1) {
        return CARRIED_OUT;
    }
    BEYOND
}

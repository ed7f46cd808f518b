// The register map: offsets under the maker's names, and what each register allows.
ghost use Rattle.std.specs.Prelude.{◌≡◌};
ghost use Rattle.aintc_registers.specs.Map.{row_of, row_access, access};

use steps::Access;

pub const REVISION: u32 = 0x00;

pub const SYSCONFIG: u32 = 0x10;

pub const SYSSTATUS: u32 = 0x14;

pub const SIR_IRQ: u32 = 0x40;

pub const SIR_FIQ: u32 = 0x44;

pub const CONTROL: u32 = 0x48;

pub const PROTECTION: u32 = 0x4C;

pub const IDLE: u32 = 0x50;

pub const IRQ_PRIORITY: u32 = 0x60;

pub const FIQ_PRIORITY: u32 = 0x64;

pub const THRESHOLD: u32 = 0x68;

// Four banks of eight registers, one bank for each word of the inputs: these are the registers of bank 0.
pub const ITR: u32 = 0x80;

pub const MIR: u32 = 0x84;

pub const MIR_CLEAR: u32 = 0x88;

pub const MIR_SET: u32 = 0x8C;

pub const ISR_SET: u32 = 0x90;

pub const ISR_CLEAR: u32 = 0x94;

pub const PENDING_IRQ: u32 = 0x98;

pub const PENDING_FIQ: u32 = 0x9C;

// The 128 routes from here on, one for each input.
pub const ILR: u32 = 0x100;

// No register from here on.
const PAST: u32 = 0x300;

// The row of the table that an offset is in, told by the first offset of the row: the constants above name the rows for the definitions and for
// aintc_room too.
pub fn row_of(offset: u32) -> u32
    ensures { result ≡ row_of offset }
{
    if offset < ITR {
        return offset;
    }
    if offset < ILR {
        return ITR + offset % 0x20;
    }
    if offset < PAST {
        return ILR;
    }
    PAST
}

// What the registers of a row allow, in the order of the maker's table.
fn row_access(row: u32) -> Access
    ensures { result ≡ row_access row }
{
    match row {
        REVISION => Access::ReadWrite,
        SYSCONFIG => Access::ReadWrite,
        SYSSTATUS => Access::ReadOnly,
        SIR_IRQ => Access::ReadOnly,
        SIR_FIQ => Access::ReadOnly,
        CONTROL => Access::WriteOnly,
        PROTECTION => Access::ReadWrite,
        IDLE => Access::ReadWrite,
        IRQ_PRIORITY => Access::ReadOnly,
        FIQ_PRIORITY => Access::ReadOnly,
        THRESHOLD => Access::ReadWrite,
        ITR => Access::ReadOnly,
        MIR => Access::ReadWrite,
        MIR_CLEAR => Access::WriteOnly,
        MIR_SET => Access::WriteOnly,
        ISR_SET => Access::ReadWrite,
        ISR_CLEAR => Access::WriteOnly,
        PENDING_IRQ => Access::ReadOnly,
        PENDING_FIQ => Access::ReadOnly,
        ILR => Access::ReadWrite,
        _ => Access::NoRegister,
    }
}

// What the register at an aligned offset may be used for.
pub fn access_of(offset: u32) -> Access
    ensures { result ≡ access offset }
{
    row_access(row_of(offset))
}

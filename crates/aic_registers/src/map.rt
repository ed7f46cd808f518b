// The register map: offsets under the maker's names, and what each register allows.
ghost use Rattle.std.specs.Prelude.{◌≡◌};
ghost use Rattle.aic_registers.specs.Map.{access};

use steps::Access;

pub const SVR: u32 = 0x80;

pub const IVR: u32 = 0x100;

pub const FVR: u32 = 0x104;

pub const ISR: u32 = 0x108;

pub const IPR: u32 = 0x10C;

pub const IMR: u32 = 0x110;

pub const CISR: u32 = 0x114;

pub const IECR: u32 = 0x120;

pub const IDCR: u32 = 0x124;

pub const ICCR: u32 = 0x128;

pub const ISCR: u32 = 0x12C;

pub const EOICR: u32 = 0x130;

pub const SPU: u32 = 0x134;

pub const DCR: u32 = 0x138;

pub const FFER: u32 = 0x140;

pub const FFDR: u32 = 0x144;

pub const FFSR: u32 = 0x148;

// What the register at an aligned offset may be used for. IVR takes writes.
pub fn access_of(offset: u32) -> Access
    ensures { result ≡ access offset }
{
    match offset {
        ..=IVR => Access::ReadWrite,
        ..=CISR => Access::ReadOnly,
        ..IECR => Access::NoRegister,
        ..=EOICR => Access::WriteOnly,
        ..=DCR => Access::ReadWrite,
        ..FFER => Access::NoRegister,
        ..=FFDR => Access::WriteOnly,
        FFSR => Access::ReadOnly,
        _ => Access::NoRegister,
    }
}

// The CIC's register map: which register stands at an offset (001, table 2-1). What it may be used for is defined beside it.
ghost use Rattle.std.specs.Prelude.{◌≡◌};
ghost use Rattle.cic_registers.specs.Map.{single_at, register_at};

// The registers of 001, table 2-1, in its order; a register of a group with its number in the group.
#[derive(Clone, Copy)]
pub enum Register {
    Nothing,
    Revision,
    GlobalEnable,
    StatusIndexSet,
    StatusIndexClear,
    EnableIndexSet,
    EnableIndexClear,
    HostIndexSet,
    HostIndexClear,
    RawSet(u32),
    EnabledClear(u32),
    EnableSet(u32),
    EnableClear(u32),
    ChannelMap(u32),
    HostMap(u32),
    HostEnable(u32),
}

// The register at an offset below 0x200.
fn single_at(offset: u32) -> Register
    ensures { result ≡ single_at offset }
{
    match offset {
        0x000 => Register::Revision,
        0x010 => Register::GlobalEnable,
        0x020 => Register::StatusIndexSet,
        0x024 => Register::StatusIndexClear,
        0x028 => Register::EnableIndexSet,
        0x02C => Register::EnableIndexClear,
        0x034 => Register::HostIndexSet,
        0x038 => Register::HostIndexClear,
        _ => Register::Nothing,
    }
}

// The register at an offset, which is taken to be a multiple of 4.
pub fn register_at(offset: u32) -> Register
    ensures { result ≡ register_at offset }
{
    if offset < 0x200 {
        return single_at(offset);
    }
    if offset < 0x280 {
        return Register::RawSet((offset - 0x200) / 4);
    }
    if offset < 0x300 {
        return Register::EnabledClear((offset - 0x280) / 4);
    }
    if offset < 0x380 {
        return Register::EnableSet((offset - 0x300) / 4);
    }
    if offset < 0x400 {
        return Register::EnableClear((offset - 0x380) / 4);
    }
    if offset < 0x800 {
        return Register::ChannelMap((offset - 0x400) / 4);
    }
    if offset < 0x900 {
        return Register::HostMap((offset - 0x800) / 4);
    }
    if offset < 0x1500 {
        return Register::Nothing;
    }
    if offset < 0x1520 {
        return Register::HostEnable((offset - 0x1500) / 4);
    }
    Register::Nothing
}

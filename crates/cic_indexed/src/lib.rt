// The CIC with prioritised indices: which registers only it has, and the definitions of its steps with what is promised of them
// (02, 6/12; 001, 2.2.2, 2.2.10 and 2.2.17). The code of the steps stands in indexed_room, and by value in cic_prioritised.
#![tactic(auto)]

ghost use Rattle.std.specs.Prelude.{◌≡◌, get_or};
ghost use Rattle.cic_indexed.specs.Registers.{host_access};

use cic_held::{Held, Prioritised};
use cic_record::Host;
use steps::Access;

// Which of them stands at an offset; any other offset is the CIC's: the definitions of the steps, which the promises name, match on these four.
#[derive(Clone, Copy)]
pub enum Own {
    Elsewhere,
    Control,
    GlobalIndex,
    HostIndex(Host),
}

// What the index of a host may be used for: there is none beyond the configured hosts.
pub fn host_access(p: Prioritised, h: Host) -> Access
    ensures { result ≡ host_access p h.0 }
{
    if (h.0 as u32) < p.cic.hosts {
        return Access::ReadWrite;
    }
    Access::NoRegister
}

// What is held for the index of host interrupt h; nothing past the last.
pub fn host_held(x: Held, h: Host) -> u16
    ensures { result ≡ get_or x.host h.0 0 }
{
    cic_held::host_at(&x.host, h)
}

// Map registers: what they read, which values they take, and the map after they are written (01, CIC, registers). Here is the test of a value; reads and
// writes stand in cic_room.
ghost use Rattle.std.specs.Prelude.{◌≡◌, ◌+◌, ◌*◌, ◌<◌};
ghost use Rattle.words.specs.Array.{byte_of};
ghost use Rattle.cic_registers.specs.Maps.{byte_taken, map_taken};

use cic_record::{Channel, Host, Size};

// Byte j of a word, the lowest being byte 0.
fn byte_of(w: u32, j: u32) -> u32
    requires { j < 4 }
    ensures { (result ≡ byte_of w j) × (result < 256) }
{
    (w >> (8 * j)) % 256
}

// The number of the thing that byte j of register k is for.
fn number_at(k: u32, j: u32) -> u64
    requires { j < 4 }
    ensures { result ≡ 4 * k + j }
{
    4 * (k as u64) + (j as u64)
}

// Whether byte j of v may stand in register k of the channel map: a spare byte is not checked.
// Beside it stands the same of the host map: a `Channel` is held to the channels and a `Host` to the hosts, so that the compiler refuses one for the other.
fn channel_taken(z: Size, k: u32, v: u32, j: u32) -> bool
    requires { j < 4 }
    ensures { result ≡ byte_taken z.systems z.channels k v j }
{
    let n = z.systems as u64;
    let to = Channel(byte_of(v, j) as u16);
    (n <= number_at(k, j)) | cic_record::is_channel(z, to)
}

// The same of the host map.
fn host_taken(z: Size, k: u32, v: u32, j: u32) -> bool
    requires { j < 4 }
    ensures { result ≡ byte_taken z.channels z.hosts k v j }
{
    let n = z.channels as u64;
    let to = Host(byte_of(v, j) as u16);
    (n <= number_at(k, j)) | cic_record::is_host(z, to)
}

// Whether each byte of v may stand in register k of the channel map.
pub fn channels_taken(z: Size, k: u32, v: u32) -> bool
    ensures { result ≡ map_taken z.systems z.channels k v }
{
    ((channel_taken(z, k, v, 0) & channel_taken(z, k, v, 1)) & channel_taken(z, k, v, 2))
        & channel_taken(z, k, v, 3)
}

// Whether each byte of v may stand in register k of the host map.
pub fn hosts_taken(z: Size, k: u32, v: u32) -> bool
    ensures { result ≡ map_taken z.channels z.hosts k v }
{
    ((host_taken(z, k, v, 0) & host_taken(z, k, v, 1)) & host_taken(z, k, v, 2))
        & host_taken(z, k, v, 3)
}

// Which system interrupt a prioritised index of the CIC names, and how many status words the search for it looks at (02, 6/12 and 10/12; 001, 1.3.5).
ghost use Rattle.std.specs.Prelude.{◌≡◌, ◌||◌, ◌<◌, ◌≤◌, eqb};
ghost use Rattle.words.specs.Counting.{lowest_below};
ghost use Rattle.cic_record.specs.Kinds.{channel_in, host_in};
ghost use Rattle.cic_held.specs.Looked.{found_over};
ghost use Rattle.cic_held.specs.Order.{leads};
ghost use Rattle.cic_held.specs.Search.{some_below, lit, found_of, turn_of};

use cic_record::{Channel, Cic, Host, System};

// The word of an index that names none.
pub const NONE: u32 = 0x80000000;

// What a search finds, and the status words of 32 system interrupts that it looks at. Of a search for one channel that finds none the index is the number of
// systems, by the promises `search_is` and `found_is`; of an index it is the word of its register, which has one for none.
#[derive(Clone, Copy)]
pub struct Found {
    pub index: u32,
    pub words: u32,
}

// Whether the channel of a system interrupt is k.
fn is_of(channel: &[u8; 1024], s: System, k: Channel) -> bool
    requires { s.0 < 1024 }
    ensures { result ≡ eqb (channel_in channel.now s).0 k.0 }
{
    let of = cic_registers::hosts::channel_in(channel, s);
    of.0 == k.0
}

// The lowest bit of w whose system interrupt, base + i for bit i, is of channel k. A word of 0 takes no turn.
fn first_of(channel: &[u8; 1024], base: u16, w: u32, k: Channel) -> Option<u32>
    requires { base ≤ 992 }
    ensures { result ≡ some_below 32 (lowest_below 32 (lit channel.now base w k)) }
{
    let mut left = w;
    while left != 0 {
        let i = words::lowest(left);
        if is_of(channel, System(base + i as u16), k) {
            return Some(i);
        }
        left = words::with_bit(left, i, false);
    }
    None
}

// The lowest set and enabled system interrupt of channel k, the number of systems where there is none: word by word, up to the first that has one. The words
// looked at are counted, that one among them and a word of 0 like any other.
fn search<'a>(
    systems: u32,
    status: &'a [u32; 32],
    enable: &'a [u32; 32],
    channel: &'a [u8; 1024],
    k: Channel,
) -> Found
    requires { systems ≤ 1024 }
    ensures { result ≡ found_of systems status.now enable.now channel.now k }
{
    let count = systems.div_ceil(32);
    for j in 0..count {
        let at = j as usize;
        let w = words::keep(systems - 32 * j, words::meet(status[at], enable[at]));
        if let Some(i) = first_of(channel, (32 * j) as u16, w, k) {
            return Found {
                index: 32 * j + i,
                words: j + 1,
            };
        }
    }
    Found {
        index: systems,
        words: count,
    }
}

// Whether an index is over channel k: the global one over all, that of host h over those mapped to it.
fn asks(host: &[u8; 256], every: bool, h: Host, k: Channel) -> bool
    requires { k.0 < 256 }
    ensures { result ≡ (every || eqb (host_in host.now k).0 h.0) }
{
    let to = cic_registers::hosts::host_in(host, k);
    every | (to.0 == h.0)
}

// One channel's turn in a read that searches channel by channel: it is searched where the index is over it, else nothing is found and nothing looked at.
fn turn<'a>(
    systems: u32,
    status: &'a [u32; 32],
    enable: &'a [u32; 32],
    channel: &'a [u8; 1024],
    asked: bool,
    k: Channel,
) -> Found
    requires { systems ≤ 1024 }
    ensures { result ≡ turn_of asked systems (found_of systems status.now enable.now channel.now k) }
{
    if asked {
        return search(systems, status, enable, channel, k);
    }
    Found {
        index: systems,
        words: 0,
    }
}

// The word of an index that is not held, and the status words that are looked at for it: the channels that the index is over are searched in order, up to and
// including the first that has one.
pub fn look(c: Cic, every: bool, h: Host) -> Found
    requires { (c.systems ≤ 1024) × (c.channels ≤ 256) }
    ensures { result ≡ found_over c (leads c every h) }
{
    let systems = c.systems;
    let channels = c.channels as u16;
    let mut words: u32 = 0;
    for k in 0..channels {
        let asked = asks(&c.host, every, h, Channel(k));
        let f = turn(systems, &c.status, &c.enable, &c.channel, asked, Channel(k));
        words += f.words;
        if f.index < systems {
            return Found {
                index: f.index,
                words,
            };
        }
    }
    Found { index: NONE, words }
}

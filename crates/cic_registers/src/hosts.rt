// Which host interrupts of a CIC are asserted, how many, and the lowest of them (01, CIC, outputs).
ghost use Rattle.std.specs.Prelude.{◌≡◌, true, ◌&&◌, ◌||◌, ℕ, ◌<◌, ◌≤◌, eqb, get_or, length};
ghost use Rattle.words.specs.Array.{bit_at, with_bit_at};
ghost use Rattle.words.specs.Counting.{any_below, count_below, lowest_below};
ghost use Rattle.cic_record.specs.Kinds.{system, host_number, channel_in, host_in};
ghost use Rattle.cic_registers.specs.Hosts.{raises, asserted, shown, outputs};
ghost use Rattle.cic_registers.specs.Scan.{goes};

use cic_record::{Channel, Cic, Host, Signals, System};
use std::array;

// Entry n of a lent map.
fn entry(map: &[u8], n: u16) -> u16
    requires { n < length map.now }
    ensures { (result ≡ get_or map.now n 0) × (result < 256) }
{
    u16::from(map[usize::from(n)])
}

// The channel of a system interrupt in a lent channel map: the scan copies no record.
pub fn channel_in(channel: &[u8; 1024], s: System) -> Channel
    requires { s.0 < 1024 }
    ensures { (result ≡ channel_in channel.now s) × (result.0 < 256) }
{
    Channel(entry(channel, s.0))
}

// The host interrupt that a channel is mapped to in a lent host map.
pub fn host_in(host: &[u8; 256], k: Channel) -> Host
    requires { k.0 < 256 }
    ensures { (result ≡ host_in host.now k) × (result.0 < 256) }
{
    Host(entry(host, k.0))
}

// Marks a host beside those marked already.
fn mark(out: &mut [u32; 8], h: Host)
    requires { h.0 < 256 }
    ensures { out.new ≡ with_bit_at out.old h.0 true }
{
    let at = (h.0 / 32) as usize;
    let bit = (h.0 % 32) as u32;
    out[at] = words::with_bit(out[at], bit, true);
}

// Marks the host of system interrupt s.
fn visit<'a>(channel: &'a [u8; 1024], host: &'a [u8; 256], s: System, out: &mut [u32; 8])
    requires s_bound { s.0 < 1024 }
    requires out_len { length out.old ≡ 8 }
    ensures bits { (h : ℕ) → bit_at out.new h ≡ (bit_at out.old h || eqb (host_in host.now (channel_in channel.now s)).0 h) }
    ensures long { length out.new ≡ 8 }
{
    let h = host_in(host, channel_in(channel, s));
    mark(out, h);
}

// Marks the hosts that the bits of w go to, bit i being system interrupt base + i. A word of 0 takes no turn.
fn scan<'a>(channel: &'a [u8; 1024], host: &'a [u8; 256], base: u16, w: u32, out: &mut [u32; 8])
    requires base_bound { base ≤ 992 }
    requires out_len { length out.old ≡ 8 }
    ensures bits { (h : ℕ) → bit_at out.new h ≡ (bit_at out.old h || any_below 32 (goes channel.now host.now base w h)) }
    ensures long { length out.new ≡ 8 }
{
    let mut left = w;
    while left != 0 {
        let i = words::lowest(left);
        visit(channel, host, System(base + i as u16), out);
        left = words::with_bit(left, i, false);
    }
}

// The hosts that some configured system interrupt raises. Bits beyond the configured systems are dropped, so this holds of every record.
fn raised_hosts(c: Cic) -> [u32; 8]
    ensures { (h : ℕ) → bit_at result h ≡ any_below c.systems (λ s. raises c (host_number h) (system s)) }
{
    let mut out = [0u32; 8];
    let mut rest = c.systems;
    let mut base: u16 = 0;
    for (status, enable) in c.status.iter().zip(&c.enable) {
        let w = words::keep(rest, words::meet(*status, *enable));
        scan(&c.channel, &c.host, base, w, &mut out);
        rest = cic_record::after_word(rest);
        base += 32;
    }
    out
}

// The bits that two arrays of words share.
fn shared(a: [u32; 8], b: [u32; 8]) -> [u32; 8]
    ensures { (h : ℕ) → h < 256 → bit_at result h ≡ (bit_at a h && bit_at b h) }
{
    array::from_fn(|k| words::meet(a[k], b[k]))
}

// The asserted hosts, one bit for each.
pub fn asserted_hosts(c: Cic) -> [u32; 8]
    ensures { (h : ℕ) → h < 256 → bit_at result h ≡ asserted c (host_number h) }
{
    let global = c.global;
    if global != 1 {
        return [0u32; 8];
    }
    let allow = c.allow;
    let raised = raised_hosts(c);
    shared(allow, raised)
}

// How many bits are set.
pub fn count_of(ws: [u32; 8]) -> u32
    ensures { result ≡ count_below 256 (bit_at ws) }
{
    let mut sum: u32 = 0;
    for w in ws {
        sum += words::count(w);
    }
    sum
}

// The lowest bit that is set, 256 where none is.
pub fn lowest_of(ws: [u32; 8]) -> u32
    ensures { result ≡ lowest_below 256 (bit_at ws) }
{
    for (k, w) in ws.iter().enumerate() {
        if *w != 0 {
            return 32 * k as u32 + words::lowest(*w);
        }
    }
    // The number past the last host: `lowest` of `Signals` is this in C and in the promise `lowest_none`.
    256
}

// Bit h of an array of words.
fn bit_of(ws: [u32; 8], h: Host) -> bool
    requires { h.0 < 256 }
    ensures { result ≡ bit_at ws h.0 }
{
    let at = (h.0 / 32) as usize;
    words::has(ws[at], (h.0 % 32) as u32)
}

// Whether a host interrupt is asserted. There is none from 256 on.
pub fn asserted(c: Cic, h: Host) -> bool
    ensures { result ≡ asserted c h }
{
    let number = h.0;
    if 256 <= number {
        return false;
    }
    bit_of(asserted_hosts(c), h)
}

// How many hosts are asserted and which is the lowest, of a record that is taken to be sound.
pub fn shown(c: Cic) -> Signals
    ensures { result ≡ shown c }
{
    let ws = asserted_hosts(c);
    let hosts = count_of(ws);
    let lowest = lowest_of(ws);
    Signals {
        refusal: steps::CARRIED_OUT,
        hosts,
        lowest,
    }
}

// The same, or refusal 12 where the record is not sound.
pub fn outputs(c: Cic) -> Signals
    ensures { result ≡ outputs c }
{
    if cic_record::is_sound(c) {
        return shown(c);
    }
    Signals {
        refusal: steps::UNSOUND,
        hosts: 0,
        lowest: 0,
    }
}

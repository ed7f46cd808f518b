// The CIC's record, its three kinds of number, the start, and which records are sound (01, CIC).
#![tactic(auto)]

ghost use Rattle.std.specs.Prelude.{◌≡◌, true, false, ◌&&◌, ◌-◌, ◌≤◌, ltb, leb, get_or, length};
ghost use Rattle.words.specs.Array.{clean_below};
ghost use Rattle.words.specs.Counting.{all_below};
ghost use Rattle.cic_record.specs.Record.{refused};
ghost use Rattle.cic_record.specs.Sound.{between, within, words_sound, entry_sound, maps_sound, sound};
ghost use Rattle.cic_record.specs.Start.{fresh, configured, start};

// A system interrupt, a channel and a host interrupt count three separate things: none can be passed for another.
#[derive(Clone, Copy)]
pub struct System(pub u16);

#[derive(Clone, Copy)]
pub struct Channel(pub u16);

#[derive(Clone, Copy)]
pub struct Host(pub u16);

// One bit of `lines`, `status` and `enable` and one byte of `channel` for each system interrupt,
// one byte of `host` for each channel, one bit of `allow` for each host interrupt.
#[derive(Clone, Copy)]
pub struct Cic {
    pub systems: u32,
    pub channels: u32,
    pub hosts: u32,
    pub revision: u32,
    pub global: u32,
    pub lines: [u32; 32],
    pub status: [u32; 32],
    pub enable: [u32; 32],
    pub channel: [u8; 1024],
    pub host: [u8; 256],
    pub allow: [u32; 8],
}

// The configured numbers, which no step changes.
#[derive(Clone, Copy)]
pub struct Size {
    pub systems: u32,
    pub channels: u32,
    pub hosts: u32,
    pub revision: u32,
}

// What a start answers: the promises `start_is` and `start_refused` give a refusal beside a record, zeros where it is refused.
#[derive(Clone, Copy)]
pub struct Begun {
    pub refusal: u32,
    pub cic: Cic,
}

// What a step answers: the promises `answered_is` and `refused_is` give a refusal beside a value and a record.
#[derive(Clone, Copy)]
pub struct Answer {
    pub refusal: u32,
    pub value: u32,
    pub cic: Cic,
}

// What a step answers without the record after it, in the same form.
#[derive(Clone, Copy)]
pub struct Reply {
    pub refusal: u32,
    pub value: u32,
}

// How many hosts are asserted, and the lowest of them, 256 where none is: the promises `lowest_none` and `outputs_unsound` name these numbers.
#[derive(Clone, Copy)]
pub struct Signals {
    pub refusal: u32,
    pub hosts: u32,
    pub lowest: u32,
}

// The answer of a step that is refused by number n.
pub fn refusal_of(c: Cic, n: u32) -> Answer
    ensures { result ≡ refused c n }
{
    Answer {
        refusal: n,
        value: 0,
        cic: c,
    }
}

// Whether a channel is one of those configured.
pub fn is_channel(z: Size, k: Channel) -> bool
    ensures { result ≡ ltb k.0 z.channels }
{
    (k.0 as u32) < z.channels
}

// Whether a host interrupt is one of those configured.
pub fn is_host(z: Size, h: Host) -> bool
    ensures { result ≡ ltb h.0 z.hosts }
{
    (h.0 as u32) < z.hosts
}

// Whether n is one of lowest to highest.
fn in_range(lowest: u32, highest: u32, n: u32) -> bool
    ensures { result ≡ between lowest highest n }
{
    (lowest <= n) & (n <= highest)
}

// Whether the nth configuration number, in the order systems, channels, hosts, revision, may be `value`. The first is number 0: the promise
// `configuration` counts them.
pub fn within(nth: u32, value: u32) -> bool
    ensures { result ≡ within nth value }
{
    match nth {
        0 => in_range(1, 1024, value),
        1 => in_range(1, 256, value),
        2 => in_range(1, 256, value),
        _ => nth == 3,
    }
}

// Lines low and all registers 0, beside the configured numbers.
fn make(z: Size) -> Cic
    ensures { result ≡ fresh z.systems z.channels z.hosts z.revision }
{
    Cic {
        systems: z.systems,
        channels: z.channels,
        hosts: z.hosts,
        revision: z.revision,
        global: 0,
        lines: [0; 32],
        status: [0; 32],
        enable: [0; 32],
        channel: [0; 1024],
        host: [0; 256],
        allow: [0; 8],
    }
}

// Whether each configuration number is within its limits.
fn all_within(z: Size) -> bool
    ensures { result ≡ configured z.systems z.channels z.hosts z.revision }
{
    within(0, z.systems) & (within(1, z.channels) & (within(2, z.hosts) & within(3, z.revision)))
}

// The CIC at reset, or refusal 10 and a record of zeros where a number is beyond its limit.
pub fn start(systems: u32, channels: u32, hosts: u32, revision: u32) -> Begun
    ensures { result ≡ start systems channels hosts revision }
{
    let size = Size {
        systems,
        channels,
        hosts,
        revision,
    };
    if all_within(size) {
        let c = make(size);
        return Begun {
            refusal: steps::CARRIED_OUT,
            cic: c,
        };
    }
    let none = make(Size {
        systems: 0,
        channels: 0,
        hosts: 0,
        revision: 0,
    });
    Begun {
        refusal: steps::MISCONFIGURED,
        cic: none,
    }
}

// What is left of n things after one word of them.
pub fn after_word(n: u32) -> u32
    ensures { result ≡ n - 32 }
{
    n.saturating_sub(32)
}

// Whether no bit from n on is set. No early exit, here and below, so that the loops can be vectorised.
fn words_clean(n: u32, ws: &[u32]) -> bool
    ensures { result ≡ clean_below (length ws.now) n ws.now }
{
    let mut ok = true;
    let mut left = n;
    for w in ws {
        ok &= words::is_clean(left, *w);
        left = after_word(left);
    }
    ok
}

// Whether each byte is below the limit.
fn bytes_under(m: &[u8], limit: u32) -> bool
    ensures { result ≡ all_below (length m.now) (λ i. ltb (get_or m.now i 0) limit) }
{
    let mut ok = true;
    for b in m {
        ok &= u32::from(*b) < limit;
    }
    ok
}

// Whether each of the n entries in use is below the limit and the others are 0, that is below 1.
fn map_sound(m: &[u8], n: usize, limit: u32) -> bool
    requires { n ≤ length m.now }
    ensures { result ≡ all_below (length m.now) (entry_sound n limit m.now) }
{
    bytes_under(&m[..n], limit) & bytes_under(&m[n..], 1)
}

// Whether the counts are in their ranges and global enable is 0 or 1.
fn numbers_sound(systems: u32, channels: u32, hosts: u32, global: u32) -> bool
    ensures { result ≡ (within 0 systems && (within 1 channels && (within 2 hosts && leb global 1))) }
{
    within(0, systems) & (within(1, channels) & (within(2, hosts) & (global <= 1)))
}

// Whether no bit beyond the counts is set.
fn words_sound(c: Cic) -> bool
    ensures { result ≡ words_sound c }
{
    let systems = c.systems;
    let hosts = c.hosts;
    let lines = words_clean(systems, &c.lines);
    let status = words_clean(systems, &c.status);
    let enable = words_clean(systems, &c.enable);
    lines & (status & (enable & words_clean(hosts, &c.allow)))
}

// Whether both maps are sound, of a record whose counts are in their ranges.
fn maps_sound(c: Cic) -> bool
    requires { (c.systems ≤ 1024) × (c.channels ≤ 256) }
    ensures { result ≡ maps_sound c }
{
    let systems = c.systems as usize;
    let channels = c.channels;
    let hosts = c.hosts;
    let channel = map_sound(&c.channel, systems, channels);
    channel & map_sound(&c.host, channels as usize, hosts)
}

// Whether the record keeps every rule of its model.
pub fn is_sound(c: Cic) -> bool
    ensures { result ≡ sound c }
{
    if numbers_sound(c.systems, c.channels, c.hosts, c.global) {
        return words_sound(c) & maps_sound(c);
    }
    false
}

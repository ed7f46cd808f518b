// The fields of a write in words (specs/Fields.antt).
ghost use Rattle.std.specs.Prelude.{◌≡◌, ◌++◌, ◌/◌, ◌<◌, ◌≤◌, eqb};
ghost use Rattle.words.specs.Array.{rest_at, byte_of};
ghost use Rattle.words.specs.Choice.{pick};
ghost use Rattle.words.specs.Counting.{count_below};
ghost use Rattle.words.specs.Word.{bit, without, kept};
ghost use Rattle.text.specs.Text.{write};
ghost use Rattle.text.specs.Phrases.{bytes, counted};
ghost use Rattle.register_words.specs.Fields.{told_bit, told_below, more_words, bit_words, share_words, byte_words, map_words, type_words, mode_words, aic_fields, core_fields, cic_singles, cic_fields, indexed_fields, route_words, aintc_singles, aintc_fields};

use register_names::Sizes;

// ---- the AIC

// Modes, commands, debug control and fast forcing.
pub fn put_aic(out: &mut [u8], at: usize, external: u32, o: u32, v: u32) -> usize
    ensures { (out.new, result) ≡ write (out.old, at) (aic_fields external o v) }
{
    if o < 0x080 {
        return put_mode(out, at, external, o, v);
    }
    if o < 0x120 {
        return at;
    }
    if o < 0x130 {
        return put_bits(out, at, b"; sources", 0, v);
    }
    if o == 0x138 {
        return put_pair(out, at, b"; PROT ", v % 2, b", GMSK ", v / 2 % 2);
    }
    if o < 0x140 {
        return at;
    }
    if o < 0x148 {
        return put_forced(out, at, v);
    }
    at
}

// The type and the priority of the mode at an offset.
fn put_mode(out: &mut [u8], at: usize, external: u32, o: u32, v: u32) -> usize
    ensures { (out.new, result) ≡ write (out.old, at) (mode_words (bit external (o / 4)) v) }
{
    let outer = words::has(external, o / 4);
    let a = put_type(out, at, outer, v / 32 % 4);
    text::phrases::put_counted(out, a, b", priority ", v % 8)
}

fn put_type(out: &mut [u8], at: usize, external: bool, kind: u32) -> usize
    ensures { (out.new, result) ≡ write (out.old, at) (type_words external kind) }
{
    match kind {
        0 => put_either(out, at, external, b"; low level", b"; high level"),
        1 => put_either(out, at, external, b"; falling edge", b"; rising edge"),
        2 => text::put_all(out, at, b"; high level"),
        _ => text::put_all(out, at, b"; rising edge"),
    }
}

// Source 0 cannot be forced.
fn put_forced(out: &mut [u8], at: usize, v: u32) -> usize
    ensures { (out.new, result) ≡ write (out.old, at) (bit_words (bytes "; sources") 0 (without v 1)) }
{
    let w = words::drop_bits(v, 1);
    put_bits(out, at, b"; sources", 0, w)
}

// ---- CoreInterrupt

// The registers of both sides that take writes.
pub fn put_core(out: &mut [u8], at: usize, fiqs: u32, irqs: u32, o: u32, v: u32) -> usize
    ensures { (out.new, result) ≡ write (out.old, at) (core_fields fiqs irqs o v) }
{
    if o < 0x010 {
        return put_side(out, at, fiqs, v);
    }
    if o < 0x018 {
        return at;
    }
    if o < 0x028 {
        return put_side(out, at, irqs, v);
    }
    at
}

// The sources of a side.
fn put_side(out: &mut [u8], at: usize, count: u32, v: u32) -> usize
    ensures { (out.new, result) ≡ write (out.old, at) (bit_words (bytes "; sources") 0 (kept count v)) }
{
    let w = words::keep(count, v);
    put_bits(out, at, b"; sources", 0, w)
}

// ---- the CIC

// With prioritised indices: control, then the registers of every CIC.
pub fn put_indexed(out: &mut [u8], at: usize, n: Sizes, o: u32, v: u32) -> usize
    ensures { (out.new, result) ≡ write (out.old, at) (indexed_fields n.systems n.channels n.hosts o v) }
{
    if o == 0x004 {
        return text::phrases::put_counted(out, at, b"; PRIORITY_HOLD ", v / 16 % 2);
    }
    put_cic(out, at, n, o, v)
}

// Words of systems, the two maps, words of hosts.
pub fn put_cic(out: &mut [u8], at: usize, n: Sizes, o: u32, v: u32) -> usize
    ensures { (out.new, result) ≡ write (out.old, at) (cic_fields n.systems n.channels n.hosts o v) }
{
    if o < 0x200 {
        return put_cic_single(out, at, o, v);
    }
    if o < 0x400 {
        return put_share(out, at, b"; systems", n.systems, o / 4 % 32, v);
    }
    if o < 0x800 {
        return put_map(
            out,
            at,
            b"; system ",
            b" to channel ",
            n.systems,
            o - 0x400,
            v,
        );
    }
    if o < 0x900 {
        return put_map(
            out,
            at,
            b"; channel ",
            b" to host ",
            n.channels,
            o - 0x800,
            v,
        );
    }
    if o < 0x1500 {
        return at;
    }
    if o < 0x1520 {
        return put_share(out, at, b"; hosts", n.hosts, o / 4 % 32, v);
    }
    at
}

// Global enable, and the indices of systems and of hosts.
fn put_cic_single(out: &mut [u8], at: usize, o: u32, v: u32) -> usize
    ensures { (out.new, result) ≡ write (out.old, at) (cic_singles o v) }
{
    if o == 0x010 {
        return text::phrases::put_counted(out, at, b"; ENABLE ", v % 2);
    }
    if o < 0x020 {
        return at;
    }
    if o < 0x030 {
        return text::phrases::put_counted(out, at, b"; system ", v);
    }
    if o < 0x034 {
        return at;
    }
    if o < 0x03C {
        return text::phrases::put_counted(out, at, b"; host ", v);
    }
    at
}

// ---- the AINTC

// Registers that stand alone, banks, routes.
pub fn put_aintc(out: &mut [u8], at: usize, o: u32, v: u32) -> usize
    ensures { (out.new, result) ≡ write (out.old, at) (aintc_fields o v) }
{
    if o < 0x080 {
        return put_aintc_single(out, at, o, v);
    }
    if o < 0x100 {
        return put_bits(out, at, b"; inputs", 32 * ((o - 0x080) / 0x20), v);
    }
    if o < 0x300 {
        return put_route(out, at, v);
    }
    at
}

fn put_aintc_single(out: &mut [u8], at: usize, o: u32, v: u32) -> usize
    ensures { (out.new, result) ≡ write (out.old, at) (aintc_singles o v) }
{
    if o == 0x010 {
        return put_pair(out, at, b"; SOFTRESET ", v / 2 % 2, b", AUTOIDLE ", v % 2);
    }
    if o == 0x048 {
        return put_pair(out, at, b"; NEWIRQAGR ", v % 2, b", NEWFIQAGR ", v / 2 % 2);
    }
    if o == 0x04C {
        return text::phrases::put_counted(out, at, b"; PROTECTION ", v % 2);
    }
    if o == 0x050 {
        return put_pair(out, at, b"; TURBO ", v / 2 % 2, b", FUNCIDLE ", v % 2);
    }
    if o == 0x068 {
        return text::phrases::put_counted(out, at, b"; PRIORITYTHRESHOLD ", v % 256);
    }
    at
}

// The output and the priority of a route.
fn put_route(out: &mut [u8], at: usize, v: u32) -> usize
    ensures { (out.new, result) ≡ write (out.old, at) (route_words v) }
{
    let fast = words::has(v, 0);
    let a = put_either(
        out,
        at,
        fast,
        b"; to FIQ, priority ",
        b"; to IRQ, priority ",
    );
    text::put_decimal(out, a, (v / 4 % 128) as u64)
}

// ---- bits of a word as numbers

// Those of word k of so many things.
fn put_share(out: &mut [u8], at: usize, noun: &[u8], count: u32, k: u32, v: u32) -> usize
    requires { k < 32 }
    ensures { (out.new, result) ≡ write (out.old, at) (share_words noun.now count k v) }
{
    let n = rest(count, k);
    let w = words::keep(n, v);
    put_bits(out, at, noun, 32 * k, w)
}

// How many of so many things have their bit in word k or later.
fn rest(count: u32, k: u32) -> u32
    requires { k < 32 }
    ensures { result ≡ rest_at count k }
{
    if count < 32 * k {
        return 0;
    }
    count - 32 * k
}

fn put_bits(out: &mut [u8], at: usize, noun: &[u8], base: u32, w: u32) -> usize
    ensures { (out.new, result) ≡ write (out.old, at) (bit_words noun.now base w) }
{
    let a = text::put_all(out, at, noun);
    put_numbers(out, a, base, w)
}

fn put_numbers(out: &mut [u8], at: usize, base: u32, w: u32) -> usize
    ensures { (out.new, result) ≡ write (out.old, at) (pick (eqb w 0) (bytes " none") (told_below base w 32 ++ more_words (count_below 32 (bit w)))) }
{
    if w == 0 {
        return text::put_all(out, at, b" none");
    }
    let n = words::count(w);
    let a = put_told(out, at, base, w);
    put_more(out, a, n)
}

fn put_told(out: &mut [u8], at: usize, base: u32, w: u32) -> usize
    ensures { (out.new, result) ≡ write (out.old, at) (told_below base w 32) }
{
    let mut next = at;
    let mut told: u32 = 0;
    for n in 0..32 {
        next = put_bit(out, next, base, w, n, told);
        let set = words::has(w, n);
        told += words::one_if(set);
    }
    next
}

// One of the first eight that are set, behind so many lower ones.
fn put_bit(out: &mut [u8], at: usize, base: u32, w: u32, n: u32, lower: u32) -> usize
    requires { lower ≡ count_below n (bit w) }
    ensures { (out.new, result) ≡ write (out.old, at) (told_bit base w n) }
{
    let set = words::has(w, n);
    if set & (lower < 8) {
        let a = put_either(out, at, lower == 0, b" ", b", ");
        return text::put_decimal(out, a, base as u64 + n as u64);
    }
    at
}

fn put_more(out: &mut [u8], at: usize, n: u32) -> usize
    ensures { (out.new, result) ≡ write (out.old, at) (more_words n) }
{
    if 8 < n {
        let a = text::phrases::put_counted(out, at, b" and ", n - 8);
        return text::put_all(out, a, b" more");
    }
    at
}

// ---- the bytes of a map

fn put_map(
    out: &mut [u8],
    at: usize,
    thing: &[u8],
    target: &[u8],
    count: u32,
    first: u32,
    v: u32,
) -> usize
    requires { first ≤ 1024 }
    ensures { (out.new, result) ≡ write (out.old, at) (map_words thing.now target.now count first v) }
{
    let a = text::phrases::put_counted(out, at, thing, first);
    let b = text::phrases::put_counted(out, a, target, v % 256);
    let c = put_byte(out, b, count, first + 1, v / 256 % 256);
    let d = put_byte(out, c, count, first + 2, v / 65536 % 256);
    put_byte(out, d, count, first + 3, v / 16777216 % 256)
}

// One that is for thing n, if there is one.
fn put_byte(out: &mut [u8], at: usize, count: u32, n: u32, b: u32) -> usize
    ensures { (out.new, result) ≡ write (out.old, at) (byte_words count n b) }
{
    if n < count {
        let a = text::phrases::put_counted(out, at, b", ", n);
        return text::phrases::put_counted(out, a, b" to ", b);
    }
    at
}

// ---- texts

// Two numbers behind what they count.
fn put_pair(out: &mut [u8], at: usize, first: &[u8], m: u32, second: &[u8], n: u32) -> usize
    ensures { (out.new, result) ≡ write (out.old, at) (counted first.now m ++ counted second.now n) }
{
    let a = text::phrases::put_counted(out, at, first, m);
    text::phrases::put_counted(out, a, second, n)
}

// One text where a test holds, else another.
fn put_either(out: &mut [u8], at: usize, t: bool, yes: &[u8], no: &[u8]) -> usize
    ensures { (out.new, result) ≡ write (out.old, at) (pick t yes.now no.now) }
{
    if t {
        return text::put_all(out, at, yes);
    }
    text::put_all(out, at, no)
}

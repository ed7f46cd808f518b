// Names of sources in a typed table: where they stand, a text without them, and what they are (docs/STACK.md).
ghost use Rattle.std.specs.Prelude.{◌≡◌, ◌≤◌, ◌<◌, length, get_or, set};
ghost use Rattle.words.specs.Choice.{pick};
ghost use Rattle.text.specs.Text.{write};
ghost use Rattle.tables.specs.Typed.{past_nth, nth_start};
ghost use Rattle.tables.specs.Names.{name_byte, name_run, is_name, named, behind, place_in, blanked, quoted, unnamed_at, unnamed, cleared};
ghost use Rattle.tables.specs.Named.{PlacesOf, names_in, no_names, names_of, byte_in, names_at};

use super::{MOST, is_white, read_table, seek, strip};

// The name of source i is `lengths[i]` bytes from 24 * i on, and zeros stand behind it.
#[derive(Clone, Copy)]
pub struct Names {
    pub bytes: [u8; 768],
    pub lengths: [u32; 32],
}

// Where a name begins, and how many bytes it has; 0 where there is none, as in the lengths that the documented `names_of` answers.
#[derive(Clone, Copy)]
struct Place {
    start: usize,
    count: u32,
}

const SOURCES: usize = 32;

const QUOTE: u8 = b'"';

const LONGEST: usize = 24;

// ---- what is answered

// The names of a table; none where it is refused.
pub fn names_of(text: &[u8]) -> Names
    ensures { result ≡ names_of text.now }
{
    let r = read_table(text);
    if r.refusal != steps::CARRIED_OUT {
        return no_names();
    }
    names_in(text)
}

fn no_names() -> Names
    ensures { result ≡ no_names }
{
    Names {
        bytes: [0; 768],
        lengths: [0; 32],
    }
}

// The names of a text that is read.
fn names_in(text: &[u8]) -> Names
    requires { length text.now ≤ 65536 }
    ensures { result ≡ names_in text.now }
{
    let mut room = [0u8; 65536];
    let n = text::put_all(&mut room, 0, text);
    let places = take_names(&mut room[..n]);
    names_at(text, &places)
}

// 24 bytes for each of these places.
fn names_at(text: &[u8], places: &[Place; 32]) -> Names
    ensures { result ≡ names_at text.now places.now }
{
    let mut bytes = [0u8; 768];
    for k in 0..768 {
        bytes[k] = byte_in(text, places[k / 24], k % 24);
    }
    let mut lengths = [0u32; 32];
    for (i, place) in places.iter().enumerate() {
        lengths[i] = place.count;
    }
    Names { bytes, lengths }
}

// The kth byte of a name, 0 behind it.
fn byte_in(text: &[u8], place: Place, k: usize) -> u8
    ensures { result ≡ byte_in text.now place.start place.count k }
{
    if place.count as usize <= k {
        return 0;
    }
    match text.get(place.start..) {
        Some(rest) => byte_or(rest, k, 0),
        None => 0,
    }
}

// ---- a text without its names

// Names and comments made spaces.
pub(crate) fn clear(text: &[u8], out: &mut [u8]) -> usize
    requires { length text.now ≤ 65536 }
    ensures { (out.new, result) ≡ write (out.old, 0) (cleared text.now) }
{
    let mut room = [0u8; 65536];
    let n = text::put_all(&mut room, 0, text);
    take_names(&mut room[..n]);
    strip(&room[..n], out)
}

// All names made spaces, and where they stood.
fn take_names(text: &mut [u8]) -> [Place; 32]
    requires { length text.old ≤ 65536 }
    ensures { (text.new ≡ unnamed text.old) × PlacesOf text.old result }
{
    let mut places = [Place { start: 0, count: 0 }; 32];
    for i in 0..SOURCES {
        places[i] = take_name(text, i);
    }
    places
}

// The name of one source, in a text without those before it.
fn take_name(text: &mut [u8], i: usize) -> Place
    requires { (length text.old ≤ 65536) × (i < 32) }
    ensures { (text.new ≡ unnamed_at text.old i) × (result ≡ place_in text.old i) }
{
    let at = find_behind(&text[..], i);
    let n = name_at(&text[..], at);
    blank(text, at, with_quotes(n));
    Place {
        start: at + 1,
        count: n as u32,
    }
}

// The offset of what stands behind the three numbers of a source.
fn find_behind(text: &[u8], i: usize) -> usize
    requires { (length text.now ≤ 65536) × (i < 32) }
    ensures { result ≡ behind text.now i }
{
    let mut room = [0u8; 65536];
    let n = strip(text, &mut room);
    nth_start(&room[..n], 3 * i + 3)
}

// Where the nth word begins, counted from 0.
fn nth_start(text: &[u8], n: usize) -> usize
    ensures { result ≡ nth_start text.now n }
{
    seek(text, past_nth(text, n), false)
}

// The offset behind the first n words.
pub fn past_nth(text: &[u8], n: usize) -> usize
    ensures { result ≡ past_nth text.now n }
{
    let mut past: usize = 0;
    for _ in 0..n {
        past = seek(text, seek(text, past, false), true);
    }
    past
}

// So many bytes made spaces.
fn blank(text: &mut [u8], at: usize, n: usize)
    requires { (at ≤ 65536) × (n ≤ 65536) }
    ensures { text.new ≡ blanked text.old at n }
{
    for k in 0..n {
        put_space(text, at + k);
    }
}

fn put_space(text: &mut [u8], i: usize)
    ensures { text.new ≡ set text.old i 32 }
{
    if i < text.len() {
        text[i] = text::SPACE;
    }
}

fn with_quotes(n: usize) -> usize
    requires { n ≤ 25 }
    ensures { result ≡ quoted n }
{
    if n == 0 {
        return 0;
    }
    n + 2
}

// ---- one name

// How many bytes the name has whose quote stands at an offset; 0 where there is no name.
fn name_at(text: &[u8], at: usize) -> usize
    requires { at ≤ 65536 }
    ensures { result ≡ named text.now at }
{
    let n = run_of(text, at + 1);
    let opening = byte_or(text, at, 0);
    let closing = byte_or(text, at + n + 1, 0);
    let next = byte_or(text, at + n + 2, text::SPACE);
    if is_name(opening, n, closing, next) {
        return n;
    }
    0
}

fn is_name(opening: u8, n: usize, closing: u8, next: u8) -> bool
    ensures { result ≡ is_name opening n closing next }
{
    (opening == QUOTE)
        & (1 <= n)
        & (n <= LONGEST)
        & (closing == QUOTE)
        & (is_white(next) | (next == b'#'))
}

// How many bytes of a name follow each other, up to one more than it may have.
fn run_of(text: &[u8], at: usize) -> usize
    requires { at ≤ 65537 }
    ensures { result ≡ name_run text.now at }
{
    for k in 0..25 {
        if !is_name_byte(byte_or(text, at + k, 0)) {
            return k;
        }
    }
    25
}

fn is_name_byte(b: u8) -> bool
    ensures { result ≡ name_byte b }
{
    (32 <= b) & (b <= 126) & !((b == QUOTE) | (b == b'&') | (b == b'<') | (b == b'>'))
}

// A byte of a text, another one behind its end.
pub fn byte_or(text: &[u8], i: usize, other: u8) -> u8
    ensures { result ≡ get_or text.now i other }
{
    text.get(i).copied().unwrap_or(other)
}

// Names and sections of registers: the row that has an offset, by the makers' maps (specs/Maps.antt), which stand in src/rows.rt as specs/Table.antt says.
#![tactic(auto)]

ghost use Rattle.std.specs.Prelude.{◌≡◌, ◌+◌, ◌-◌, ◌/◌, ◌≤◌, ◌<◌, length};
ghost use Rattle.text.specs.Text.{write};
ghost use Rattle.register_names.specs.Rows.{in_group, sectioned, place_in, there_of, at_most};
ghost use Rattle.register_names.specs.Maps.{aic_rows, core_rows, cic_rows, index_rows, aintc_rows};
ghost use Rattle.register_names.specs.Table.{digit_of, two_at, four_at, until, count_by, count_at, section_from, rows_in};
ghost use Rattle.register_names.specs.Table.{bytes_at, stands_by, stands_at, row_from, number_by, title_at, words_at};

mod rows;

// What the configuration of a CIC counts; nothing of other controllers.
#[derive(Clone, Copy)]
pub struct Sizes {
    pub systems: u32,
    pub channels: u32,
    pub hosts: u32,
}

const NO_SIZES: Sizes = Sizes {
    systems: 0,
    channels: 0,
    hosts: 0,
};

// A text in a row ends before it.
const BAR: u8 = b'|';

// ---- the maps

// An AIC.
pub fn put_aic(out: &mut [u8], at: usize, o: u32, written: bool) -> usize
    ensures { (out.new, result) ≡ write (out.old, at) (place_in (aic_rows written) o) }
{
    put_place(out, at, &rows::AIC_ROWS, NO_SIZES, o, written)
}

// A CoreInterrupt.
pub fn put_core(out: &mut [u8], at: usize, o: u32) -> usize
    ensures { (out.new, result) ≡ write (out.old, at) (place_in core_rows o) }
{
    put_place(out, at, &rows::CORE_ROWS, NO_SIZES, o, false)
}

// A CIC: its rows begin behind the three of prioritised indices.
pub fn put_cic(out: &mut [u8], at: usize, o: u32, written: bool, n: Sizes) -> usize
    ensures { (out.new, result) ≡ write (out.old, at) (place_in (cic_rows written n.systems n.channels n.hosts) o) }
{
    put_place(out, at, &rows::CIC_ROWS[192..], n, o, written)
}

// A CIC with prioritised indices.
pub fn put_indices(out: &mut [u8], at: usize, o: u32, written: bool, n: Sizes) -> usize
    ensures { (out.new, result) ≡ write (out.old, at) (place_in (index_rows written n.systems n.channels n.hosts) o) }
{
    put_place(out, at, &rows::CIC_ROWS, n, o, written)
}

// An AINTC.
pub fn put_aintc(out: &mut [u8], at: usize, o: u32, written: bool) -> usize
    ensures { (out.new, result) ≡ write (out.old, at) (place_in (aintc_rows written) o) }
{
    put_place(out, at, &rows::AINTC_ROWS, NO_SIZES, o, written)
}

// ---- a map

// Name and section by the first row that has the offset; nothing where none has.
fn put_place(out: &mut [u8], at: usize, table: &[u8], n: Sizes, o: u32, written: bool) -> usize
    ensures { (out.new, result) ≡ write (out.old, at) (place_in (rows_in table.now n written) o) }
{
    match row_of(table, n, o) {
        Some(k) => put_row(out, at, row(table, k), o, written),
        None => at,
    }
}

// The first row that has the offset.
fn row_of(table: &[u8], n: Sizes, o: u32) -> Option<usize>
    ensures { result ≡ row_from table.now n o 0 (length table.now / 64) }
{
    for k in 0..table.len() / 64 {
        if stands_at(row(table, k), n, o) {
            return Some(k);
        }
    }
    None
}

// Row k of a map.
fn row(table: &[u8], k: usize) -> &[u8]
    requires { k < length table.now / 64 }
    ensures { (result.now ≡ bytes_at table.now k) × (length result.now ≡ 64) }
{
    &table[k * 64..k * 64 + 64]
}

// ---- a row

fn stands_at(row: &[u8], n: Sizes, o: u32) -> bool
    requires { length row.now ≡ 64 }
    ensures { result ≡ stands_at row.now n o }
{
    let first = four_at(row, 0);
    let count = count_at(row, n);
    let step = two_at(row, 12);
    stands_by(first, count, step, o)
}

// How many registers it has.
fn count_at(row: &[u8], n: Sizes) -> u32
    requires { length row.now ≡ 64 }
    ensures { result ≡ count_at row.now n }
{
    let most = four_at(row, 5);
    count_by(row[10], most, n)
}

// Its words for a register at the offset.
fn put_row(out: &mut [u8], at: usize, row: &[u8], o: u32, written: bool) -> usize
    requires { length row.now ≡ 64 }
    ensures { (out.new, result) ≡ write (out.old, at) (words_at row.now written o) }
{
    let a = text::put(out, at, text::SPACE);
    let b = put_title(out, a, row, o);
    put_section(out, b, &row[section_from(written)..])
}

// The name, and the number behind it.
fn put_title(out: &mut [u8], at: usize, row: &[u8], o: u32) -> usize
    requires { length row.now ≡ 64 }
    ensures { (out.new, result) ≡ write (out.old, at) (title_at row.now o) }
{
    let first = four_at(row, 0);
    let step = two_at(row, 12);
    let a = put_until(out, at, &row[15..]);
    put_number(out, a, first, step, o)
}

fn section_from(written: bool) -> usize
    ensures { (result ≡ section_from written) × (result ≤ 64) }
{
    if written {
        return 51;
    }
    37
}

// Where a register is described.
fn put_section(out: &mut [u8], at: usize, section: &[u8]) -> usize
    ensures { (out.new, result) ≡ write (out.old, at) (sectioned (until section.now)) }
{
    let a = text::put_all(out, at, b" (");
    let b = put_until(out, a, section);
    text::put_all(out, b, b")")
}

// ---- by numbers

// Whether an offset is that of one of so many registers, or of the one.
fn stands_by(first: u32, count: u32, step: u32, o: u32) -> bool
    ensures { result ≡ stands_by first count step o }
{
    if step == 0 {
        return o == first;
    }
    in_group(first, count, step, o)
}

fn in_group(first: u32, count: u32, step: u32, o: u32) -> bool
    requires { 0 < step }
    ensures { result ≡ in_group first count step o }
{
    if o < first {
        return false;
    }
    ((o - first) % step == 0) & ((o - first) / step < count)
}

// The number behind a name.
fn put_number(out: &mut [u8], at: usize, first: u32, step: u32, o: u32) -> usize
    ensures { (out.new, result) ≡ write (out.old, at) (number_by first step o) }
{
    if step == 0 {
        return at;
    }
    text::put_decimal(out, at, nth(first, step, o) as u64)
}

fn nth(first: u32, step: u32, o: u32) -> u32
    requires { 0 < step }
    ensures { result ≡ (o - first) / step }
{
    if o < first {
        return 0;
    }
    (o - first) / step
}

fn count_by(what: u8, most: u32, n: Sizes) -> u32
    requires { most < 65536 }
    ensures { result ≡ count_by what most n }
{
    match what {
        b'S' => there_of(32, most, n.systems),
        b's' => there_of(4, most, n.systems),
        b'c' => there_of(4, most, n.channels),
        b'H' => there_of(32, most, n.hosts),
        b'1' => at_most(most, n.hosts),
        _ => most,
    }
}

// Of so many registers with a share of things each, those that have one of n.
fn there_of(share: u32, most: u32, n: u32) -> u32
    requires { (0 < share) × (share ≤ 32) × (most < 65536) }
    ensures { result ≡ there_of share most n }
{
    if share * most <= n {
        return most;
    }
    (n + (share - 1)) / share
}

// Of so many registers with one each.
fn at_most(most: u32, n: u32) -> u32
    ensures { result ≡ at_most most n }
{
    if most <= n {
        return most;
    }
    n
}

// ---- digits and texts

fn four_at(table: &[u8], i: usize) -> u32
    requires { i + 4 ≤ length table.now }
    ensures { (result ≡ four_at table.now i) × (result < 65536) }
{
    let high = two_at(table, i);
    let low = two_at(table, i + 2);
    high * 256 + low
}

fn two_at(table: &[u8], i: usize) -> u32
    requires { i + 2 ≤ length table.now }
    ensures { (result ≡ two_at table.now i) × (result < 256) }
{
    let high = digit_of(table[i]);
    let low = digit_of(table[i + 1]);
    high * 16 + low
}

fn digit_of(b: u8) -> u32
    ensures { (result ≡ digit_of b) × (result < 16) }
{
    if b < 48 {
        return 0;
    }
    if b < 58 {
        return (b - 48) as u32;
    }
    ((b - 55) % 16) as u32
}

// A text up to its bar.
fn put_until(out: &mut [u8], at: usize, words: &[u8]) -> usize
    ensures { (out.new, result) ≡ write (out.old, at) (until words.now) }
{
    let mut next = at;
    for &b in words {
        if b == BAR {
            return next;
        }
        next = text::put(out, next, b);
    }
    next
}

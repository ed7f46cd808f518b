// CIC: which starts and which records are refused, 10 and 12 (01, CIC).
use cases::lines;
use cic_record::Cic;

fn start(systems: u32, channels: u32, hosts: u32, revision: u32) {
    let b = cic::start(systems, channels, hosts, revision);
    lines::four(systems, channels, hosts, revision, b.refusal);
}

fn starts() {
    start(1, 1, 1, 0);
    start(0, 1, 1, 0);
    start(1, 0, 1, 0);
    start(1, 1, 0, 0);
    start(1024, 256, 256, 0xFFFFFFFF);
    start(1025, 256, 256, 0);
    start(1024, 257, 256, 0);
    start(1024, 256, 257, 0);
}

// Every record is made from the one that 33 systems, 2 channels and 3 hosts configure.
fn fresh() -> Cic {
    let b = cic::start(33, 2, 3, 0);
    b.cic
}

// A record is looked at by a read of its revision.
fn look(c: Cic) -> u32 {
    let a = cic::read(c, 0x000);
    a.refusal
}

// With these counts and this global enable.
fn numbers(systems: u32, channels: u32, hosts: u32, global: u32) {
    let mut c = fresh();
    c.systems = systems;
    c.channels = channels;
    c.hosts = hosts;
    c.global = global;
    lines::four(systems, channels, hosts, global, look(c));
}

// With these words for systems 32 to 63 in lines, status and enables, and this word of host enables.
fn words(lines: u32, status: u32, enable: u32, allow: u32) {
    let mut c = fresh();
    c.lines[1] = lines;
    c.status[1] = status;
    c.enable[1] = enable;
    c.allow[0] = allow;
    lines::four(lines, status, enable, allow, look(c));
}

// With these channels for systems 32 and 33, and these hosts for channels 1 and 2.
fn maps(last: u8, spare: u8, lasthost: u8, sparehost: u8) {
    let mut c = fresh();
    c.channel[32] = last;
    c.channel[33] = spare;
    c.host[1] = lasthost;
    c.host[2] = sparehost;
    lines::four(
        last as u32,
        spare as u32,
        lasthost as u32,
        sparehost as u32,
        look(c),
    );
}

// The counts and global enable at their limits.
fn counts() {
    numbers(33, 2, 3, 1);
    numbers(0, 2, 3, 0);
    numbers(1024, 2, 3, 0);
    numbers(1025, 2, 3, 0);
    numbers(33, 0, 3, 0);
    numbers(33, 256, 3, 0);
    numbers(33, 257, 3, 0);
    numbers(33, 2, 0, 0);
    numbers(33, 2, 256, 0);
    numbers(33, 2, 257, 0);
    numbers(33, 2, 3, 2);
}

// Of 33 systems, 2 channels and 3 hosts, the last bit and byte, and the one after it.
fn beyond() {
    lines::heading(b"lines, status, enable, host enable\n");
    words(1, 1, 1, 4);
    words(2, 0, 0, 0);
    words(0, 2, 0, 0);
    words(0, 0, 2, 0);
    words(0, 0, 0, 8);
    lines::heading(b"channels, hosts\n");
    maps(1, 0, 2, 0);
    maps(2, 0, 0, 0);
    maps(0, 1, 0, 0);
    maps(0, 0, 3, 0);
    maps(0, 0, 0, 1);
}

// Of an unsound record 12 stands before every other number, and its outputs are refused too.
fn first_of_all() {
    let mut c = fresh();
    c.global = 2;
    let r = cic::read(c, 0x201);
    lines::one(0x201, r.refusal);
    let o = cic::outputs(c);
    lines::one(0, o.refusal);
}

pub(crate) fn all() {
    lines::heading(b"CIC starts\n");
    starts();
    beyond();
    lines::heading(b"systems, channels, hosts, global\n");
    counts();
    first_of_all();
}

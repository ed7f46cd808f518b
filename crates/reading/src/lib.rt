// Reading a file, or standard input, into a room that the caller lends.
#![tactic(auto)]

ghost use Rattle.std.specs.Prelude.{◌≡◌, ◌≤◌, length};
ghost use Rattle.reading.specs.Shifted.{shifted};

use std::fs;
use std::io::Read;
use std::rt::Files;

// What came of reading: so many bytes at the start of the room, and whether it could not be opened or read.
#[derive(Clone, Copy)]
pub struct Came {
    pub bytes: usize,
    pub failed: bool,
}

// Reads the file of a name. A name that is not UTF-8 is none that can be opened.
pub fn read_file<R: Files>(rt: &R, name: &[u8], room: &mut [u8]) -> Came
    ensures { result.bytes ≤ length room.new }
{
    let Ok(path) = str::from_utf8(name) else {
        return Came {
            bytes: 0,
            failed: true,
        };
    };
    let Ok(mut file) = fs::open(rt, path) else {
        return Came {
            bytes: 0,
            failed: true,
        };
    };
    read(&mut file, room)
}

// Reads until the room is full, the file ends or a read fails, as that of a directory does.
pub fn read<F: Read>(file: &mut F, room: &mut [u8]) -> Came
    ensures { result.bytes ≤ length room.new }
{
    let mut at: usize = 0;
    while at < room.len() {
        let more = read_once(file, &mut room[at..]);
        if more.bytes == 0 {
            return Came {
                bytes: at,
                failed: more.failed,
            };
        }
        at += more.bytes;
    }
    Came {
        bytes: at,
        failed: false,
    }
}

// What one read brings; no bytes at the end of a file.
pub fn read_once<F: Read>(file: &mut F, room: &mut [u8]) -> Came
    ensures { result.bytes ≤ length room.old }
{
    match file.read(room) {
        Ok(n) => Came {
            bytes: n,
            failed: false,
        },
        Err(_) => Came {
            bytes: 0,
            failed: true,
        },
    }
}

// Moves what stands from a place on to the front; behind it the room is as it was.
pub fn shift(room: &mut [u8], from: usize)
    ensures { room.new ≡ shifted from room.old }
{
    if from <= room.len() {
        room.copy_within(from.., 0);
    }
}

// The words of the channels, put right after a register of the channel map is written.
ghost use Rattle.std.specs.Prelude.{◌≡◌, Bool, true, not, ◌&&◌, ◌||◌, List, ℕ, ◌/◌, ◌<◌, eqb};
ghost use Rattle.words.specs.Array.{byte_of};
ghost use Rattle.words.specs.Counting.{any_below};
ghost use Rattle.words.specs.Word.{bit};
ghost use Rattle.rooms.specs.Parts.{made};
ghost use Rattle.cic_record.specs.declared.Cic.{Cic};
ghost use Rattle.cic_record.specs.Kinds.{channel_number};
ghost use Rattle.cic_room.specs.Room.{Frame, Laid};
ghost use Rattle.indexed_room.specs.Room.{Renewing, with_words};
ghost use Rattle.indexed_room.specs.Words.{in_word, words_of, Written, one_of};

use super::search::members;
use cic_record::Channel;
use cic_room::laid::{CHANNEL_MAP, WORDS};
use rooms::Room;

// Whether a word has any bit.
fn has_any(w: u32) -> bool
    ensures { result ≡ any_below 32 (bit w) }
{
    w != 0
}

// Whether channel k has one in word w, as the channel map says.
fn look_again(room: &mut Room, w: u32, k: Channel)
    requires { (w < 32) × (k.0 < 256) }
    ensures { (f : Frame) (c : Cic) (todo : ℕ → Bool) → Renewing f c w todo room.old → Renewing f c w (λ j. todo j && not (eqb j k.0)) room.new }
{
    let of = members(room, CHANNEL_MAP + (8 * w) as usize, k.0 as u32);
    let at = WORDS + k.0 as usize;
    let word = words::with_bit(room[at], w, has_any(of));
    room[at] = word;
}

// Channel k has one in word w.
fn enter(room: &mut Room, w: u32, k: Channel)
    requires { (w < 32) × (k.0 < 256) }
    ensures { (f : Frame) (c : Cic) (todo : ℕ → Bool) → in_word c.channel k.0 w ≡ true → Renewing f c w todo room.old → Renewing f c w (λ j. todo j && not (eqb j k.0)) room.new }
{
    let at = WORDS + k.0 as usize;
    let word = words::with_bit(room[at], w, true);
    room[at] = word;
}

// A system interrupt of word w goes from one channel to another.
fn replace(room: &mut Room, w: u32, from: Channel, to: Channel)
    requires { (w < 32) × ((from.0 < 256) × (to.0 < 256)) }
    ensures { (f : Frame) (c : Cic) (rest : ℕ → Bool) → in_word c.channel to.0 w ≡ true → Renewing f c w (λ j. one_of from.0 to.0 j || rest j) room.old → Renewing f c w rest room.new }
{
    if from.0 == to.0 {
        return;
    }
    look_again(room, w, from);
    enter(room, w, to);
}

// Byte j of a word of the channel map, the lowest being byte 0.
pub(crate) fn channel_in(w: u32, j: u32) -> Channel
    requires { j < 4 }
    ensures { (result ≡ channel_number (byte_of w j)) × (result.0 < 256) }
{
    Channel(((w >> (8 * j)) % 256) as u16)
}

// Byte j of register q was one of `old` and is one of `new`.
fn replace_byte(room: &mut Room, q: u32, j: u32, old: u32, new: u32)
    requires { (q < 256) × (j < 4) }
    ensures { (f : Frame) (c : Cic) (rest : ℕ → Bool) → in_word c.channel (byte_of new j) (q / 8) ≡ true → Renewing f c (q / 8) (λ i. one_of (byte_of old j) (byte_of new j) i || rest i) room.old → Renewing f c (q / 8) rest room.new }
{
    let from = channel_in(old, j);
    let to = channel_in(new, j);
    replace(room, q / 8, from, to);
}

// After register q of the channel map, which was `old`, is written: only what differs is looked at.
pub(crate) fn renew(room: &mut Room, q: u32, old: u32)
    requires { q < 256 }
    ensures { (f : Frame) (c : Cic) (m : List ℕ) → Written m c.channel q old → Laid (with_words f (made 256 (words_of m))) c room.old → Laid (with_words f (made 256 (words_of c.channel))) c room.new }
{
    let new = room[CHANNEL_MAP + q as usize];
    if old == new {
        return;
    }
    replace_byte(room, q, 0, old, new);
    replace_byte(room, q, 1, old, new);
    replace_byte(room, q, 2, old, new);
    replace_byte(room, q, 3, old, new);
}

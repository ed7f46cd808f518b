// The AT91 controller with its levels beside it: a step lays the record into a room, is carried out there, and takes the record and its levels out again.
ghost use Rattle.std.specs.Prelude.{◌≡◌, true, ◌&&◌};
ghost use Rattle.rooms.specs.Reply.{told};
ghost use Rattle.aic_record.specs.declared.Aic.{Aic};
ghost use Rattle.aic_record.specs.Sound.{sound};
ghost use Rattle.aic.specs.Model as aic;
ghost use Rattle.aic_levels.specs.Levels.{levels_of, agrees};
ghost use Rattle.aic_levels.specs.Model.{step_with};
ghost use Rattle.aic_room.specs.Room.{Laid};
ghost use Rattle.aic_room.specs.Reply.{Done};

use super::layout::{ANY, LEVELS, words_in};
use aic_levels::{Answer, Levels};
use aic_record::Aic;
use rooms::Room;
use steps::Step;

// A step; 12 where the record is not sound or the levels are not its own, and then both are as they were.
pub fn step(s: Aic, l: Levels, x: Step) -> Answer
    ensures { result ≡ step_with s l x }
{
    if aic_record::is_sound(s) & aic_levels::agrees(s, l) {
        return step_agreed(s, l, x);
    }
    Answer {
        refusal: steps::UNSOUND,
        value: 0,
        aic: s,
        levels: l,
    }
}

// A step of a sound record with levels that agree with it. Those of the room are the same, so nothing is taken from them.
fn step_agreed(s: Aic, l: Levels, x: Step) -> Answer
    requires { (sound s && agrees s l) ≡ true }
    ensures { result ≡ step_with s l x }
{
    let mut room = super::layout::lay(s);
    let reply = step_in(&mut room, x);
    let aic = super::layout::record_of(&room);
    let levels = levels_in(&room);
    Answer {
        refusal: rooms::refusal_in(reply),
        value: rooms::value_in(reply),
        aic,
        levels,
    }
}

// A step of the record in a room.
fn step_in(room: &mut Room, x: Step) -> u64
    ensures { (a : Aic) → sound a ≡ true → Laid a room.old → Done (aic.step a x) room.new (told result) }
{
    match x {
        Step::Read(offset) => super::read(room, offset),
        Step::Write(offset, value) => super::write(room, offset, value),
        Step::Line(line, level) => super::line(room, line, level),
    }
}

// The levels in a room.
fn levels_in(room: &Room) -> Levels
    ensures { (a : Aic) → Laid a room.now → result ≡ levels_of a }
{
    let words = words_in(room, LEVELS);
    Levels {
        words,
        any: (room[ANY] % 256) as u8,
    }
}

// Plays a recorded trace on the machine that it names (01, "House trace"; 02, 2/12).
#![tactic(auto)]

ghost use Rattle.std.specs.Prelude.{◌≡◌};
ghost use Rattle.beginning.specs.Play.{play_of};

pub mod looked;
pub mod loops;

use beginning::reports::Played;

// Plays at most `limit` steps of a trace, on a machine in a room.
pub fn play(trace: &[u8], limit: u32) -> Played
    ensures { result ≡ play_of trace.now limit }
{
    let b = beginning::begin(trace);
    if b.refusal != steps::CARRIED_OUT {
        return beginning::reports::not_played(b);
    }
    let told = kinds::tells_privilege(b.machine.kind);
    loops::play_steps(trace, limit, told, b.place, b.machine)
}

// The same by the loop over a machine by value. To hand the loop over as a closure would take more lines, for what may be asked of it, than the two share.
pub fn play_plain(trace: &[u8], limit: u32) -> Played
    ensures { result ≡ play_of trace.now limit }
{
    let b = beginning::begin(trace);
    if b.refusal != steps::CARRIED_OUT {
        return beginning::reports::not_played(b);
    }
    let told = kinds::tells_privilege(b.machine.kind);
    loops::plain::play_steps(trace, limit, told, b.place, b.machine)
}

// The listing of a recorded trace, as text in a buffer that the caller lends (01, "House trace"; 02, 2/12).
#![tactic(auto)]

ghost use Rattle.std.specs.Prelude.{◌≡◌};
ghost use Rattle.steps.specs.Refusals.{carried_out};
ghost use Rattle.text.specs.Text.{write, laid};
ghost use Rattle.trace.specs.Trace.{steps_from};
ghost use Rattle.kinds.specs.Kinds.{tells_privilege};
ghost use Rattle.beginning.specs.Begin.{begin_of};
ghost use Rattle.lines.specs.Listing.{text_from, listing_of};

use beginning::Begun;

// The bytes of the listing of a trace of at most `limit` steps, from the start of the buffer on; answers how many were written.
// What finds no room is dropped, and the rest of the buffer stays as it was.
pub fn list(trace: &[u8], limit: u32, out: &mut [u8]) -> usize
    ensures { (out.new, result) ≡ laid out.old (listing_of trace.now limit) }
{
    let b = beginning::begin(trace);
    if b.refusal != steps::CARRIED_OUT {
        return lines::put_end(out, 0, b.refusal, b.place);
    }
    let at = kinds::put_name(out, 0, b.machine.kind);
    list_begun(trace, limit, b, out, at)
}

// The same by the loop over a machine by value.
pub fn list_plain(trace: &[u8], limit: u32, out: &mut [u8]) -> usize
    ensures { (out.new, result) ≡ laid out.old (listing_of trace.now limit) }
{
    let b = beginning::begin(trace);
    if b.refusal != steps::CARRIED_OUT {
        return lines::put_end(out, 0, b.refusal, b.place);
    }
    let at = kinds::put_name(out, 0, b.machine.kind);
    list_any(trace, limit, b, out, at)
}

// The steps of a trace that has begun, on a machine in a room.
fn list_begun(trace: &[u8], limit: u32, b: Begun, out: &mut [u8], at: usize) -> usize
    requires { (b ≡ begin_of trace.now) × (b.refusal ≡ carried_out) }
    ensures { (out.new, result) ≡ write (out.old, at) (text_from 0 b.machine (steps_from (tells_privilege b.machine.kind) limit trace.now b.place)) }
{
    let m = b.machine;
    let told = kinds::tells_privilege(m.kind);
    player::loops::list_steps(trace, limit, told, b.place, m, out, at)
}

// The steps of a trace that has begun, on a machine by value.
fn list_any(trace: &[u8], limit: u32, b: Begun, out: &mut [u8], at: usize) -> usize
    requires { (b ≡ begin_of trace.now) × (b.refusal ≡ carried_out) }
    ensures { (out.new, result) ≡ write (out.old, at) (text_from 0 b.machine (steps_from (tells_privilege b.machine.kind) limit trace.now b.place)) }
{
    let m = b.machine;
    let told = kinds::tells_privilege(m.kind);
    player::loops::plain::list_steps(trace, limit, told, b.place, m, out, at)
}

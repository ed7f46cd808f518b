// What a read of each register answers, and what a write of each does, where nothing refuses it.
ghost use Rattle.std.specs.Prelude.{◌≡◌, ◌≤◌};
ghost use Rattle.aic_registers.specs.Registers.{stored, read_at, written_at};

use super::effects::{clear_memory, force, set_memory, write_debug, write_mode};
use super::handlers::{current_source, end_last, read_fvr, read_ivr, write_ivr};
use super::{Answer, answer_of, map};
use aic_record::Aic;

// A register that a read leaves as it is; past the last one 0.
fn read_stored(s: Aic, offset: u32) -> u32
    ensures { result ≡ stored s offset }
{
    if offset < map::SVR {
        return aic_record::mode_at(s, offset / 4) as u32;
    }
    if offset < map::IVR {
        return aic_record::vector_at(s, offset / 4 - 32);
    }
    match offset {
        map::ISR => current_source(s),
        map::IPR => aic_sources::pending_word(s),
        map::IMR => s.enabled,
        map::CISR => aic_sources::output_bits(s),
        map::SPU => s.spurious,
        map::DCR => s.debug,
        map::FFSR => s.forced,
        _ => 0,
    }
}

// A read of a register that may be read: the two vectors change the record, the others do not.
pub fn read_at(s: Aic, offset: u32) -> Answer
    requires { s.depth ≤ 8 }
    ensures { result ≡ read_at s offset }
{
    match offset {
        map::IVR => read_ivr(s),
        map::FVR => read_fvr(s),
        _ => answer_of(s, read_stored(s, offset)),
    }
}

// A write of a register that takes the value.
pub fn write_at(s: Aic, offset: u32, v: u32) -> Aic
    requires { s.depth ≤ 8 }
    ensures { result ≡ written_at s offset v }
{
    if offset < map::SVR {
        return write_mode(s, offset / 4, v);
    }
    if offset < map::IVR {
        return aic_record::put_vector(s, offset / 4 - 32, v);
    }
    match offset {
        map::IVR => write_ivr(s),
        map::IECR => aic_record::with_enabled(s, words::join(s.enabled, v)),
        map::IDCR => aic_record::with_enabled(s, words::drop_bits(s.enabled, v)),
        map::ICCR => clear_memory(s, v),
        map::ISCR => set_memory(s, v),
        map::EOICR => end_last(s),
        map::SPU => aic_record::with_spurious(s, v),
        map::DCR => write_debug(s, v),
        map::FFER => force(s, v),
        map::FFDR => aic_record::with_forced(s, words::drop_bits(s.forced, v)),
        _ => s,
    }
}

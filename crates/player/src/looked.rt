// How many status words a read would look at after a trace is played (02, 10/12).
ghost use Rattle.std.specs.Prelude.{◌≡◌};
ghost use Rattle.player.specs.After.{words_of, words_after};

use machine::record::Machine;

// Plays at most `limit` steps of a trace. Answers the status words, of 32 system interrupts each, that a read of the register at an offset would then look
// at: 0 unless the machine is a CIC with prioritised indices, and where look_at of cic_prioritised answers 0.
pub fn words_after(trace: &[u8], limit: u32, offset: u32) -> u32
    ensures { result ≡ words_after trace.now limit offset }
{
    words_of(super::play(trace, limit).machine, offset)
}

// The same of a machine. The number is the answer that callers from C are given, 0 for none.
fn words_of(m: Machine, offset: u32) -> u32
    ensures { result ≡ words_of m offset }
{
    if m.kind != kinds::INDEXED {
        return 0;
    }
    cic_prioritised::looked::look_at(machine::record::indexed(m), offset).words
}

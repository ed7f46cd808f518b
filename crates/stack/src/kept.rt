// Whether a record of the controller keeps a priority table, and which source does not.
ghost use Rattle.std.specs.Prelude.{◌≡◌, ◌<◌};
ghost use Rattle.stack.specs.Kept.{same_mode, same_forcing, source_keeps, keeps, unkept};

use super::Table;
use aic_record::Aic;

// Whether source i has the table's priority and type.
fn has_mode(t: Table, s: Aic, i: u32) -> bool
    requires { i < 32 }
    ensures { result ≡ same_mode t s i }
{
    let at = i as usize;
    let mode = aic_record::mode_at(s, i);
    (aic_record::priority_of(mode) == t.priority[at])
        & (aic_record::type_of(mode as u32) == t.kind[at])
}

// Whether source i has the table's forcing; of source 0 it is not asked.
fn has_forcing(t: Table, s: Aic, i: u32) -> bool
    requires { i < 32 }
    ensures { result ≡ same_forcing t s i }
{
    let ours = words::one_if(words::has(s.forced, i));
    let theirs = words::one_if(words::has(t.forced, i));
    (i == 0) | (ours == theirs)
}

// Whether source i is off, or is as the table has it.
fn source_keeps(t: Table, s: Aic, i: u32) -> bool
    requires { i < 32 }
    ensures { result ≡ source_keeps t s i }
{
    !words::has(s.enabled, i) | (has_mode(t, s, i) & has_forcing(t, s, i))
}

// The lowest source that is enabled and not as the table has it, 32 where there is none.
// It is a number, and not an Option, since the promise `unkept_none` names 32.
pub fn unkept(t: Table, s: Aic) -> u32
    ensures { result ≡ unkept t s }
{
    (0..32).find(|&i| !source_keeps(t, s, i)).unwrap_or(32)
}

// Whether the record keeps the table.
pub fn keeps(t: Table, s: Aic) -> bool
    ensures { result ≡ keeps t s }
{
    unkept(t, s) == 32
}

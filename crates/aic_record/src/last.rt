// The last open entry of an AIC, as a wave and a picture show it.
ghost use Rattle.std.specs.Prelude.{◌≡◌};
ghost use Rattle.aic_record.specs.Last.{last_source, last_level};

use super::Aic;

// Its source; a mark is of source 0, and so is none.
pub fn last_source(s: Aic) -> u32
    ensures { result ≡ last_source s }
{
    let depth = s.depth;
    if depth == 0 {
        return 0;
    }
    super::source_at(s, depth - 1) as u32
}

// Its level, 255 where it has none and where there is none.
pub fn last_level(s: Aic) -> u32
    ensures { result ≡ last_level s }
{
    super::last_level(s) as u32
}

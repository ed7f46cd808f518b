// The table that the page tells of, and the names of its sources.
ghost use Rattle.std.specs.Prelude.{◌≡◌, ◌≢◌, get_or, IfNone, IfSome};
ghost use Rattle.sheet.specs.Names.{name_of};

use super::order;
use stack::Table;

// Beside the table stand the names of its sources, 24 bytes apart, and of how many bytes each name is: 24 at most, and 0 where there is none.
#[derive(Clone, Copy)]
pub(crate) struct Board {
    pub table: Table,
    pub names: [u8; 768],
    pub lengths: [u32; 32],
}

impl Board {
    // The name of source i, if it has one.
    pub(crate) fn name(&self, i: u32) -> Option<&[u8]>
        ensures none { IfNone result (get_or self.now.lengths i 0 ≡ 0) }
        ensures some { IfSome result (λ name. (get_or self.now.lengths i 0 ≢ 0) × (name.now ≡ name_of self.now.names (get_or self.now.lengths i 0) i)) }
    {
        let k = order::word_at(self.lengths, i);
        if k == 0 {
            return None;
        }
        let from = 24 * i as usize;
        Some(&self.names[from..from + (k as usize).min(24)])
    }
}

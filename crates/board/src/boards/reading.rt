// Reading a board's records, at any index.
ghost use Rattle.std.specs.Prelude.{◌≡◌, take};
ghost use Rattle.std.specs.List.{slice_get};
ghost use Rattle.board.specs.Tables.{records_view, Place};

use super::Board;
use records::access::{first, read};
use records::history::Undo;
use records::pairs::{Pair, place_of};
use records::variables::Var;

// One function for each table: the check covers no slice that is lent from a `&mut` receiver for reading.
impl<'a, K: Copy> Board<'a, K> {
    pub(super) fn var_at(&self, v: usize) -> Option<Var<K>>
        ensures { result ≡ slice_get self.now.vars v }
    {
        read(self.memory.vars, v)
    }

    pub(super) fn pair_at(&self, at: usize) -> Option<Pair<K>>
        ensures { result ≡ slice_get self.now.pairs at }
    {
        read(self.memory.pairs, at)
    }

    pub(super) fn undo_at(&self, at: usize) -> Option<Undo<K>>
        ensures { result ≡ slice_get self.now.history at }
    {
        read(self.memory.history, at)
    }

    pub(super) fn pin_of(&self, v: usize) -> Option<bool>
        ensures { result ≡ (records_view self.now).pin v }
    {
        self.var_at(v)?.pin
    }
}

// Where the pair of two variables stands among the first `used` records.
pub(super) fn find<K: Copy>(pairs: &[Pair<K>], used: usize, low: u32, high: u32) -> Option<usize>
    ensures { Place (low, high) (take used pairs.now) result }
{
    place_of(first(pairs, used), low, high)
}

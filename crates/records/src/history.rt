// What a change to a board replaced.
ghost use Rattle.std.specs.Prelude.{◌≡◌};
ghost use Rattle.records.specs.History.{unused_undo};

use crate::pairs::Pair;
use crate::variables::Var;

// What a record held before a change.
#[derive(Clone, Copy)]
pub enum Was<K> {
    Var(Var<K>),
    Pair(Pair<K>),
    // the pair was not kept
    Unkept,
}

// A history record: where the change was made, and what it replaced.
#[derive(Clone, Copy)]
pub struct Undo<K> {
    pub at: usize,
    pub was: Was<K>,
}

impl<K> Undo<K> {
    // A record to lend, of no change yet.
    pub fn unused() -> Undo<K>
        ensures { result ≡ unused_undo }
    {
        Undo {
            at: 0,
            was: Was::Unkept,
        }
    }
}

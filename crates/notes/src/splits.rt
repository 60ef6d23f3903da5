// The open splits, the newest at the top.
ghost use Rattle.std.specs.Prelude.{◌≡◌, ◌≤◌, [], length, take, drop, is_ok, nat_lt};
ghost use Rattle.notes.specs.declared.splits.TheConstants.{MOST_SPLITS};
ghost use Rattle.notes.specs.Splits.{Opened, Bounded, at_one, pushed, begun, popped, top_of};

use crate::full::Full;
use std::marker::Model;

pub const MOST_SPLITS: usize = 20;

// A split: its variable, how many removals were noted before it, and whether value 1 has begun, a flag on which no value hangs.
#[derive(Clone, Copy)]
pub struct Split {
    pub variable: u32,
    pub noted: usize,
    pub begun: bool,
}

impl Split {
    fn begin(&mut self)
        ensures { self.new ≡ at_one self.old }
    {
        self.begun = true;
    }
}

// A stack of splits in a table of its own: no heap, so the count stands beside it.
#[derive(Drop)]
pub struct Splits {
    table: [Split; MOST_SPLITS],
    count: usize,
}

// Clauses see the open splits, the oldest first, and the records after them.
impl Model for Splits {
    ghost Value = { Opened };

    ghost view = { λ s. record { splits = take s.count s.table; spare = drop s.count s.table } };

    ghost invariant = { λ s. s.count ≤ MOST_SPLITS };
}

impl Splits {
    // Without an open split.
    pub fn new() -> Splits
        ensures none { result.splits ≡ [] }
        ensures bounded { Bounded result }
    {
        let none = Split {
            variable: 0,
            noted: 0,
            begun: false,
        };
        Splits {
            table: [none; MOST_SPLITS],
            count: 0,
        }
    }

    // Opens a split at value 0. Where `MOST_SPLITS` are open, nothing changes.
    #[tactic(auto, using(crate::proofs::Stacking::pushed_at))]
    pub fn push(&mut self, variable: u32, noted: usize) -> Result<(), Full>
        ensures pushed { self.new ≡ pushed self.old variable noted }
        ensures room { is_ok result ≡ nat_lt (length self.old.splits) MOST_SPLITS }
    {
        let at = self.count;
        if at >= MOST_SPLITS {
            return Err(Full);
        }
        self.table[at] = Split {
            variable,
            noted,
            begun: false,
        };
        self.count = at + 1;
        Ok(())
    }

    // The newest.
    pub fn top(&self) -> Option<Split>
        ensures { result ≡ top_of self.now }
    {
        self.table.get(self.count.checked_sub(1)?).copied()
    }

    // Notes in the newest that value 1 has begun, and returns it as it then stands.
    #[tactic(auto, using(crate::proofs::Stacking::begun_at, crate::proofs::Stacking::marked_at))]
    pub fn begin_one(&mut self) -> Option<Split>
        ensures begun { self.new ≡ begun self.old }
        ensures there { result ≡ top_of self.new }
    {
        let at = self.count.checked_sub(1)?;
        let top = &mut self.table[at];
        top.begin();
        Some(*top)
    }

    // Takes the newest away.
    #[tactic(auto, using(crate::proofs::Stacking::popped_at))]
    pub fn pop(&mut self) -> Option<Split>
        ensures popped { self.new ≡ popped self.old }
        ensures there { result ≡ top_of self.old }
    {
        let at = self.count.checked_sub(1)?;
        self.count = at;
        self.table.get(at).copied()
    }
}

// The board over lent records.
ghost use Rattle.board.specs.Tables.{Held};

mod changing;
mod opening;
mod questions;
mod reading;
mod scoring;
mod sending;
mod writing;

use calls::questions::Counts;
use records::history::Undo;
use records::pairs::Pair;
use records::variables::Var;
use std::marker::Model;

// The records that a board is lent, read and written at any index: there is no heap, so how many are in use is counted beside.
#[derive(Drop)]
pub struct Memory<'a, K> {
    pub vars: &'a mut [Var<K>],
    pub pairs: &'a mut [Pair<K>],
    pub history: &'a mut [Undo<K>],
}

// A board of n variables: their records, the pairs kept between them, and the history of the changes that stand.
#[derive(Drop)]
pub struct Board<'a, K> {
    memory: Memory<'a, K>,
    counts: Counts,
}

// Clauses see every record of the memory, and every count.
impl<'a, K> Model for Board<'a, K> {
    ghost Value = { Held K };

    ghost view = { λ b. record { vars = b.memory.vars.now; pairs = b.memory.pairs.now; history = b.memory.history.now; n = b.counts.variables; kept = b.counts.pairs; standing = b.counts.changes } };
}

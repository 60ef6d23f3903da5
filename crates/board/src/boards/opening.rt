// Opening a board over lent records: a check that answers the refusal, and a making that cannot refuse.
ghost use Rattle.std.specs.Prelude.{◌≡◌, ℕ, ◌<◌, length, Some};
ghost use Rattle.std.specs.List.{slice_get};
ghost use Rattle.calls.specs.Questions.{refusal_in};
ghost use Rattle.board.specs.Opening.{not_opened, no_changes, Opened};

use super::{Board, Memory};
use calls::questions::{Counts, ask_opening};
use calls::refusals::Refusal;
use records::history::Undo;
use records::pairs::Pair;
use records::variables::Var;
use score::interface::Kind;

// Writes the same record at each of the first n places, however many more are lent. No `fill`: it asks for a `Clone` that cannot
// fail, and a kind promises none.
fn clear<K: Copy>(vars: &mut [Var<K>], n: usize, fresh: Var<K>)
    ensures { (v : ℕ) → v < n → v < length vars.old → slice_get vars.new v ≡ Some fresh }
{
    let first = n.min(vars.len());
    for var in &mut vars[..first] {
        *var = fresh;
    }
}

impl<'a, K: Kind> Memory<'a, K> {
    fn check(&self, n: u32) -> Result<(), Refusal>
        ensures { refusal_in result ≡ not_opened n self.now.vars.now self.now.pairs.now self.now.history.now }
    {
        let Memory {
            vars,
            pairs,
            history,
        } = self;
        Board::check(n, vars, pairs, history)
    }
}

impl<'a, K: Kind> Board<'a, K> {
    // Whether a board of n variables can be opened over these records. It asks of shared slices, so before anything is lent.
    pub fn check(
        n: u32,
        vars: &[Var<K>],
        pairs: &[Pair<K>],
        history: &[Undo<K>],
    ) -> Result<(), Refusal>
        ensures { refusal_in result ≡ not_opened n vars.now pairs.now history.now }
    {
        ask_opening(n, vars.len(), pairs.len(), history.len())
    }

    // A fresh board where the check says yes; otherwise one without variables.
    pub fn open(n: u32, memory: Memory<'a, K>) -> Board<'a, K>
        ensures { Opened K.Kind.model K.Kind.means n memory.entry.vars.now memory.entry.pairs.now memory.entry.history.now result }
    {
        if memory.check(n).is_err() {
            return Board::over(memory, 0);
        }
        clear(memory.vars, n as usize, Var::fresh());
        Board::over(memory, n as usize)
    }

    fn over(memory: Memory<'a, K>, variables: usize) -> Board<'a, K>
        ensures { result ≡ no_changes memory.entry.vars.now memory.entry.pairs.now memory.entry.history.now variables }
    {
        Board {
            memory,
            counts: Counts {
                variables,
                pairs: 0,
                changes: 0,
            },
        }
    }
}

// How a change is written: the old contents into the history first, where it counts as one more change, then the table.
ghost use Rattle.std.specs.Prelude.{◌≡◌, ◌<◌, false, is_some};
ghost use Rattle.calls.specs.Questions.{most_changes, most_pairs};
ghost use Rattle.board.specs.Tables.{noted, replace_var, replace_pair, keep_pair, put_back, take_back, join_one, join_pair, set_pin};

use super::Board;
use records::access::write;
use records::history::{Undo, Was};
use records::pairs::Pair;
use records::variables::Var;
use score::interface::Kind;
use score::values::{Four, Two};

// Each write requires the room that its check has shown: a token handed from the check to the write would say no more.
impl<'a, K: Copy> Board<'a, K> {
    // Keeps in the history what a change replaces.
    fn note(&mut self, at: usize, was: Was<K>)
        requires { self.old.standing < most_changes }
        ensures { self.new ≡ noted self.old at was }
    {
        let newest = self.counts.changes;
        write(self.memory.history, newest, Undo { at, was });
        self.counts.changes = newest + 1;
    }

    // The tables differ, and what their writes share is `note`.
    pub(super) fn replace_var(&mut self, v: usize, old: Var<K>, new: Var<K>)
        requires { self.old.standing < most_changes }
        ensures { self.new ≡ replace_var self.old v old new }
    {
        self.note(v, Was::Var(old));
        write(self.memory.vars, v, new);
    }

    pub(super) fn replace_pair(&mut self, at: usize, old: Pair<K>, new: Pair<K>)
        requires { self.old.standing < most_changes }
        ensures { self.new ≡ replace_pair self.old at old new }
    {
        self.note(at, Was::Pair(old));
        write(self.memory.pairs, at, new);
    }

    pub(super) fn keep_pair(&mut self, new: Pair<K>)
        requires { (self.old.standing < most_changes) × (self.old.kept < most_pairs) }
        ensures { self.new ≡ keep_pair self.old new }
    {
        let at = self.counts.pairs;
        self.note(at, Was::Unkept);
        write(self.memory.pairs, at, new);
        self.counts.pairs = at + 1;
    }

    // Puts back what the history record kept.
    pub(super) fn restore(&mut self, newest: Undo<K>)
        ensures { self.new ≡ put_back self.old newest }
    {
        self.counts.changes = self.counts.changes.saturating_sub(1);
        let Undo { at, was } = newest;
        match was {
            Was::Var(old) => write(self.memory.vars, at, old),
            Was::Pair(old) => write(self.memory.pairs, at, old),
            Was::Unkept => self.counts.pairs = self.counts.pairs.saturating_sub(1),
        }
    }

    pub(super) fn take_back(&mut self)
        ensures { self.new ≡ take_back self.old }
    {
        let newest = self.counts.changes.saturating_sub(1);
        if let Some(undo) = self.undo_at(newest) {
            self.restore(undo);
        }
    }
}

impl<'a, K: Kind> Board<'a, K> {
    // `join_one` and `set_pin` stay two: what they share is `replace_var`, and the rest is what each of them is for.
    pub(super) fn join_one(&mut self, v: usize, scores: Two<K>)
        requires { self.old.standing < most_changes }
        ensures { self.new ≡ join_one K.Kind.held self.old v scores }
    {
        if let Some(old) = self.var_at(v) {
            self.replace_var(v, old, old.joined(scores));
        }
    }

    pub(super) fn set_pin(&mut self, v: usize, pin: Option<bool>)
        requires { self.old.standing < most_changes }
        ensures { self.new ≡ set_pin self.old v pin }
    {
        if let Some(old) = self.var_at(v) {
            self.replace_var(v, old, old.with_pin(pin));
        }
    }

    pub(super) fn join_pair(&mut self, low: u32, high: u32, scores: Four<K>, place: Option<usize>)
        requires { (self.old.standing < most_changes) × (is_some place ≡ false → self.old.kept < most_pairs) }
        ensures { self.new ≡ join_pair K.Kind.held self.old (low, high) scores place }
    {
        match place {
            Some(at) => {
                if let Some(old) = self.pair_at(at) {
                    self.replace_pair(at, old, old.joined(scores));
                }
            }
            None => self.keep_pair(Pair { low, high, scores }),
        }
    }
}

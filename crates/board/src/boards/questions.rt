// The questions before a change, put to the records.
ghost use Rattle.std.specs.Prelude.{◌≡◌, IfOk, Some};
ghost use Rattle.calls.specs.Entries.{TwoScored, FourScored};
ghost use Rattle.calls.specs.Questions.{first_no, refusal_in, change_questions, back_questions};
ghost use Rattle.calls.specs.Standing.{key};
ghost use Rattle.calls.specs.declared.changes.Change.TheVariants.{One, Pair, Pin, Free};
ghost use Rattle.board.specs.Tables.{records_view, used, Place};

use super::Board;
use super::reading::find;
use calls::entries::{score_four, score_two};
use calls::refusals::Refusal;
use score::interface::Kind;
use score::values::{Four, Two};

// The scores of a post onto a pair, as posted, and where the pair stands if it is kept.
#[derive(Clone, Copy)]
pub(super) struct PairPost<K> {
    pub scores: Four<K>,
    pub place: Option<usize>,
}

impl<'a, K: Kind> Board<'a, K> {
    pub(super) fn check_one(&self, v: u32, entries: Two<K::Entry>) -> Result<Two<K>, Refusal>
        ensures reply { refusal_in result ≡ first_no (change_questions K.Kind.model (records_view self.now) (One v entries)) }
        ensures scores { IfOk result (λ s. TwoScored K.Kind.model K.Kind.means entries s) }
    {
        self.counts.ask_one(v, score_two::<K>(entries))
    }

    pub(super) fn check_pair(
        &self,
        a: u32,
        b: u32,
        entries: Four<K::Entry>,
    ) -> Result<PairPost<K>, Refusal>
        ensures reply { refusal_in result ≡ first_no (change_questions K.Kind.model (records_view self.now) (Pair a b entries)) }
        ensures scores { IfOk result (λ p. FourScored K.Kind.model K.Kind.means entries p.scores) }
        ensures place { IfOk result (λ p. Place (key a b) (used self.now) p.place) }
    {
        let place = find(self.memory.pairs, self.counts.pairs, a.min(b), a.max(b));
        let scores = score_four::<K>(entries);
        let scores = self.counts.ask_pair(a, b, scores, place.is_some())?;
        Ok(PairPost { scores, place })
    }

    pub(super) fn check_pin(&self, v: u32, value: u32) -> Result<(), Refusal>
        ensures { refusal_in result ≡ first_no (change_questions K.Kind.model (records_view self.now) (Pin v value)) }
    {
        self.counts.ask_pin(v, value, self.pin_of(v as usize))
    }

    pub(super) fn check_free(&self, v: u32) -> Result<(), Refusal>
        ensures { refusal_in result ≡ first_no (change_questions K.Kind.model (records_view self.now) (Free v)) }
    {
        self.counts.ask_free(v, self.pin_of(v as usize))
    }

    pub(super) fn check_back(&self) -> Result<(), Refusal>
        ensures { refusal_in result ≡ first_no (back_questions (records_view self.now)) }
    {
        self.counts.ask_back()
    }
}

// The calls that change a board.
ghost use Rattle.std.specs.Prelude.{◌≡◌, is_ok, if◌then◌else◌, None};
ghost use Rattle.calls.specs.Questions.{first_no, refusal_in, change_questions};
ghost use Rattle.calls.specs.declared.changes.Change.TheVariants.{One, Pair, Pin, Free};
ghost use Rattle.board.specs.Stands.{Changed, TakenBack};
ghost use Rattle.board.specs.Tables.{records_view, set_pin};

use super::Board;
use calls::refusals::Refusal;
use score::interface::Kind;
use score::values::{Four, Two};

impl<'a, K: Kind> Board<'a, K> {
    // Joins two entries onto a variable's scores, at 0 and at 1.
    pub fn one(&mut self, v: u32, entries: Two<K::Entry>) -> Result<(), Refusal>
        ensures { Changed K.Kind.model K.Kind.means self.old self.new (One v entries) result }
    {
        let scores = self.check_one(v, entries)?;
        self.join_one(v as usize, scores);
        Ok(())
    }

    // Joins four entries onto the scores of a pair, or keeps the pair. A post that names the higher variable first is turned.
    pub fn pair(&mut self, a: u32, b: u32, entries: Four<K::Entry>) -> Result<(), Refusal>
        ensures { Changed K.Kind.model K.Kind.means self.old self.new (Pair a b entries) result }
    {
        let post = self.check_pair(a, b, entries)?;
        self.join_pair(
            a.min(b),
            a.max(b),
            post.scores.lower_first(a, b),
            post.place,
        );
        Ok(())
    }

    // Holds a variable at a value.
    pub fn pin(&mut self, v: u32, value: u32) -> Result<(), Refusal>
        ensures { Changed K.Kind.model K.Kind.means self.old self.new (Pin v value) result }
    {
        self.check_pin(v, value)?;
        self.set_pin(v as usize, Some(value == 1));
        Ok(())
    }

    // Nothing is written before every question has said yes.
    fn end_pin(&mut self, v: u32) -> Result<(), Refusal>
        ensures reply { refusal_in result ≡ first_no (change_questions K.Kind.model (records_view self.old) (Free v)) }
        ensures after { self.new ≡ (if is_ok result then set_pin self.old v None else self.old) }
    {
        self.check_free(v)?;
        self.set_pin(v as usize, None);
        Ok(())
    }

    // Ends a pin.
    pub fn free(&mut self, v: u32) -> Result<(), Refusal>
        ensures { Changed K.Kind.model K.Kind.means self.old self.new (Free v) result }
    {
        self.end_pin(v)
    }

    // Takes the newest change back.
    pub fn back(&mut self) -> Result<(), Refusal>
        ensures { TakenBack K.Kind.model K.Kind.means self.old self.new result }
    {
        self.check_back()?;
        self.take_back();
        Ok(())
    }
}

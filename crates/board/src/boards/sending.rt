// Every call goes through here.
ghost use Rattle.board.specs.Sending.{Replied};
ghost use Rattle.board.specs.Stands.{Changed};

use super::Board;
use calls::answers::Answer;
use calls::changes::{Call, Change};
use calls::refusals::Refusal;
use score::interface::Kind;

impl<'a, K: Kind> Board<'a, K> {
    // A change, whichever it is.
    fn post(&mut self, change: Change<K::Entry>) -> Result<(), Refusal>
        ensures { Changed K.Kind.model K.Kind.means self.old self.new change result }
    {
        match change {
            Change::One { v, entries } => self.one(v, entries),
            Change::Pair { a, b, entries } => self.pair(a, b, entries),
            Change::Pin { v, value } => self.pin(v, value),
            Change::Free { v } => self.free(v),
        }
    }

    // A call, with the layout that `Score` asks about.
    pub fn send(&mut self, call: Call<K::Entry>, layout: &[u8]) -> Result<Answer<K>, Refusal>
        ensures { Replied K.Kind.model K.Kind.means self.old self.new call layout.now result }
    {
        match call {
            Call::Post(change) => self.post(change).map(|()| Answer::Done),
            Call::Back => self.back().map(|()| Answer::Done),
            Call::Score => self.score(layout).map(Answer::Is),
        }
    }
}

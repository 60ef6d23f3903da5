// A variable of a board.
ghost use Rattle.std.specs.Prelude.{◌≡◌};
ghost use Rattle.records.specs.Variables.{Fresh, joined_var, with_pin};

use score::interface::Kind;
use score::values::Two;

// Its scores, and the value that it is pinned at.
#[derive(Clone, Copy)]
pub struct Var<K> {
    pub scores: Two<K>,
    pub pin: Option<bool>,
}

impl<K: Copy> Var<K> {
    pub fn with_pin(self, pin: Option<bool>) -> Var<K>
        ensures { result ≡ with_pin self pin }
    {
        Var { pin, ..self }
    }
}

impl<K: Kind> Var<K> {
    // Neutral scores, and no pin.
    pub fn fresh() -> Var<K>
        ensures { Fresh K.Kind.model K.Kind.means result }
    {
        Var {
            scores: Two {
                zero: K::neutral(),
                one: K::neutral(),
            },
            pin: None,
        }
    }

    // With two more scores joined on.
    pub fn joined(self, scores: Two<K>) -> Var<K>
        ensures { result ≡ joined_var K.Kind.held self scores }
    {
        Var {
            scores: self.scores.joined(scores),
            ..self
        }
    }
}

// The better of two scores, for every kind.
ghost use Rattle.std.specs.Prelude.{◌≡◌, true, if◌then◌else◌};
ghost use Rattle.score.specs.Model.{better, BestOfTwo};

use crate::interface::Kind;

// Which of two scores was taken. A flag and no enum: the score is there in both cases, and the flag is a variable's value.
#[derive(Clone, Copy)]
pub struct Choice<K> {
    pub score: K,
    pub second: bool,
}

// The greater, and the first if they are equal.
pub fn better_of<K: Kind>(first: K, second: K) -> Choice<K>
    ensures taken { result.score ≡ (if result.second then second else first) }
    ensures means { K.Kind.means result.score ≡ better K.Kind.model (K.Kind.means first) (K.Kind.means second) }
    ensures best { BestOfTwo K.Kind.model (K.Kind.means first) (K.Kind.means second) result.second (K.Kind.means result.score) }
{
    if second.at_most(first) {
        Choice {
            score: first,
            second: false,
        }
    } else {
        Choice {
            score: second,
            second: true,
        }
    }
}

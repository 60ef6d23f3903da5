// Tiered: weights first, and where they are equal a second kind, whichever it is.
ghost use Rattle.std.specs.Prelude.{◌≡◌};
ghost use Rattle.score.specs.Tiered.{tiered_model, tiered_means, tiered_held, tiered_text, weight_of, second_of, weight_model, weight_score};
ghost use Rattle.score.specs.Integers.{adding_laws, +ℤ_cancels};
ghost use Rattle.score.specs.OneAboveAnother.{tiers_laws};
ghost use Rattle.score.specs.Limits.{weight_exact};
ghost use Rattle.score.specs.TierEntries.{together_first, together_second};

use crate::interface::Kind;
use std::fmt;

// A weight, and an entry of the second kind.
#[derive(Clone, Copy)]
pub struct Weighted<E> {
    pub weight: i32,
    pub second: E,
}

#[derive(Clone, Copy)]
pub struct Tiered<K> {
    pub weight: i32,
    pub second: K,
}

const MOST_WEIGHT: i32 = 1_000;

const LEAST_WEIGHT: i32 = -1_000;

impl<K: Kind> Kind for Tiered<K> {
    type Entry = Weighted<K::Entry>;

    type Score = (i32, K::Score);

    ghost model = { tiered_model K.Kind.model };

    ghost means = { tiered_means K.Kind.means };

    ghost held = { tiered_held K.Kind.held };

    ghost lawful = { tiers_laws weight_of second_of weight_model K.Kind.model (adding_laws weight_score) K.Kind.lawful +ℤ_cancels };

    ghost exact = { λ a b t i.
        let M = K.Kind.model in
        (weight_exact _ _ (together_first weight_of second_of weight_model M _ _ t) i, K.Kind.exact _ _ (together_second weight_of second_of weight_model M _ _ t) i) };

    fn neutral() -> Tiered<K> {
        Tiered {
            weight: 0,
            second: K::neutral(),
        }
    }

    fn score(entry: Weighted<K::Entry>) -> Option<Tiered<K>> {
        if !(LEAST_WEIGHT..=MOST_WEIGHT).contains(&entry.weight) {
            return None;
        }
        let second = K::score(entry.second)?;
        Some(Tiered {
            weight: entry.weight,
            second,
        })
    }

    // A sum of weights past 32 bits stays at the nearest that fits; no 1,024 entries reach so far.
    fn join(self, other: Tiered<K>) -> Tiered<K> {
        Tiered {
            weight: self.weight.saturating_add(other.weight),
            second: self.second.join(other.second),
        }
    }

    // Written out: a derived order would want one of the second kind, which has `at_most` alone.
    fn at_most(self, other: Tiered<K>) -> bool {
        if self.weight == other.weight {
            self.second.at_most(other.second)
        } else {
            self.weight < other.weight
        }
    }
}

impl<K: fmt::Display> fmt::Display for Tiered<K> {
    ghost output = { tiered_text K.Display.output };

    fn fmt<W: fmt::Write>(&self, f: &mut fmt::Formatter<W>) -> fmt::Result {
        write!(f, "{},{}", self.weight, self.second)
    }
}

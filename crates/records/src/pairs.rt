// A pair of variables, and what it says of either.
ghost use Rattle.std.specs.Prelude.{◌≡◌};
ghost use Rattle.calls.specs.Standing.{same_key};
ghost use Rattle.records.specs.Pairs.{touches, link_of, joined_pair, UnusedPair, place};

use score::interface::Kind;
use score::values::Four;

// A pair, the lower variable first, and its scores. No struct for the two: it would be written out wherever a pair is asked for.
#[derive(Clone, Copy)]
pub struct Pair<K> {
    pub low: u32,
    pub high: u32,
    pub scores: Four<K>,
}

// What a pair says of one of its two variables: its partner, and the scores with that variable's value first.
#[derive(Clone, Copy)]
pub struct Link<K> {
    pub partner: u32,
    pub scores: Four<K>,
}

impl<K> Pair<K> {
    // Whether it is the pair of these two.
    pub fn is_of(&self, low: u32, high: u32) -> bool
        ensures { result ≡ same_key (low, high) (self.now.low, self.now.high) }
    {
        (low, high) == (self.low, self.high)
    }

    // Whether the variable is one of the two.
    pub fn touches(&self, y: u32) -> bool
        ensures { result ≡ touches y self.now }
    {
        self.low == y || self.high == y
    }
}

impl<K: Copy> Pair<K> {
    // What the pair says of the variable, if it is one of the two.
    pub fn link_of(&self, y: u32) -> Option<Link<K>>
        ensures { result ≡ link_of y self.now }
    {
        if self.low == y {
            Some(Link {
                partner: self.high,
                scores: self.scores,
            })
        } else if self.high == y {
            Some(Link {
                partner: self.low,
                scores: self.scores.turned(),
            })
        } else {
            None
        }
    }
}

impl<K: Kind> Pair<K> {
    // A record to lend, of no pair yet.
    pub fn unused() -> Pair<K>
        ensures { UnusedPair K.Kind.model K.Kind.means result }
    {
        Pair {
            low: 0,
            high: 0,
            scores: Four {
                at00: K::neutral(),
                at01: K::neutral(),
                at10: K::neutral(),
                at11: K::neutral(),
            },
        }
    }

    // With four more scores joined on.
    pub fn joined(self, scores: Four<K>) -> Pair<K>
        ensures { result ≡ joined_pair K.Kind.held self scores }
    {
        Pair {
            scores: self.scores.joined(scores),
            ..self
        }
    }
}

// Where the pair of two variables stands. The lower variable is asked for first: most records have another, and two pairs are
// compared whole only where it is the same.
pub fn place_of<K: Copy>(pairs: &[Pair<K>], low: u32, high: u32) -> Option<usize>
    ensures { result ≡ place low high pairs.now }
{
    pairs
        .iter()
        .position(|pair| pair.low == low && pair.is_of(low, high))
}

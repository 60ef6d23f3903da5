// Total: hits times cycles, added up.
ghost use Rattle.std.specs.Prelude.{◌≡◌, pos, ◌*ℤ◌, Some};
ghost use Rattle.std.specs.Fmt.{signed_decimal};
ghost use Rattle.score.specs.Total.{total_model, total_held, total_score};
ghost use Rattle.score.specs.Integers.{adding_laws};
ghost use Rattle.score.specs.Limits.{total_exact};

use crate::interface::Kind;
use std::fmt;

// How often a table is hit in the same cycle as another, and how many cycles each hit is worth.
#[derive(Clone, Copy)]
pub struct Access {
    pub hits: u32,
    pub cycles: i32,
}

#[derive(Clone, Copy, PartialEq, Eq, PartialOrd, Ord)]
pub struct Total {
    pub sum: i64,
}

const MOST_CYCLES: i32 = 65_535;

const LEAST_CYCLES: i32 = -65_535;

// The whole product: both factors are widened first, so it never wraps.
fn product(hits: u32, cycles: i32) -> i64
    ensures { result ≡ pos hits *ℤ cycles }
{
    i64::from(hits) * i64::from(cycles)
}

impl Kind for Total {
    type Entry = Access;

    type Score = i64;

    ghost model = { total_model };

    ghost means = { λ s. s.sum };

    ghost held = { total_held };

    ghost lawful = { adding_laws total_score };

    ghost exact = { λ a b t. total_exact a.sum b.sum t };

    fn neutral() -> Total {
        Total { sum: 0 }
    }

    fn score(entry: Access) -> Option<Total> {
        let taken = (LEAST_CYCLES..=MOST_CYCLES).contains(&entry.cycles);
        taken.then(|| Total {
            sum: product(entry.hits, entry.cycles),
        })
    }

    // A sum past 64 bits stays at the nearest that fits; no 1,024 entries reach so far.
    fn join(self, other: Total) -> Total {
        Total {
            sum: self.sum.saturating_add(other.sum),
        }
    }

    fn at_most(self, other: Total) -> bool {
        self <= other
    }
}

impl fmt::Display for Total {
    ghost output = { λ s. Some (signed_decimal s.sum) };

    fn fmt<W: fmt::Write>(&self, f: &mut fmt::Formatter<W>) -> fmt::Result {
        write!(f, "{}", self.sum)
    }
}

// Worst margin: of all the margins posted, the smallest.
ghost use Rattle.std.specs.Prelude.{◌≡◌};
ghost use Rattle.score.specs.Worst.{worst_model, worst_text};
ghost use Rattle.std.proofs.Common.{rules};

use crate::interface::Kind;
use std::fmt;

// How far a table's reads stay from their deadline.
#[derive(Clone, Copy)]
pub struct Slack {
    pub margin: i32,
}

// In this order: the neutral score is above every margin. No Option: its order has `None` below, and it does not print.
#[derive(Clone, Copy, PartialEq, Eq, PartialOrd, Ord)]
pub enum Worst {
    Margin(i32),
    // none was posted
    Unlimited,
}

const MOST_MARGIN: i32 = 1_000_000_000;

const LEAST_MARGIN: i32 = -1_000_000_000;

impl Kind for Worst {
    type Entry = Slack;

    type Score = Worst;

    ghost model = { worst_model };

    ghost means = { λ s. s };

    ghost held = { worst_model.join };

    ghost lawful = { Prim.search rules };

    ghost exact = { Prim.search rules };

    fn neutral() -> Worst {
        Worst::Unlimited
    }

    fn score(entry: Slack) -> Option<Worst> {
        let taken = (LEAST_MARGIN..=MOST_MARGIN).contains(&entry.margin);
        taken.then_some(Worst::Margin(entry.margin))
    }

    fn join(self, other: Worst) -> Worst {
        self.min(other)
    }

    fn at_most(self, other: Worst) -> bool {
        self <= other
    }
}

impl fmt::Display for Worst {
    ghost output = { worst_text };

    fn fmt<W: fmt::Write>(&self, f: &mut fmt::Formatter<W>) -> fmt::Result {
        match self {
            Worst::Unlimited => write!(f, "none"),
            Worst::Margin(margin) => write!(f, "{margin}"),
        }
    }
}

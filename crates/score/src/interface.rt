// The score interface: what a score kind is, and what each one promises.
ghost use Rattle.std.specs.Prelude.{◌≡◌};
ghost use Rattle.std.specs.Option.{option_map};
ghost use Rattle.score.specs.Model.{Model, Laws, Together};

pub trait Kind: Copy {
    // what is posted
    type Entry: Copy;

    // the set of scores; no code holds one
    type Score;

    // the neutral score, the join, "at most", and the score of each entry that is taken
    ghost model: { Model Self.Entry Self.Score };

    // the score that a held one stands for
    ghost means: { Self → Self.Score };

    // what a join of any two held scores holds
    ghost held: { Self → Self → Self };

    fn neutral() -> Self
        ensures { means result ≡ model.neutral };

    // The score of an entry, or `None` where the kind does not take it.
    fn score(entry: Self::Entry) -> Option<Self>
        ensures { option_map means result ≡ model.score entry };

    fn join(self, other: Self) -> Self
        ensures { result ≡ held self other };

    // A question of each kind, and not std's order: it compares what scores stand for.
    fn at_most(self, other: Self) -> bool
        ensures { result ≡ model.«at_most» (means self) (means other) };

    ghost lawful: { Laws model };

    // a join is exact wherever the two are together of at most 1,024 entries
    ghost exact: { (a b : Self) → Together model (means a) (means b) → means (held a b) ≡ model.join (means a) (means b) };
}

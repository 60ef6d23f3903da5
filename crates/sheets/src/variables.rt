// A variable of a worksheet.
ghost use Rattle.std.specs.Prelude.{◌≡◌};
ghost use Rattle.sheets.specs.Variables.{remaining, joined_var};

use score::interface::Kind;
use score::values::Two;

// It remains, or it has left, with its two scores.
#[derive(Clone, Copy, Drop)]
pub enum Var<K> {
    Remains(Two<K>),
    Left(Two<K>),
}

impl<K: Copy> Var<K> {
    // Its scores, if it remains.
    pub fn remaining(self) -> Option<Two<K>>
        ensures { result ≡ remaining self }
    {
        match self {
            Var::Remains(scores) => Some(scores),
            Var::Left(_) => None,
        }
    }
}

impl<K: Kind> Var<K> {
    // With two more scores joined on.
    pub fn joined(self, scores: Two<K>) -> Var<K>
        ensures { result ≡ joined_var K.Kind.held self scores }
    {
        match self {
            Var::Remains(own) => Var::Remains(own.joined(scores)),
            Var::Left(own) => Var::Left(own.joined(scores)),
        }
    }
}

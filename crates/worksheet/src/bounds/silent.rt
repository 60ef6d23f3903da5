// The bound that says nothing.
ghost use Rattle.steps.specs.Examples.{silent};
ghost use Rattle.std.proofs.Common.{rules};

use super::Bound;
use records::pairs::Pair;
use score::interface::Kind;
use sheets::variables::Var;

#[derive(Clone, Copy)]
pub struct Silent;

impl<K: Kind> Bound<K> for Silent {
    ghost rule = { silent };

    ghost admissible = { Prim.search rules };

    fn ask(_base: K, _vars: &[Var<K>], _pairs: &[Pair<K>], _work: &mut [Var<K>]) -> Option<K> {
        None
    }
}

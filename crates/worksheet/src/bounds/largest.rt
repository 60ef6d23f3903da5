// The bound of the largest scores.
ghost use Rattle.std.specs.Prelude.{◌≡◌};
ghost use Rattle.sheets.specs.Totals.{with_vars, with_pairs};
ghost use Rattle.worksheet.specs.Bounds.{largest};
ghost use Rattle.worksheet.specs.Upper.{largest_admissible};

use super::Bound;
use records::pairs::Pair;
use score::interface::Kind;
use sheets::totals::{with_pairs, with_vars};
use sheets::variables::Var;

fn largest_of<K: Kind>(base: K, vars: &[Var<K>], pairs: &[Pair<K>]) -> K
    ensures { result ≡ with_pairs K.Kind.model K.Kind.means K.Kind.held (with_vars K.Kind.model K.Kind.means K.Kind.held base vars.now) pairs.now }
{
    with_pairs(with_vars(base, vars), pairs)
}

// The base joined with each variable's better score and each pair's best of four.
#[derive(Clone, Copy)]
pub struct Largest;

impl<K: Kind> Bound<K> for Largest {
    ghost rule = { largest K.Kind.model };

    ghost admissible = { largest_admissible K.Kind.model K.Kind.lawful };

    fn ask(base: K, vars: &[Var<K>], pairs: &[Pair<K>], work: &mut [Var<K>]) -> Option<K> {
        if vars.len() > work.len() {
            return None;
        }
        Some(largest_of(base, vars, pairs))
    }
}

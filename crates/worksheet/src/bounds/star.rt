// The bound of stars: a variable with the pairs of which it is the lower.
ghost use Rattle.worksheet.specs.Bounds.{star};
ghost use Rattle.worksheet.specs.Upper.{star_admissible};

use super::Bound;
use records::pairs::Pair;
use score::interface::Kind;
use sheets::totals::{with_arms, with_vars};
use sheets::variables::Var;

// Each pair belongs to its lower variable. A variable gives the better, over its values, of its score joined with the better
// entry of each of its pairs at that value. All are joined with the base.
#[derive(Clone, Copy)]
pub struct Star;

impl<K: Kind> Bound<K> for Star {
    ghost rule = { star K.Kind.model };

    ghost admissible = { star_admissible K.Kind.model K.Kind.lawful };

    fn ask(base: K, vars: &[Var<K>], pairs: &[Pair<K>], work: &mut [Var<K>]) -> Option<K> {
        if vars.len() > work.len() {
            return None;
        }
        // no `get_mut`: it leaves unsaid what the slice ends as
        let table = &mut work[..vars.len()];
        table.copy_from_slice(vars);
        with_arms(table, pairs);
        Some(with_vars(base, table))
    }
}

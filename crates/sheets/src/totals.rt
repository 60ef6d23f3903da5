// Joins over all records: of the better scores, and of the better entries of each pair onto its lower variable. Bounds loop over
// the records' elements, a rule of the project.
ghost use Rattle.std.specs.Prelude.{◌≡◌};
ghost use Rattle.sheets.specs.Totals.{with_var, with_vars, with_pairs, low_bests, best_pair, with_arm, arms};

use crate::changing::{better, join_at};
use crate::variables::Var;
use records::pairs::Pair;
use score::interface::Kind;
use score::values::{Four, Two};

fn with_var<K: Kind>(total: K, var: &Var<K>) -> K
    ensures { result ≡ with_var K.Kind.model K.Kind.means K.Kind.held total var.now }
{
    match *var {
        Var::Remains(scores) => total.join(better(scores).score),
        Var::Left(_) => total,
    }
}

// The better score of each variable that remains is joined on.
pub fn with_vars<K: Kind>(base: K, vars: &[Var<K>]) -> K
    ensures { result ≡ with_vars K.Kind.model K.Kind.means K.Kind.held base vars.now }
{
    let mut total = base;
    for var in vars {
        total = with_var(total, var);
    }
    total
}

// The better entries of a pair, at each value of its lower variable.
fn low_bests<K: Kind>(pair: &Pair<K>) -> Two<K>
    ensures { result ≡ low_bests K.Kind.model K.Kind.means pair.now }
{
    let Four {
        at00,
        at01,
        at10,
        at11,
    } = pair.scores;
    Two {
        zero: better(Two {
            zero: at00,
            one: at01,
        })
        .score,
        one: better(Two {
            zero: at10,
            one: at11,
        })
        .score,
    }
}

fn best_pair<K: Kind>(pair: &Pair<K>) -> K
    ensures { result ≡ best_pair K.Kind.model K.Kind.means pair.now }
{
    better(low_bests(pair)).score
}

// The best of each pair's four scores is joined on.
pub fn with_pairs<K: Kind>(base: K, pairs: &[Pair<K>]) -> K
    ensures { result ≡ with_pairs K.Kind.model K.Kind.means K.Kind.held base pairs.now }
{
    let mut total = base;
    for pair in pairs {
        total = total.join(best_pair(pair));
    }
    total
}

// The better entries of a pair are joined onto its lower variable's scores.
fn with_arm<K: Kind>(table: &mut [Var<K>], pair: &Pair<K>)
    ensures { table.new ≡ with_arm K.Kind.model K.Kind.means K.Kind.held table.old pair.now }
{
    join_at(table, pair.low as usize, low_bests(pair));
}

// The same for each pair.
pub fn with_arms<K: Kind>(table: &mut [Var<K>], pairs: &[Pair<K>])
    ensures { table.new ≡ arms K.Kind.model K.Kind.means K.Kind.held table.old pairs.now }
{
    for pair in pairs {
        with_arm(table, pair);
    }
}

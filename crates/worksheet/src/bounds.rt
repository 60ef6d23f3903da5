// Bounds: a bound is asked about a worksheet and replies with a score or says nothing.
pub mod largest;
pub mod silent;
pub mod star;

ghost use Rattle.std.specs.Prelude.{◌≡◌, ◌<◌, Bool, length, None, Option};
ghost use Rattle.steps.specs.Claims.{Admissible};
ghost use Rattle.steps.specs.Sheet.{Sheet};
ghost use Rattle.worksheet.specs.Bounds.{Replies, Above, Drops};

use records::pairs::Pair;
use score::interface::Kind;
use sheets::variables::Var;

// Clauses name a kind's model and what its scores mean apart: a record of the two would be taken apart in each definition.
pub trait Bound<K: Kind> {
    // what it replies about a worksheet's contents
    ghost rule: { Sheet Bool K.Score → Option K.Score };

    // The reply about the variables and the pairs in use. `work` is working memory and may end as it likes; where it is shorter
    // than `vars`, nothing is said and it is as found. Base, records and working memory are lent apart, a rule of the project.
    fn ask(base: K, vars: &[Var<K>], pairs: &[Pair<K>], work: &mut [Var<K>]) -> Option<K>
        ensures reply { Replies K.Kind.model K.Kind.means rule base vars.now pairs.now work.old result }
        ensures above { Above K.Kind.model K.Kind.means base vars.now pairs.now work.old result }
        ensures short { length work.old < length vars.now → (result ≡ None) × (work.new ≡ work.old) };

    // a score that it replies with is at least the base joined with what any values of the remaining variables select
    ghost admissible: { Admissible K.Kind.model Bool rule };
}

// Whether a side is dropped: a best is held, and the bound replied with a score at most the best.
pub fn is_dropped<K: Kind>(reply: Option<K>, best: Option<K>) -> bool
    ensures { Drops K.Kind.model K.Kind.means reply best result }
{
    match (reply, best) {
        (Some(reply), Some(best)) => reply.at_most(best),
        _ => false,
    }
}

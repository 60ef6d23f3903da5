// How many partners each variable has, in one pass over the pairs.
ghost use Rattle.std.specs.Prelude.{◌≡◌, length, replicate};
ghost use Rattle.partners.specs.Tallied.{tallied};
ghost use Rattle.worksheet.specs.Degrees.{Counted};

use partners::tallies::tally;
use records::pairs::Pair;
use score::interface::Kind;

// Writes the number of partners of each variable into `counts`.
pub fn count_partners<K: Kind>(pairs: &[Pair<K>], counts: &mut [usize])
    ensures tallied { counts.new ≡ tallied (replicate (length counts.old) 0) pairs.now }
    ensures partners { Counted K.Kind.means pairs.now counts.new }
{
    tally(counts, pairs);
}

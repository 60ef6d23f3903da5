// How many pairs touch each variable, in one pass over the pairs.
ghost use Rattle.std.specs.Prelude.{◌≡◌, ◌^◌, ◌<◌, length, replicate};
ghost use Rattle.partners.specs.Tallied.{one_more, both_more, tallied};

use records::access::{read, write};
use records::pairs::Pair;

// The count is read and written back, since `get_mut` leaves unsaid what the slice ends as.
fn add_one(counts: &mut [usize], v: u32)
    ensures { counts.new ≡ one_more counts.old v }
{
    let at = v as usize;
    if let Some(count) = read(counts, at) {
        write(counts, at, count.wrapping_add(1));
    }
}

fn add_both<K: Copy>(counts: &mut [usize], pair: &Pair<K>)
    ensures { counts.new ≡ both_more counts.old pair.now }
{
    add_one(counts, pair.low);
    add_one(counts, pair.high);
}

// Counts from 0 one more for both variables of each pair.
pub fn tally<K: Copy>(counts: &mut [usize], pairs: &[Pair<K>])
    ensures tallied { counts.new ≡ tallied (replicate (length counts.old) 0) pairs.now }
    ensures few { length pairs.now < 2 ^ 64 }
{
    counts.fill(0);
    for pair in pairs {
        add_both(counts, pair);
    }
}

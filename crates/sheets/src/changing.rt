// What a step does to the records: the better of two, joins onto records, and variables and pairs that leave.
ghost use Rattle.std.specs.Prelude.{◌≡◌, ◌≤◌, true, false, not, length, take, drop, slice_set};
ghost use Rattle.records.specs.Pairs.{touches};
ghost use Rattle.sheets.specs.Changed.{chosen, worth, worth_one, worth_two, join_at, hand, handed, kept, join_pair_at, post_in, post_used, two_best, two_scores};

use crate::variables::Var;
use records::access::{first, read, write};
use records::pairs::{Link, Pair, place_of};
use score::choice::{Choice, better_of};
use score::interface::Kind;
use score::values::{Four, Two};

// The greater, and the first if they are equal: as one term, a choice, which `better_of` says in three parts.
pub fn better<K: Kind>(scores: Two<K>) -> Choice<K>
    ensures { result ≡ chosen K.Kind.model K.Kind.means scores.zero scores.one }
{
    better_of(scores.zero, scores.one)
}

// A variable's scores joined with the pair's, the partner standing at `u`.
fn worth<K: Kind>(var: Two<K>, link: Link<K>, u: bool) -> Two<K>
    ensures { result ≡ worth K.Kind.held var link u }
{
    var.joined(Two {
        zero: link.scores.at(false, u),
        one: link.scores.at(true, u),
    })
}

// The better, over a variable's values, of its score joined with the pair's, the partner standing at `u`.
pub fn best_with_one<K: Kind>(var: Two<K>, link: Link<K>, u: bool) -> Choice<K>
    ensures { result ≡ chosen K.Kind.model K.Kind.means (worth_one K.Kind.held var link u false) (worth_one K.Kind.held var link u true) }
{
    better(worth(var, link, u))
}

// The same with two pairs, the partners standing at `u` and at `t`.
fn best_at<K: Kind>(var: Two<K>, low: Link<K>, high: Link<K>, u: bool, t: bool) -> Choice<K>
    ensures { result ≡ chosen K.Kind.model K.Kind.means (worth_two K.Kind.held var low high u t false) (worth_two K.Kind.held var low high u t true) }
{
    let scores = worth(worth(var, low, u), high, t);
    better(scores)
}

// The choices for each values of the two partners.
pub fn best_with_two<K: Kind>(var: Two<K>, low: Link<K>, high: Link<K>) -> Four<Choice<K>>
    ensures { result ≡ two_best K.Kind.model K.Kind.means K.Kind.held var low high }
{
    Four {
        at00: best_at(var, low, high, false, false),
        at01: best_at(var, low, high, false, true),
        at10: best_at(var, low, high, true, false),
        at11: best_at(var, low, high, true, true),
    }
}

// A `map` would take a closure, and with it a `requires`, which no public function has.
pub fn scores_of<K: Copy>(best: Four<Choice<K>>) -> Four<K>
    ensures { result ≡ two_scores best }
{
    Four {
        at00: best.at00.score,
        at01: best.at01.score,
        at10: best.at10.score,
        at11: best.at11.score,
    }
}

// Takes a variable away: it has left, with these scores.
pub fn leave<K: Copy>(vars: &mut [Var<K>], y: u32, scores: Two<K>)
    ensures { vars.new ≡ slice_set vars.old y (Var.Left scores) }
{
    write(vars, y as usize, Var::Left(scores));
}

// Joins two scores onto a variable's. The record is read and written back: `get_mut` leaves unsaid what the slice ends as, and an
// index would be tested by hand.
pub fn join_at<K: Kind>(vars: &mut [Var<K>], x: usize, scores: Two<K>)
    ensures { vars.new ≡ join_at K.Kind.held vars.old x scores }
{
    if let Some(var) = read(vars, x) {
        write(vars, x, var.joined(scores));
    }
}

fn stays<K: Copy>(pair: &Pair<K>, y: u32) -> bool
    ensures { result ≡ not (touches y pair.now) }
{
    !pair.touches(y)
}

// Removes a variable's pairs. The others keep their order. A lent slice has no `retain`, so the place is counted here. The table
// and its count are lent apart, a rule of the project.
pub fn drop_pairs<K: Copy>(pairs: &mut [Pair<K>], used: usize, y: u32) -> usize
    ensures kept { take result pairs.new ≡ kept y (take used pairs.old) }
    ensures rest { drop used pairs.new ≡ drop used pairs.old }
    ensures fewer { result ≤ used }
    ensures within { result ≤ length pairs.old }
{
    let mut next = 0;
    let end = used.min(pairs.len());
    for i in 0..end {
        let pair = pairs[i];
        if stays(&pair, y) {
            pairs[next] = pair;
            next += 1;
        }
    }
    next
}

// The scores of a pair, a variable standing at `c`, go to its partner.
fn hand<K: Kind>(vars: &mut [Var<K>], link: Option<Link<K>>, c: bool)
    ensures { vars.new ≡ hand K.Kind.held c vars.old link }
{
    if let Some(link) = link {
        let scores = Two {
            zero: link.scores.at(c, false),
            one: link.scores.at(c, true),
        };
        join_at(vars, link.partner as usize, scores);
    }
}

// The scores of each of a variable's pairs, the variable standing at `c`, go to the partner.
pub fn hand_over<K: Kind>(vars: &mut [Var<K>], pairs: &[Pair<K>], y: u32, c: bool)
    ensures { vars.new ≡ handed K.Kind.held y c vars.old pairs.now }
{
    for pair in pairs {
        hand(vars, pair.link_of(y), c);
    }
}

// Joins four scores onto a pair's, read and written back likewise.
fn join_pair_at<K: Kind>(pairs: &mut [Pair<K>], at: usize, scores: Four<K>)
    ensures { pairs.new ≡ join_pair_at K.Kind.held pairs.old at scores }
{
    if let Some(pair) = read(pairs, at) {
        write(pairs, at, pair.joined(scores));
    }
}

// Joins four scores onto those of a pair in use, or adds the pair if there is none and it has room. Returns how many are in use.
// The table and its count are lent apart, a rule of the project.
pub fn post_pair<K: Kind>(
    pairs: &mut [Pair<K>],
    used: usize,
    low: u32,
    high: u32,
    scores: Four<K>,
) -> usize
    ensures table { pairs.new ≡ post_in K.Kind.held low high scores used pairs.old }
    ensures used { result ≡ post_used low high used pairs.old }
{
    match place_of(first(pairs, used), low, high) {
        Some(at) => {
            join_pair_at(pairs, at, scores);
            used
        }
        None => {
            if used < pairs.len() {
                write(pairs, used, Pair { low, high, scores });
                used + 1
            } else {
                used
            }
        }
    }
}

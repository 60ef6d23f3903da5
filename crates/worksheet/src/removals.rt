// The removals of a variable from a worksheet: alone, by one partner, by two partners, and set.
//
// A call for a variable that does not remain, or has not so many partners, leaves all as found and returns `None`.
// `base`, `vars`, `pairs` and `used` are no struct: the base scores, tables and counts of several worksheets are lent apart, a rule
// of the project.
ghost use Rattle.std.specs.Prelude.{◌≡◌, length, take, drop};
ghost use Rattle.worksheet.specs.Does.{AloneDoes, OneDoes, TwoDoes, SetDoes};
ghost use Rattle.worksheet.specs.Left.{AloneLeft, OneLeft, TwoLeft, SetLeft, WhereNone};

use notes::removal::{Removal, Way};
use partners::links::{ByOne, ByTwo, alone_at, one_at, present_at, two_at};
use records::access::first;
use records::pairs::Pair;
use score::interface::Kind;
use score::values::Two;
use sheets::changing::{
    best_with_one, best_with_two, better, drop_pairs, hand_over, join_at, leave, post_pair,
    scores_of,
};
use sheets::variables::Var;

// A variable without partners takes its better value, and that score is joined to the base.
pub fn remove_alone<K: Kind>(
    base: &mut K,
    vars: &mut [Var<K>],
    pairs: &[Pair<K>],
    y: u32,
) -> Option<Removal>
    ensures left { AloneLeft K.Kind.model K.Kind.means base.old base.new vars.old vars.new pairs.now y result }
    ensures does { AloneDoes K.Kind.model K.Kind.means K.Kind.held base.old base.new vars.old vars.new pairs.now y result }
    ensures refused { WhereNone result ((base.new ≡ base.old) × (vars.new ≡ vars.old)) }
{
    let var = alone_at(vars, pairs, y)?;
    let best = better(var);
    *base = base.join(best.score);
    leave(vars, y, var);
    Some(Removal {
        variable: y,
        way: Way::Alone {
            value: u8::from(best.second),
        },
    })
}

// A variable with one partner leaves: each score of the partner is joined with the better, over the variable's values, of its
// score joined with the pair's.
#[tactic(auto, using(crate::proofs::Noted::byte_is))]
pub fn remove_by_one<K: Kind>(
    vars: &mut [Var<K>],
    pairs: &mut [Pair<K>],
    used: &mut usize,
    y: u32,
) -> Option<Removal>
    ensures left { OneLeft K.Kind.model K.Kind.means vars.old vars.new (take used.old pairs.old) (take used.new pairs.new) y result }
    ensures does { OneDoes K.Kind.model K.Kind.means K.Kind.held vars.old vars.new (take used.old pairs.old) (take used.new pairs.new) used.new (length pairs.old) y result }
    ensures unused { drop used.old pairs.new ≡ drop used.old pairs.old }
    ensures refused { WhereNone result ((vars.new ≡ vars.old) × (pairs.new ≡ pairs.old) × (used.new ≡ used.old)) }
{
    let before = *used;
    let ByOne { var, link } = one_at(vars, first(pairs, before), y)?;
    let at0 = best_with_one(var, link, false);
    let at1 = best_with_one(var, link, true);
    leave(vars, y, var);
    let scores = Two {
        zero: at0.score,
        one: at1.score,
    };
    join_at(vars, link.partner as usize, scores);
    *used = drop_pairs(pairs, before, y);
    Some(Removal {
        variable: y,
        way: Way::ByOne {
            partner: link.partner,
            at0: u8::from(at0.second),
            at1: u8::from(at1.second),
        },
    })
}

// A variable with two partners leaves: for each of their values, the better over the variable's of its score and both pairs'
// is joined onto the pair of the two, or becomes that pair if none was there.
pub fn remove_by_two<K: Kind>(
    vars: &mut [Var<K>],
    pairs: &mut [Pair<K>],
    used: &mut usize,
    y: u32,
) -> Option<Removal>
    ensures left { TwoLeft K.Kind.model K.Kind.means vars.old vars.new (take used.old pairs.old) (take used.new pairs.new) y result }
    ensures does { TwoDoes K.Kind.model K.Kind.means K.Kind.held vars.old vars.new (take used.old pairs.old) (take used.new pairs.new) used.new (length pairs.old) y result }
    ensures unused { drop used.old pairs.new ≡ drop used.old pairs.old }
    ensures refused { WhereNone result ((vars.new ≡ vars.old) × (pairs.new ≡ pairs.old) × (used.new ≡ used.old)) }
{
    let before = *used;
    let ByTwo { var, low, high } = two_at(vars, first(pairs, before), y)?;
    let best = best_with_two(var, low, high);
    leave(vars, y, var);
    let rest = drop_pairs(pairs, before, y);
    *used = post_pair(pairs, rest, low.partner, high.partner, scores_of(best));
    Some(Removal {
        variable: y,
        way: Way::ByTwo {
            low: low.partner,
            high: high.partner,
            at00: u8::from(best.at00.second),
            at01: u8::from(best.at01.second),
            at10: u8::from(best.at10.second),
            at11: u8::from(best.at11.second),
        },
    })
}

// A variable takes a value: its score goes to the base, and the score of each of its pairs to the partner.
pub fn set_variable<K: Kind>(
    base: &mut K,
    vars: &mut [Var<K>],
    pairs: &mut [Pair<K>],
    used: &mut usize,
    y: u32,
    value: bool,
) -> Option<Removal>
    ensures left { SetLeft K.Kind.model K.Kind.means base.old base.new vars.old vars.new (take used.old pairs.old) (take used.new pairs.new) y value result }
    ensures does { SetDoes K.Kind.held base.old base.new vars.old vars.new (take used.old pairs.old) (take used.new pairs.new) used.new (length pairs.old) y value result }
    ensures unused { drop used.old pairs.new ≡ drop used.old pairs.old }
    ensures refused { WhereNone result ((base.new ≡ base.old) × (vars.new ≡ vars.old) × (pairs.new ≡ pairs.old) × (used.new ≡ used.old)) }
{
    let before = *used;
    let var = present_at(vars, y)?;
    *base = base.join(var.at(value));
    leave(vars, y, var);
    hand_over(vars, first(pairs, before), y, value);
    *used = drop_pairs(pairs, before, y);
    Some(Removal {
        variable: y,
        way: Way::Set {
            value: u8::from(value),
        },
    })
}

// The score of a layout.
ghost use Rattle.std.specs.Prelude.{◌≡◌, []};
ghost use Rattle.calls.specs.Questions.{keeps_pin, keeps_pins, first_no, refusal_in, score_questions};
ghost use Rattle.calls.specs.Runs.{values};
ghost use Rattle.score.specs.Values.{at_two};
ghost use Rattle.board.specs.Scoring.{pair_at, vars_at, pairs_at, JoinsOn};
ghost use Rattle.board.specs.ScoringBoard.{LayoutJoined};
ghost use Rattle.board.specs.Stands.{Scored};
ghost use Rattle.board.specs.Tables.{records_view};

use super::Board;
use calls::refusals::Refusal;
use records::access::{first, is_one};
use records::pairs::Pair;
use records::variables::Var;
use score::interface::Kind;

fn keeps_pin(pin: Option<bool>, value: u8) -> bool
    ensures { result ≡ keeps_pin pin value }
{
    pin.is_none_or(|pinned| value == u8::from(pinned))
}

fn var_score<K: Kind>(var: &Var<K>, v: usize, layout: &[u8]) -> K
    ensures { result ≡ at_two var.now.scores (values layout.now v) }
{
    var.scores.at(is_one(layout, v))
}

fn pair_score<K: Kind>(pair: &Pair<K>, layout: &[u8]) -> K
    ensures { result ≡ pair_at layout.now pair.now }
{
    pair.scores.at(
        is_one(layout, pair.low as usize),
        is_one(layout, pair.high as usize),
    )
}

// Joins on the scores of the variables. Scoring loops over the records, a rule of the project, here with their
// index, which says the layout's byte.
fn join_vars<K: Kind>(start: K, vars: &[Var<K>], layout: &[u8]) -> K
    ensures { JoinsOn K.Kind.model K.Kind.means (vars_at layout.now 0 vars.now) start [] result }
{
    let mut sum = start;
    for (v, var) in vars.iter().enumerate() {
        sum = sum.join(var_score(var, v, layout));
    }
    sum
}

// Joins on the scores of the pairs.
fn join_pairs<K: Kind>(start: K, pairs: &[Pair<K>], layout: &[u8]) -> K
    ensures { JoinsOn K.Kind.model K.Kind.means (pairs_at layout.now pairs.now) start [] result }
{
    let mut sum = start;
    for pair in pairs {
        sum = sum.join(pair_score(pair, layout));
    }
    sum
}

impl<'a, K: Kind> Board<'a, K> {
    // A loop with its index, which says the variable: tried as `enumerate` and `all`, which the check does not prove.
    fn keeps_pins(&self, layout: &[u8]) -> bool
        ensures { result ≡ keeps_pins (records_view self.now).pin 0 layout.now }
    {
        for (v, value) in layout.iter().enumerate() {
            if !keeps_pin(self.pin_of(v), *value) {
                return false;
            }
        }
        true
    }

    fn check_score(&self, layout: &[u8]) -> Result<(), Refusal>
        ensures { refusal_in result ≡ first_no (score_questions (records_view self.now) layout.now) }
    {
        self.counts.ask_score(layout, self.keeps_pins(layout))
    }

    fn layout_score(&self, layout: &[u8]) -> K
        ensures { LayoutJoined K.Kind.model K.Kind.means self.now layout.now result }
    {
        let ones = join_vars(
            K::neutral(),
            first(self.memory.vars, self.counts.variables),
            layout,
        );
        join_pairs(ones, first(self.memory.pairs, self.counts.pairs), layout)
    }

    // The score of a layout: a byte, 0 or 1, for each variable.
    pub fn score(&self, layout: &[u8]) -> Result<K, Refusal>
        ensures { Scored K.Kind.model K.Kind.means self.now layout.now result }
    {
        self.check_score(layout)?;
        Ok(self.layout_score(layout))
    }
}

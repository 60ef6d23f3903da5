// The theory of worksheets and of the steps of solve.
//
// Each function's contract is a theorem about every score kind: where the theorem needs no kind, the function names none.

#![tactic(auto)]

ghost use Rattle.std.specs.Prelude.{◌^◌, true, false};
ghost use Rattle.steps.specs.Examples.{Examples};
ghost use Rattle.steps.specs.Claims.{RemovalsKeepBest, SettingStands, ExploredGreatest, ExploredOnce, ExploredAlways, Shrinks, SplitsBounded, BankSplitsWithin, StartStands, StartAtOnce, SolveStands, UnpinnedStands, BanksChoose, EntriesStand, TotalsStand};

use score::interface::Kind;

// Every removal keeps the best.
pub fn removals_stand<K: Kind, V>()
    ensures { RemovalsKeepBest K.Kind.model V }
{}

// A variable that is set stands at its value.
#[tactic(auto, using(crate::proofs::Sheets::value_set, crate::proofs::Removals::set_sound))]
pub fn setting_stands<K: Kind, V>()
    ensures { SettingStands K.Kind.model V }
{}

// An exploration leaves as best held the greatest of what was held and of all values, with a layout that attains it.
pub fn explorations_stand<K: Kind, V>()
    ensures { ExploredGreatest K.Kind.model V }
{}

// There is one outcome at most.
pub fn one_outcome_stands<K: Kind, V>()
    ensures { ExploredOnce K.Kind.model V }
{}

// There is always an outcome.
#[tactic(auto, using(crate::proofs::Run::outcome))]
pub fn outcome_stands<K: Kind, V>()
    ensures { ExploredAlways K.Kind.model V }
{}

// Every step makes a worksheet smaller.
pub fn steps_shrink<K: Kind, V>()
    ensures { Shrinks K.Kind.model V }
{}

// The splits are at most 2 ^ k - 1, k the variables with three or more partners.
#[tactic(auto, using(crate::proofs::Splits::splits_bounded))]
pub fn splits_stand<K: Kind, V>()
    ensures values { SplitsBounded K.Kind.model V }
    ensures banks { BankSplitsWithin K.Kind.model (λ k. 2 ^ k) }
{}

// The sheet that a solve starts from says what the board says with its pins.
#[tactic(auto, using(crate::proofs::Pins::at_once))]
pub fn start_stands<K: Kind, V>()
    ensures says { StartStands K.Kind.model V }
    ensures once { StartAtOnce K.Kind.model V }
{}

// A solve ends with the greatest score of all layouts that keep the pins, and with a layout that has it.
pub fn solve_stands<K: Kind, V>()
    ensures { SolveStands K.Kind.model V }
{}

// A board without pins is worth the score of its layout.
#[tactic(auto, using(crate::proofs::Starts::unpinned_sound, crate::proofs::Starts::unpinned_value))]
pub fn unpinned_stands<K: Kind, V>()
    ensures { UnpinnedStands K.Kind.model V }
{}

// With two banks a choice is the better of two, and value 0 if they are equal.
#[tactic(auto, using(crate::proofs::Choices::bank_chosen, crate::proofs::Choices::bank_better))]
pub fn banks_choose<K: Kind>()
    ensures { BanksChoose K.Kind.model false true }
{}

// No step makes a worksheet of more entries, and within 1,024 every join of a step is exact.
pub fn entries_stand<K: Kind, V>()
    ensures few { EntriesStand K.Kind.model V }
    ensures total { TotalsStand K.Kind.model V }
{}

// The worked examples: the little boards, and the scores of entries at and beyond their limits.
#[tactic(auto, using(crate::proofs::Worked::examples))]
pub fn examples_stand()
    ensures { Examples }
{}

// The questions before a call, put to plain values. The first "no" turns it down.
ghost use Rattle.std.specs.Prelude.{◌≡◌, ◌&&◌, is_some, IfOk, Some, nat_le, nat_lt};
ghost use Rattle.calls.specs.Questions.{most_variables, most_pairs, most_changes, refusal_in, all_values, first_no, opening_questions, one_questions, pair_questions, pin_questions, free_questions, taking_back_questions, layout_questions};

use crate::refusals::Refusal;

const MOST_VARIABLES: usize = 64;

const MOST_PAIRS: usize = 256;

const MOST_CHANGES: usize = 1_024;

fn few_enough(n: u32) -> bool
    ensures { result ≡ (nat_le 1 n && nat_le n most_variables) }
{
    1 <= n && n as usize <= MOST_VARIABLES
}

fn long_enough(vars: usize, pairs: usize, history: usize) -> bool
    ensures { result ≡ (nat_le most_variables vars && (nat_le most_pairs pairs && nat_le most_changes history)) }
{
    MOST_VARIABLES <= vars && MOST_PAIRS <= pairs && MOST_CHANGES <= history
}

// Whether a board of n variables can be opened over so many records.
pub fn ask_opening(n: u32, vars: usize, pairs: usize, history: usize) -> Result<(), Refusal>
    ensures { refusal_in result ≡ first_no (opening_questions n vars pairs history) }
{
    if !few_enough(n) {
        Err(Refusal::Variables)
    } else if !long_enough(vars, pairs, history) {
        Err(Refusal::Memory)
    } else {
        Ok(())
    }
}

// How much of a board is in use: its variables, the pairs that are kept, and the changes that stand.
#[derive(Clone, Copy)]
pub struct Counts {
    pub variables: usize,
    pub pairs: usize,
    pub changes: usize,
}

impl Counts {
    fn has(&self, v: u32) -> bool
        ensures { result ≡ nat_lt v self.now.variables }
    {
        (v as usize) < self.variables
    }

    fn has_room(&self) -> bool
        ensures { result ≡ nat_lt self.now.changes most_changes }
    {
        self.changes < MOST_CHANGES
    }

    // Whether scores can be joined onto a variable; `None` where an entry is not taken.
    pub fn ask_one<T: Copy>(&self, v: u32, scores: Option<T>) -> Result<T, Refusal>
        ensures reply { refusal_in result ≡ first_no (one_questions self.now.variables self.now.changes v (is_some scores)) }
        ensures scores { IfOk result (λ s. scores ≡ Some s) }
    {
        if !self.has(v) {
            return Err(Refusal::NoVariable);
        }
        let scores = scores.ok_or(Refusal::Entry)?;
        self.has_room()
            .then_some(scores)
            .ok_or(Refusal::HistoryFull)
    }

    // Whether scores can be joined onto the pair of two variables, or the pair be kept.
    pub fn ask_pair<T: Copy>(
        &self,
        a: u32,
        b: u32,
        scores: Option<T>,
        found: bool,
    ) -> Result<T, Refusal>
        ensures reply { refusal_in result ≡ first_no (pair_questions self.now.variables self.now.changes self.now.pairs a b (is_some scores) found) }
        ensures scores { IfOk result (λ s. scores ≡ Some s) }
    {
        if !self.has(a) || !self.has(b) {
            return Err(Refusal::NoVariable);
        }
        if a == b {
            return Err(Refusal::SameVariable);
        }
        let scores = scores.ok_or(Refusal::Entry)?;
        if !self.has_room() {
            return Err(Refusal::HistoryFull);
        }
        if !found && self.pairs >= MOST_PAIRS {
            return Err(Refusal::PairsFull);
        }
        Ok(scores)
    }

    // Whether a variable with this pin can be pinned at a value.
    pub fn ask_pin(&self, v: u32, value: u32, pin: Option<bool>) -> Result<(), Refusal>
        ensures { refusal_in result ≡ first_no (pin_questions self.now.variables self.now.changes v value pin) }
    {
        if !self.has(v) {
            Err(Refusal::NoVariable)
        } else if value >= 2 {
            Err(Refusal::Value)
        } else if pin.is_some() {
            Err(Refusal::Pinned)
        } else if !self.has_room() {
            Err(Refusal::HistoryFull)
        } else {
            Ok(())
        }
    }

    // Whether the pin of a variable can be ended.
    pub fn ask_free(&self, v: u32, pin: Option<bool>) -> Result<(), Refusal>
        ensures { refusal_in result ≡ first_no (free_questions self.now.variables self.now.changes v pin) }
    {
        if !self.has(v) {
            Err(Refusal::NoVariable)
        } else if pin.is_none() {
            Err(Refusal::NotPinned)
        } else if !self.has_room() {
            Err(Refusal::HistoryFull)
        } else {
            Ok(())
        }
    }

    // Whether the newest change can be taken back.
    pub fn ask_back(&self) -> Result<(), Refusal>
        ensures { refusal_in result ≡ first_no (taking_back_questions self.now.changes) }
    {
        if self.changes == 0 {
            Err(Refusal::NoChange)
        } else {
            Ok(())
        }
    }

    // Whether a layout that keeps every pin, or does not, can be scored.
    pub fn ask_score(&self, layout: &[u8], kept: bool) -> Result<(), Refusal>
        ensures { refusal_in result ≡ first_no (layout_questions self.now.variables layout.now kept) }
    {
        if layout.len() != self.variables {
            Err(Refusal::LayoutLength)
        } else if !all_values(layout) {
            Err(Refusal::Value)
        } else if !kept {
            Err(Refusal::PinBroken)
        } else {
            Ok(())
        }
    }
}

fn all_values(layout: &[u8]) -> bool
    ensures { result ≡ all_values layout.now }
{
    layout.iter().all(|value| *value < 2)
}

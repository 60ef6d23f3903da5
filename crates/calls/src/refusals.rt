// Why a call is turned down. Each case has its number.
ghost use Rattle.std.specs.Prelude.{◌≡◌, Some};
ghost use Rattle.calls.specs.Refusals.{refusal_number, refusal_text};

use std::fmt;

#[derive(Clone, Copy)]
pub enum Refusal {
    // a board has from 1 to 64 variables
    Variables = 1,
    // a memory is too short
    Memory = 2,
    // a layout has a byte for each variable
    LayoutLength = 3,
    // no such variable
    NoVariable = 4,
    // a pair is of two different variables
    SameVariable = 5,
    // a value is 0 or 1
    Value = 6,
    // the kind does not take an entry
    Entry = 7,
    // the variable is pinned already
    Pinned = 8,
    // the variable is not pinned
    NotPinned = 9,
    // no change stands
    NoChange = 10,
    // the layout does not keep a pin
    PinBroken = 11,
    // 1,024 changes stand
    HistoryFull = 12,
    // 256 pairs are kept
    PairsFull = 13,
}

impl Refusal {
    // As replies have it.
    pub fn number(self) -> u8
        ensures { result ≡ refusal_number self }
    {
        self as u8
    }
}

impl fmt::Display for Refusal {
    ghost output = { λ f. Some (refusal_text f) };

    fn fmt<W: fmt::Write>(&self, f: &mut fmt::Formatter<W>) -> fmt::Result {
        write!(f, "no,{}", self.number())
    }
}

// One of something for each value of a variable, and one for each values of two variables.
ghost use Rattle.std.specs.Prelude.{◌≡◌};
ghost use Rattle.score.specs.Values.{at_two, joined_two, at_four, turned_four, lower_first, joined_four, four_of};

use crate::interface::Kind;

#[derive(Clone, Copy, Drop)]
pub struct Two<T> {
    pub zero: T,
    pub one: T,
}

// At 00, 01, 10 and 11, the first variable's value first. No two of twos: that would be read by place, as `zero.one`, and turned or
// joined through a trait of its own.
#[derive(Clone, Copy, Drop)]
pub struct Four<T> {
    pub at00: T,
    pub at01: T,
    pub at10: T,
    pub at11: T,
}

impl<T: Copy> Two<T> {
    pub fn at(&self, one: bool) -> T
        ensures { result ≡ at_two self.now one }
    {
        if one { self.one } else { self.zero }
    }
}

impl<K: Kind> Two<K> {
    // With two more scores joined on.
    pub fn joined(self, scores: Two<K>) -> Two<K>
        ensures { result ≡ joined_two K.Kind.held self scores }
    {
        Two {
            zero: self.zero.join(scores.zero),
            one: self.one.join(scores.one),
        }
    }
}

impl<T: Copy> Four<T> {
    // The one at the values of the first variable and of the second.
    pub fn at(&self, first: bool, second: bool) -> T
        ensures { result ≡ at_four self.now first second }
    {
        match (first, second) {
            (false, false) => self.at00,
            (false, true) => self.at01,
            (true, false) => self.at10,
            (true, true) => self.at11,
        }
    }

    // The same with the second variable first.
    pub fn turned(&self) -> Four<T>
        ensures { result ≡ turned_four self.now }
    {
        Four {
            at00: self.at00,
            at01: self.at10,
            at10: self.at01,
            at11: self.at11,
        }
    }

    // With the lower of two variables first, which a post named in this order.
    pub fn lower_first(&self, a: u32, b: u32) -> Four<T>
        ensures { result ≡ lower_first a b self.now }
    {
        if a < b { *self } else { self.turned() }
    }
}

impl<K: Kind> Four<K> {
    // With four more scores joined on.
    pub fn joined(self, scores: Four<K>) -> Four<K>
        ensures { result ≡ joined_four K.Kind.held self scores }
    {
        Four {
            at00: self.at00.join(scores.at00),
            at01: self.at01.join(scores.at01),
            at10: self.at10.join(scores.at10),
            at11: self.at11.join(scores.at11),
        }
    }
}

// Two for each value of the first variable.
impl<T> From<Two<Two<T>>> for Four<T> {
    ghost from_gives = { λ t f. f ≡ four_of t };

    fn from(values: Two<Two<T>>) -> Four<T> {
        Four {
            at00: values.zero.zero,
            at01: values.zero.one,
            at10: values.one.zero,
            at11: values.one.one,
        }
    }
}

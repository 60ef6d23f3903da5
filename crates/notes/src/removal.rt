// A removal of a variable from a worksheet, as it is noted.

// How a variable left, and the value, 0 or 1, that it takes: plain numbers and no array, a rule of the project.
#[derive(Clone, Copy)]
pub enum Way {
    // without partners
    Alone {
        value: u8,
    },
    // by one partner: the value for each of the partner's
    ByOne {
        partner: u32,
        at0: u8,
        at1: u8,
    },
    // by two partners, the lower first: the value for each of theirs
    ByTwo {
        low: u32,
        high: u32,
        at00: u8,
        at01: u8,
        at10: u8,
        at11: u8,
    },
    Set {
        value: u8,
    },
}

#[derive(Clone, Copy)]
pub struct Removal {
    pub variable: u32,
    pub way: Way,
}

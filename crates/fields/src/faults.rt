// What is wrong with a listing: a fault of a field within one of its line, and that within one of the listing.
ghost use Rattle.std.specs.Prelude.{◌≡◌, Some};
ghost use Rattle.fields.specs.declared.faults.LineFault.TheVariants.{Field};
ghost use Rattle.fields.specs.declared.faults.ListingFault.TheVariants.{Line};
ghost use Rattle.fields.specs.Faults.{bad_at, field_bad, line_bad, listing_bad, printed};

use std::fmt;

// A field of a listing: the numbers of its line and of the field in it, both from 1.
#[derive(Clone, Copy)]
pub struct Place {
    pub line: usize,
    pub field: usize,
}

#[derive(Clone, Copy)]
pub enum FieldFault {
    // no byte after any minus, or no byte of a layout
    Empty(Place),
    // a byte that is no digit, or a minus where none is allowed
    NotDigits(Place),
    // more than 11 bytes, or a number outside its range
    OutOfRange(Place),
    // no letter that is known here
    UnknownLetter(Place),
}

// Each case but a field's has the line's number.
#[derive(Clone, Copy)]
pub enum LineFault {
    TooLong(usize),
    UnknownWord(usize),
    // a first line that is no board line, or a later one that is
    Misplaced(usize),
    FieldCount(usize),
    Field(FieldFault),
}

#[derive(Clone, Copy)]
pub enum ListingFault {
    TooLarge,
    Line(LineFault),
}

impl From<FieldFault> for LineFault {
    ghost from_gives = { λ f r. r ≡ Field f };

    fn from(fault: FieldFault) -> LineFault {
        LineFault::Field(fault)
    }
}

impl From<LineFault> for ListingFault {
    ghost from_gives = { λ f r. r ≡ Line f };

    fn from(fault: LineFault) -> ListingFault {
        ListingFault::Line(fault)
    }
}

// The reply to a fault, as a program prints it: the numbers of its line and its field, 0 where no single one is meant, and the
// number of the question that said no.
#[derive(Clone, Copy)]
pub struct Bad {
    pub line: usize,
    pub field: usize,
    pub question: u32,
}

impl fmt::Display for Bad {
    ghost output = { λ b. Some (printed b) };

    fn fmt<W: fmt::Write>(&self, f: &mut fmt::Formatter<W>) -> fmt::Result {
        write!(f, "bad,{},{},{}", self.line, self.field, self.question)
    }
}

impl Bad {
    fn at(line: usize, field: usize, question: u32) -> Bad
        ensures { result ≡ bad_at line field question }
    {
        Bad {
            line,
            field,
            question,
        }
    }
}

impl From<FieldFault> for Bad {
    ghost from_gives = { λ f r. r ≡ field_bad f };

    fn from(fault: FieldFault) -> Bad {
        match fault {
            FieldFault::Empty(place) => Bad::at(place.line, place.field, 26),
            FieldFault::NotDigits(place) => Bad::at(place.line, place.field, 27),
            FieldFault::OutOfRange(place) => Bad::at(place.line, place.field, 28),
            FieldFault::UnknownLetter(place) => Bad::at(place.line, place.field, 29),
        }
    }
}

impl From<LineFault> for Bad {
    ghost from_gives = { λ f r. r ≡ line_bad f };

    fn from(fault: LineFault) -> Bad {
        match fault {
            LineFault::TooLong(line) => Bad::at(line, 0, 22),
            LineFault::UnknownWord(line) => Bad::at(line, 1, 23),
            LineFault::Misplaced(line) => Bad::at(line, 1, 24),
            LineFault::FieldCount(line) => Bad::at(line, 0, 25),
            LineFault::Field(fault) => Bad::from(fault),
        }
    }
}

impl From<ListingFault> for Bad {
    ghost from_gives = { λ f r. r ≡ listing_bad f };

    fn from(fault: ListingFault) -> Bad {
        match fault {
            ListingFault::TooLarge => Bad::at(0, 0, 21),
            ListingFault::Line(fault) => Bad::from(fault),
        }
    }
}

impl ListingFault {
    // The same conversion, as a method for callers.
    pub fn reply(self) -> Bad
        ensures { result ≡ listing_bad self }
    {
        Bad::from(self)
    }
}

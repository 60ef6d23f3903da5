// A field of a line, and what it can hold: a number, a layout or a letter.
ghost use Rattle.std.specs.Prelude.{◌≡◌, ◌-◌, ◌^◌, ◌<◌, min, [], ◌∷◌, length, MatchResult, Some};
ghost use Rattle.std.specs.Str.{all_ascii_digits};
ghost use Rattle.fields.specs.declared.faults.FieldFault.TheVariants.{Empty, NotDigits, OutOfRange};
ghost use Rattle.fields.specs.Values.{unsigned, value, signed_value};
ghost use Rattle.fields.specs.Questions.{answered};
ghost use Rattle.fields.specs.Forms.{asked, natural, integer, layout, kind, bytes_of, named_kind, letter, short};

use crate::faults::{FieldFault, Place};
use std::fmt;

// The kinds of board: a total, a worst margin, or either of them below a weight.
#[derive(Clone, Copy)]
pub enum BoardKind {
    Total,
    Worst,
    TieredTotal,
    TieredWorst,
}

// A kind is written as its letter.
impl fmt::Display for BoardKind {
    ghost output = { λ k. Some (letter k) };

    fn fmt<W: fmt::Write>(&self, f: &mut fmt::Formatter<W>) -> fmt::Result {
        f.write_str(match self {
            BoardKind::Total => "T",
            BoardKind::Worst => "W",
            BoardKind::TieredTotal => "H",
            BoardKind::TieredWorst => "V",
        })
    }
}

// A part of a listing: the bytes of one field, where they stand, and the field's place. It is plain and copied, so clauses name its
// fields, and it has no model.
#[derive(Clone, Copy)]
pub struct Part<'a> {
    pub bytes: &'a [u8],
    pub place: Place,
}

const MINUS: u8 = b'-';

// A number has at most so many bytes, with its minus and its leading zeros.
const NUMBER_BYTES: usize = 11;

fn all_digits(bytes: &[u8]) -> bool
    ensures { result ≡ all_ascii_digits bytes.now }
{
    bytes.iter().all(|b| b.is_ascii_digit())
}

// The number that the digits write, or the greatest of 64 bits where it is greater. Read by hand: std's `parse` takes a text and
// a plus, and does not tell a byte that is no digit from a number out of range.
fn value_of(digits: &[u8]) -> u64
    ensures { result ≡ min (value digits.now) (2 ^ 64 - 1) }
{
    digits.iter().fold(0, |value: u64, digit| {
        value
            .saturating_mul(10)
            .saturating_add(u64::from(digit.saturating_sub(b'0')))
    })
}

impl<'a> Part<'a> {
    // The bytes after any minus. The first byte is taken by let .. else, a rule of the project.
    fn unsigned(self) -> Result<&'a [u8], FieldFault>
        ensures { MatchResult result (λ ds. (ds.now ≡ unsigned (bytes_of self.entry)) × (0 < length (unsigned (bytes_of self.entry)))) (λ f. (length (unsigned (bytes_of self.entry)) ≡ 0) × (f ≡ Empty self.entry.place)) }
    {
        let [first, rest @ ..] = self.bytes else {
            return Err(FieldFault::Empty(self.place));
        };
        if *first != MINUS {
            return Ok(self.bytes);
        }
        if rest.is_empty() {
            return Err(FieldFault::Empty(self.place));
        }
        Ok(rest)
    }

    // What the field's digits write, if they are digits and the field has no more bytes than a number.
    fn size(self, digits: &[u8]) -> Result<u64, FieldFault>
        ensures { result ≡ answered ((all_ascii_digits digits.now, NotDigits self.entry.place) ∷ (short (bytes_of self.entry), OutOfRange self.entry.place) ∷ []) (min (value digits.now) (2 ^ 64 - 1)) }
    {
        if !all_digits(digits) {
            return Err(FieldFault::NotDigits(self.place));
        }
        if self.bytes.len() > NUMBER_BYTES {
            return Err(FieldFault::OutOfRange(self.place));
        }
        Ok(value_of(digits))
    }

    // A number from 0 to 4,294,967,295. Two functions, since they differ in the minus and the range; the rest is
    // `unsigned` and `size`.
    pub fn natural(self) -> Result<u32, FieldFault>
        ensures { result ≡ answered (asked natural self.entry.place (bytes_of self.entry)) (value (bytes_of self.entry)) }
    {
        let _digits = self.unsigned()?;
        // no minus is allowed
        let size = self.size(self.bytes)?;
        u32::try_from(size).map_err(|_| FieldFault::OutOfRange(self.place))
    }

    // A number from -2,147,483,648 to 2,147,483,647. Fewer digits than bytes say that there is a minus: a flag would say no more.
    pub fn integer(self) -> Result<i32, FieldFault>
        ensures { result ≡ answered (asked integer self.entry.place (bytes_of self.entry)) (signed_value (bytes_of self.entry)) }
    {
        let digits = self.unsigned()?;
        let size = i128::from(self.size(digits)?);
        let number = if digits.len() < self.bytes.len() {
            -size
        } else {
            size
        };
        i32::try_from(number).map_err(|_| FieldFault::OutOfRange(self.place))
    }

    // A digit for each variable of a board.
    pub fn layout(self) -> Result<Part<'a>, FieldFault>
        ensures { result ≡ answered (asked layout self.entry.place (bytes_of self.entry)) self.entry }
    {
        let layout = self.bytes;
        if layout.is_empty() {
            return Err(FieldFault::Empty(self.place));
        }
        if !all_digits(layout) {
            return Err(FieldFault::NotDigits(self.place));
        }
        Ok(self)
    }

    // The letter of a board's kind, matched as a char, a rule of the project.
    pub fn board_kind(self) -> Result<BoardKind, FieldFault>
        ensures { result ≡ answered (asked kind self.entry.place (bytes_of self.entry)) (named_kind (bytes_of self.entry)) }
    {
        let [letter] = self.bytes else {
            return Err(FieldFault::UnknownLetter(self.place));
        };
        match *letter as char {
            'T' => Ok(BoardKind::Total),
            'W' => Ok(BoardKind::Worst),
            'H' => Ok(BoardKind::TieredTotal),
            'V' => Ok(BoardKind::TieredWorst),
            _ => Err(FieldFault::UnknownLetter(self.place)),
        }
    }
}

// A line of a listing, and its fields.
ghost use Rattle.std.specs.Prelude.{◌≡◌, ◌+◌, ◌^◌, ◌<◌, [], drop, slice_index_or};
ghost use Rattle.fields.specs.Forms.{bytes_of};
ghost use Rattle.listing.specs.Text.{fields, TextLaws};
ghost use Rattle.listing.specs.Lines.{text_of, place_at, Unread, fields_in, Took, FirstField};

use fields::cutting::{head, tail};
use fields::faults::Place;
use fields::parts::Part;
use std::marker::Model;

pub(crate) const COMMA: u8 = b',';

// A line, where it stands in a listing, without its line feed; and its number, from 1. It is plain and copied, so clauses name its
// fields, and it has no model.
#[derive(Clone, Copy)]
pub struct Line<'a> {
    pub text: &'a [u8],
    pub number: usize,
}

// The fields of a line that are yet to be handed out, and the place of the first of them.
#[derive(Drop)]
pub struct Cursor<'a> {
    rest: Option<&'a [u8]>,
    place: Place,
}

// Clauses see the fields themselves, and the place of the first.
impl<'a> Model for Cursor<'a> {
    ghost Value = { Unread };

    ghost view = { λ c. record { place = c.place; left = fields_in c.rest } };
}

impl<'a> Line<'a> {
    // The field with this index, from 0; empty where there is none. Places are counted from 1, so the place is right where its number fits.
    pub fn field(self, index: usize) -> Part<'a>
        ensures bytes { bytes_of result ≡ slice_index_or (fields (text_of self.entry)) index [] }
        ensures place { index + 1 < 2 ^ 64 → result.place ≡ place_at self.entry.number index }
    {
        let bytes = self.text.split(|b| *b == COMMA).nth(index).unwrap_or(&[]);
        Part {
            bytes,
            place: Place {
                line: self.number,
                field: index.saturating_add(1),
            },
        }
    }

    // All fields, one after another.
    pub fn fields(self) -> Cursor<'a>
        ensures left { result.left ≡ fields (text_of self.entry) }
        ensures place { result.place ≡ place_at self.entry.number 0 }
    {
        Cursor {
            rest: Some(self.text),
            place: Place {
                line: self.number,
                field: 1,
            },
        }
    }

    // The fields after the word.
    pub(crate) fn after_word(self) -> Cursor<'a>
        ensures left { result.left ≡ drop 1 (fields (text_of self.entry)) }
        ensures place { result.place ≡ place_at self.entry.number 1 }
    {
        let mut cursor = self.fields();
        let _word = cursor.take();
        cursor
    }
}

// A field, and what stands after its comma; `None` where there is no comma, which a field as long as the text says: a flag would
// say no more.
#[tactic(auto, using(crate::proofs::Splitting::pieces_cut, crate::proofs::Splitting::pieces_only))]
fn first_field(text: &[u8]) -> (&[u8], Option<&[u8]>)
    ensures { FirstField text.now result }
{
    let field = head(text, COMMA);
    if field.len() < text.len() {
        (field, Some(tail(text, COMMA)))
    } else {
        (field, None)
    }
}

impl<'a> Cursor<'a> {
    // Hands out the next field; it is empty where there is none.
    pub fn take(&mut self) -> Part<'a>
        ensures { Took self.old result self.new }
    {
        let place = self.place;
        let (bytes, rest) = first_field(self.rest.unwrap_or(&[]));
        self.rest = rest;
        self.place = Place {
            line: place.line,
            field: place.field.saturating_add(1),
        };
        Part { bytes, place }
    }
}

// What lines and fields are: parts that give the text again. The contract is all that this function is for.
pub fn parts_give_the_text()
    ensures { TextLaws }
{}

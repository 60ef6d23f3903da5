// Reads a line: its word, its place in the listing, the number of its fields, and then field by field.
ghost use Rattle.std.specs.Prelude.{◌≡◌, ◌+◌, length, drop, Some, None, MatchResult, ◌==◌};
ghost use Rattle.fields.specs.Questions.{first_no, answered};
ghost use Rattle.listing.specs.Text.{fields};
ghost use Rattle.listing.specs.Lines.{text_of, place_at, questions_from};
ghost use Rattle.listing.specs.Reading.{word_at, word_questions, opening_forms, opening_of, opening_reply, CommandReply};
ghost use Rattle.listing.specs.RoundTrip.{OpeningBack, CommandBack};

use crate::commands::{Command, Opening, field_count, read_call};
use crate::entries::EntryFields;
use crate::lines::{COMMA, Line};
use fields::cutting::cuts;
use fields::faults::{FieldFault, LineFault};
use fields::words::{Word, known_word};

// A line has at most so many bytes before its line feed.
const LINE_BYTES: usize = 400;

// The fields after the word `board`.
const BOARD_FIELDS: usize = 2;

impl<'a> Line<'a> {
    // Whether so many fields stand after the word.
    fn has_fields(self, count: usize) -> bool
        ensures { result ≡ (length (fields (text_of self.entry)) == (count + 1)) }
    {
        cuts(self.text, COMMA) == count
    }

    fn word(self) -> Result<Word, LineFault>
        ensures { MatchResult result (λ w. (first_no (word_questions self.entry.number (text_of self.entry)) ≡ None) × (word_at (text_of self.entry) ≡ Some w)) (λ f. first_no (word_questions self.entry.number (text_of self.entry)) ≡ Some f) }
    {
        if self.text.len() > LINE_BYTES {
            return Err(LineFault::TooLong(self.number));
        }
        known_word(self.field(0).bytes).ok_or(LineFault::UnknownWord(self.number))
    }

    fn board(self) -> Result<Opening, FieldFault>
        ensures { result ≡ answered (questions_from (place_at self.entry.number 1) opening_forms (drop 1 (fields (text_of self.entry)))) (opening_of (drop 1 (fields (text_of self.entry)))) }
    {
        let mut fields = self.after_word();
        let variables = fields.take().natural()?;
        let kind = fields.take().board_kind()?;
        Ok(Opening { variables, kind })
    }

    fn read_opening(self) -> Result<Opening, LineFault>
        ensures { result ≡ opening_reply self.entry.number (text_of self.entry) }
    {
        let Word::Board = self.word()? else {
            return Err(LineFault::Misplaced(self.number));
        };
        if !self.has_fields(BOARD_FIELDS) {
            return Err(LineFault::FieldCount(self.number));
        }
        Ok(self.board()?)
    }

    fn read_command<E: EntryFields>(self) -> Result<Command<'a, E>, LineFault>
        ensures { CommandReply E.EntryFields.form self.entry.number (text_of self.entry) result }
    {
        let Word::Call(call) = self.word()? else {
            return Err(LineFault::Misplaced(self.number));
        };
        if !self.has_fields(field_count::<E>(call)) {
            return Err(LineFault::FieldCount(self.number));
        }
        Ok(read_call(&mut self.after_word(), call)?)
    }

    // The line read as the first of a listing.
    pub fn opening(self) -> Result<Opening, LineFault>
        ensures reply { result ≡ opening_reply self.entry.number (text_of self.entry) }
        ensures back { OpeningBack (text_of self.entry) result }
    {
        self.read_opening()
    }

    // The line read as one after the first, on a board whose kind takes these entries.
    pub fn command<E: EntryFields>(self) -> Result<Command<'a, E>, LineFault>
        ensures reply { CommandReply E.EntryFields.form self.entry.number (text_of self.entry) result }
        ensures back { CommandBack E.EntryFields.form (text_of self.entry) result }
    {
        self.read_command()
    }
}

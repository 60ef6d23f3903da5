// Reads a listing line by line. The reader borrows the listing, and what it hands out are parts of it.
ghost use Rattle.std.specs.Prelude.{◌+◌, ◌≤◌, length};
ghost use Rattle.listing.specs.declared.reader.TheConstants.{LISTING_BYTES};

use crate::commands::{Command, Opening};
use crate::entries::EntryFields;
use crate::lines::Line;
use fields::cutting::{head, tail};
use fields::faults::ListingFault;

// A listing has at most so many bytes.
const LISTING_BYTES: usize = 65_536;

const LINE_FEED: u8 = 10;

// The lines of a listing after those that were read.
#[derive(Drop)]
pub struct Reader<'a> {
    rest: &'a [u8],
    // how many lines were read
    line: usize,
    ghost few: { line + length rest.now ≤ LISTING_BYTES },
}

impl<'a> Reader<'a> {
    ghost use Rattle.listing.specs.Listings.{NextLine, Opened, NextCommand};

    fn next_line(&mut self) -> Option<Line<'a>>
        ensures { NextLine self.old self.new result }
    {
        if self.rest.is_empty() {
            return None;
        }
        let text = head(self.rest, LINE_FEED);
        let number = self.line + 1;
        self.rest = tail(self.rest, LINE_FEED);
        self.line = number;
        Some(Line { text, number })
    }

    // Reads the first line of a listing, and hands out a reader of the others; `None` where there is no line.
    pub fn open(text: &'a [u8]) -> Result<Option<(Opening, Reader<'a>)>, ListingFault>
        ensures { Opened text.now result }
    {
        if text.len() > LISTING_BYTES {
            return Err(ListingFault::TooLarge);
        }
        let mut reader = Reader {
            rest: text,
            line: 0,
        };
        let Some(line) = reader.next_line() else {
            return Ok(None);
        };
        let opening = line.opening()?;
        Ok(Some((opening, reader)))
    }

    // Reads the next line, on a board whose kind takes these entries; `None` after the last line.
    pub fn command<E: EntryFields>(&mut self) -> Result<Option<Command<'a, E>>, ListingFault>
        ensures { NextCommand E.EntryFields.form self.old self.new result }
    {
        let Some(line) = self.next_line() else {
            return Ok(None);
        };
        Ok(Some(line.command()?))
    }
}

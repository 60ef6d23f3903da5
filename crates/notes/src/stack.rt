// The notes of removals, the newest on top.
ghost use Rattle.std.specs.Prelude.{◌≡◌, length, is_ok, nat_lt};
ghost use Rattle.notes.specs.Layouts.{read_back, ReadFrom};
ghost use Rattle.notes.specs.Stack.{Noted, no_notes, notes_of, push_note, cut_notes};

use crate::full::Full;
use crate::layouts::read_layout;
use crate::removal::Removal;
use records::access::{first, write};
use std::marker::Model;

// A stack of notes in a lent table. The memory is the caller's, so the count stands beside it.
#[derive(Drop)]
pub struct Notes<'a> {
    table: &'a mut [Removal],
    count: usize,
}

// Clauses see the table, and how many are noted in it.
impl<'a> Model for Notes<'a> {
    ghost Value = { Noted };

    ghost view = { λ s. record { table = s.table.now; count = s.count } };
}

impl<'a> Notes<'a> {
    // Without a note, the table as lent.
    pub fn new(table: &'a mut [Removal]) -> Notes<'a>
        ensures { result ≡ no_notes table.old }
    {
        Notes { table, count: 0 }
    }

    // Writes a note down. Where the table is full, nothing changes.
    pub fn push(&mut self, note: Removal) -> Result<(), Full>
        ensures pushed { self.new ≡ push_note self.old note }
        ensures room { is_ok result ≡ nat_lt self.old.count (length self.old.table) }
    {
        let at = self.count;
        if at >= self.table.len() {
            return Err(Full);
        }
        write(self.table, at, note);
        self.count = at + 1;
        Ok(())
    }

    // How many notes are held.
    pub fn len(&self) -> usize
        ensures { result ≡ length (notes_of self.now) }
    {
        first(self.table, self.count).len()
    }

    // Keeps the oldest notes, `count` of them at most.
    pub fn cut(&mut self, count: usize)
        ensures { self.new ≡ cut_notes self.old count }
    {
        self.count = count.min(self.count);
    }

    // Reads a layout from the notes, newest first.
    pub fn read(&self, layout: &mut [u8])
        ensures written { layout.new ≡ read_back layout.old (notes_of self.now) }
        ensures reads { ReadFrom (notes_of self.now) layout.old layout.new }
    {
        read_layout(first(self.table, self.count), layout);
    }
}

// The layout that is read from the notes of removals.
ghost use Rattle.std.specs.Prelude.{◌≡◌};
ghost use Rattle.steps.specs.Steps.{taken};
ghost use Rattle.notes.specs.Removals.{way_of};
ghost use Rattle.notes.specs.Layouts.{bank_at, settled, read_back, ReadFrom};

use crate::removal::{Removal, Way};
use records::access::{is_one, write};
use score::values::{Four, Two};

// The value that a removed variable takes, those removed after it standing as in the layout.
fn value_taken(way: Way, layout: &[u8]) -> bool
    ensures { result ≡ taken (way_of way) (bank_at layout.now) }
{
    let value = match way {
        Way::Alone { value } | Way::Set { value } => value,
        Way::ByOne { partner, at0, at1 } => {
            let choices = Two {
                zero: at0,
                one: at1,
            };
            choices.at(is_one(layout, partner as usize))
        }
        Way::ByTwo {
            low,
            high,
            at00,
            at01,
            at10,
            at11,
        } => {
            let choices = Four {
                at00,
                at01,
                at10,
                at11,
            };
            choices.at(is_one(layout, low as usize), is_one(layout, high as usize))
        }
    };
    value == 1
}

// Writes the value of a removed variable into the layout.
fn settle(layout: &mut [u8], note: Removal)
    ensures { layout.new ≡ settled layout.old note }
{
    let value = value_taken(note.way, layout);
    write(layout, note.variable as usize, u8::from(value));
}

fn settle_all(layout: &mut [u8], notes: &[Removal])
    ensures { layout.new ≡ read_back layout.old notes.now }
{
    for note in notes.iter().rev() {
        settle(layout, *note);
    }
}

// Reads a layout from the notes, oldest first in the slice, newest first as they are read. A note of a variable past the
// layout's end writes nothing.
#[tactic(auto, using(crate::proofs::Reading::reads))]
pub fn read_layout(notes: &[Removal], layout: &mut [u8])
    ensures written { layout.new ≡ read_back layout.old notes.now }
    ensures reads { ReadFrom notes.now layout.old layout.new }
{
    settle_all(layout, notes);
}

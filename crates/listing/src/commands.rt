// Commands to a board, as lines spell them.
ghost use Rattle.std.specs.Prelude.{◌≡◌, ◌-◌, ◌^◌, min, length};
ghost use Rattle.fields.specs.declared.words.Call.TheVariants.{One, Pair, Pin, Free, Score};
ghost use Rattle.listing.specs.Calls.{call_of};
ghost use Rattle.listing.specs.Commands.{call_forms, CallReply};

use crate::entries::EntryFields;
use crate::lines::Cursor;
use calls::changes::Change;
use fields::faults::FieldFault;
use fields::parts::{BoardKind, Part};
use fields::words::Call;
use score::values::{Four, Two};

// The first line: how many variables the board has, and its kind.
#[derive(Clone, Copy)]
pub struct Opening {
    pub variables: u32,
    pub kind: BoardKind,
}

// A line after the first. A post is a change to a board. No `Call`: the line has a layout's digits, a call has them in a buffer
// that is sent with it.
#[derive(Clone, Copy, Drop)]
pub enum Command<'a, E> {
    Post(Change<E>),
    Back,
    // a digit for each variable
    Score { layout: Part<'a> },
}

// The call that a command spells.
impl<'a, E: Copy> From<&Command<'a, E>> for calls::changes::Call<E> {
    ghost from_gives = { λ c r. r ≡ call_of c.now };

    fn from(command: &Command<'a, E>) -> calls::changes::Call<E> {
        match command {
            Command::Post(change) => calls::changes::Call::Post(*change),
            Command::Back => calls::changes::Call::Back,
            Command::Score { .. } => calls::changes::Call::Score,
        }
    }
}

// How many fields stand after the word of a command.
pub(crate) fn field_count<E: EntryFields>(call: Call) -> usize
    ensures { result ≡ min (length (call_forms E.EntryFields.form call)) (2 ^ 64 - 1) }
{
    match call {
        Call::One => Two::<E>::field_count().saturating_add(1),
        Call::Pair => Two::<Two<E>>::field_count().saturating_add(2),
        Call::Pin => 2,
        Call::Free => 1,
        Call::Back => 0,
        Call::Score => 1,
    }
}

fn read_one<'a, E: EntryFields>(fields: &mut Cursor<'a>) -> Result<Command<'a, E>, FieldFault>
    ensures { CallReply E.EntryFields.form One fields.old result }
{
    let v = fields.take().natural()?;
    let entries = Two::read(fields)?;
    Ok(Command::Post(Change::One { v, entries }))
}

fn read_pair<'a, E: EntryFields>(fields: &mut Cursor<'a>) -> Result<Command<'a, E>, FieldFault>
    ensures { CallReply E.EntryFields.form Pair fields.old result }
{
    let a = fields.take().natural()?;
    let b = fields.take().natural()?;
    let entries = Four::from(Two::<Two<E>>::read(fields)?);
    Ok(Command::Post(Change::Pair { a, b, entries }))
}

fn read_pin<'a, E: EntryFields>(fields: &mut Cursor<'a>) -> Result<Command<'a, E>, FieldFault>
    ensures { CallReply E.EntryFields.form Pin fields.old result }
{
    let v = fields.take().natural()?;
    let value = fields.take().natural()?;
    Ok(Command::Post(Change::Pin { v, value }))
}

fn read_free<'a, E: EntryFields>(fields: &mut Cursor<'a>) -> Result<Command<'a, E>, FieldFault>
    ensures { CallReply E.EntryFields.form Free fields.old result }
{
    let v = fields.take().natural()?;
    Ok(Command::Post(Change::Free { v }))
}

fn read_score<'a, E: EntryFields>(fields: &mut Cursor<'a>) -> Result<Command<'a, E>, FieldFault>
    ensures { CallReply E.EntryFields.form Score fields.old result }
{
    let layout = fields.take().layout()?;
    Ok(Command::Score { layout })
}

// Reads the fields of a command after its word.
pub(crate) fn read_call<'a, E: EntryFields>(
    fields: &mut Cursor<'a>,
    call: Call,
) -> Result<Command<'a, E>, FieldFault>
    ensures { CallReply E.EntryFields.form call fields.old result }
{
    match call {
        Call::One => read_one(fields),
        Call::Pair => read_pair(fields),
        Call::Pin => read_pin(fields),
        Call::Free => read_free(fields),
        Call::Back => Ok(Command::Back),
        Call::Score => read_score(fields),
    }
}

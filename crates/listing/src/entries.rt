// The fields that an entry fills, one for each of its numbers.
ghost use Rattle.std.specs.Prelude.{◌≡◌, ◌-◌, ◌^◌, min, length, OnOk};
ghost use Rattle.listing.specs.Lines.{Passed};
ghost use Rattle.listing.specs.Entries.{EntryForm, entry_reply, access_form, slack_form, weighted_form, by_value_form};
ghost use Rattle.listing.specs.Written.{ReadsBack};
ghost use Rattle.listing.specs.EntryWriting.{access_back, slack_back, weighted_back, by_value_back};

use crate::lines::Cursor;
use fields::faults::FieldFault;
use score::margins::Slack;
use score::tiers::Weighted;
use score::totals::Access;
use score::values::Two;

pub trait EntryFields: Copy {
    // what the fields hold, the entry that they spell, and how an entry is written
    ghost form: { EntryForm Self };

    // How many fields an entry fills.
    fn field_count() -> usize
        ensures { result ≡ min (length form.forms) (2 ^ 64 - 1) };

    // The entry that the next fields spell.
    fn read(fields: &mut Cursor<'_>) -> Result<Self, FieldFault>
        ensures reply { result ≡ entry_reply form fields.old }
        ensures passed { OnOk result (Passed (length form.forms) fields.old fields.new) };

    // an entry that is written into fields is read back from them
    ghost back: { ReadsBack form };
}

const ACCESS_FIELDS: usize = 2;

const SLACK_FIELDS: usize = 1;

impl EntryFields for Access {
    ghost form = { access_form };

    ghost back = { access_back };

    fn field_count() -> usize {
        ACCESS_FIELDS
    }

    fn read(fields: &mut Cursor<'_>) -> Result<Access, FieldFault> {
        let hits = fields.take().natural()?;
        let cycles = fields.take().integer()?;
        Ok(Access { hits, cycles })
    }
}

impl EntryFields for Slack {
    ghost form = { slack_form };

    ghost back = { slack_back };

    fn field_count() -> usize {
        SLACK_FIELDS
    }

    fn read(fields: &mut Cursor<'_>) -> Result<Slack, FieldFault> {
        let margin = fields.take().integer()?;
        Ok(Slack { margin })
    }
}

impl<E: EntryFields> EntryFields for Weighted<E> {
    ghost form = { weighted_form E.EntryFields.form };

    ghost back = { weighted_back E.EntryFields.form E.EntryFields.back };

    fn field_count() -> usize {
        E::field_count().saturating_add(1)
    }

    fn read(fields: &mut Cursor<'_>) -> Result<Weighted<E>, FieldFault> {
        let weight = fields.take().integer()?;
        let second = E::read(fields)?;
        Ok(Weighted { weight, second })
    }
}

impl<E: EntryFields> EntryFields for Two<E> {
    ghost form = { by_value_form E.EntryFields.form };

    ghost back = { by_value_back E.EntryFields.form E.EntryFields.back };

    fn field_count() -> usize {
        E::field_count().saturating_mul(2)
    }

    fn read(fields: &mut Cursor<'_>) -> Result<Two<E>, FieldFault> {
        let zero = E::read(fields)?;
        let one = E::read(fields)?;
        Ok(Two { zero, one })
    }
}

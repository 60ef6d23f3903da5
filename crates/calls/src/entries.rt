// The scores of the entries that are posted.
ghost use Rattle.std.specs.Prelude.{◌≡◌};
ghost use Rattle.calls.specs.Entries.{TwoTaken, FourTaken};

use score::interface::Kind;
use score::values::{Four, Two};

// Two functions, since `Two` and `Four` are two types (`score::values`).

// The scores of two entries, or `None` where the kind does not take one of them.
pub fn score_two<K: Kind>(entries: Two<K::Entry>) -> Option<Two<K>>
    ensures { TwoTaken K.Kind.model K.Kind.means entries result }
{
    Some(Two {
        zero: K::score(entries.zero)?,
        one: K::score(entries.one)?,
    })
}

// The scores of four entries, or `None` where the kind does not take one of them.
pub fn score_four<K: Kind>(entries: Four<K::Entry>) -> Option<Four<K>>
    ensures { FourTaken K.Kind.model K.Kind.means entries result }
{
    Some(Four {
        at00: K::score(entries.at00)?,
        at01: K::score(entries.at01)?,
        at10: K::score(entries.at10)?,
        at11: K::score(entries.at11)?,
    })
}

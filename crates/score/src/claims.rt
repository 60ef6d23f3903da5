// What is proved of the kinds beyond their own promises. Each function's contract names a statement of specs/.
ghost use Rattle.score.specs.Entries.{EntryLaws};
ghost use Rattle.score.specs.Examples.{Examples, WorstFirstBreaks};

use crate::interface::Kind;

// Of every kind: how many entries the neutral score, an entry's score, a join and a choice are of.
pub fn entry_counts_hold<K: Kind>()
    ensures { EntryLaws K.Kind.model }
{}

// The worked examples, on the definitions.
pub fn examples_hold()
    ensures { Examples }
{}

// Why weights come first: worst margin above total would not keep the laws.
pub fn worst_first_breaks()
    ensures { WorstFirstBreaks }
{}

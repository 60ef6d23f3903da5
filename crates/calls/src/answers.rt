// What an accepted call answers.
ghost use Rattle.calls.specs.Answers.{answer_text};

use std::fmt;

// No Option: it prints.
#[derive(Clone, Copy)]
pub enum Answer<K> {
    Done,
    Is(K),
}

impl<K: fmt::Display> fmt::Display for Answer<K> {
    ghost output = { answer_text K.Display.output };

    fn fmt<W: fmt::Write>(&self, f: &mut fmt::Formatter<W>) -> fmt::Result {
        match self {
            Answer::Done => write!(f, "ok"),
            Answer::Is(score) => write!(f, "is,{score}"),
        }
    }
}

// The words that lines begin with.
ghost use Rattle.std.specs.Prelude.{◌≡◌};
ghost use Rattle.fields.specs.Words.{word_of, call_of};

// The word of a command to a board.
#[derive(Clone, Copy)]
pub enum Call {
    One,
    Pair,
    Pin,
    Free,
    Back,
    Score,
}

// The word of a board line, or that of a command. Two types: after the first line only a `Call` is read, and a match on it has no
// case for `board`.
#[derive(Clone, Copy)]
pub enum Word {
    Board,
    Call(Call),
}

pub fn known_word(bytes: &[u8]) -> Option<Word>
    ensures { result ≡ word_of bytes.now }
{
    match bytes {
        b"board" => Some(Word::Board),
        _ => known_call(bytes).map(Word::Call),
    }
}

fn known_call(bytes: &[u8]) -> Option<Call>
    ensures { result ≡ call_of bytes.now }
{
    match bytes {
        b"one" => Some(Call::One),
        b"pair" => Some(Call::Pair),
        b"pin" => Some(Call::Pin),
        b"free" => Some(Call::Free),
        b"back" => Some(Call::Back),
        b"score" => Some(Call::Score),
        _ => None,
    }
}

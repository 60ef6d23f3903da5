// Where a text is cut: at the first byte of some kind.
ghost use Rattle.std.specs.Prelude.{◌≡◌, ◌+◌, ◌==◌, length, position};
ghost use Rattle.fields.specs.Text.{upto, past, pieces};

// The index of the first byte `cut`.
fn first_cut(text: &[u8], cut: u8) -> Option<usize>
    ensures { result ≡ position (λ b. b == cut) text.now }
{
    text.iter().position(|b| *b == cut)
}

// What stands before the first byte `cut`; all where there is none.
pub fn head(text: &[u8], cut: u8) -> &[u8]
    ensures { result.now ≡ upto cut text.now }
{
    match first_cut(text, cut) {
        Some(at) => &text[..at],
        None => text,
    }
}

// What stands after the first byte `cut`; nothing where there is none.
pub fn tail(text: &[u8], cut: u8) -> &[u8]
    ensures { result.now ≡ past cut text.now }
{
    match first_cut(text, cut) {
        Some(at) => &text[at + 1..],
        None => &[],
    }
}

// How many bytes `cut` there are: one less than the pieces that they part.
#[tactic(auto, using(crate::proofs::Cuts::pieces_count))]
pub fn cuts(text: &[u8], cut: u8) -> usize
    ensures { result + 1 ≡ length (pieces cut text.now) }
{
    text.iter().filter(|b| **b == cut).count()
}

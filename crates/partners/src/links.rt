// The pairs of one variable, found in one pass over the pairs.
ghost use Rattle.std.specs.Prelude.{◌≡◌, Some, None};
ghost use Rattle.partners.specs.Links.{with_link, gather, present_at, alone_at, one_at, two_at};

use records::pairs::{Link, Pair};
use score::values::Two;
use sheets::variables::Var;

// A variable's pairs, as far as a removal needs them.
#[derive(Clone, Copy)]
pub enum Links<K> {
    Alone,
    One(Link<K>),
    // the lower partner first
    Two(Link<K>, Link<K>),
    More,
}

impl<K: Copy> Links<K> {
    fn with(self, link: Link<K>) -> Links<K>
        ensures { result ≡ with_link self link }
    {
        match self {
            Links::Alone => Links::One(link),
            Links::One(other) => {
                if link.partner < other.partner {
                    Links::Two(link, other)
                } else {
                    Links::Two(other, link)
                }
            }
            Links::Two(_, _) | Links::More => Links::More,
        }
    }
}

// Only the variable's own pairs are folded, so that nothing is copied at any other.
fn links_of<K: Copy>(pairs: &[Pair<K>], y: u32) -> Links<K>
    ensures { result ≡ gather y Links.Alone pairs.now }
{
    pairs
        .iter()
        .filter(|pair| pair.touches(y))
        .filter_map(|pair| pair.link_of(y))
        .fold(Links::Alone, |links, link| links.with(link))
}

// The scores of a variable that remains.
pub fn present_at<K: Copy>(vars: &[Var<K>], y: u32) -> Option<Two<K>>
    ensures { result ≡ present_at vars.now y }
{
    vars.get(y as usize).copied()?.remaining()
}

// The scores of a variable without partners. These are three, since one for all would answer with an enum that each removal has
// to take apart again.
pub fn alone_at<K: Copy>(vars: &[Var<K>], pairs: &[Pair<K>], y: u32) -> Option<Two<K>>
    ensures { result ≡ alone_at vars.now pairs.now y }
{
    let var = present_at(vars, y)?;
    match links_of(pairs, y) {
        Links::Alone => Some(var),
        _ => None,
    }
}

#[derive(Clone, Copy)]
pub struct ByOne<K> {
    pub var: Two<K>,
    pub link: Link<K>,
}

// The scores of a variable with one partner, and the pair with that one.
pub fn one_at<K: Copy>(vars: &[Var<K>], pairs: &[Pair<K>], y: u32) -> Option<ByOne<K>>
    ensures { result ≡ one_at vars.now pairs.now y }
{
    let var = present_at(vars, y)?;
    match links_of(pairs, y) {
        Links::One(link) => Some(ByOne { var, link }),
        _ => None,
    }
}

#[derive(Clone, Copy)]
pub struct ByTwo<K> {
    pub var: Two<K>,
    pub low: Link<K>,
    pub high: Link<K>,
}

// The scores of a variable with two partners, and the pairs with them, the lower first.
pub fn two_at<K: Copy>(vars: &[Var<K>], pairs: &[Pair<K>], y: u32) -> Option<ByTwo<K>>
    ensures { result ≡ two_at vars.now pairs.now y }
{
    let var = present_at(vars, y)?;
    match links_of(pairs, y) {
        Links::Two(low, high) => Some(ByTwo { var, low, high }),
        _ => None,
    }
}

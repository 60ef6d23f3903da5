// Works a little worksheet down by each removal and asks each bound about it, for every kind, and prints what it did.

#![tactic(auto)]

ghost use Rattle.std.specs.Prelude.{Some};
ghost use Rattle.std.proofs.Common.{rules};

use notes::removal::{Removal, Way};
use notes::splits::Splits;
use notes::stack::Notes;
use records::pairs::Pair;
use score::interface::Kind;
use score::margins::{Slack, Worst};
use score::tiers::{Tiered, Weighted};
use score::totals::{Access, Total};
use score::values::{Four, Two};
use sheets::variables::Var;
use std::fmt::Display;
use worksheet::bounds::largest::Largest;
use worksheet::bounds::silent::Silent;
use worksheet::bounds::star::Star;
use worksheet::bounds::{Bound, is_dropped};
use worksheet::degrees::count_partners;
use worksheet::removals::{remove_alone, remove_by_one, remove_by_two, set_variable};

// A bound for worst margin alone: no join is above the base.
#[derive(Clone, Copy)]
struct BaseAlone;

impl Bound<Worst> for BaseAlone {
    ghost rule = { λ s. Some s.base };

    ghost admissible = { Prim.search rules };

    fn ask(
        base: Worst,
        vars: &[Var<Worst>],
        _pairs: &[Pair<Worst>],
        work: &mut [Var<Worst>],
    ) -> Option<Worst> {
        if vars.len() > work.len() {
            return None;
        }
        Some(base)
    }
}

fn var<K: Kind>(zero: K, one: K) -> Var<K> {
    Var::Remains(Two { zero, one })
}

// Two scores for the values that agree and for those that differ.
fn pair<K: Kind>(low: u32, high: u32, same: K, differ: K) -> Pair<K> {
    Pair {
        low,
        high,
        scores: Four {
            at00: same,
            at01: differ,
            at10: differ,
            at11: same,
        },
    }
}

// The second score where both stand at 1, and the first elsewhere.
fn both_at_one<K: Kind>(low: u32, high: u32, score: K, both: K) -> Pair<K> {
    Pair {
        low,
        high,
        scores: Four {
            at00: score,
            at01: score,
            at10: score,
            at11: both,
        },
    }
}

fn show_reply<K: Kind + Display>(
    rt: HostRuntime,
    name: &str,
    reply: Option<K>,
) -> anyhow::Result<()> {
    match reply {
        Some(score) => println!(rt; "  {name} bound: {score}")?,
        None => println!(rt; "  {name} bound: nothing")?,
    }
    Ok(())
}

fn show_removal(rt: HostRuntime, removal: Option<Removal>) -> anyhow::Result<()> {
    let Some(note) = removal else {
        println!(rt; "  turned down")?;
        return Ok(());
    };
    let y = note.variable;
    match note.way {
        Way::Alone { value } => println!(rt; "  {y} alone, {value}")?,
        Way::ByOne { partner, at0, at1 } => println!(rt; "  {y} by {partner}: {at0} {at1}")?,
        Way::ByTwo {
            low,
            high,
            at00,
            at01,
            at10,
            at11,
        } => println!(rt; "  {y} by {low} and {high}: {at00} {at01} {at10} {at11}")?,
        Way::Set { value } => println!(rt; "  {y} set, {value}")?,
    }
    Ok(())
}

// Asks a bound, with records and working memory lent apart as its call has them, and says whether this side would be dropped with such a best held.
fn show_bound<K: Kind + Display, B: Bound<K>>(
    rt: HostRuntime,
    name: &str,
    base: K,
    vars: &[Var<K>],
    pairs: &[Pair<K>],
    best: K,
    spare: &mut [Var<K>],
) -> anyhow::Result<()> {
    let reply = B::ask(base, vars, pairs, spare);
    show_reply(rt, name, reply)?;
    if is_dropped(reply, Some(best)) {
        println!(rt; "    dropped with {best} held")?;
    }
    Ok(())
}

// Asks each bound.
fn ask_all<K: Kind + Display>(
    rt: HostRuntime,
    vars: &[Var<K>],
    pairs: &[Pair<K>],
    best: K,
    spare: &mut [Var<K>],
) -> anyhow::Result<()> {
    let base = K::neutral();
    show_bound::<K, Silent>(rt, "silent", base, vars, pairs, best, spare)?;
    show_bound::<K, Largest>(rt, "largest", base, vars, pairs, best, spare)?;
    show_bound::<K, Star>(rt, "star", base, vars, pairs, best, spare)
}

fn show_partners<K: Kind>(rt: HostRuntime, pairs: &[Pair<K>]) -> anyhow::Result<()> {
    let mut partners = [0; 4];
    count_partners(pairs, &mut partners);
    println!(rt;
        "  partners {} {} {} {}",
        partners[0], partners[1], partners[2], partners[3]
    )?;
    Ok(())
}

fn show_layout(rt: HostRuntime, notes: &Notes) -> anyhow::Result<()> {
    let mut layout = [0; 4];
    notes.read(&mut layout);
    println!(rt;
        "  layout {}{}{}{}",
        layout[0], layout[1], layout[2], layout[3]
    )?;
    Ok(())
}

// Shows a removal, and notes it.
fn note(rt: HostRuntime, notes: &mut Notes, removal: Option<Removal>) -> anyhow::Result<()> {
    show_removal(rt, removal)?;
    if let Some(removal) = removal {
        notes.push(removal)?;
    }
    Ok(())
}

// Variable 0 is set, 1 leaves by two partners, 2 by one and 3 alone.
fn remove_all<K: Kind + Display>(
    rt: HostRuntime,
    vars: &mut [Var<K>],
    pairs: &mut [Pair<K>],
) -> anyhow::Result<()> {
    let mut table = [Removal {
        variable: 0,
        way: Way::Set { value: 0 },
    }; 4];
    let mut notes = Notes::new(&mut table);
    let mut base = K::neutral();
    let mut used = pairs.len();
    note(rt, &mut notes, remove_by_one(vars, pairs, &mut used, 0))?;
    note(
        rt,
        &mut notes,
        set_variable(&mut base, vars, pairs, &mut used, 0, false),
    )?;
    note(rt, &mut notes, remove_by_two(vars, pairs, &mut used, 1))?;
    note(rt, &mut notes, remove_by_one(vars, pairs, &mut used, 2))?;
    note(
        rt,
        &mut notes,
        remove_alone(&mut base, vars, &pairs[..0], 3),
    )?;
    println!(rt; "  base {base}, notes {}", notes.len())?;
    show_layout(rt, &notes)
}

fn work<K: Kind + Display>(
    rt: HostRuntime,
    name: &str,
    vars: &mut [Var<K>],
    pairs: &mut [Pair<K>],
    best: K,
    spare: &mut [Var<K>],
) -> anyhow::Result<()> {
    println!(rt; "{name}")?;
    show_partners(rt, pairs)?;
    ask_all(rt, vars, pairs, best, spare)?;
    remove_all(rt, vars, pairs)
}

fn show_top(rt: HostRuntime, splits: &Splits) -> anyhow::Result<()> {
    match splits.top() {
        Some(split) => println!(rt;
            "  top {} after {} notes, value 1 begun: {}",
            split.variable, split.noted, split.begun
        )?,
        None => println!(rt; "  no open split")?,
    }
    Ok(())
}

// Opens two splits, begins value 1 of the newer, and takes both away.
fn work_splits(rt: HostRuntime) -> anyhow::Result<()> {
    println!(rt; "splits")?;
    let mut splits = Splits::new();
    splits.push(0, 0)?;
    splits.push(3, 2)?;
    show_top(rt, &splits)?;
    splits.begin_one();
    show_top(rt, &splits)?;
    splits.pop();
    show_top(rt, &splits)?;
    splits.pop();
    show_top(rt, &splits)
}

// Four variables in a ring with one diagonal, and two scores. The records lie in arrays, so that no heap is needed; a macro makes
// them, since the check covers no such local of a type parameter.
macro_rules! work_ring {
    ($rt:expr, $name:expr, $low:expr, $high:expr, $best:expr) => {{
        let low = $low;
        let high = $high;
        let mut vars = [var(high, low), var(low, high), var(low, low), var(high, low)];
        let mut pairs = [
            pair(0, 1, low, high),
            pair(1, 2, low, high),
            pair(2, 3, low, high),
            both_at_one(0, 3, low, high),
            pair(1, 3, low, high),
        ];
        let mut spare = vars;
        work($rt, $name, &mut vars, &mut pairs, $best, &mut spare)
    }};
}

// Asks the bound for worst margin alone about one variable.
fn work_base_alone(rt: HostRuntime, base: Worst, low: Worst, high: Worst) -> anyhow::Result<()> {
    let vars = [var(low, high)];
    let mut spare = vars;
    show_bound::<Worst, BaseAlone>(rt, "base alone", base, &vars, &[], low, &mut spare)
}

// The score of an entry, neutral where the kind does not take it.
fn held<K: Kind>(entry: K::Entry) -> K {
    K::score(entry).unwrap_or(K::neutral())
}

fn over<K>(weight: i32, second: K) -> Tiered<K> {
    Tiered { weight, second }
}

fn main(rt: HostRuntime) -> anyhow::Result<()> {
    let total = |hits: u32| held::<Total>(Access { hits, cycles: 1 });
    let worst = |margin: i32| held::<Worst>(Slack { margin });
    work_ring!(rt, "total", total(0), total(3), total(21))?;
    work_ring!(rt, "worst margin", worst(4), worst(7), worst(4))?;
    work_base_alone(rt, worst(3), worst(4), worst(7))?;
    work_ring!(
        rt,
        "tiered over total",
        over(0, total(5)),
        over(1, total(0)),
        over(8, total(0))
    )?;
    work_ring!(
        rt,
        "tiered over worst margin",
        over(0, worst(4)),
        over(0, worst(7)),
        over(0, worst(3))
    )?;
    work_splits(rt)
}

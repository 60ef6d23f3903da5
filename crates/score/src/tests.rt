// Entries at and beyond every limit, and how scores print.
use crate::interface::Kind;
use crate::margins::{Slack, Worst};
use crate::tiers::{Tiered, Weighted};
use crate::totals::{Access, Total};
use std::alloc::Global;
use std::fmt::Display;
use std::test::Fail;

// What the score of an entry prints as, or `-` where it is not taken.
fn text<K: Kind + Display>(heap: Global, entry: K::Entry) -> Result<String, Fail> {
    match K::score(entry) {
        Some(score) => Ok(format!(in heap; "{score}")?),
        None => Ok(format!(in heap; "-")?),
    }
}

// Fails where the score of an entry does not print as expected.
fn check<K: Kind + Display>(heap: Global, entry: K::Entry, expected: &str) -> Result<(), Fail> {
    let found = text::<K>(heap, entry)?;
    (found.as_str() == expected)
        .then_some(())
        .ok_or("another text")?;
    Ok(())
}

fn access(hits: u32, cycles: i32) -> Access {
    Access { hits, cycles }
}

fn slack(margin: i32) -> Slack {
    Slack { margin }
}

fn weighted<E>(weight: i32, second: E) -> Weighted<E> {
    Weighted { weight, second }
}

#[test]
fn total_entries(rt: HostRuntime) -> Result<(), Fail> {
    let heap = rt.alloc();
    check::<Total>(heap, access(0, 0), "0")?;
    check::<Total>(heap, access(131_072, 32_768), "4294967296")?;
    check::<Total>(heap, access(u32::MAX, 65_535), "281470681677825")?;
    check::<Total>(heap, access(u32::MAX, -65_535), "-281470681677825")?;
    check::<Total>(heap, access(1, 65_536), "-")?;
    check::<Total>(heap, access(0, -65_536), "-")?;
    check::<Total>(heap, access(1, i32::MIN), "-")?;
    check::<Total>(heap, access(1, i32::MAX), "-")
}

#[test]
fn worst_entries(rt: HostRuntime) -> Result<(), Fail> {
    let heap = rt.alloc();
    check::<Worst>(heap, slack(0), "0")?;
    check::<Worst>(heap, slack(1_000_000_000), "1000000000")?;
    check::<Worst>(heap, slack(-1_000_000_000), "-1000000000")?;
    check::<Worst>(heap, slack(1_000_000_001), "-")?;
    check::<Worst>(heap, slack(-1_000_000_001), "-")?;
    let none = format!(in heap; "{}", Worst::neutral())?;
    assert!(rt; none.as_str() == "none");
    Ok(())
}

#[test]
fn tiered_worst_entries(rt: HostRuntime) -> Result<(), Fail> {
    let heap = rt.alloc();
    check::<Tiered<Worst>>(
        heap,
        weighted(1_000, slack(-1_000_000_000)),
        "1000,-1000000000",
    )?;
    check::<Tiered<Worst>>(
        heap,
        weighted(-1_000, slack(1_000_000_000)),
        "-1000,1000000000",
    )?;
    check::<Tiered<Worst>>(heap, weighted(1_001, slack(0)), "-")?;
    check::<Tiered<Worst>>(heap, weighted(-1_001, slack(0)), "-")?;
    check::<Tiered<Worst>>(heap, weighted(0, slack(1_000_000_001)), "-")?;
    check::<Tiered<Worst>>(heap, weighted(0, slack(-1_000_000_001)), "-")
}

#[test]
fn tiered_entries(rt: HostRuntime) -> Result<(), Fail> {
    let heap = rt.alloc();
    check::<Tiered<Total>>(heap, weighted(1_000, access(2, 3)), "1000,6")?;
    check::<Tiered<Total>>(heap, weighted(-1_000, access(2, -3)), "-1000,-6")?;
    check::<Tiered<Total>>(heap, weighted(1_001, access(2, 3)), "-")?;
    check::<Tiered<Total>>(heap, weighted(-1_001, access(2, 3)), "-")?;
    check::<Tiered<Total>>(heap, weighted(0, access(2, 65_536)), "-")?;
    let none = format!(in heap; "{}", Tiered::<Worst>::neutral())?;
    assert!(rt; none.as_str() == "0,none");
    Ok(())
}

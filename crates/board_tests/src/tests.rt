// Each test opens a board over memory of its own.
use board::boards::{Board, Memory};
use calls::refusals::Refusal;
use records::history::Undo;
use records::pairs::Pair;
use records::variables::Var;
use score::interface::Kind;
use score::margins::{Slack, Worst};
use score::totals::{Access, Total};
use score::values::{Four, Two};
use std::alloc::{AllocError, Global};
use std::fmt::Display;
use std::test::Fail;

#[derive(Drop)]
struct Records<K> {
    vars: Vec<Var<K>>,
    pairs: Vec<Pair<K>>,
    history: Vec<Undo<K>>,
}

impl<K> Records<K> {
    fn lend(&mut self) -> Memory<'_, K> {
        Memory {
            vars: &mut self.vars,
            pairs: &mut self.pairs,
            history: &mut self.history,
        }
    }
}

fn make_records<K: Kind + Clone>(heap: Global) -> Result<Records<K>, AllocError> {
    Ok(Records {
        vars: vec![in heap; Var::fresh(); 64]?,
        pairs: vec![in heap; Pair::unused(); 256]?,
        history: vec![in heap; Undo::unused(); 1_024]?,
    })
}

// The number of the refusal, and 0 where the call was accepted.
fn number(reply: Result<(), Refusal>) -> u8 {
    reply.err().map_or(0, Refusal::number)
}

// What a layout's score prints as, or the number of the refusal.
fn text<K: Kind + Display>(
    heap: Global,
    board: &Board<'_, K>,
    layout: &[u8],
) -> Result<String, AllocError> {
    match board.score(layout) {
        Ok(score) => format!(in heap; "{score}"),
        Err(refusal) => {
            let number = refusal.number();
            format!(in heap; "no {number}")
        }
    }
}

fn access(hits: u32, cycles: i32) -> Access {
    Access { hits, cycles }
}

fn two<E>(zero: E, one: E) -> Two<E> {
    Two { zero, one }
}

fn four(at00: Access, at01: Access, at10: Access, at11: Access) -> Four<Access> {
    Four {
        at00,
        at01,
        at10,
        at11,
    }
}

fn apart() -> Four<Access> {
    four(access(0, 0), access(1, 1), access(1, 1), access(0, 0))
}

// Fails where a call was turned down.
fn accepted(reply: Result<(), Refusal>) -> Result<(), Fail> {
    (number(reply) == 0).then_some(()).ok_or("turned down")?;
    Ok(())
}

fn fill(board: &mut Board<'_, Total>) -> Result<(), Fail> {
    for _ in 0..1_024 {
        accepted(board.one(0, two(access(u32::MAX, 65_535), access(u32::MAX, -65_535))))?;
    }
    Ok(())
}

#[test]
fn full_history(rt: HostRuntime) -> Result<(), Fail> {
    let heap = rt.alloc();
    let mut records = make_records::<Total>(heap)?;
    let mut board = Board::open(1, records.lend());
    fill(&mut board)?;
    let zero = text(heap, &board, &[0])?;
    assert!(rt; zero.as_str() == "288225978038092800");
    let one = text(heap, &board, &[1])?;
    assert!(rt; one.as_str() == "-288225978038092800");
    assert!(rt; number(board.pin(0, 1)) == 12);
    assert!(rt; number(board.back()) == 0);
    assert!(rt; number(board.pin(0, 1)) == 0);
    assert!(rt; number(board.free(0)) == 12);
    Ok(())
}

fn keep_pairs(board: &mut Board<'_, Total>) -> Result<(), Fail> {
    for a in 0..4 {
        for b in 0..64u32 {
            if a < b {
                accepted(board.pair(a, b, apart()))?;
            }
        }
    }
    Ok(())
}

#[test]
fn full_pairs(rt: HostRuntime) -> Result<(), Fail> {
    let heap = rt.alloc();
    let mut records = make_records::<Total>(heap)?;
    let mut board = Board::open(64, records.lend());
    keep_pairs(&mut board)?;
    for b in 50..60 {
        assert!(rt; number(board.pair(b, 49, apart())) == 0);
    }
    assert!(rt; number(board.pair(60, 61, apart())) == 13);
    assert!(rt; number(board.pair(1, 0, apart())) == 0);
    assert!(rt; number(board.back()) == 0);
    assert!(rt; number(board.back()) == 0);
    assert!(rt; number(board.pair(60, 61, apart())) == 0);
    assert!(rt; number(board.pair(60, 62, apart())) == 13);
    Ok(())
}

#[test]
fn refusals_in_order(rt: HostRuntime) -> Result<(), Fail> {
    let heap = rt.alloc();
    let mut records = make_records::<Total>(heap)?;
    let bad = access(1, 65_536);
    let mut board = Board::open(2, records.lend());
    assert!(rt; number(board.one(2, two(bad, bad))) == 4);
    assert!(rt; number(board.one(1, two(access(1, 1), bad))) == 7);
    assert!(rt; number(board.pair(2, 2, four(bad, bad, bad, bad))) == 4);
    assert!(rt; number(board.pair(1, 1, four(bad, bad, bad, bad))) == 5);
    assert!(rt; number(board.pair(1, 0, four(bad, bad, bad, bad))) == 7);
    assert!(rt; number(board.pin(4_294_967_295, 2)) == 4);
    assert!(rt; number(board.pin(0, 2)) == 6);
    assert!(rt; number(board.free(0)) == 9);
    assert!(rt; number(board.back()) == 10);
    assert!(rt; number(board.pin(0, 1)) == 0);
    assert!(rt; number(board.pin(0, 1)) == 8);
    Ok(())
}

#[test]
fn layouts_refused(rt: HostRuntime) -> Result<(), Fail> {
    let heap = rt.alloc();
    let mut records = make_records::<Total>(heap)?;
    let mut board = Board::open(2, records.lend());
    assert!(rt; number(board.pin(0, 1)) == 0);
    let long = text(heap, &board, &[2, 2, 2])?;
    assert!(rt; long.as_str() == "no 3");
    let two = text(heap, &board, &[0, 2])?;
    assert!(rt; two.as_str() == "no 6");
    let broken = text(heap, &board, &[0, 1])?;
    assert!(rt; broken.as_str() == "no 11");
    let kept = text(heap, &board, &[1, 0])?;
    assert!(rt; kept.as_str() == "0");
    Ok(())
}

fn slack(margin: i32) -> Slack {
    Slack { margin }
}

#[test]
fn worst_taken_back(rt: HostRuntime) -> Result<(), Fail> {
    let heap = rt.alloc();
    let mut records = make_records::<Worst>(heap)?;
    let mut board = Board::open(1, records.lend());
    assert!(rt; number(board.one(0, two(slack(6), slack(3)))) == 0);
    assert!(rt; number(board.one(0, two(slack(-9), slack(8)))) == 0);
    let low = text(heap, &board, &[0])?;
    assert!(rt; low.as_str() == "-9");
    assert!(rt; number(board.back()) == 0);
    let six = text(heap, &board, &[0])?;
    assert!(rt; six.as_str() == "6");
    assert!(rt; number(board.back()) == 0);
    let none = text(heap, &board, &[1])?;
    assert!(rt; none.as_str() == "none");
    Ok(())
}

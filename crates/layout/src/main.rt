// Reads a listing from standard input, and answers each of its lines.

#![tactic(auto)]

use board::boards::{Board, Memory};
use console::answer;
use fields::parts::BoardKind;
use listing::commands::Opening;
use listing::entries::EntryFields;
use listing::reader::Reader;
use records::history::Undo;
use records::pairs::Pair;
use records::variables::Var;
use score::interface::Kind;
use score::margins::Worst;
use score::tiers::Tiered;
use score::totals::Total;
use std::fmt::Display;
use std::io::Read;
use std::{io, iter};

// One byte more than a listing may have.
const MOST_BYTES: u64 = 65_537;

// No listing has more lines.
const MOST_LINES: usize = 65_536;

// Memory for one board.
const VARIABLES: usize = 64;

const PAIRS: usize = 256;

const CHANGES: usize = 1_024;

// Standard input, up to one byte more than a listing may have.
fn input(rt: &HostRuntime) -> io::Result<Vec<u8>> {
    let mut text = Vec::new(rt.alloc());
    rt.stdin().take(MOST_BYTES).read_to_end(&mut text)?;
    Ok(text)
}

// Answers the lines after the first, on an open board.
fn session<K: Kind + Display>(
    rt: &HostRuntime,
    board: &mut Board<'_, K>,
    reader: &mut Reader<'_>,
) -> io::Result<()>
where
    K::Entry: EntryFields,
{
    for command in iter::from_fn(|| reader.command::<K::Entry>().transpose()).take(MOST_LINES) {
        match command {
            Ok(command) => match answer(rt.alloc(), board, &command)? {
                Ok(reply) => println!(rt; "{reply}")?,
                Err(refusal) => println!(rt; "{refusal}")?,
            },
            Err(fault) => println!(rt; "{}", fault.reply())?,
        }
    }
    Ok(())
}

// Opens a board of the first line's size, and answers that line and the others.
fn run<K: Kind + Clone + Display>(
    rt: &HostRuntime,
    variables: u32,
    reader: &mut Reader<'_>,
) -> io::Result<()>
where
    K::Entry: EntryFields,
{
    let heap = rt.alloc();
    let mut vars = vec![in heap; Var::<K>::fresh(); VARIABLES]?;
    let mut pairs = vec![in heap; Pair::<K>::unused(); PAIRS]?;
    let mut history = vec![in heap; Undo::<K>::unused(); CHANGES]?;
    match Board::check(variables, &vars, &pairs, &history) {
        Ok(()) => println!(rt; "ok")?,
        Err(refusal) => return println!(rt; "{refusal}"),
    }
    let memory = Memory {
        vars: &mut vars,
        pairs: &mut pairs,
        history: &mut history,
    };
    let mut board = Board::open(variables, memory);
    session(rt, &mut board, reader)
}

fn main(rt: HostRuntime) -> io::Result<()> {
    let text = input(&rt)?;
    let (opening, mut reader) = match Reader::open(&text) {
        Ok(Some(opened)) => opened,
        Ok(None) => return Ok(()),
        Err(fault) => return println!(rt; "{}", fault.reply()),
    };
    let Opening { variables, kind } = opening;
    match kind {
        BoardKind::Total => run::<Total>(&rt, variables, &mut reader),
        BoardKind::Worst => run::<Worst>(&rt, variables, &mut reader),
        BoardKind::TieredTotal => run::<Tiered<Total>>(&rt, variables, &mut reader),
        BoardKind::TieredWorst => run::<Tiered<Worst>>(&rt, variables, &mut reader),
    }
}

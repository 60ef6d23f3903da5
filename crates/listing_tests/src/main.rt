// Reads listings, one to a line of standard input, and prints what each line of them is taken for.
// In a listing, \n stands for a line feed, \xHH for the byte HH, and \N*C for N bytes C.

#![tactic(auto)]

use calls::changes::Change;
use fields::parts::{BoardKind, Part};
use listing::commands::{Command, Opening};
use listing::entries::EntryFields;
use listing::reader::Reader;
use score::margins::Slack;
use score::tiers::Weighted;
use score::totals::Access;
use score::values::{Four, Two};
use std::alloc::{AllocError, Global};
use std::{fmt, io, iter};

// No listing has more lines.
const MOST_LINES: usize = 65_536;

// A part of a command, to be printed as a listing has it.
#[derive(Drop)]
struct Shown<T>(T);

impl fmt::Display for Shown<Access> {
    fn fmt<W: fmt::Write>(&self, f: &mut fmt::Formatter<W>) -> fmt::Result {
        write!(f, "{},{}", self.0.hits, self.0.cycles)
    }
}

impl fmt::Display for Shown<Slack> {
    fn fmt<W: fmt::Write>(&self, f: &mut fmt::Formatter<W>) -> fmt::Result {
        write!(f, "{}", self.0.margin)
    }
}

impl<E: Copy> fmt::Display for Shown<Weighted<E>>
where
    Shown<E>: fmt::Display,
{
    fn fmt<W: fmt::Write>(&self, f: &mut fmt::Formatter<W>) -> fmt::Result {
        write!(f, "{},{}", self.0.weight, Shown(self.0.second))
    }
}

impl<E: Copy> fmt::Display for Shown<Two<E>>
where
    Shown<E>: fmt::Display,
{
    fn fmt<W: fmt::Write>(&self, f: &mut fmt::Formatter<W>) -> fmt::Result {
        write!(f, "{},{}", Shown(self.0.zero), Shown(self.0.one))
    }
}

impl<E: Copy> fmt::Display for Shown<Four<E>>
where
    Shown<E>: fmt::Display,
{
    fn fmt<W: fmt::Write>(&self, f: &mut fmt::Formatter<W>) -> fmt::Result {
        let Four {
            at00,
            at01,
            at10,
            at11,
        } = self.0;
        write!(
            f,
            "{},{},{},{}",
            Shown(at00),
            Shown(at01),
            Shown(at10),
            Shown(at11)
        )
    }
}

// A layout, which has digits only.
impl fmt::Display for Shown<Part<'_>> {
    fn fmt<W: fmt::Write>(&self, f: &mut fmt::Formatter<W>) -> fmt::Result {
        f.write_str(str::from_utf8(self.0.bytes).map_err(|_| fmt::Error)?)
    }
}

impl<E: Copy> fmt::Display for Shown<Command<'_, E>>
where
    Shown<E>: fmt::Display,
{
    fn fmt<W: fmt::Write>(&self, f: &mut fmt::Formatter<W>) -> fmt::Result {
        match &self.0 {
            Command::Post(change) => write!(f, "{}", Shown(*change)),
            Command::Back => write!(f, "back"),
            Command::Score { layout } => write!(f, "score,{}", Shown(*layout)),
        }
    }
}

impl<E: Copy> fmt::Display for Shown<Change<E>>
where
    Shown<E>: fmt::Display,
{
    fn fmt<W: fmt::Write>(&self, f: &mut fmt::Formatter<W>) -> fmt::Result {
        match self.0 {
            Change::One { v, entries } => write!(f, "one,{v},{}", Shown(entries)),
            Change::Pair { a, b, entries } => write!(f, "pair,{a},{b},{}", Shown(entries)),
            Change::Pin { v, value } => write!(f, "pin,{v},{value}"),
            Change::Free { v } => write!(f, "free,{v}"),
        }
    }
}

impl fmt::Display for Shown<Opening> {
    fn fmt<W: fmt::Write>(&self, f: &mut fmt::Formatter<W>) -> fmt::Result {
        write!(f, "board,{},{}", self.0.variables, self.0.kind)
    }
}

fn add_commands<E: EntryFields>(reader: &mut Reader<'_>, out: &mut String) -> Result<(), AllocError>
where
    Shown<E>: fmt::Display,
{
    for reply in iter::from_fn(|| reader.command::<E>().transpose()).take(MOST_LINES) {
        match reply {
            Ok(command) => write!(out, " / {}", Shown(command))?,
            Err(fault) => write!(out, " / {}", fault.reply())?,
        }
    }
    Ok(())
}

fn replies(heap: Global, text: &[u8]) -> Result<String, AllocError> {
    match Reader::open(text) {
        Err(fault) => format!(in heap; "{}", fault.reply()),
        Ok(None) => format!(in heap; "nothing"),
        Ok(Some((opening, mut reader))) => {
            let mut out = format!(in heap; "{}", Shown(opening))?;
            // Each kind's entries have a type of their own, so each case names one.
            match opening.kind {
                BoardKind::Total => add_commands::<Access>(&mut reader, &mut out)?,
                BoardKind::Worst => add_commands::<Slack>(&mut reader, &mut out)?,
                BoardKind::TieredTotal => add_commands::<Weighted<Access>>(&mut reader, &mut out)?,
                BoardKind::TieredWorst => add_commands::<Weighted<Slack>>(&mut reader, &mut out)?,
            }
            Ok(out)
        }
    }
}

// Where the bytes of a test stand: between escapes, or in one.
#[derive(Clone, Copy)]
enum Place {
    Plain,
    Escape,
    Hex(u8, u8),
    Count(usize),
    Repeat(usize),
}

// What a digit stands for. By hand: `to_digit` would take capital letters too, and has to be converted back.
fn hex(b: u8) -> u8 {
    match b {
        b'0'..=b'9' => b - b'0',
        b'a'..=b'f' => b - b'a' + 10,
        _ => 0,
    }
}

fn decimal(b: u8) -> usize {
    usize::from(b.saturating_sub(b'0'))
}

fn add_byte(place: Place, b: u8, out: &mut Vec<u8>) -> Result<Place, AllocError> {
    match place {
        Place::Plain => {
            if b == b'\\' {
                return Ok(Place::Escape);
            }
            out.push(b)?;
            Ok(Place::Plain)
        }
        Place::Escape => match b {
            b'n' => {
                out.push(10)?;
                Ok(Place::Plain)
            }
            b'x' => Ok(Place::Hex(2, 0)),
            _ => Ok(Place::Count(decimal(b))),
        },
        Place::Hex(left, high) => {
            let byte = high.wrapping_mul(16).wrapping_add(hex(b));
            if left > 1 {
                return Ok(Place::Hex(left - 1, byte));
            }
            out.push(byte)?;
            Ok(Place::Plain)
        }
        Place::Count(n) => {
            if b == b'*' {
                return Ok(Place::Repeat(n));
            }
            Ok(Place::Count(n.saturating_mul(10).saturating_add(decimal(b))))
        }
        Place::Repeat(n) => {
            out.extend(iter::repeat_n(b, n))?;
            Ok(Place::Plain)
        }
    }
}

fn unescaped(heap: Global, line: &str) -> Result<Vec<u8>, AllocError> {
    let mut out = Vec::new(heap);
    let mut place = Place::Plain;
    for b in line.bytes() {
        place = add_byte(place, b, &mut out)?;
    }
    Ok(out)
}

fn main(rt: HostRuntime) -> io::Result<()> {
    let heap = rt.alloc();
    for line in rt.lines(heap) {
        let line = line?;
        let text = unescaped(heap, line.as_str())?;
        let reply = replies(heap, text.as_slice())?;
        println!(rt; "{reply}")?;
    }
    Ok(())
}

// A command of a listing, sent to a board.

#![tactic(auto)]

ghost use Rattle.std.specs.Prelude.{◌≡◌, map, IfOk, OnErr};
ghost use Rattle.board.specs.Sending.{Replied};
ghost use Rattle.listing.specs.Calls.{call_of};
ghost use Rattle.console.specs.Spelled.{layout_of, digit_value};

use board::boards::Board;
use calls::answers::Answer;
use calls::changes::Call;
use calls::refusals::Refusal;
use listing::commands::Command;
use score::interface::Kind;
use std::alloc::{AllocError, Global};

const ZERO: u8 = b'0';

// The values of a layout's digits.
fn digit_values(heap: Global, digits: &[u8]) -> Result<Vec<u8>, AllocError>
    ensures { IfOk result (λ v. v.items ≡ map digit_value digits.now) }
{
    digits
        .iter()
        .map(|digit| digit.saturating_sub(ZERO))
        .collect(heap)
}

// Sends a command to the board. Only a score's layout wants memory; without it the board is as found.
pub fn answer<'a, K: Kind>(
    heap: Global,
    board: &mut Board<'a, K>,
    command: &Command<'_, K::Entry>,
) -> Result<Result<Answer<K>, Refusal>, AllocError>
    ensures told { IfOk result (λ t. Replied K.Kind.model K.Kind.means board.old board.new (call_of command.now) (layout_of command.now) t) }
    ensures refused { OnErr result (board.new ≡ board.old) }
{
    let call = Call::from(command);
    if let Command::Score { layout } = command {
        let values = digit_values(heap, layout.bytes)?;
        return Ok(board.send(call, &values));
    }
    Ok(board.send(call, &[]))
}

// The session: its state and a command together decide what is done.
ghost use Rattle.std.specs.Prelude.{◌≡◌, Some, None, MatchResult};
ghost use Rattle.divisions.specs.Numbered.{IsNumbered, numbered_meaning};
ghost use Rattle.commands.specs.Read.{code_of, operands_of};
ghost use Rattle.runs.specs.Replies.{state_of};
ghost use Rattle.lines.specs.declared.faults.Untaken.TheVariants.{NoSuchDivision};
ghost use Rattle.logs.specs.Told.{Requested};

use commands::{Command, element_of};
use divisions::{NumberedDivision, numbered};
use elements::Kind;
use lines::faults::*;
use runs::requests::*;

// The division that a division byte says.
fn division_of(byte: &u8) -> Result<NumberedDivision, Untaken>
    ensures { MatchResult result
        (λ d. IsNumbered byte.now (Some (numbered_meaning d)))
        (λ why. (why ≡ NoSuchDivision) × IsNumbered byte.now None) }
{
    numbered(*byte).ok_or(Untaken::NoSuchDivision)
}

/// The call that a command makes, or why the session does not take it.
pub fn request_of<'a, E: Kind>(
    sheet: &Sheet<E, NumberedDivision>,
    command: &Command<'a>,
) -> Result<Request<'a, E, NumberedDivision>, Untaken>
    ensures { let state = state_of numbered_meaning sheet.now in
        Requested E.shown state (code_of command.now) (operands_of command.now) result }
{
    match (sheet, command) {
        (Sheet::Open(_), Command::Insert(element)) => Ok(Request::Insert(element_of(element))),
        (Sheet::Open(_), Command::Withdraw(element)) => Ok(Request::Withdraw(element_of(element))),
        (Sheet::Open(_), Command::Arrange(order)) => Ok(Request::Arrange(order)),
        (Sheet::Open(_), Command::Verdict(byte)) => Ok(Request::Verdict(division_of(byte)?)),
        (Sheet::Open(_), Command::Weigh { division, order }) => {
            Ok(Request::Weigh(division_of(division)?, order))
        }
        (Sheet::Open(_), Command::Settle(byte)) => Ok(Request::Settle(division_of(byte)?)),
        (Sheet::Settled(_), Command::Locate(element)) => Ok(Request::Locate(element_of(element))),
        (Sheet::Settled(_), Command::Reopen) => Ok(Request::Reopen),
        (Sheet::Open(_), Command::Locate(_) | Command::Reopen) => Err(Untaken::WrongState),
        (
            Sheet::Settled(_),
            Command::Insert(_)
            | Command::Withdraw(_)
            | Command::Arrange(_)
            | Command::Verdict(_)
            | Command::Weigh { .. }
            | Command::Settle(_),
        ) => Err(Untaken::WrongState),
    }
}

// One command of a log on a sheet, and its line.
ghost use Rattle.std.specs.Prelude.{◌≡◌, ◌-◌, Some, slice_index_or};
ghost use Rattle.commands.specs.Read.{code_of, operands_of};
ghost use Rattle.runs.specs.Replies.{parts_of, grant_told, grant_form, answer_of, Form, form_of, done};
ghost use Rattle.lines.specs.Line.{told_words, line_text};
ghost use Rattle.logs.specs.Session.{entry};
ghost use Rattle.logs.specs.Told.{forms, values_words, entry_text};
ghost use Rattle.logs.specs.Promised.{PerformsAsPromised};

use crate::sessions::request_of;
use commands::Command;
use divisions::NumberedDivision;
use elements::Kind;
use lines::faults::*;
use lines::lines::*;
use runs::requests::*;
use runs::stepping::step;
use sheets::answers::*;

// What a grant tells, on a sheet of so many variables. Bar and limit are no commands.
fn told_of<E: Kind>(variables: u8, grant: &Grant<E>) -> Told
    ensures { told_words result ≡
        values_words (grant_form grant.now) variables (grant_told E.shown grant.now) }
{
    match grant {
        Grant::Done | Grant::Bar(_) | Grant::Limit(_) => Told::Nothing,
        Grant::Place(row) => Told::Place(*row),
        Grant::Verdict(verdict) if verdict.complete => Told::Complete,
        Grant::Verdict(verdict) => Told::Shortfall {
            place: verdict.place,
            variable: verdict.variable,
            power: verdict.power,
        },
        Grant::Settled(found) => Told::Settled {
            tested: found.tested,
            variables,
            ordering: found.ordering,
        },
    }
}

/// The line of a command that was answered so, on a sheet of so many variables.
pub(crate) fn line_of<E: Kind>(place: usize, code: u8, variables: u8, reply: Reply<E>) -> Line
    ensures { ((f : Form) → form_of reply ≡ Some f → slice_index_or forms (code - 1) done ≡ f) →
        line_text result ≡ entry_text variables (entry place code (answer_of E.shown reply)) }
{
    Line(match reply {
        Ok(grant) => {
            let told = told_of(variables, &grant);
            Ok(Granted { place, code, told })
        }
        Err(why) => {
            let cause = match why {
                NotGranted::NotTaken => Untaken::WrongState.into(),
                NotGranted::Refused(refusal) => refusal.into(),
            };
            Err(Fault { place, code, cause })
        }
    })
}

// How many variables a sheet has.
fn variables_of<E>(sheet: &Sheet<E, NumberedDivision>) -> u8
    ensures { result ≡ (parts_of sheet.now).header.variables }
{
    match sheet {
        Sheet::Open(open) => open.parts.header.variables,
        Sheet::Settled(settled) => settled.parts.header.variables,
    }
}

/// Performs a command that stands at a place, and gives its line.
pub(crate) fn perform<E: Kind>(
    sheet: Sheet<E, NumberedDivision>,
    place: usize,
    command: &Command,
) -> (Sheet<E, NumberedDivision>, Line)
    ensures { PerformsAsPromised E.admitted E.shown sheet place
        (code_of command.now) (operands_of command.now) result.0 result.1 }
{
    let code = u8::from(*command);
    let variables = variables_of(&sheet);
    match request_of(&sheet, command) {
        Ok(request) => {
            let (next, reply) = step(sheet, &request);
            (next, line_of(place, code, variables, reply))
        }
        Err(untaken) => {
            let cause = untaken.into();
            (sheet, Line(Err(Fault { place, code, cause })))
        }
    }
}

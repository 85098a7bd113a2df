// The opening of a sheet, and one call on it.
ghost use Rattle.std.specs.Prelude.{◌≡◌};
ghost use Rattle.runs.specs.declared.requests.Request.TheVariants.{Settle};
ghost use Rattle.runs.specs.declared.requests.Sheet.TheVariants.{Open, Settled};
ghost use Rattle.runs.specs.Replies.{StepFollowsThePlainBook, BeginsAsPromised, StepEqualsThePlainBookAfterEveryCall};

use crate::requests::*;
use divisions::Division;
use elements::Kind;
use sheets::answers::*;
use sheets::open_sheet::*;
use sheets::opening::open;
use sheets::parts::*;
use sheets::settled_sheet::*;

// Asks an open sheet for what leaves it open: every call that it takes but settle.
fn ask<E: Kind, D: Division>(sheet: &mut OpenSheet<E>, request: &Request<E, D>) -> Reply<E>
    ensures { ((d : D) → request.now ≡ Settle d → ⊥) →
        StepFollowsThePlainBook E.admitted E.shown D.meaning
        (Open sheet.old) request.now (Open sheet.new) result }
{
    match request {
        Request::Insert(e) => Ok(Grant::Place(sheet.insert(*e)?)),
        Request::Withdraw(e) => {
            sheet.withdraw(e)?;
            Ok(Grant::Done)
        }
        Request::Arrange(list) => {
            sheet.arrange(list)?;
            Ok(Grant::Done)
        }
        Request::Bar(place, variable) => Ok(Grant::Bar(sheet.bar(*place, *variable)?)),
        Request::Limit(d, place, variable) => {
            Ok(Grant::Limit(sheet.limit(d, *place, *variable)?))
        }
        Request::Verdict(d) => Ok(Grant::Verdict(sheet.verdict(d)?)),
        Request::Weigh(d, list) => Ok(Grant::Verdict(sheet.weigh(d, list)?)),
        Request::Settle(_) | Request::Locate(_) | Request::Reopen => Err(NotGranted::NotTaken),
    }
}

// A call on an open sheet.
fn step_open<E: Kind, D: Division>(
    sheet: OpenSheet<E>,
    request: &Request<E, D>,
) -> (Sheet<E, D>, Reply<E>)
    ensures { StepFollowsThePlainBook E.admitted E.shown D.meaning
        (Open sheet) request.now result.0 result.1 }
{
    let mut sheet = sheet;
    if let Request::Settle(d) = request {
        return match sheet.settle(*d) {
            Ok(Settling { sheet, found }) => (Sheet::Settled(sheet), Ok(Grant::Settled(found))),
            Err(Denied { back, why }) => (Sheet::Open(back), Err(NotGranted::from(why))),
        };
    }
    let reply = ask(&mut sheet, request);
    (Sheet::Open(sheet), reply)
}

// A call on a settled sheet.
fn step_settled<E: Kind, D: Division>(
    sheet: SettledSheet<E, D>,
    request: &Request<E, D>,
) -> (Sheet<E, D>, Reply<E>)
    ensures { StepFollowsThePlainBook E.admitted E.shown D.meaning
        (Settled sheet) request.now result.0 result.1 }
{
    match request {
        Request::Locate(e) => {
            // no `map` of the result: the prover does not take a case of a generic enum as its
            // function
            let reply = match sheet.locate(e) {
                Ok(place) => Ok(Grant::Place(place)),
                Err(why) => Err(NotGranted::from(why)),
            };
            (Sheet::Settled(sheet), reply)
        }
        Request::Reopen => match sheet.reopen() {
            Ok(open) => (Sheet::Open(open), Ok(Grant::Done)),
            Err(Denied { back, why }) => (Sheet::Settled(back), Err(NotGranted::from(why))),
        },
        Request::Insert(_)
        | Request::Withdraw(_)
        | Request::Arrange(_)
        | Request::Bar(_, _)
        | Request::Limit(_, _, _)
        | Request::Verdict(_)
        | Request::Weigh(_, _)
        | Request::Settle(_) => (Sheet::Settled(sheet), Err(NotGranted::NotTaken)),
    }
}

/// Opens a sheet over the parts.
pub fn begin<E: Kind, D: Division>(parts: Parts<E>) -> Result<Sheet<E, D>, Denied<Parts<E>>>
    ensures { BeginsAsPromised E.admitted E.shown D.meaning parts result }
{
    let sheet = open(parts)?;
    Ok(Sheet::Open(sheet))
}

/// Performs the call where the sheet's state takes it.
pub fn step<E: Kind, D: Division>(
    sheet: Sheet<E, D>,
    request: &Request<E, D>,
) -> (Sheet<E, D>, Reply<E>)
    ensures on_any_sheet { StepFollowsThePlainBook E.admitted E.shown D.meaning
        sheet request.now result.0 result.1 }
    ensures after_every_call { StepEqualsThePlainBookAfterEveryCall E.admitted E.shown D.meaning
        sheet request.now result.0 result.1 }
{
    match sheet {
        Sheet::Open(open) => step_open(open, request),
        Sheet::Settled(settled) => step_settled(settled, request),
    }
}

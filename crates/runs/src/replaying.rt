// A list of calls on a sheet that is opened for them.
ghost use Rattle.runs.specs.Replies.{ReplaysAsPromised};

use crate::requests::*;
use crate::stepping::{begin, step};
use divisions::Division;
use elements::Kind;
use sheets::answers::*;
use sheets::parts::*;

/// Opens a sheet over the parts and performs each call on it, in order, with its reply at its
/// place.
pub fn replay<E: Kind, D: Division>(
    parts: Parts<E>,
    exchanges: &mut [Exchange<E, D>],
) -> Result<Sheet<E, D>, Denied<Parts<E>>>
    ensures { ReplaysAsPromised E.admitted E.shown D.meaning
        parts exchanges.old exchanges.new result }
{
    let mut sheet = begin(parts)?;
    for exchange in exchanges.iter_mut() {
        let (next, reply) = step(sheet, &exchange.request);
        sheet = next;
        exchange.reply = Some(reply);
    }
    Ok(sheet)
}

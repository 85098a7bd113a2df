// Opening a sheet.
ghost use Rattle.std.specs.Prelude.{◌≡◌, ◌+◌, ◌<◌, ◌≤◌, [], map, length, vec_len, IfOk};
ghost use Rattle.orderings.specs.Answer.{answer, granted, Answers};
ghost use Rattle.sheets.specs.Sheet.{IsBlank, natural_order as natural};
ghost use Rattle.sheets.specs.Book.{open_asks};
ghost use Rattle.sheets.specs.Read.{OpensAsPromised};

use crate::answers::Denied;
use crate::judging::*;
use crate::open_sheet::OpenSheet;
use crate::parts::*;
use elements::{Kind, blank};
use orderings::orders::is_variable_count;
use orderings::refusals::Refusal;
use std::alloc::{AllocError, Global};
use std::array;

/// Parts to open a sheet of so many variables and places over. Opening writes every place and the
/// order bytes.
pub fn parts_for<E: Kind>(
    heap: Global,
    variables: u8,
    places: usize,
) -> Result<Parts<E>, AllocError>
    ensures header { IfOk result (λ p.
        (p.header.variables ≡ variables) × (p.header.rows ≡ 0)) }
    ensures places { IfOk result (λ p. vec_len p.table ≡ places) }
    ensures order { IfOk result (λ p. vec_len p.order ≡ 8) }
{
    let table = vec![in heap; blank(); places]?;
    let order = vec![in heap; 0; 8]?;
    let header = Header { variables, rows: 0 };
    Ok(Parts {
        table,
        order,
        header,
    })
}

// Writes blanks to every place. It is no `fill`, which asks that a clone cannot fail, and kinds of
// elements promise no such thing.
fn clear<E: Kind>(table: &mut [E])
    ensures length { length table.new ≡ length table.old }
    ensures blank { IsBlank (map E.shown table.new) }
{
    for place in table.iter_mut() {
        *place = blank();
    }
}

// The ordering 1, 2, .. n.
fn natural_order(n: u8) -> [u8; 8]
    ensures { n ≤ 8 → result ≡ natural n }
{
    array::from_fn(
        |k| -> u8
            ensures { (k < n → result ≡ k + 1) × (n ≤ k → result ≡ 0) }
        { if k < n as usize { k as u8 + 1 } else { 0 } },
    )
}

// Why no sheet can be opened over the parts, if none can.
fn openable<E: Kind>(parts: &Parts<E>) -> Result<(), Refusal>
    ensures { let places = vec_len parts.now.table in
        Answers (open_asks parts.now.header.variables places (vec_len parts.now.order))
        (λ a. a ≡ granted []) (answer (λ _. []) result) }
{
    if !is_variable_count(parts.header.variables) {
        return Err(Refusal::VariableCount);
    }
    if !is_place_count(parts.table.len()) {
        return Err(Refusal::PlaceCount);
    }
    if parts.order.len() != 8 {
        return Err(Refusal::OrderLength);
    }
    Ok(())
}

/// Opens a sheet over the parts: no rows, every place blank, the ordering 1 to n. The header says
/// how many variables.
pub fn open<E: Kind>(parts: Parts<E>) -> Result<OpenSheet<E>, Denied<Parts<E>>>
    ensures { OpensAsPromised E.admitted E.shown parts result }
{
    match openable(&parts) {
        Err(why) => Err(Denied { back: parts, why }),
        Ok(()) => {
            let mut parts = parts;
            clear(&mut parts.table);
            parts.header.rows = 0;
            parts
                .order
                .copy_from_slice(&natural_order(parts.header.variables));
            Ok(OpenSheet { parts })
        }
    }
}

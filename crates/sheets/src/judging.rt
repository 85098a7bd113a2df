// Whether parts make a sheet.
ghost use Rattle.std.specs.Prelude.{◌<◌, ◌↔◌, map, length, IsTrue, MatchOption};
ghost use Rattle.orderings.specs.Rows.{Rows};
ghost use Rattle.sheets.specs.Sheet.{PlaceCount, IsNewRow, StandsNowhere, StandsFirstAt, IsBlank};
ghost use Rattle.sheets.specs.Read.{MakesSheet, ABookFixesItsSheet};

use crate::parts::*;
use elements::{Kind, blank, same};
use orderings::fitting::is_fit;
use orderings::orders::{is_ordering, is_variable_count};

/// The most places that a table can have.
pub const MOST_PLACES: usize = 64;

/// Whether a table can have so many places.
pub fn is_place_count(places: usize) -> bool
    ensures { IsTrue result ↔ PlaceCount places }
{
    (1..=MOST_PLACES).contains(&places)
}

/// The first place at which the element stands.
pub fn place_of<E: Kind>(rows: &[E], element: &E) -> Option<usize>
    ensures { let sought = E.shown element.now in
        MatchOption result
        (StandsNowhere E.shown rows.now sought)
        (StandsFirstAt E.shown rows.now sought) }
{
    rows.iter().position(|row| same(row, element))
}

// Whether the row of a place fits, and stands at no place before it.
fn is_new<E: Kind>(rows: &[E], p: usize, n: u8) -> bool
    requires { p < length rows.now }
    ensures { IsTrue result ↔ IsNewRow E.admitted n (map E.shown rows.now) p }
{
    is_fit(&rows[p], n) && place_of(&rows[..p], &rows[p]).is_none()
}

/// Whether the elements can be the rows of a sheet of n variables.
pub fn are_rows<E: Kind>(rows: &[E], n: u8) -> bool
    ensures { IsTrue result ↔ Rows E.admitted n (map E.shown rows.now) }
{
    (0..rows.len()).all(|p| is_new(rows, p, n))
}

/// Whether every place is blank.
pub fn are_blank<E: Kind>(places: &[E]) -> bool
    ensures { IsTrue result ↔ IsBlank (map E.shown places.now) }
{
    let nothing_here = blank();
    places.iter().all(|place| same(place, &nothing_here))
}

/// Whether the parts make a sheet, of which the book then fixes everything.
pub fn makes_sheet<E: Kind>(parts: &Parts<E>) -> bool
    ensures test { IsTrue result ↔ MakesSheet E.admitted E.shown parts.now }
    ensures fixed { ABookFixesItsSheet E.admitted E.shown }
{
    let Header { variables, rows } = parts.header;
    let count = rows as usize;
    let places = parts.table.len();
    if !is_variable_count(variables) || !is_place_count(places) || count > places {
        return false;
    }
    if !is_ordering(&parts.order, variables) {
        return false;
    }
    let (rows, rest) = parts.table.split_at(count);
    are_rows(rows, variables) && are_blank(rest)
}

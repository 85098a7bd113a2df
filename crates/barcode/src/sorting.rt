// Rows in increasing order. There a gap is told by the first later row that parts early enough, so
// that all gaps are found quickly.
ghost use Rattle.std.specs.Prelude.{◌≡◌, ℕ, ◌<◌, ◌≤◌, map, length, slice_index, IsTrue, ◌↔◌};
ghost use Rattle.std.specs.Ordering.{is_lt};
ghost use Rattle.orderings.specs.Order.{at, Below};
ghost use Rattle.orderings.specs.Rows.{row as at_place};
ghost use Rattle.barcode.specs.Gap.{IsGapAt};
ghost use Rattle.barcode.specs.Sorting.{IsCommon, ArePlaces, HasRank, AreInOrder, AreCommon, IsSorting};

use crate::rises::*;
use elements::{Element, Kind, Term, blank};
use orderings::comparing::{Comparison, comparison_of, part_at};
use std::array;
use std::cmp::Ordering;

/// Rows in increasing order, by their places. What two rows have in common is counted: nothing, or
/// the family and so many of the first variables.
#[derive(Clone, Copy)]
pub(crate) struct Sorting {
    /// The place of each rank.
    pub(crate) places: [u8; 64],
    /// The rank of each place.
    pub(crate) ranks: [u8; 64],
    /// What the row of each rank has in common with the next.
    pub(crate) common: [u8; 64],
}

// What the row of a place shows, as a term of any family: the blank past the rows.
fn row_of<E: Element>(rows: &[E], place: usize) -> Term<0, 255>
    ensures { ⟦<Term<0, 255> as Element>⟧.shown result ≡ at_place (map E.shown rows.now) place }
{
    match rows.get(place) {
        Some(row) => Term::make(row.family(), row.exponents()),
        None => blank(),
    }
}

// How the row of a place stands to that of another.
fn compare_places<E: Element>(rows: &[E], order: &[u8], p: usize, q: usize) -> Ordering
    ensures { let rows = map E.shown rows.now in
        IsTrue (is_lt result) ↔ Below order.now (at_place rows p) (at_place rows q) }
{
    match comparison_of(&row_of(rows, p), &row_of(rows, q), order) {
        Comparison::Below => Ordering::Less,
        Comparison::Same => Ordering::Equal,
        Comparison::Above => Ordering::Greater,
    }
}

// The places of the rows, in increasing order of these; what stands after them says nothing.
fn increasing<E: Element>(rows: &[E], order: &[u8]) -> [u8; 64]
    requires { length rows.now ≤ 64 }
    ensures every { (p : ℕ) → p < length rows.now →
        (j : ℕ) × (j < length rows.now) × (slice_index result j ≡ p) }
    ensures within { ArePlaces result (length rows.now) }
    ensures increasing { AreInOrder (map E.shown rows.now) order.now result (length rows.now) }
{
    let mut places: [u8; 64] = array::from_fn(|place| place as u8);
    places[..rows.len()].sort_unstable_by(|p, q| compare_places(
        rows,
        order,
        *p as usize,
        *q as usize,
    ));
    places
}

// What two elements have in common: nothing where they are of two families, else one and one for
// each of the first variables in which they agree.
fn common<E: Element>(u: &E, w: &E, order: &[u8]) -> u8
    requires { length order.now ≤ 8 }
    ensures { IsCommon order.now (E.shown u.now) (E.shown w.now) result }
{
    if !same_family(u, w) {
        return 0;
    }
    let agree = part_at(u, w, order).unwrap_or(order.len());
    agree as u8 + 1
}

// The rank of each place.
fn ranks_of(places: &[u8; 64], count: usize) -> [u8; 64]
    requires few { count ≤ 64 }
    requires within { ArePlaces places.now count }
    ensures { (i : ℕ) → i < count → HasRank places.now result count (slice_index places.now i) }
{
    let mut ranks = [0; 64];
    for i in 0..count {
        ranks[places[i] as usize] = i as u8;
    }
    ranks
}

// What the rows of neighbouring ranks have in common.
fn commons_of<E: Element>(rows: &[E], order: &[u8], places: &[u8; 64]) -> [u8; 64]
    requires few { length rows.now ≤ 64 }
    requires short { length order.now ≤ 8 }
    requires within { ArePlaces places.now (length rows.now) }
    ensures { AreCommon (map E.shown rows.now) order.now places.now result (length rows.now) }
{
    let mut commons = [0; 64];
    for i in 1..rows.len() {
        let (here, next) = (places[i - 1] as usize, places[i] as usize);
        commons[i - 1] = common(&rows[here], &rows[next], order);
    }
    commons
}

impl Sorting {
    /// Puts rows in increasing order.
    pub(crate) fn of<E: Element>(rows: &[E], order: &[u8]) -> Sorting
        requires few { length rows.now ≤ 64 }
        requires short { length order.now ≤ 8 }
        ensures { IsSorting (map E.shown rows.now) order.now result }
    {
        let places = increasing(rows, order);
        Sorting {
            places,
            ranks: ranks_of(&places, rows.len()),
            common: commons_of(rows, order, &places),
        }
    }

    /// The gap of the variable at a position at the row of a place.
    pub(crate) fn gap<E: Element>(
        &self,
        rows: &[E],
        order: &[u8],
        place: usize,
        here: usize,
        variable: u8,
    ) -> Option<u16>
        requires sorting { IsSorting (map E.shown rows.now) order.now self.now }
        requires place { place < length rows.now }
        requires inside { here < length order.now }
        requires listed { at order.now here ≡ variable }
        ensures { let rows = map E.shown rows.now in
            IsGapAt rows order.now here (at_place rows place) result }
    {
        let mut rank = self.ranks[place] as usize;
        while rank + 1 < rows.len() {
            let common = self.common[rank] as usize;
            if common <= here {
                return None;
            }
            if common == here + 1 {
                let (low, high) = (self.places[rank] as usize, self.places[rank + 1] as usize);
                return rise_in(&rows[low], &rows[high], variable);
            }
            // the next row agrees with it in this variable too
            rank += 1;
        }
        None
    }
}

// The bars of one variable after another.
ghost use Rattle.std.specs.Prelude.{◌≡◌, ℕ, suc, ◌<◌, ◌≤◌, map, List, length};
ghost use Rattle.elements.specs.Element.{exponent};
ghost use Rattle.orderings.specs.Order.{at};
ghost use Rattle.orderings.specs.Rows.{row as at_place};
ghost use Rattle.barcode.specs.BarSets.{Has, IsWithin, ConsistsOf, SetsOver, row_set};

use crate::rises::*;
use elements::Element;
use places::Places;

/// The bars of one variable: for each row the places of the rows over the same bar.
#[derive(Clone, Copy)]
pub(crate) struct Level {
    /// The set of each row, by place.
    pub(crate) sets: [Places; 64],
}

// The places of the rows that are of one family with u.
fn of_the_family<E: Element>(rows: &[E], u: &E) -> Places
    requires { length rows.now ≤ 64 }
    ensures { let rows_shown = map E.shown rows.now in
        ConsistsOf result (λ w. (w < length rows.now) ×
        ((E.shown u.now).family ≡ (at_place rows_shown w).family)) }
{
    let mut family = Places::none();
    for (place, w) in rows.iter().enumerate() {
        if same_family(u, w) {
            family.insert(place);
        }
    }
    family
}

/// The bars above all variables: one for each family.
pub(crate) fn families<E: Element>(rows: &[E]) -> Level
    requires { length rows.now ≤ 64 }
    ensures { (order : List ℕ) → SetsOver (map E.shown rows.now) order 0 result.sets }
{
    let mut sets = [Places::none(); 64];
    for (place, u) in rows.iter().enumerate() {
        sets[place] = of_the_family(rows, u);
    }
    Level { sets }
}

// Of some places those whose rows have a given exponent in a variable.
fn with_exponent<E: Element>(rows: &[E], mut left: Places, variable: u8, given: u16) -> Places
    requires { IsWithin left (length rows.now) }
    ensures { let rows_shown = map E.shown rows.now in
        ConsistsOf result (λ w. Has left w × (given ≡ exponent (at_place rows_shown w) variable)) }
{
    let mut kept = Places::none();
    while let Some(place) = left.take_first() {
        if rows[place].exponent(variable) == given {
            kept.insert(place);
        }
    }
    kept
}

/// The bars of a variable, from those of the variable that is listed before it.
pub(crate) fn split<E: Element>(rows: &[E], above: &Level, variable: u8) -> Level
    requires few { length rows.now ≤ 64 }
    requires rows { let count = length rows.now in
        (q : ℕ) → q < count → IsWithin (row_set above.now.sets q) count }
    ensures { let rows_shown = map E.shown rows.now in
        (order : List ℕ) (k : ℕ) → at order k ≡ variable →
        SetsOver rows_shown order k above.now.sets → SetsOver rows_shown order (suc k) result.sets }
{
    let mut sets = [Places::none(); 64];
    for (place, u) in rows.iter().enumerate() {
        sets[place] = with_exponent(rows, above.sets[place], variable, u.exponent(variable));
    }
    Level { sets }
}

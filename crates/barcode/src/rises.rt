// How far one element is above another.
ghost use Rattle.std.specs.Prelude.{◌≡◌, ℕ, map, length, IsTrue, ◌↔◌};
ghost use Rattle.elements.specs.Element.{exponent};
ghost use Rattle.orderings.specs.Order.{PartAt};
ghost use Rattle.barcode.specs.Bars.{position as position_in, SameBar, LowerBar};
ghost use Rattle.barcode.specs.BarSets.{Has, IsWithin};
ghost use Rattle.barcode.specs.Exceeded.{exceeds as exceeds_in};
ghost use Rattle.barcode.specs.Gap.{rise as rise_of, lesser as lesser_of};
ghost use Rattle.barcode.specs.Rise.{IsRise, IsLeastRise, NoneRises};

use crate::positions::*;
use elements::Element;
use orderings::comparing::part_at;
use places::Places;

/// Whether two elements are of one family.
pub(crate) fn same_family<E: Element>(u: &E, w: &E) -> bool
    ensures { IsTrue result ↔ ((E.shown u.now).family ≡ (E.shown w.now).family) }
{
    u.family() == w.family()
}

/// Whether `w` is of the family of `u` and has a greater exponent in a variable.
pub(crate) fn exceeds<E: Element>(w: &E, u: &E, variable: u8) -> bool
    ensures { result ≡ exceeds_in variable (E.shown w.now) (E.shown u.now) }
{
    // the exponents are read first, since they end most walks through the rows
    u.exponent(variable) < w.exponent(variable) && w.family() == u.family()
}

/// Whether `w` is above `u` in the variable at a position of a list, agrees with it in those listed
/// before, and is of the same family.
pub(crate) fn rises<E: Element>(u: &E, w: &E, order: &[u8], here: usize) -> bool
    ensures { IsTrue result ↔ PartAt order.now here (E.shown u.now) (E.shown w.now) }
{
    let Some(variable) = order.get(here) else {
        return false;
    };
    let (low, high) = (u.exponent(*variable), w.exponent(*variable));
    // the cheapest test comes first
    if high <= low {
        return false;
    }
    same_family(u, w)
        && order[..here]
            .iter()
            .all(|v| u.exponent(*v) == w.exponent(*v))
}

/// How far `w` rises above `u` at the position of a variable, where it counts for the gap there.
pub(crate) fn rise<E: Element>(u: &E, w: &E, order: &[u8], here: usize) -> Option<u16>
    ensures { (v : ℕ) → position_in order.now v ≡ here →
        result ≡ rise_of order.now v (E.shown u.now) (E.shown w.now) }
{
    if !rises(u, w, order, here) {
        return None;
    }
    let variable = *order.get(here)?;
    Some(w.exponent(variable) - u.exponent(variable))
}

/// Whether `u` and `w` lie over the same bar of a variable.
pub(crate) fn over_same_bar<E: Element>(u: &E, w: &E, order: &[u8], variable: u8) -> bool
    ensures { IsTrue result ↔ SameBar order.now variable (E.shown u.now) (E.shown w.now) }
{
    let here = position(order, variable);
    same_family(u, w) && part_at(u, w, order).is_none_or(|k| k > here)
}

/// Whether `u` lies over a lower bar of a variable than `w`.
pub(crate) fn over_lower_bar<E: Element>(u: &E, w: &E, order: &[u8], variable: u8) -> bool
    ensures { IsTrue result ↔ LowerBar order.now variable (E.shown u.now) (E.shown w.now) }
{
    let here = position(order, variable);
    same_family(u, w)
        && part_at(u, w, order).is_some_and(|k| {
            let v = order[k];
            k <= here && u.exponent(v) < w.exponent(v)
        })
}

/// How far `w` rises above `u` in a variable.
pub(crate) fn rise_in<E: Element>(u: &E, w: &E, variable: u8) -> Option<u16>
    ensures { let low = exponent (E.shown u.now) variable in
        let high = exponent (E.shown w.now) variable in
        IsRise low high result }
{
    let (low, high) = (u.exponent(variable), w.exponent(variable));
    if low < high { Some(high - low) } else { None }
}

/// The lesser of two numbers that may be absent.
pub(crate) fn lesser(a: Option<u16>, b: Option<u16>) -> Option<u16>
    ensures { result ≡ lesser_of a b }
{
    match (a, b) {
        (None, b) => b,
        (a, None) => a,
        (Some(x), Some(y)) => Some(x.min(y)),
    }
}

/// The least rise above `u` in a variable among the rows of some places.
pub(crate) fn least_rise<E: Element>(
    rows: &[E],
    u: &E,
    mut left: Places,
    variable: u8,
) -> Option<u16>
    requires { IsWithin left (length rows.now) }
    ensures { let rows = map E.shown rows.now in
        IsLeastRise rows (Has left) variable (E.shown u.now) result }
{
    let mut least = None;
    while let Some(place) = left.take_first() {
        least = lesser(least, rise_in(u, &rows[place], variable));
    }
    least
}

/// Whether no row of some places rises above `u` in a variable.
pub(crate) fn none_rises<E: Element>(rows: &[E], u: &E, mut left: Places, variable: u8) -> bool
    requires { IsWithin left (length rows.now) }
    ensures { let rows = map E.shown rows.now in
        IsTrue result ↔ NoneRises rows (Has left) variable (E.shown u.now) }
{
    let low = u.exponent(variable);
    while let Some(place) = left.take_first() {
        if low < rows[place].exponent(variable) {
            return false;
        }
    }
    true
}

// Which cone holds an element, and which row falls short.
ghost use Rattle.std.specs.Prelude.{◌≡◌, ◌<◌, ◌≤◌, false, length, MatchOption, IsTrue, ◌↔◌};
ghost use Rattle.elements.specs.Element.{times};
ghost use Rattle.orderings.specs.Rows.{row as row_at};
ghost use Rattle.cones.specs.Cones.{Holds, HasNoShortfall, FallsShortFirst};
ghost use Rattle.cones.specs.Cones.{ConesAreDisjoint, TheConeIsOfTheGreatestDivisor};
ghost use Rattle.cones.specs.Cones.{CompleteExactlyWithoutShortfall, JanetLikeCompletesWhatAnyCompletes};
ghost use Rattle.cones.specs.Tables.{limit_in, BelowLimits, IsBelowLimit};
ghost use Rattle.cones.specs.LimitedRows.{rows_of, limits_held, LiesInCone, LiesInNoCone, LiesFirstInCone, LiesInNoneOf};

use crate::shape::*;
use crate::shortfalls::Shortfall;
use crate::tables::*;
use elements::Element;
use places::Places;

/// Rows in n variables, with the limits of each. Past the end of the limits no row has one.
// These are two lists, and not one of pairs: the rows stay in the caller's table, and the limits
// lie in fixed memory, so that nothing is copied and a verdict cannot fail for want of memory.
#[derive(Clone, Copy, PartialEq, Eq, Debug)]
pub struct LimitedRows<'a, E> {
    pub rows: &'a [E],
    pub limits: &'a [RowLimits],
    pub n: u8,
}

// Whether the exponents of a shape are below the row's and the limits together.
fn is_below<E: Element>(row: &E, limits: &RowLimits, n: u8, shape: &Shape) -> bool
    ensures { IsTrue result ↔ BelowLimits n limits.now (E.shown row.now) shape.now }
{
    row.exponents()
        .iter()
        .zip(shape.exponents.iter())
        .zip(limits.iter())
        .take(n as usize)
        .all(|((least, given), limit)| {
            limit.is_none_or(|most| *given < u32::from(*least) + u32::from(most))
        })
}

// Whether a shape lies in the cone of a row. The quotient is not made. The limits are tried first
// where the row is likely to divide the shape; which test is first is known when this is compiled.
fn holds<const LIMITS_FIRST: bool, E: Element>(
    row: &E,
    limits: &RowLimits,
    n: u8,
    shape: &Shape,
) -> bool
    ensures { IsTrue result ↔ Holds n (limit_in limits.now) (E.shown row.now) shape.now }
{
    if LIMITS_FIRST {
        is_below(row, limits, n, shape) && shape.is_multiple_of(row)
    } else {
        shape.is_multiple_of(row) && is_below(row, limits, n, shape)
    }
}

/// Whether an element lies in the cone of a row with these limits of variables 1 to n.
pub fn in_cone<E: Element, W: Element>(row: &E, limits: &RowLimits, n: u8, element: &W) -> bool
    ensures { IsTrue result ↔
        Holds n (limit_in limits.now) (E.shown row.now) (W.shown element.now) }
{
    holds::<false, E>(row, limits, n, &Shape::of(element))
}

impl<E: Element> LimitedRows<'_, E> {
    /// The limit of a variable at the row of a place, if there is one.
    pub fn limit(&self, place: usize, variable: u8) -> Option<u16>
        ensures { result ≡ limits_held self.now place variable }
    {
        limit_of(lent_limits(self.limits, place), variable)
    }

    /// Whether an element is within the limit of one variable at the row of a place. Where there is
    /// no row none is.
    pub fn is_within(&self, place: usize, element: &E, variable: u8) -> bool
        ensures row { let row = row_at (rows_of E.shown self.now) place in
            let limit = limits_held self.now place variable in
            place < length self.now.rows.now →
            (IsTrue result ↔ IsBelowLimit limit variable row (E.shown element.now)) }
        ensures no_row { length self.now.rows.now ≤ place → result ≡ false }
    {
        let Some(row) = self.rows.get(place) else {
            return false;
        };
        let least = u32::from(row.exponent(variable));
        let given = u32::from(element.exponent(variable));
        self.limit(place, variable)
            .is_none_or(|most| given < least + u32::from(most))
    }

    /// Whether the cone of a place holds a shape. The limits are tried first where the row of the
    /// place is likely to divide it.
    pub(crate) fn holds_at<const LIMITS_FIRST: bool>(&self, place: usize, shape: &Shape) -> bool
        ensures { IsTrue result ↔ LiesInCone E.shown self.now shape.now place }
    {
        let Some(row) = self.rows.get(place) else {
            return false;
        };
        holds::<LIMITS_FIRST, E>(row, lent_limits(self.limits, place), self.n, shape)
    }

    /// The first place whose cone holds a shape.
    pub(crate) fn cone_of_shape(&self, shape: &Shape) -> Option<usize>
        ensures { MatchOption result
            (LiesInNoCone E.shown self.now shape.now)
            (LiesFirstInCone E.shown self.now shape.now) }
    {
        let (limits, n) = (self.limits, self.n);
        self.rows.iter().enumerate().position(|(place, row)| holds::<false, E>(
            row,
            lent_limits(limits, place),
            n,
            shape,
        ))
    }

    /// The first place whose cone holds an element. Where limits separate the rows there is no
    /// other such place, and its row is the greatest that divides the element.
    pub fn cone_of<W: Element>(&self, element: &W) -> Option<usize>
        ensures first { MatchOption result
            (LiesInNoCone E.shown self.now (W.shown element.now))
            (LiesFirstInCone E.shown self.now (W.shown element.now)) }
        ensures alone { ConesAreDisjoint }
        ensures greatest { TheConeIsOfTheGreatestDivisor }
    {
        self.cone_of_shape(&Shape::of(element))
    }

    // Whether a row times a power of a variable lies in no cone.
    fn falls_short(&self, row: &E, variable: u8, power: u16) -> bool
        ensures { let product = times (E.shown row.now) variable power in
            IsTrue result ↔ LiesInNoCone E.shown self.now product }
    {
        self.cone_of_shape(&Shape::of_product(row, variable, power))
            .is_none()
    }

    /// The place of a row whose cone holds a row times a power of a variable. The cone of the guess
    /// is looked at first.
    pub fn cone_of_product(&self, row: &E, variable: u8, power: u16, guess: usize) -> Option<usize>
        ensures { let product = times (E.shown row.now) variable power in
            MatchOption result
            (LiesInNoCone E.shown self.now product)
            (LiesInCone E.shown self.now product) }
    {
        let product = Shape::of_product(row, variable, power);
        if self.holds_at::<false>(guess, &product) {
            return Some(guess);
        }
        self.cone_of_shape(&product)
    }

    /// The same, where only the cones of the guess and of these places are looked at.
    pub fn cone_among(
        &self,
        places: Places,
        row: &E,
        variable: u8,
        power: u16,
        guess: usize,
    ) -> Option<usize>
        ensures { let product = times (E.shown row.now) variable power in
            MatchOption result
            (LiesInNoneOf E.shown self.now product places)
            (LiesInCone E.shown self.now product) }
    {
        let sought = Shape::of_product(row, variable, power);
        if self.holds_at::<true>(guess, &sought) {
            return Some(guess);
        }
        let mut left = places;
        while let Some(place) = left.take_first() {
            if self.holds_at::<true>(place, &sought) {
                return Some(place);
            }
        }
        None
    }

    /// The first shortfall: at the lowest place and, there, in the lowest variable. Where limits
    /// separate the rows these are complete exactly if there is none, and rows that any such limits
    /// complete are completed by the Janet-like ones.
    pub fn first_shortfall(&self) -> Option<Shortfall>
        ensures first { let rows = rows_of E.shown self.now in
            MatchOption result
            (HasNoShortfall self.now.n rows (limits_held self.now))
            (FallsShortFirst self.now.n rows (limits_held self.now)) }
        ensures complete { CompleteExactlyWithoutShortfall }
        ensures janet_like { JanetLikeCompletesWhatAnyCompletes }
    {
        // the first shortfall that the loops come to ends both at once, as the label says
        'search: {
            for (place, row) in self.rows.iter().enumerate() {
                for variable in 1..=self.n {
                    if let Some(power) = self.limit(place, variable) {
                        if self.falls_short(row, variable, power) {
                            break 'search Some(Shortfall {
                                place,
                                variable,
                                power,
                            });
                        }
                    }
                }
            }
            None
        }
    }
}

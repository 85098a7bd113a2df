// The Bar Code of rows under an ordering.
ghost use Rattle.std.specs.Prelude.{◌≡◌, ◌<◌, ◌≤◌, ◌&&◌, map, length, None, IfSome, IsTrue, IsFalse, ◌↔◌};
ghost use Rattle.std.specs.Option.{ForSome};
ghost use Rattle.barcode.specs.Bars.{lower_bar, BarNumberCountsTheDifferentLowerBars};
ghost use Rattle.barcode.specs.BarSets.{SetOver, AreLevels};
ghost use Rattle.barcode.specs.Exceeded.{TellExceeded};
ghost use Rattle.barcode.specs.Sorting.{IsSorting};

use crate::greatest::*;
use crate::level::*;
use crate::positions::*;
use crate::rises::*;
use crate::sorting::*;
use elements::Element;
use places::Places;
use std::alloc::AllocError;

/// Rows of any kind under an ordering of their variables.
// That they are rows of a sheet, and the list an ordering, is no part of the type: what tells of
// bars tells it of any rows and any list, and asks nothing of whoever hands them in.
pub struct BarCode<'a, E: Element> {
    /// The rows, by place.
    pub rows: &'a [E],
    /// The numbers of the variables, the greatest variable first.
    pub order: &'a [u8],
    /// The bars: the first level is of the families, each further one of a variable more, as far as
    /// they are kept.
    pub(crate) bars: &'a [Level],
    /// The rows in increasing order, where that is known.
    pub(crate) sorting: Option<&'a Sorting>,
    /// The greatest exponents of the rows, where these are of one family and that is known.
    pub(crate) greatest: Option<[u16; 8]>,
    ghost few: { 0 < length bars.now → length rows.now ≤ 64 },
    ghost right: { AreLevels (map E.shown rows.now) order.now bars.now },
    ghost sorted: { ForSome sorting (λ s. IsSorting (map E.shown rows.now) order.now s.now) },
    ghost tops: { ForSome greatest (TellExceeded (map E.shown rows.now)) },
}

// Written out, since neither is derived beside a ghost field.
impl<E: Element> Clone for BarCode<'_, E> {
    fn clone(&self) -> Result<Self, AllocError> {
        Ok(*self)
    }
}

impl<E: Element> Copy for BarCode<'_, E> {}

impl<'a, E: Element> BarCode<'a, E> {
    ghost use Rattle.barcode.specs.BarCode.{KnowsNoBars, KnowsNoSorting, KnowsNoGreatest};

    /// Rows under an ordering, with nothing known beforehand.
    pub fn new(rows: &'a [E], order: &'a [u8]) -> Self
        ensures rows { result.rows.now ≡ rows.now }
        ensures order { result.order.now ≡ order.now }
        ensures bars { KnowsNoBars result }
        ensures sorting { KnowsNoSorting result }
        ensures greatest { KnowsNoGreatest result }
    {
        let bars: &[Level] = &[];
        BarCode {
            rows,
            order,
            bars,
            sorting: None,
            greatest: None,
        }
    }
}

impl<E: Element> BarCode<'_, E> {
    ghost use Rattle.barcode.specs.BarCode.{rows_of, order_of, HasRow, HasNoRow, row_at, gap_at, IsGapOf, HasStar, exceeded_at, IsExceededAt, opens_at, number_at};

    // The places of the rows that agree with the row of a place in every variable listed before a
    // position, where they are kept.
    fn over_bar(&self, place: usize, here: usize) -> Option<Places>
        requires { HasRow self.now place }
        ensures { IfSome result (SetOver (rows_of self.now) (order_of self.now) here place) }
    {
        let level = self.bars.get(here)?;
        Some(level.sets[place])
    }

    /// The gap of a variable at the row of a place: the smallest positive difference to a row that
    /// agrees in every greater variable. None where the bar is followed by a star, and at a place
    /// without a row.
    #[inline(always)]
    pub fn gap(&self, place: usize, variable: u8) -> Option<u16>
        ensures value { result ≡ gap_at self.now place variable }
        ensures smallest { HasRow self.now place → IsGapOf self.now place variable result }
    {
        let (u, order) = (self.rows.get(place)?, self.order);
        let here = position(order, variable);
        if let (Some(sorting), Some(variable)) = (self.sorting, order.get(here)) {
            return sorting.gap(self.rows, order, place, here, *variable);
        }
        if let (Some(over), Some(variable)) = (self.over_bar(place, here), order.get(here)) {
            return least_rise(self.rows, u, over, *variable);
        }
        self.rows
            .iter()
            .filter_map(|w| rise(u, w, order, here))
            .min()
    }

    /// Whether no row is above the row of a place in a variable and agrees with it in every greater
    /// one: its bar is followed by a star. So it is at a place without a row too.
    #[inline(always)]
    pub fn has_star(&self, place: usize, variable: u8) -> bool
        ensures row { HasRow self.now place → (IsTrue result ↔ HasStar self.now place variable) }
        ensures no_row { HasNoRow self.now place → IsTrue result }
        ensures no_gap { IsTrue result ↔ (gap_at self.now place variable ≡ None) }
    {
        let Some(u) = self.rows.get(place) else {
            return true;
        };
        let order = self.order;
        let here = position(order, variable);
        if let (Some(sorting), Some(variable)) = (self.sorting, order.get(here)) {
            return sorting
                .gap(self.rows, order, place, here, *variable)
                .is_none();
        }
        if let (Some(over), Some(variable)) = (self.over_bar(place, here), order.get(here)) {
            return none_rises(self.rows, u, over, *variable);
        }
        !self.rows.iter().any(|w| rises(u, w, order, here))
    }

    /// Whether some row of the same family has a greater exponent in a variable than the row of a
    /// place. None has at a place without a row.
    #[inline(always)]
    pub fn is_exceeded(&self, place: usize, variable: u8) -> bool
        ensures value { result ≡ exceeded_at self.now place variable }
        ensures row { HasRow self.now place →
            (IsTrue result ↔ IsExceededAt self.now place variable) }
        ensures no_row { HasNoRow self.now place → IsFalse result }
    {
        let Some(given) = self.rows.get(place) else {
            return false;
        };
        if let Some(greatest) = self.greatest {
            return given.exponent(variable) < exponent_in(greatest, variable);
        }
        self.rows.iter().any(|w| exceeds(w, given, variable))
    }

    // Whether no row before a place lies over the same bar of a variable.
    fn opens_bar(&self, place: usize, variable: u8) -> bool
        requires { HasRow self.now place }
        ensures { result ≡ opens_at self.now place variable }
    {
        let (row, order) = (&self.rows[place], self.order);
        !self.rows[..place]
            .iter()
            .any(|before| over_same_bar(before, row, order, variable))
    }

    // Whether the row of a place opens a bar of a variable that is lower than that under another
    // row.
    fn opens_lower_bar(&self, place: usize, row: &E, variable: u8) -> bool
        requires { HasRow self.now place }
        ensures { let u = row_at self.now place in
            let lower = lower_bar (order_of self.now) variable u (E.shown row.now) in
            result ≡ (opens_at self.now place variable && lower) }
    {
        self.opens_bar(place, variable)
            && over_lower_bar(&self.rows[place], row, self.order, variable)
    }

    /// The number of the bar of a variable under the row of a place: 1 and one for each different
    /// lower bar. 0 at a place without a row.
    pub fn bar_number(&self, place: usize, variable: u8) -> usize
        ensures row { HasRow self.now place → result ≡ number_at self.now place variable }
        ensures no_row { HasNoRow self.now place → result ≡ 0 }
        ensures counts { BarNumberCountsTheDifferentLowerBars }
    {
        let Some(row) = self.rows.get(place) else {
            return 0;
        };
        let lower = (0..self.rows.len())
            .filter(|q| self.opens_lower_bar(*q, row, variable))
            .count();
        lower + 1
    }
}

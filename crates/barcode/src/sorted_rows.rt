// Rows in increasing order, kept for many questions.
ghost use Rattle.std.specs.Prelude.{◌≡◌, ◌≤◌, ◌↔◌, map, length, IsSome};
ghost use Rattle.barcode.specs.BarCode.{rows_of, KnowsSorting, KnowsGreatest};
ghost use Rattle.std.specs.Option.{ForSome};
ghost use Rattle.barcode.specs.Exceeded.{AreOfOneFamily, TellExceeded};
ghost use Rattle.barcode.specs.Sorting.{IsSorting};

use crate::bar_code::*;
use crate::greatest::*;
use crate::level::*;
use crate::sorting::*;
use elements::Element;

/// Rows in increasing order under an ordering, kept for many questions. Of more than 64 rows, or
/// under a list of more than eight entries, nothing is kept.
#[derive(Drop)]
pub struct SortedRows<'a, E: Element> {
    rows: &'a [E],
    order: &'a [u8],
    sorting: Sorting,
    greatest: Option<[u16; 8]>,
    ghost right: { length rows.now ≤ 64 → length order.now ≤ 8 →
        IsSorting (map E.shown rows.now) order.now sorting },
    ghost tops: { ForSome greatest (TellExceeded (map E.shown rows.now)) },
    ghost kept: { IsSome greatest ↔ AreOfOneFamily (map E.shown rows.now) },
}

impl<'a, E: Element> SortedRows<'a, E> {
    /// Puts rows in increasing order.
    pub fn of(rows: &'a [E], order: &'a [u8]) -> Self
        ensures rows { result.rows.now ≡ rows.now }
        ensures order { result.order.now ≡ order.now }
    {
        let mut sorting = Sorting {
            places: [0; 64],
            ranks: [0; 64],
            common: [0; 64],
        };
        if rows.len() <= 64 && order.len() <= 8 {
            sorting = Sorting::of(rows, order);
        }
        SortedRows {
            rows,
            order,
            sorting,
            greatest: greatest_exponents(rows),
        }
    }

    /// The rows under the ordering, with their increasing order where it is kept, and with their
    /// greatest exponents where they are of one family.
    pub fn bar_code(&self) -> BarCode<'_, E>
        ensures rows { result.rows.now ≡ self.now.rows.now }
        ensures order { result.order.now ≡ self.now.order.now }
        ensures sorting { KnowsSorting result ↔
            ((length self.now.rows.now ≤ 64) × (length self.now.order.now ≤ 8)) }
        ensures greatest { KnowsSorting result →
            (KnowsGreatest result ↔ AreOfOneFamily (rows_of result)) }
    {
        if self.rows.len() > 64 || self.order.len() > 8 {
            return BarCode::new(self.rows, self.order);
        }
        let bars: &[Level] = &[];
        BarCode {
            rows: self.rows,
            order: self.order,
            bars,
            sorting: Some(&self.sorting),
            greatest: self.greatest,
        }
    }
}

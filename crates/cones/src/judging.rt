// Whether a division makes rows complete. The division is asked for each limit once; what judges is
// handed the limits.
ghost use Rattle.std.specs.Prelude.{◌≡◌, ℕ, MatchOption};
ghost use Rattle.barcode.specs.BarCode.{rows_of, order_of};
ghost use Rattle.divisions.specs.Laws.{OnSheet};
ghost use Rattle.cones.specs.Cones.{Complete, HasNoShortfall, FallsShortFirst};
ghost use Rattle.cones.specs.Judged.{limits_given, IsLimitTable};
ghost use Rattle.cones.specs.Judged.{LawfulLimitsAreSeparated, JanetLikeCompletesWhatAnyDivisionCompletes};
ghost use Rattle.cones.specs.Tables.{LimitTable, no_limits, limits_at, limits_of, LimitsFrom};

use crate::limited_rows::LimitedRows;
use crate::shortfalls::Shortfall;
use crate::tables::*;
use barcode::bar_code::BarCode;
use barcode::sorted_rows::SortedRows;
use divisions::Division;
use elements::Element;
use std::array;

// The limits of variables 1 to n, of which eight at most, at the row of a place.
fn limits_of_row<E: Element, D: Division>(
    division: &D,
    bar_code: &BarCode<E>,
    place: usize,
    n: u8,
) -> RowLimits
    ensures { let limits = limits_given (D.meaning division.now) bar_code.now in
        LimitsFrom n (limits place) result }
{
    array::from_fn(|i| {
        if i < n as usize {
            division.limit(bar_code, place, i as u8 + 1)
        } else {
            None
        }
    })
}

// Writes the limits of variables 1 to n at each row, of which 64 at most, into a table without
// limits.
fn fill_table<E: Element, D: Division>(
    table: &mut [RowLimits; 64],
    division: &D,
    bar_code: &BarCode<E>,
    n: u8,
)
    requires { (p : ℕ) → limits_at table.old p ≡ no_limits }
    ensures { IsLimitTable (D.meaning division.now) bar_code.now n table.new }
{
    for place in 0..bar_code.rows.len().min(64) {
        table[place] = limits_of_row(division, bar_code, place, n);
    }
}

// With as many limits it pays to sort the rows first, so that the division is told its gaps and
// stars quickly.
const MANY: usize = 40;

/// The limits that a division sets for variables 1 to n, of which eight at most, at each row, of
/// which 64 at most, each obtained once. No other variable and no other place has one.
pub fn limits_by<E: Element, D: Division>(
    division: &D,
    bar_code: &BarCode<E>,
    n: u8,
) -> [RowLimits; 64]
    ensures { IsLimitTable (D.meaning division.now) bar_code.now n result }
{
    let mut table = [[None; 8]; 64];
    if bar_code.rows.len().saturating_mul(n as usize) < MANY {
        fill_table(&mut table, division, bar_code, n);
    } else {
        let sorted = SortedRows::of(bar_code.rows, bar_code.order);
        fill_table(&mut table, division, &sorted.bar_code(), n);
    }
    table
}

/// The first shortfall of rows by the limits that a division is asked for under an ordering, if
/// there is one. On a sheet these are all of its limits, and there is none exactly where the rows
/// are complete. Rows that any lawful division completes under an ordering are completed under it
/// by Janet-like division.
pub fn shortfall_by<E: Element, D: Division>(
    division: &D,
    bar_code: &BarCode<E>,
    n: u8,
) -> Option<Shortfall>
    ensures first { let rows = rows_of bar_code.now in
        (table : LimitTable) → IsLimitTable (D.meaning division.now) bar_code.now n table →
        MatchOption result
        (HasNoShortfall n rows (limits_of table))
        (FallsShortFirst n rows (limits_of table)) }
    ensures judged { let rows = rows_of bar_code.now in
        let limits = limits_given (D.meaning division.now) bar_code.now in
        OnSheet n rows (order_of bar_code.now) →
        MatchOption result
        (Complete n rows limits)
        (λ s. FallsShortFirst n rows limits s × ¬ Complete n rows limits) }
    ensures separated { LawfulLimitsAreSeparated }
    ensures wider { JanetLikeCompletesWhatAnyDivisionCompletes }
{
    let limits = limits_by(division, bar_code, n);
    let limited = LimitedRows {
        rows: bar_code.rows,
        limits: &limits,
        n,
    };
    limited.first_shortfall()
}

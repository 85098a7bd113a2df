// The columns of a table of limits, written and cleared.
ghost use Rattle.std.specs.Prelude.{◌≡◌, ◌≤◌, map, length, None};
ghost use Rattle.barcode.specs.BarCode.{rows_of, order_of};
ghost use Rattle.search.specs.Columns.{column, Written, HasLimitedPlaces};

use barcode::bar_code::BarCode;
use barcode::bars::Bars;
use cones::tables::RowLimits;
use divisions::Division;
use elements::Element;
use places::Places;

/// Writes the limits of variable x into its column, for each of the rows, and returns the places of
/// those that have one.
pub(crate) fn fill_column<E: Element, D: Division>(
    table: &mut [RowLimits; 64],
    division: &D,
    bar_code: &BarCode<E>,
    x: u8,
) -> Places
    requires places { length bar_code.now.rows.now ≤ 64 }
    requires column { (1 ≤ x) × (x ≤ 8) }
    ensures places { let rows = rows_of bar_code.now in
        let limits = D.meaning division.now rows (order_of bar_code.now) in
        HasLimitedPlaces (column limits x) (length bar_code.now.rows.now) result }
    ensures column { let rows = rows_of bar_code.now in
        let limits = D.meaning division.now rows (order_of bar_code.now) in
        Written (column limits x) x (length bar_code.now.rows.now) table.old table.new }
{
    let mut places = Places::none();
    for (q, limits) in table[..bar_code.rows.len()].iter_mut().enumerate() {
        let limit = division.limit(bar_code, q, x);
        limits[x as usize - 1] = limit;
        if limit.is_some() {
            places.insert(q);
        }
    }
    places
}

/// The same for rows under an ordering, of whose bars nothing is known.
pub(crate) fn fill_column_by_rows<E: Element, D: Division>(
    table: &mut [RowLimits; 64],
    division: &D,
    rows: &[E],
    order: &[u8],
    x: u8,
) -> Places
    requires places { length rows.now ≤ 64 }
    requires column { (1 ≤ x) × (x ≤ 8) }
    ensures places { let limits = D.meaning division.now (map E.shown rows.now) order.now in
        HasLimitedPlaces (column limits x) (length rows.now) result }
    ensures column { let limits = D.meaning division.now (map E.shown rows.now) order.now in
        Written (column limits x) x (length rows.now) table.old table.new }
{
    fill_column(table, division, &BarCode::new(rows, order), x)
}

/// The same, by what is known of the bars.
pub(crate) fn fill_column_by_bars<E: Element, D: Division>(
    table: &mut [RowLimits; 64],
    division: &D,
    bars: &Bars<E>,
    order: &[u8],
    x: u8,
) -> Places
    requires places { length bars.now.rows.now ≤ 64 }
    requires column { (1 ≤ x) × (x ≤ 8) }
    ensures places { let rows = map E.shown bars.now.rows.now in
        let limits = D.meaning division.now rows order.now in
        HasLimitedPlaces (column limits x) (length bars.now.rows.now) result }
    ensures column { let rows = map E.shown bars.now.rows.now in
        let limits = D.meaning division.now rows order.now in
        Written (column limits x) x (length bars.now.rows.now) table.old table.new }
{
    fill_column(table, division, &bars.bar_code(order), x)
}

/// Takes the limits of variable x out again, at so many rows.
pub(crate) fn clear_limits(table: &mut [RowLimits; 64], count: usize, x: u8)
    requires places { count ≤ 64 }
    requires column { (1 ≤ x) × (x ≤ 8) }
    ensures { Written (λ q. None) x count table.old table.new }
{
    for limits in table[..count].iter_mut() {
        limits[x as usize - 1] = None;
    }
}

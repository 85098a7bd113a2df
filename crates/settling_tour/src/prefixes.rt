// The prefixes that are tried for an ordering of 2 variables. A prefix is the first entries of an
// ordering.
use crate::calls::*;
use crate::page::Page;
use crate::{DOWN, UP};
use barcode::bar_code::BarCode;
use cones::judging::limits_by;
use cones::limited_rows::LimitedRows;
use cones::tables::RowLimits;
use divisions::NumberedDivision;
use elements::PlainTerm;
use lines::written::Listed;

/// The prefixes that are tested, each live or dead, up to the first ordering that serves.
pub(crate) fn tell(page: &Page, rows: &[PlainTerm; 3], division: &NumberedDivision) {
    println!(page; "  by {}:", name(division));
    for order in [UP, DOWN] {
        let bar_code = BarCode::new(rows, &order);
        if tell_prefix(page, division, &bar_code, &order[..1])
            && tell_prefix(page, division, &bar_code, &order[..2])
        {
            break;
        }
    }
}

// A prefix is live where by the limits of its variables alone there is no shortfall.
fn tell_prefix(
    page: &Page,
    division: &NumberedDivision,
    bar_code: &BarCode<PlainTerm>,
    prefix: &[u8],
) -> bool {
    let limits = limits_of_prefix(division, bar_code, prefix);
    let limited = LimitedRows {
        rows: bar_code.rows,
        limits: &limits,
        n: 2,
    };
    let live = limited.first_shortfall().is_none();
    let word = if live { "live" } else { "dead" };
    println!(page; "    {} is {word}", Listed(prefix));
    live
}

// The limits that the division sets for the variables of a prefix, and none for any other.
fn limits_of_prefix(
    division: &NumberedDivision,
    bar_code: &BarCode<PlainTerm>,
    prefix: &[u8],
) -> [RowLimits; 64] {
    let mut table = limits_by(division, bar_code, 2);
    for limits in table.iter_mut() {
        for (variable, limit) in (1..9).zip(limits.iter_mut()) {
            if !prefix.contains(&variable) {
                *limit = None;
            }
        }
    }
    table
}

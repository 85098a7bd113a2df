// The search for an ordering that makes the rows complete.
use crate::{DOWN, UP};
use barcode::bar_code::BarCode;
use cones::judging::limits_by;
use cones::limited_rows::LimitedRows;
use cones::tables::RowLimits;
use divisions::{Division, Janet, JanetLike, Thomas};
use elements::PlainTerm;
use lines::written::Listed;
use search::searching::{Found, search};
use std::io;

/// Tells which prefixes are tried, and which ordering serves.
pub(crate) fn tell(rt: &HostRuntime, rows: &[PlainTerm]) -> io::Result<()> {
    println!(rt; "Which ordering makes the rows complete?")?;
    tell_search(rt, rows, "Janet", &Janet)?;
    tell_search(rt, rows, "Janet-like", &JanetLike)?;
    tell_search(rt, rows, "Thomas", &Thomas)
}

// The tested prefixes, live or dead, and what is found. A prefix is the first entries of an
// ordering.
fn tell_search<D: Division>(
    rt: &HostRuntime,
    rows: &[PlainTerm],
    name: &str,
    division: &D,
) -> io::Result<()> {
    println!(rt; "  by {name}:")?;
    for order in [UP, DOWN] {
        let bar_code = BarCode::new(rows, &order);
        if tell_prefix(rt, &bar_code, division, &order[..1])?
            && tell_prefix(rt, &bar_code, division, &order[..2])?
        {
            break;
        }
    }
    let Found { tested, ordering } = search(division, rows, 2);
    match ordering {
        Some(order) => {
            let listed = Listed(&order);
            println!(rt; "    {listed} serves; {tested} prefixes were tested")
        }
        None => println!(rt; "    no ordering serves; {tested} prefixes were tested"),
    }
}

// The limits that the division sets for the variables of a prefix, and none for any other.
fn limits_of_prefix<D: Division>(
    division: &D,
    bar_code: &BarCode<PlainTerm>,
    prefix: &[u8],
) -> [RowLimits; 64] {
    let mut table = limits_by(division, bar_code, 2);
    for limits in table.iter_mut() {
        for (variable, limit) in (1..9).zip(limits.iter_mut()) {
            if !prefix.contains(&variable) {
                *limit = None;
            }
        }
    }
    table
}

// Whether a prefix is live: with the limits of its variables alone there is no shortfall.
fn tell_prefix<D: Division>(
    rt: &HostRuntime,
    bar_code: &BarCode<PlainTerm>,
    division: &D,
    prefix: &[u8],
) -> io::Result<bool> {
    let limits = limits_of_prefix(division, bar_code, prefix);
    let limited = LimitedRows {
        rows: bar_code.rows,
        limits: &limits,
        n: 2,
    };
    let live = limited.first_shortfall().is_none();
    let word = if live { "live" } else { "dead" };
    println!(rt; "    prefix {} is {word}", Listed(prefix))?;
    Ok(live)
}

// The Bar Code of the sheet's rows, and the limits of three divisions.
use crate::sheet::tell_refusal;
use divisions::{Division, Janet, JanetLike, Thomas};
use elements::{Element, PlainTerm};
use lines::written::{Listed, Monomial};
use sheets::answers::*;
use sheets::open_sheet::*;
use sheets::parts::*;
use std::io;

/// For each row, and each variable from the greatest down: the bar and the limits.
pub(crate) fn tell(rt: &HostRuntime, sheet: &OpenSheet<PlainTerm>) -> io::Result<()> {
    let Parts {
        table,
        order,
        header,
    } = &sheet.parts;
    let listed = Listed(order);
    println!(rt; "Its Bar Code under {listed}; at a star Janet and Janet-like set no limit:")?;
    for (place, row) in table.iter().take(header.rows as usize).enumerate() {
        println!(rt; "  {}", Monomial(&row.exponents()))?;
        for variable in order.iter().take(header.variables as usize) {
            tell_bar(rt, sheet, place, *variable)?;
        }
    }
    Ok(())
}

fn tell_bar(
    rt: &HostRuntime,
    sheet: &OpenSheet<PlainTerm>,
    place: usize,
    variable: u8,
) -> io::Result<()> {
    let thomas = limit(sheet, &Thomas, place, variable);
    match sheet.bar(place, variable) {
        Ok(Bar { number, star: true }) if thomas == 0 => {
            println!(rt; "    over bar {number} of x{variable} *")
        }
        Ok(Bar { number, star: true }) => {
            println!(rt; "    over bar {number} of x{variable} *, limit {thomas} by Thomas")
        }
        Ok(
            Bar {
                number,
                star: false,
            },
        ) => {
            let janet = limit(sheet, &Janet, place, variable);
            let janet_like = limit(sheet, &JanetLike, place, variable);
            println!(rt;
                "    over bar {number} of x{variable}, limit {janet} by Janet, {janet_like} by Janet-like and {thomas} by Thomas"
            )
        }
        Err(refusal) => tell_refusal(rt, refusal),
    }
}

// A limit, 0 for none.
fn limit<D: Division>(
    sheet: &OpenSheet<PlainTerm>,
    division: &D,
    place: usize,
    variable: u8,
) -> u16 {
    sheet
        .limit(division, place, variable)
        .ok()
        .flatten()
        .unwrap_or(0)
}

// The Bar Code of the rows of an open sheet, and the limits of three divisions.
use crate::calls::*;
use crate::page::Page;
use divisions::NumberedDivision;
use elements::{Element, PlainTerm};
use lines::written::{Listed, Monomial};
use sheets::answers::*;
use sheets::open_sheet::*;
use sheets::parts::*;

/// For each row its bars, that of the greatest variable first.
pub(crate) fn tell(page: &Page, sheet: &OpenSheet<PlainTerm>) {
    let Parts {
        table,
        order,
        header,
    } = &sheet.parts;
    let listed = Listed(order);
    println!(page);
    println!(page; "Its Bar Code under {listed}; at a star Janet and Janet-like set no limit:");
    for (place, row) in table.iter().take(header.rows as usize).enumerate() {
        println!(page; "  place {place}, {}", Monomial(&row.exponents()));
        for variable in order.iter().take(header.variables as usize) {
            tell_bar(page, sheet, place, *variable);
        }
    }
}

// The bar of a variable under a row.
fn tell_bar(page: &Page, sheet: &OpenSheet<PlainTerm>, place: usize, variable: u8) {
    if let Ok(Bar { number, star }) = sheet.bar(place, variable) {
        print!(page; "    over bar {number} of x{variable}");
        let thomas = limit(sheet, &THOMAS, place, variable);
        if !star {
            let janet = limit(sheet, &JANET, place, variable);
            let janet_like = limit(sheet, &JANET_LIKE, place, variable);
            print!(page; ", limit {janet} by Janet, {janet_like} by Janet-like and ");
            println!(page; "{thomas} by Thomas");
        } else if thomas == 0 {
            println!(page; " *");
        } else {
            println!(page; " *, limit {thomas} by Thomas");
        }
    }
}

// A limit, 0 for none.
fn limit(
    sheet: &OpenSheet<PlainTerm>,
    division: &NumberedDivision,
    place: usize,
    variable: u8,
) -> u16 {
    sheet
        .limit(division, place, variable)
        .ok()
        .flatten()
        .unwrap_or(0)
}

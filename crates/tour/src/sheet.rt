// The set on a sheet of four places: open, insert, withdraw, arrange, and what is refused.
use crate::{DOWN, bars, verdicts};
use elements::{Element, PlainTerm};
use lines::written::{Listed, Monomial};
use orderings::refusals::Refusal;
use sheets::answers::*;
use sheets::open_sheet::*;
use sheets::opening::{open, parts_for};
use sheets::parts::*;
use std::io;

/// Tells how the rows come to stand on a sheet.
pub(crate) fn tell(rt: &HostRuntime, set: &[PlainTerm]) -> io::Result<()> {
    let parts = parts_for(rt.alloc(), 2, 4)?;
    println!(rt; "A sheet of 4 places for 2 variables:")?;
    match open(parts) {
        Ok(sheet) => tell_edits(rt, sheet, set),
        Err(Denied { back: _, why }) => tell_refusal(rt, why),
    }
}

fn tell_edits(
    rt: &HostRuntime,
    mut sheet: OpenSheet<PlainTerm>,
    set: &[PlainTerm],
) -> io::Result<()> {
    for term in set {
        tell_insert(rt, &mut sheet, term)?;
    }
    if let [first, second, ..] = set {
        tell_withdraw(rt, &mut sheet, second)?;
        tell_withdraw(rt, &mut sheet, second)?;
        tell_insert(rt, &mut sheet, second)?;
        tell_insert(rt, &mut sheet, first)?;
    }
    println!(rt)?;
    bars::tell(rt, &sheet)?;
    println!(rt)?;
    println!(rt; "The same sheet:")?;
    tell_arrange(rt, &mut sheet, &DOWN)?;
    show(rt, &sheet.parts)?;
    println!(rt)?;
    bars::tell(rt, &sheet)?;
    println!(rt)?;
    verdicts::tell(rt, &sheet)
}

/// Tells why a call is refused.
pub(crate) fn tell_refusal(rt: &HostRuntime, refusal: Refusal) -> io::Result<()> {
    println!(rt; "refused by {}, {refusal}.", u8::from(refusal))
}

fn tell_insert(
    rt: &HostRuntime,
    sheet: &mut OpenSheet<PlainTerm>,
    term: &PlainTerm,
) -> io::Result<()> {
    print!(rt; "  insert {}: ", Monomial(&term.exponents()))?;
    match sheet.insert(*term) {
        Ok(place) => println!(rt; "it stands at place {place}."),
        Err(refusal) => tell_refusal(rt, refusal),
    }
}

fn tell_withdraw(
    rt: &HostRuntime,
    sheet: &mut OpenSheet<PlainTerm>,
    term: &PlainTerm,
) -> io::Result<()> {
    print!(rt; "  withdraw {}: ", Monomial(&term.exponents()))?;
    match sheet.withdraw(term) {
        Ok(()) => println!(rt; "it is gone, and the later rows have moved down."),
        Err(refusal) => tell_refusal(rt, refusal),
    }
}

fn tell_arrange(rt: &HostRuntime, sheet: &mut OpenSheet<PlainTerm>, list: &[u8]) -> io::Result<()> {
    print!(rt; "  arrange {}: ", Listed(list))?;
    match sheet.arrange(list) {
        Ok(()) => println!(rt; "it is the sheet's ordering."),
        Err(refusal) => tell_refusal(rt, refusal),
    }
}

// The rows by place, and the ordering.
fn show(rt: &HostRuntime, parts: &Parts<PlainTerm>) -> io::Result<()> {
    println!(rt; "The table, with the ordering {}:", Listed(&parts.order))?;
    for (place, term) in parts.table.iter().enumerate() {
        if place < parts.header.rows as usize {
            println!(rt; "  {place}  {}", Monomial(&term.exponents()))?;
        } else {
            println!(rt; "  {place}  (blank)")?;
        }
    }
    Ok(())
}

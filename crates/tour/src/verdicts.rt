// Whether the sheet's rows are complete, by three divisions under two orderings.
use crate::sheet::tell_refusal;
use crate::{DOWN, UP};
use divisions::{Division, Janet, JanetLike, Thomas};
use elements::{Element, PlainTerm, times_power};
use lines::written::{Listed, Monomial};
use sheets::answers::*;
use sheets::open_sheet::*;
use std::io;

/// Tells whether the rows are complete, by each division.
pub(crate) fn tell(rt: &HostRuntime, sheet: &OpenSheet<PlainTerm>) -> io::Result<()> {
    println!(rt; "Are its rows complete, that is, does every multiple of a row lie in a cone?")?;
    for order in [UP, DOWN] {
        tell_verdict(rt, sheet, "Janet", &Janet, &order)?;
        tell_verdict(rt, sheet, "Janet-like", &JanetLike, &order)?;
        tell_verdict(rt, sheet, "Thomas", &Thomas, &order)?;
    }
    Ok(())
}

fn tell_verdict<D: Division>(
    rt: &HostRuntime,
    sheet: &OpenSheet<PlainTerm>,
    name: &str,
    division: &D,
    order: &[u8],
) -> io::Result<()> {
    print!(rt; "  by {name} under {}: ", Listed(order))?;
    match sheet.weigh(division, order) {
        Ok(Verdict { complete: true, .. }) => println!(rt; "yes."),
        Ok(verdict) => tell_missing(rt, &verdict),
        Err(refusal) => tell_refusal(rt, refusal),
    }
}

fn tell_missing(rt: &HostRuntime, verdict: &Verdict<PlainTerm>) -> io::Result<()> {
    let (variable, power) = (verdict.variable, verdict.power);
    let exponents = verdict.element.exponents();
    let row = Monomial(&exponents);
    match times_power(&verdict.element, variable, power) {
        Some(product) => println!(rt;
            "no, {row} times x{variable}^{power}, which is {}, lies in no cone.",
            Monomial(&product.exponents())
        ),
        None => println!(rt; "no, at {row}."),
    }
}

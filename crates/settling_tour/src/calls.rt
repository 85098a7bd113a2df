// Calls on a sheet, told in words with what is replied.
use crate::page::Page;
use divisions::{Janet, JanetLike, NumberedDivision, OneOf, Thomas};
use elements::{Element, PlainTerm, times_power};
use lines::written::{Listed, Monomial};
use runs::requests::*;
use runs::stepping::step;
use sheets::answers::*;

/// Janet division, as the tour hands it on.
pub(crate) const JANET: NumberedDivision = OneOf::First(Janet);

/// Janet-like division, as the tour hands it on.
pub(crate) const JANET_LIKE: NumberedDivision = OneOf::Second(OneOf::First(JanetLike));

/// Thomas division, as the tour hands it on.
pub(crate) const THOMAS: NumberedDivision = OneOf::Second(OneOf::Second(Thomas));

/// A call of the tour: the calls of one run can bring all three divisions.
pub(crate) type Call<'a> = Request<'a, PlainTerm, NumberedDivision>;

/// Performs each call on the sheet, and tells it with its reply.
pub(crate) fn perform(
    page: &Page,
    start: Sheet<PlainTerm, NumberedDivision>,
    calls: &[Call<'_>],
) -> Sheet<PlainTerm, NumberedDivision> {
    let mut sheet = start;
    for call in calls {
        let (next, reply) = step(sheet, call);
        sheet = next;
        tell_call(page, call);
        tell_reply(page, &reply);
    }
    sheet
}

/// The division's name.
pub(crate) fn name(division: &NumberedDivision) -> &'static str {
    match division {
        OneOf::First(_) => "Janet",
        OneOf::Second(OneOf::First(_)) => "Janet-like",
        OneOf::Second(OneOf::Second(_)) => "Thomas",
    }
}

fn tell_call(page: &Page, call: &Call<'_>) {
    match call {
        Request::Insert(term) => print!(page; "  insert {}: ", Monomial(&term.exponents())),
        Request::Withdraw(term) => print!(page; "  withdraw {}: ", Monomial(&term.exponents())),
        Request::Locate(term) => print!(page; "  locate {}: ", Monomial(&term.exponents())),
        Request::Arrange(list) => print!(page; "  arrange {}: ", Listed(list)),
        Request::Weigh(by, list) => print!(page; "  under {} by {}: ", Listed(list), name(by)),
        Request::Settle(by) => print!(page; "  settle by {}: ", name(by)),
        Request::Reopen => print!(page; "  reopen: "),
        Request::Verdict(_) | Request::Bar(_, _) | Request::Limit(_, _, _) => {
            print!(page; "  read: ")
        }
    }
}

/// Tells what a call is replied.
pub(crate) fn tell_reply(page: &Page, reply: &Reply<PlainTerm>) {
    match reply {
        Ok(Grant::Done | Grant::Bar(_) | Grant::Limit(_)) => println!(page; "done."),
        Ok(Grant::Place(place)) => println!(page; "place {place}."),
        Ok(Grant::Verdict(verdict)) => tell_verdict(page, verdict),
        Ok(Grant::Settled(found)) => tell_serving(page, found),
        Err(NotGranted::NotTaken) => {
            println!(page; "not taken, the sheet is not in the state for it.")
        }
        Err(NotGranted::Refused(refusal)) => page.refusal(*refusal),
    }
}

fn tell_serving(page: &Page, found: &ServingOrdering) {
    let (tested, listed) = (found.tested, Listed(&found.ordering));
    println!(page; "settled under {listed}; prefixes tested: {tested}.");
}

fn tell_verdict(page: &Page, verdict: &Verdict<PlainTerm>) {
    let Verdict {
        complete,
        element,
        place: _,
        variable,
        power,
    } = verdict;
    if *complete {
        println!(page; "yes.");
        return;
    }
    print!(page;
        "no, {} times x{variable}^{power}",
        Monomial(&element.exponents())
    );
    if let Some(product) = times_power(element, *variable, *power) {
        print!(page; ", which is {}", Monomial(&product.exponents()));
    }
    println!(page; ", lies in no cone.");
}

// A sheet from its opening to its settling, and runs of calls on others.
use crate::calls::*;
use crate::page::Page;
use crate::{DOWN, UP, bars, prefixes, term};
use divisions::NumberedDivision;
use elements::PlainTerm;
use runs::replaying::replay;
use runs::requests::*;
use sheets::answers::*;
use sheets::opening::open;
use sheets::parts::*;

/// Tells the calls on a sheet, up to the settled one.
pub(crate) fn tell(page: &Page, parts: Parts<PlainTerm>, set: &[PlainTerm; 3]) {
    match open(parts) {
        Ok(open) => {
            let edited = tell_edits(page, Sheet::Open(open), set);
            let weighed = tell_verdicts(page, edited);
            println!(page);
            println!(page;
                "Which prefixes are tested for an ordering that makes the rows complete?"
            );
            prefixes::tell(page, set, &JANET);
            prefixes::tell(page, set, &JANET_LIKE);
            prefixes::tell(page, set, &THOMAS);
            tell_settling(page, weighed);
        }
        Err(Denied { back: _, why }) => page.refusal(why),
    }
}

// Inserts a term too many and withdraws it, so that the set is left.
fn tell_edits(
    page: &Page,
    sheet: Sheet<PlainTerm, NumberedDivision>,
    set: &[PlainTerm; 3],
) -> Sheet<PlainTerm, NumberedDivision> {
    let [a, b, c] = *set;
    let other = term(0, 1);
    println!(page);
    println!(page; "A sheet of 4 places for 2 variables:");
    let calls = [
        Request::Insert(other),
        Request::Insert(a),
        Request::Insert(b),
        Request::Insert(c),
        Request::Insert(a),
        Request::Insert(term(0, 0)),
        Request::Withdraw(other),
        Request::Withdraw(other),
        Request::Arrange(&[1, 1, 0, 0, 0, 0, 0, 0]),
    ];
    perform(page, sheet, &calls)
}

fn tell_verdicts(
    page: &Page,
    sheet: Sheet<PlainTerm, NumberedDivision>,
) -> Sheet<PlainTerm, NumberedDivision> {
    tell_bars(page, &sheet);
    println!(page);
    println!(page; "The same sheet:");
    let arranged = perform(page, sheet, &[Request::Arrange(&DOWN)]);
    tell_bars(page, &arranged);
    println!(page);
    println!(page; "Are its rows complete, that is, does every multiple of a row lie in a cone?");
    let calls = [
        Request::Weigh(JANET, &UP),
        Request::Weigh(JANET_LIKE, &UP),
        Request::Weigh(THOMAS, &UP),
        Request::Weigh(JANET, &DOWN),
        Request::Weigh(JANET_LIKE, &DOWN),
        Request::Weigh(THOMAS, &DOWN),
    ];
    perform(page, arranged, &calls)
}

fn tell_bars(page: &Page, sheet: &Sheet<PlainTerm, NumberedDivision>) {
    if let Sheet::Open(open) = sheet {
        bars::tell(page, open);
    }
}

// Settles the sheet by one division and, reopened, by the other.
fn tell_settling(page: &Page, sheet: Sheet<PlainTerm, NumberedDivision>) {
    println!(page);
    println!(page;
        "The sheet is settled by the first ordering that serves, and then takes no edits:"
    );
    let calls = [
        Request::Settle(JANET),
        Request::Locate(term(2, 2)),
        Request::Locate(term(2, 0)),
        Request::Insert(term(2, 0)),
        Request::Arrange(&UP),
        Request::Reopen,
        Request::Settle(JANET_LIKE),
    ];
    perform(page, sheet, &calls);
}

/// A list of calls on a sheet that is opened for them. No ordering makes these two terms complete
/// by Janet.
pub(crate) fn tell_run(page: &Page, parts: Parts<PlainTerm>) {
    println!(page);
    println!(page;
        "A whole run on a sheet of its own: x1^2 and x2^2 are inserted, weighed by Janet under 1,2,"
    );
    println!(page; "settled by Janet, settled by Janet-like, and x1 x2^5 is located. The replies:");
    let calls = [
        Request::Insert(term(2, 0)),
        Request::Insert(term(0, 2)),
        Request::Weigh(JANET, &UP),
        Request::Settle(JANET),
        Request::Settle(JANET_LIKE),
        Request::Locate(term(1, 5)),
    ];
    perform_run(page, parts, &mut calls.map(Exchange::from));
}

/// Another, by Thomas, for which the ordering plays no part.
pub(crate) fn tell_run_by_thomas(page: &Page, parts: Parts<PlainTerm>) {
    println!(page);
    println!(page;
        "Another run: x1, x2 and x1 x2 are inserted, weighed by Thomas under 1,2 and under 2,1,"
    );
    println!(page; "settled by Thomas, and x1^4 x2^3, x1^4 and 1 are located. The replies:");
    let calls = [
        Request::Insert(term(1, 0)),
        Request::Insert(term(0, 1)),
        Request::Insert(term(1, 1)),
        Request::Weigh(THOMAS, &UP),
        Request::Weigh(THOMAS, &DOWN),
        Request::Settle(THOMAS),
        Request::Locate(term(4, 3)),
        Request::Locate(term(4, 0)),
        Request::Locate(term(0, 0)),
    ];
    perform_run(page, parts, &mut calls.map(Exchange::from));
}

fn perform_run(
    page: &Page,
    parts: Parts<PlainTerm>,
    exchanges: &mut [Exchange<PlainTerm, NumberedDivision>],
) {
    match replay(parts, exchanges) {
        Ok(_) => tell_replies(page, exchanges),
        Err(denied) => page.refusal(denied.why),
    }
}

fn tell_replies(page: &Page, exchanges: &[Exchange<PlainTerm, NumberedDivision>]) {
    for reply in exchanges.iter().filter_map(|exchange| exchange.reply) {
        print!(page; "  ");
        tell_reply(page, &reply);
    }
}

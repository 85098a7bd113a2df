// Settling a sheet, what a settled sheet takes, and a run of calls.
use crate::making::*;
use divisions::{Division, Janet, JanetLike, OneOf};
use elements::PlainTerm;
use orderings::refusals::Refusal;
use runs::replaying::replay;
use runs::requests::*;
use sheets::answers::*;
use sheets::open_sheet::*;
use sheets::parts::*;
use sheets::settled_sheet::*;
use std::alloc::{AllocError, Global};
use std::process::Abort;
use std::test::Fail;

const UP: [u8; 8] = [1, 2, 0, 0, 0, 0, 0, 0];

const DOWN: [u8; 8] = [2, 1, 0, 0, 0, 0, 0, 0];

// Parts of a sheet of 2 variables and 3 places, with a row in each, under 1,2.
fn parts(heap: Global, rows: &[PlainTerm; 3]) -> Result<Parts<PlainTerm>, AllocError> {
    let table = rows.to_vec(heap)?;
    let order = UP.to_vec(heap)?;
    let header = Header {
        variables: 2,
        rows: 3,
    };
    Ok(Parts {
        table,
        order,
        header,
    })
}

// Whether the places hold these elements, so many of them rows, under the ordering.
fn holds(parts: &Parts<PlainTerm>, places: &[PlainTerm; 3], rows: u8, order: &[u8; 8]) -> bool {
    parts.header.rows == rows
        && parts.order.as_slice() == order.as_slice()
        && parts.table.as_slice() == places.as_slice()
}

fn settled<D: Division>(
    sheet: OpenSheet<PlainTerm>,
    division: D,
) -> Result<Settling<PlainTerm, D>, Fail> {
    sheet
        .settle(division)
        .map_err(|denied| Fail::new(denied.why))
}

// What refuses to settle the sheet by Janet, with the sheet that is handed back.
fn refused(sheet: OpenSheet<PlainTerm>) -> Result<Denied<OpenSheet<PlainTerm>>, Fail> {
    sheet
        .settle(Janet)
        .err()
        .ok_or_else(|| Fail::new("settle granted"))
}

// Cones of the three terms by Janet under 2,1.
fn check_cones(rt: &impl Abort, sheet: &SettledSheet<PlainTerm, Janet>) {
    assert_eq!(rt; sheet.locate(&term(2, 2, 0)), Ok(2));
    assert_eq!(rt; sheet.locate(&term(65535, 1, 0)), Ok(1));
    assert_eq!(rt; sheet.locate(&term(2, 0, 0)), Err(Refusal::NoCone));
    assert_eq!(rt; sheet.locate(&term(3, 0, 1)), Err(Refusal::UnfitElement));
}

#[test]
fn three_terms_by_both_divisions(rt: HostRuntime) -> Result<(), Fail> {
    let rows = three();
    let open = OpenSheet {
        parts: parts(rt.alloc(), &rows)?,
    };
    let Settling { sheet, found } = settled(open, Janet)?;
    assert_eq!(rt;
        found,
        ServingOrdering {
            tested: 3,
            ordering: DOWN,
        }
    );
    assert!(rt; holds(&sheet.parts, &rows, 3, &DOWN));
    check_cones(&rt, &sheet);
    let reopened = sheet.reopen().map_err(|denied| Fail::new(denied.why))?;
    assert!(rt; holds(&reopened.parts, &rows, 3, &DOWN));
    let Settling { sheet, found } = settled(reopened, JanetLike)?;
    assert_eq!(rt;
        found,
        ServingOrdering {
            tested: 2,
            ordering: UP,
        }
    );
    assert!(rt; holds(&sheet.parts, &rows, 3, &UP));
    Ok(())
}

#[test]
fn settling_refused(rt: HostRuntime) -> Result<(), Fail> {
    let places = [term(2, 0, 0), term(0, 2, 0), term(0, 0, 0)];
    let mut open = OpenSheet {
        parts: parts(rt.alloc(), &places)?,
    };
    open.parts.header.rows = 2;
    let mut denied = refused(open)?;
    assert_eq!(rt; denied.why, Refusal::NoOrdering(2));
    assert!(rt; holds(&denied.back.parts, &places, 2, &UP));
    // places that hold no row but are not blank
    denied.back.parts.header.rows = 0;
    assert_eq!(rt; refused(denied.back)?.why, Refusal::NotASheet);
    let mut empty = OpenSheet {
        parts: parts(rt.alloc(), &[term(0, 0, 0); 3])?,
    };
    empty.parts.header.rows = 0;
    assert_eq!(rt; refused(empty)?.why, Refusal::NoRows);
    Ok(())
}

#[test]
fn a_run_by_both_divisions(rt: HostRuntime) -> Result<(), Fail> {
    let calls = [
        Request::Insert(term(2, 0, 0)),
        Request::Insert(term(0, 2, 0)),
        Request::Weigh(OneOf::Second(JanetLike), &DOWN),
        Request::Settle(OneOf::First(Janet)),
        Request::Settle(OneOf::Second(JanetLike)),
        Request::Insert(term(1, 1, 0)),
        Request::Locate(term(1, 5, 0)),
        Request::Reopen,
    ];
    let complete = Verdict {
        complete: true,
        element: term(2, 0, 0),
        place: 0,
        variable: 0,
        power: 0,
    };
    let settled = ServingOrdering {
        tested: 2,
        ordering: UP,
    };
    let told = [
        Ok(Grant::Place(0)),
        Ok(Grant::Place(1)),
        Ok(Grant::Verdict(complete)),
        Err(NotGranted::Refused(Refusal::NoOrdering(2))),
        Ok(Grant::Settled(settled)),
        Err(NotGranted::NotTaken),
        Ok(Grant::Place(1)),
        Ok(Grant::Done),
    ];
    let blanks = [term(0, 0, 0); 3];
    let mut exchanges = calls.map(Exchange::from);
    match replay(parts(rt.alloc(), &blanks)?, &mut exchanges) {
        Ok(_) => {
            for (exchange, reply) in exchanges.iter().zip(told) {
                assert_eq!(rt; exchange.reply, Some(reply));
            }
            assert_eq!(rt; u8::from(Refusal::NoOrdering(2)), 16);
            Ok(())
        }
        Err(denied) => Err(Fail::new(denied.why)),
    }
}

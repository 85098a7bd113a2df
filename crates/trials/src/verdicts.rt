// Verdicts on the worked sets, and cones.
use crate::making::*;
use barcode::bar_code::BarCode;
use cones::judging::limits_by;
use cones::limited_rows::LimitedRows;
use divisions::{Janet, JanetLike, Thomas};
use elements::PlainTerm;
use orderings::refusals::Refusal;
use sheets::answers::*;
use sheets::open_sheet::*;
use sheets::opening::parts_for;
use std::process::Abort;
use std::test::Fail;

// A sheet of three variables with these rows.
fn sheet(
    rt: &(impl Abort + AllocGlobal),
    rows: &[PlainTerm],
) -> Result<OpenSheet<PlainTerm>, Fail> {
    let mut sheet = opened(parts_for(rt.alloc(), 3, 8)?)?;
    for row in rows {
        assert!(rt; sheet.insert(*row).is_ok());
    }
    Ok(sheet)
}

// The verdict on complete rows, of which this is the first.
fn complete(element: PlainTerm) -> Verdict<PlainTerm> {
    Verdict {
        complete: true,
        element,
        place: 0,
        variable: 0,
        power: 0,
    }
}

// The verdict on rows of which the first falls short in a variable to the power 1.
fn short(element: PlainTerm, variable: u8) -> Verdict<PlainTerm> {
    Verdict {
        complete: false,
        element,
        place: 0,
        variable,
        power: 1,
    }
}

#[test]
fn six_terms(rt: HostRuntime) -> Result<(), Fail> {
    let first = term(5, 0, 0);
    let mut sheet = sheet(&rt, &six())?;
    assert_eq!(rt; sheet.weigh(&JanetLike, &FALLING), Ok(complete(first)));
    assert_eq!(rt; sheet.weigh(&Janet, &FALLING), Ok(short(first, 3)));
    assert!(rt; sheet.arrange(&FALLING).is_ok());
    assert_eq!(rt; sheet.verdict(&JanetLike), Ok(complete(first)));
    assert_eq!(rt; sheet.verdict(&Janet), Ok(short(first, 3)));
    Ok(())
}

#[test]
fn a_set_and_its_completion(rt: HostRuntime) -> Result<(), Fail> {
    let less = sheet(&rt, &[term(3, 1, 1), term(5, 2, 1)])?;
    assert_eq!(rt;
        less.weigh(&JanetLike, &FALLING),
        Ok(short(term(3, 1, 1), 2))
    );
    let more = sheet(&rt, &[term(3, 1, 1), term(3, 2, 1), term(5, 2, 1)])?;
    assert_eq!(rt;
        more.weigh(&JanetLike, &FALLING),
        Ok(complete(term(3, 1, 1)))
    );
    let four = sheet(
        &rt,
        &[term(3, 0, 0), term(0, 3, 0), term(4, 1, 1), term(0, 0, 2)],
    )?;
    assert_eq!(rt; four.weigh(&Janet, &FALLING), Ok(short(term(3, 0, 0), 2)));
    Ok(())
}

#[test]
fn a_set_complete_by_thomas(rt: HostRuntime) -> Result<(), Fail> {
    let first = term(1, 0, 0);
    let mut sheet = sheet(&rt, &[first, term(0, 1, 0)])?;
    assert_eq!(rt; sheet.weigh(&Thomas, &FALLING), Ok(short(first, 2)));
    assert!(rt; sheet.insert(term(1, 1, 0)).is_ok());
    assert_eq!(rt; sheet.weigh(&Thomas, &FALLING), Ok(complete(first)));
    assert_eq!(rt; sheet.verdict(&Thomas), Ok(complete(first)));
    Ok(())
}

#[test]
fn no_verdict_on_an_empty_sheet(rt: HostRuntime) -> Result<(), Fail> {
    let empty = sheet(&rt, &[])?;
    assert_eq!(rt; empty.verdict(&Janet), Err(Refusal::NoRows));
    assert_eq!(rt; empty.weigh(&Janet, &FALLING), Err(Refusal::NoRows));
    assert_eq!(rt; empty.weigh(&Janet, &[3, 2]), Err(Refusal::NotAnOrdering));
    assert!(rt; u8::from(Refusal::NoRows) == 12 && u8::from(Refusal::NotAnOrdering) == 11);
    Ok(())
}

#[test]
fn cones_of_three_terms(rt: HostRuntime) {
    let rows = three();
    let bar_code = BarCode::new(&rows, &[2, 1, 0, 0, 0, 0, 0, 0]);
    let limits = limits_by(&Janet, &bar_code, 2);
    let limited = LimitedRows {
        rows: &rows,
        limits: &limits,
        n: 2,
    };
    assert_eq!(rt; limited.cone_of(&term(2, 2, 0)), Some(2));
    assert_eq!(rt; limited.cone_of(&term(2, 0, 0)), None);
    assert_eq!(rt; limited.cone_of(&term(65535, 0, 0)), Some(0));
    assert_eq!(rt; limited.cone_of(&term(65535, 1, 0)), Some(1));
    assert_eq!(rt; limited.cone_of(&term(7, 65535, 0)), Some(2));
}

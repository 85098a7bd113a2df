// The editable sheet at its limits.
use crate::making::*;
use elements::{Derivative, PlainTerm};
use orderings::refusals::Refusal;
use sheets::open_sheet::*;
use sheets::opening::{open, parts_for};
use sheets::parts::*;
use std::alloc::{AllocError, Global};
use std::process::Abort;
use std::test::Fail;

// Parts for so many variables, with so many places and order bytes, each filled with something.
fn parts(
    heap: Global,
    variables: u8,
    places: usize,
    bytes: usize,
) -> Result<Parts<PlainTerm>, AllocError> {
    let table = vec![in heap; term(7, 7, 0); places]?;
    let order = vec![in heap; 9u8; bytes]?;
    let header = Header { variables, rows: 5 };
    Ok(Parts {
        table,
        order,
        header,
    })
}

fn refusal(parts: Parts<PlainTerm>) -> Option<Refusal> {
    open(parts).err().map(|denied| denied.why)
}

#[test]
fn opening_refuses_in_order(rt: HostRuntime) -> Result<(), Fail> {
    let heap = rt.alloc();
    assert_eq!(rt;
        refusal(parts(heap, 0, 0, 7)?),
        Some(Refusal::VariableCount)
    );
    assert_eq!(rt;
        refusal(parts(heap, 9, 65, 9)?),
        Some(Refusal::VariableCount)
    );
    assert_eq!(rt; refusal(parts(heap, 2, 0, 7)?), Some(Refusal::PlaceCount));
    assert_eq!(rt; refusal(parts(heap, 2, 65, 7)?), Some(Refusal::PlaceCount));
    assert_eq!(rt; refusal(parts(heap, 2, 64, 7)?), Some(Refusal::OrderLength));
    assert_eq!(rt; refusal(parts(heap, 8, 1, 8)?), None);
    Ok(())
}

#[test]
fn exponents_to_4095(rt: HostRuntime) -> Result<(), Fail> {
    let mut sheet = opened(parts(rt.alloc(), 2, 4, 8)?)?;
    assert_eq!(rt; sheet.insert(term(4095, 0, 0)), Ok(0));
    assert_eq!(rt; sheet.insert(term(4096, 0, 0)), Err(Refusal::UnfitElement));
    assert_eq!(rt;
        sheet.withdraw(&term(4096, 0, 0)),
        Err(Refusal::UnfitElement)
    );
    assert_eq!(rt; sheet.withdraw(&term(1, 0, 0)), Err(Refusal::NotARow));
    assert_eq!(rt; sheet.insert(term(4095, 0, 0)), Err(Refusal::AlreadyARow));
    Ok(())
}

// Inserts the powers of x1 from 1 to 64.
fn fill(rt: &impl Abort, sheet: &mut OpenSheet<PlainTerm>) {
    for (place, power) in (1..=64).enumerate() {
        assert_eq!(rt; sheet.insert(term(power, 0, 0)), Ok(place));
    }
}

#[test]
fn the_65th_row(rt: HostRuntime) -> Result<(), Fail> {
    let mut sheet = opened(parts(rt.alloc(), 2, 64, 8)?)?;
    fill(&rt, &mut sheet);
    assert_eq!(rt; sheet.insert(term(0, 1, 0)), Err(Refusal::TableFull));
    assert_eq!(rt; sheet.insert(term(3, 0, 0)), Err(Refusal::AlreadyARow));
    assert_eq!(rt; sheet.withdraw(&term(1, 0, 0)), Ok(()));
    assert_eq!(rt; sheet.insert(term(0, 1, 0)), Ok(63));
    Ok(())
}

#[test]
fn altered_parts_are_no_sheet(rt: HostRuntime) -> Result<(), Fail> {
    let mut sheet = opened(parts(rt.alloc(), 2, 4, 8)?)?;
    assert_eq!(rt; sheet.arrange(&[2, 1, 0, 0, 0, 0, 0, 0]), Ok(()));
    assert_eq!(rt;
        sheet.arrange(&[1, 0, 0, 0, 0, 0, 0, 0]),
        Err(Refusal::NotAnOrdering)
    );
    sheet.parts.header.rows = 2;
    assert_eq!(rt; sheet.insert(term(1, 0, 0)), Err(Refusal::NotASheet));
    assert_eq!(rt;
        sheet.arrange(&[1, 2, 0, 0, 0, 0, 0, 0]),
        Err(Refusal::NotASheet)
    );
    sheet.parts.header.rows = 0;
    assert_eq!(rt; sheet.insert(term(1, 0, 0)), Ok(0));
    Ok(())
}

#[test]
fn parts_are_made_for_a_sheet(rt: HostRuntime) -> Result<(), Fail> {
    let made: Parts<PlainTerm> = parts_for(rt.alloc(), 3, 5)?;
    assert_eq!(rt;
        made.header,
        Header {
            variables: 3,
            rows: 0,
        }
    );
    assert_eq!(rt; made.table.len(), 5);
    assert_eq!(rt; made.order.len(), 8);
    let sheet = opened(made)?;
    assert_eq!(rt;
        sheet.parts.order.as_slice(),
        [1, 2, 3, 0, 0, 0, 0, 0].as_slice()
    );
    Ok(())
}

#[test]
fn families_differ(rt: HostRuntime) -> Result<(), Fail> {
    let mut sheet = opened(parts_for::<Derivative>(rt.alloc(), 1, 3)?)?;
    assert_eq!(rt; sheet.insert(derivative(1, 1, 0)), Ok(0));
    assert_eq!(rt; sheet.insert(derivative(2, 1, 0)), Ok(1));
    assert_eq!(rt;
        sheet.insert(derivative(2, 1, 0)),
        Err(Refusal::AlreadyARow)
    );
    assert_eq!(rt;
        sheet.insert(derivative(0, 1, 0)),
        Err(Refusal::UnfitElement)
    );
    Ok(())
}

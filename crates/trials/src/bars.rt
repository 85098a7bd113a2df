// Bars, stars, gaps and limits: the worked tables of the field.
use crate::making::*;
use barcode::bar_code::BarCode;
use divisions::{Division, Janet, JanetLike, Thomas, numbered};
use elements::{Element, Kind, PlainTerm};
use std::test::Fail;

// The gaps of variables 1, 2 and 3 at a place, 0 for none.
fn gaps<E: Kind>(bar_code: &BarCode<E>, place: usize) -> [u16; 3] {
    [1, 2, 3].map(|variable| bar_code.gap(place, variable).unwrap_or(0))
}

// The bar numbers of variables 1, 2 and 3 at a place.
fn numbers<E: Kind>(bar_code: &BarCode<E>, place: usize) -> [usize; 3] {
    [1, 2, 3].map(|variable| bar_code.bar_number(place, variable))
}

#[test]
fn non_multiplicative_powers_of_six_terms(rt: HostRuntime) {
    let rows = six();
    let bar_code = BarCode::new(&rows, &FALLING);
    assert_eq!(rt; gaps(&bar_code, 0), [0, 1, 2]);
    assert_eq!(rt; gaps(&bar_code, 1), [0, 3, 2]);
    assert_eq!(rt; gaps(&bar_code, 2), [0, 0, 2]);
    assert_eq!(rt; gaps(&bar_code, 3), [0, 2, 3]);
    assert_eq!(rt; gaps(&bar_code, 4), [0, 0, 3]);
    assert_eq!(rt; gaps(&bar_code, 5), [0, 0, 0]);
}

#[test]
fn bars_of_six_terms(rt: HostRuntime) {
    let rows = six();
    let bar_code = BarCode::new(&rows, &FALLING);
    assert_eq!(rt; numbers(&bar_code, 0), [1, 1, 1]);
    assert_eq!(rt; numbers(&bar_code, 1), [2, 2, 1]);
    assert_eq!(rt; numbers(&bar_code, 2), [3, 3, 1]);
    assert_eq!(rt; numbers(&bar_code, 3), [4, 4, 2]);
    assert_eq!(rt; numbers(&bar_code, 4), [5, 5, 2]);
    assert_eq!(rt; numbers(&bar_code, 5), [6, 6, 3]);
}

#[test]
fn a_set_and_its_completion(rt: HostRuntime) {
    let rows = [term(3, 1, 1), term(5, 2, 1)];
    let less = BarCode::new(&rows, &FALLING);
    assert_eq!(rt; gaps(&less, 0), [0, 1, 0]);
    assert_eq!(rt; gaps(&less, 1), [0, 0, 0]);
    let completed = [term(3, 1, 1), term(3, 2, 1), term(5, 2, 1)];
    let more = BarCode::new(&completed, &FALLING);
    assert_eq!(rt; gaps(&more, 0), [0, 1, 0]);
    assert_eq!(rt; gaps(&more, 1), [2, 0, 0]);
    assert_eq!(rt; gaps(&more, 2), [0, 0, 0]);
}

#[test]
fn bars_of_five_terms(rt: HostRuntime) {
    let rows = [
        term(1, 0, 0),
        term(2, 0, 0),
        term(0, 1, 1),
        term(1, 2, 1),
        term(0, 3, 1),
    ];
    let bar_code = BarCode::new(&rows, &FALLING);
    assert_eq!(rt; numbers(&bar_code, 0), [1, 1, 1]);
    assert_eq!(rt; numbers(&bar_code, 1), [2, 1, 1]);
    assert_eq!(rt; numbers(&bar_code, 2), [3, 2, 2]);
    assert_eq!(rt; numbers(&bar_code, 3), [4, 3, 2]);
    assert_eq!(rt; numbers(&bar_code, 4), [5, 4, 2]);
}

// Whether variables 1, 2 and 3 are multiplicative by Janet at a place.
fn multiplicative(bar_code: &BarCode<PlainTerm>, place: usize) -> [bool; 3] {
    [1, 2, 3].map(|variable| bar_code.has_star(place, variable))
}

#[test]
fn multiplicative_variables(rt: HostRuntime) {
    let rows = [term(3, 0, 0), term(0, 3, 0), term(4, 1, 1), term(0, 0, 2)];
    let bar_code = BarCode::new(&rows, &FALLING);
    assert_eq!(rt; multiplicative(&bar_code, 0), [true, false, false]);
    assert_eq!(rt; multiplicative(&bar_code, 1), [true, true, false]);
    assert_eq!(rt; multiplicative(&bar_code, 2), [true, true, false]);
    assert_eq!(rt; multiplicative(&bar_code, 3), [true, true, true]);
    let pair = [term(1, 0, 0), term(0, 1, 0)];
    let second_greater = BarCode::new(&pair, &[2, 1, 0, 0, 0, 0, 0, 0]);
    assert!(rt; second_greater.has_star(0, 1) && !second_greater.has_star(0, 2));
    assert!(rt; second_greater.has_star(1, 1) && second_greater.has_star(1, 2));
    let first_greater = BarCode::new(&pair, &[1, 2, 0, 0, 0, 0, 0, 0]);
    assert!(rt; first_greater.has_star(0, 1) && first_greater.has_star(0, 2));
    assert!(rt; !first_greater.has_star(1, 1) && first_greater.has_star(1, 2));
}

#[test]
fn limits_by_number(rt: HostRuntime) -> Result<(), Fail> {
    let rows = six();
    let bar_code = BarCode::new(&rows, &FALLING);
    assert_eq!(rt; Janet.limit(&bar_code, 1, 2), Some(1));
    assert_eq!(rt; JanetLike.limit(&bar_code, 1, 2), Some(3));
    assert_eq!(rt; Janet.limit(&bar_code, 2, 2), None);
    assert!(rt; numbered(0).is_none() && numbered(4).is_none() && numbered(255).is_none());
    let first = numbered(1).ok_or("no division has the number 1")?;
    let second = numbered(2).ok_or("no division has the number 2")?;
    let third = numbered(3).ok_or("no division has the number 3")?;
    assert_eq!(rt; first.limit(&bar_code, 3, 3), Some(1));
    assert_eq!(rt; second.limit(&bar_code, 3, 3), Some(3));
    assert_eq!(rt; third.limit(&bar_code, 3, 3), Some(1));
    // at a star of Janet and Janet-like a row that parts from this one earlier is greater
    assert_eq!(rt; first.limit(&bar_code, 3, 1), None);
    assert_eq!(rt; second.limit(&bar_code, 3, 1), None);
    assert_eq!(rt; third.limit(&bar_code, 3, 1), Some(1));
    Ok(())
}

// The limits of variables 1, 2 and 3 by Thomas at a place, 0 for none.
fn by_thomas<E: Element>(bar_code: &BarCode<E>, place: usize) -> [u16; 3] {
    [1, 2, 3].map(|variable| Thomas.limit(bar_code, place, variable).unwrap_or(0))
}

#[test]
fn limits_by_thomas_of_six_terms(rt: HostRuntime) {
    let rows = six();
    for order in [FALLING, [1, 2, 3, 0, 0, 0, 0, 0]] {
        let bar_code = BarCode::new(&rows, &order);
        assert_eq!(rt; by_thomas(&bar_code, 0), [0, 1, 1]);
        assert_eq!(rt; by_thomas(&bar_code, 1), [1, 1, 1]);
        assert_eq!(rt; by_thomas(&bar_code, 2), [1, 0, 1]);
        assert_eq!(rt; by_thomas(&bar_code, 3), [1, 1, 1]);
        assert_eq!(rt; by_thomas(&bar_code, 4), [1, 1, 1]);
        assert_eq!(rt; by_thomas(&bar_code, 5), [1, 1, 0]);
        assert_eq!(rt; by_thomas(&bar_code, 6), [0, 0, 0]);
    }
}

#[test]
fn limits_by_thomas_of_each_family(rt: HostRuntime) {
    let rows = [
        derivative(1, 2, 0),
        derivative(2, 3, 2),
        derivative(1, 2, 1),
        derivative(2, 4, 2),
    ];
    let bar_code = BarCode::new(&rows, &[1, 2, 0, 0, 0, 0, 0, 0]);
    assert_eq!(rt; by_thomas(&bar_code, 0), [0, 1, 0]);
    assert_eq!(rt; by_thomas(&bar_code, 1), [1, 0, 0]);
    assert_eq!(rt; by_thomas(&bar_code, 2), [0, 0, 0]);
    assert_eq!(rt; by_thomas(&bar_code, 3), [0, 0, 0]);
}

#[test]
fn each_family_has_its_own_bar_code(rt: HostRuntime) {
    let rows = [derivative(1, 2, 0), derivative(2, 0, 2)];
    let bar_code = BarCode::new(&rows, &[1, 2, 0, 0, 0, 0, 0, 0]);
    assert_eq!(rt; gaps(&bar_code, 0), [0, 0, 0]);
    assert_eq!(rt; gaps(&bar_code, 1), [0, 0, 0]);
    assert_eq!(rt; numbers(&bar_code, 1), [1, 1, 1]);
}

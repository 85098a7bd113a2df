// Elements, orderings and compare.
use crate::making::*;
use elements::{divides, quotient, times_power};
use orderings::comparing::{Comparison, compare};
use orderings::fitting::is_fit;
use orderings::orders::is_ordering;
use orderings::refusals::Refusal;

#[test]
fn divisors_and_quotients(rt: HostRuntime) {
    assert!(rt; divides(&term(1, 2, 0), &term(1, 3, 4)));
    assert!(rt; !divides(&term(1, 2, 0), &term(4, 1, 4)));
    assert!(rt; !divides(&derivative(1, 1, 0), &derivative(2, 1, 0)));
    assert_eq!(rt;
        quotient(&term(1, 2, 0), &term(1, 3, 4)),
        Some([0, 1, 4, 0, 0, 0, 0, 0])
    );
    assert_eq!(rt; quotient(&term(1, 2, 0), &term(0, 3, 4)), None);
    assert!(rt; times_power(&term(65535, 0, 0), 1, 1).is_none());
    assert!(rt; times_power(&term(65534, 0, 0), 1, 1).is_some());
    assert!(rt; times_power(&term(4095, 0, 0), 1, 4096).is_some());
    assert!(rt; times_power(&term(1, 0, 0), 9, 1).is_none());
}

#[test]
fn orderings(rt: HostRuntime) {
    assert!(rt; is_ordering(&[3, 2, 1, 0, 0, 0, 0, 0], 3));
    assert!(rt; is_ordering(&[8, 7, 6, 5, 4, 3, 2, 1], 8));
    assert!(rt; !is_ordering(&[3, 2, 1, 0, 0, 0, 0], 3));
    assert!(rt; !is_ordering(&[3, 2, 1, 0, 0, 0, 0, 0, 0], 3));
    assert!(rt; !is_ordering(&[3, 2, 3, 0, 0, 0, 0, 0], 3));
    assert!(rt; !is_ordering(&[3, 2, 0, 0, 0, 0, 0, 0], 3));
    assert!(rt; !is_ordering(&[3, 2, 1, 0, 0, 0, 0, 1], 3));
    assert!(rt; !is_ordering(&[4, 2, 1, 0, 0, 0, 0, 0], 3));
}

#[test]
fn compared_by_the_greatest_variable(rt: HostRuntime) {
    let up = [1, 2, 3, 0, 0, 0, 0, 0];
    let down = [3, 2, 1, 0, 0, 0, 0, 0];
    assert_eq!(rt;
        compare(&term(3, 0, 0), &term(0, 2, 0), 3, &up),
        Ok(Comparison::Above)
    );
    assert_eq!(rt;
        compare(&term(3, 0, 0), &term(0, 2, 0), 3, &down),
        Ok(Comparison::Below)
    );
    assert_eq!(rt;
        compare(&term(1, 1, 2), &term(1, 1, 2), 3, &down),
        Ok(Comparison::Same)
    );
    assert_eq!(rt;
        compare(&term(1, 1, 2), &term(1, 1, 3), 3, &up),
        Ok(Comparison::Below)
    );
    assert_eq!(rt;
        compare(
            &derivative(2, 0, 0),
            &derivative(1, 9, 9),
            2,
            &[1, 2, 0, 0, 0, 0, 0, 0],
        ),
        Ok(Comparison::Above)
    );
}

#[test]
fn refused_in_order(rt: HostRuntime) {
    let order = [1, 2, 3, 0, 0, 0, 0, 0];
    let bad = [1, 1, 3, 0, 0, 0, 0, 0];
    let large = term(4096, 0, 0);
    assert_eq!(rt;
        compare(&large, &large, 0, &bad),
        Err(Refusal::VariableCount)
    );
    assert_eq!(rt;
        compare(&large, &large, 9, &bad),
        Err(Refusal::VariableCount)
    );
    assert_eq!(rt;
        compare(&term(1, 0, 0), &large, 3, &bad),
        Err(Refusal::UnfitElement)
    );
    assert_eq!(rt;
        compare(&term(1, 0, 1), &term(1, 0, 0), 2, &bad),
        Err(Refusal::UnfitElement)
    );
    assert_eq!(rt;
        compare(&term(4095, 0, 0), &term(1, 0, 0), 3, &bad),
        Err(Refusal::NotAnOrdering)
    );
    assert_eq!(rt;
        compare(&term(4095, 0, 0), &term(1, 0, 0), 3, &order),
        Ok(Comparison::Above)
    );
    assert!(rt; !is_fit(&derivative(0, 1, 0), 2));
    assert!(rt; is_fit(&derivative(16, 1, 0), 2));
    assert!(rt; !is_fit(&derivative(17, 1, 0), 2));
}

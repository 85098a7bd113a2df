// The search on the worked sets.
use crate::making::*;
use divisions::{Division, Janet, JanetLike, Thomas};
use elements::Kind;
use search::searching::{Found, search};

// The count of tested prefixes, and the ordering.
fn found<E: Kind, D: Division>(division: &D, rows: &[E], n: u8) -> (u32, Option<[u8; 8]>) {
    let Found { tested, ordering } = search(division, rows, n);
    (tested, ordering)
}

#[test]
fn four_terms(rt: HostRuntime) {
    let rows = [term(1, 0, 0), term(2, 0, 0), term(0, 1, 0), term(1, 0, 1)];
    assert_eq!(rt;
        found(&Janet, &rows, 3),
        (3, Some([1, 2, 3, 0, 0, 0, 0, 0]))
    );
}

#[test]
fn three_terms(rt: HostRuntime) {
    let rows = three();
    assert_eq!(rt;
        found(&Janet, &rows, 2),
        (3, Some([2, 1, 0, 0, 0, 0, 0, 0]))
    );
    assert_eq!(rt;
        found(&JanetLike, &rows, 2),
        (2, Some([1, 2, 0, 0, 0, 0, 0, 0]))
    );
}

#[test]
fn two_terms(rt: HostRuntime) {
    let rows = [term(2, 0, 0), term(0, 2, 0)];
    assert_eq!(rt; found(&Janet, &rows, 2), (2, None));
    assert_eq!(rt;
        found(&JanetLike, &rows, 2),
        (2, Some([1, 2, 0, 0, 0, 0, 0, 0]))
    );
    let families = [derivative(1, 2, 0), derivative(2, 0, 2)];
    assert_eq!(rt;
        found(&Janet, &families, 2),
        (2, Some([1, 2, 0, 0, 0, 0, 0, 0]))
    );
}

#[test]
fn terms_and_their_product(rt: HostRuntime) {
    let less = [term(1, 0, 0), term(0, 1, 0)];
    assert_eq!(rt; found(&Thomas, &less, 2), (4, None));
    let more = [term(1, 0, 0), term(0, 1, 0), term(1, 1, 0)];
    assert_eq!(rt;
        found(&Thomas, &more, 2),
        (2, Some([1, 2, 0, 0, 0, 0, 0, 0]))
    );
}

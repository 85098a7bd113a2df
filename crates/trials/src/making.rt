// What the tests are made of.
use elements::{Derivative, Kind, PlainTerm};
use sheets::open_sheet::*;
use sheets::opening::open;
use sheets::parts::*;
use std::test::Fail;

/// The ordering 3,2,1.
pub(crate) const FALLING: [u8; 8] = [3, 2, 1, 0, 0, 0, 0, 0];

/// The term with these exponents of x1, x2 and x3.
pub(crate) fn term(x1: u16, x2: u16, x3: u16) -> PlainTerm {
    <PlainTerm as Kind>::make(0, [x1, x2, x3, 0, 0, 0, 0, 0])
}

/// The derivative of a family with these exponents of x1 and x2.
pub(crate) fn derivative(family: u8, x1: u16, x2: u16) -> Derivative {
    <Derivative as Kind>::make(family, [x1, x2, 0, 0, 0, 0, 0, 0])
}

/// Three terms that are complete by Janet under 2,1 alone, and by Janet-like under 1,2 too.
pub(crate) fn three() -> [PlainTerm; 3] {
    [term(3, 0, 0), term(1, 1, 0), term(0, 2, 0)]
}

/// The six terms whose non-multiplicative powers by Janet-like division are known.
pub(crate) fn six() -> [PlainTerm; 6] {
    [
        term(5, 0, 0),
        term(2, 1, 0),
        term(1, 4, 0),
        term(2, 0, 2),
        term(1, 2, 2),
        term(0, 0, 5),
    ]
}

/// The sheet that is opened over the parts.
pub(crate) fn opened<E: Kind>(parts: Parts<E>) -> Result<OpenSheet<E>, Fail> {
    open(parts).map_err(|denied| Fail::new(denied.why))
}

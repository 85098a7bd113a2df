// What calls on a sheet answer.
use orderings::refusals::Refusal;

/// The first ordering that makes the rows complete, and how many prefixes were tested for it.
#[derive(Clone, Copy, PartialEq, Eq, Debug)]
pub struct ServingOrdering {
    pub tested: u32,
    pub ordering: [u8; 8],
}

/// What was handed to a refused call, and why it was refused.
#[derive(Drop)]
pub struct Denied<T> {
    pub back: T,
    pub why: Refusal,
}

/// The number of a bar, which counts from 1, and whether a star follows it.
#[derive(Clone, Copy, PartialEq, Eq, Debug)]
pub struct Bar {
    pub number: usize,
    pub star: bool,
}

/// Whether rows are complete. Where they are, the element is the row at place 0 and the numbers are
/// 0; else it is the row that falls short first, with its place, the variable and the power.
/// It has these five fields in either case and for every kind, so that terms and derivatives are
/// told alike. The flag stands beside the numbers, since an element and its place are told of
/// complete rows too, and do not say that they are complete.
#[derive(Clone, Copy, PartialEq, Eq, Debug)]
pub struct Verdict<E> {
    pub complete: bool,
    pub element: E,
    pub place: usize,
    pub variable: u8,
    pub power: u16,
}

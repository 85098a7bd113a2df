// Where rows fall short.

/// A shortfall: the row at a place, times a power of a variable, lies in no cone. The power is the
/// limit of that variable there.
#[derive(Clone, Copy, PartialEq, Eq, Debug)]
pub struct Shortfall {
    pub place: usize,
    pub variable: u8,
    pub power: u16,
}

// Which elements a sheet of n variables takes.
ghost use Rattle.std.specs.Prelude.{IsTrue, ◌↔◌};
ghost use Rattle.orderings.specs.Fit.{Admitted, Fit};

use elements::Kind;

/// The largest exponent of a row.
pub const LARGEST: u16 = 4095;

/// Whether an element is one of its kind in `n` variables.
pub fn is_admitted<E: Kind>(element: &E, n: u8) -> bool
    ensures { IsTrue result ↔ Admitted E.admitted n (E.shown element.now) }
{
    E::admits(element.family())
        && element
            .exponents()
            .iter()
            .skip(n as usize)
            .all(|exponent| *exponent == 0)
}

/// Whether an element may be a row of a sheet of `n` variables.
pub fn is_fit<E: Kind>(element: &E, n: u8) -> bool
    ensures { IsTrue result ↔ Fit E.admitted n (E.shown element.now) }
{
    is_admitted(element, n)
        && element
            .exponents()
            .iter()
            .all(|exponent| *exponent <= LARGEST)
}

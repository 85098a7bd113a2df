// Families with exponents that may pass 65,535, as a product with a power has them.
ghost use Rattle.std.specs.Prelude.{◌≡◌, IsTrue, ◌↔◌};
ghost use Rattle.elements.specs.Element.{Divides, times};

use elements::Element;
use std::array;
use std::marker::Model;

/// What an element or its product with a power shows. It is no element, which cannot show such a
/// product, and reads like one so that a cone is tested in one way for both.
#[derive(Clone, Copy)]
pub(crate) struct Shape {
    pub(crate) family: u8,
    pub(crate) exponents: [u32; 8],
}

impl Model for Shape {
    ghost use Rattle.elements.specs.Element.{Shown};

    ghost Value = { Shown };

    ghost view = { λ s. record { family = s.family; exponents = s.exponents } };

    ghost inverse = { λ w. record { family = w.family; exponents = w.exponents } };
}

impl Shape {
    /// What an element shows.
    pub(crate) fn of<E: Element>(element: &E) -> Shape
        ensures { result ≡ E.shown element.now }
    {
        let exponents = element.exponents();
        Shape {
            family: element.family(),
            exponents: array::from_fn(|i| u32::from(exponents[i])),
        }
    }

    /// What its product with a power of a variable shows.
    pub(crate) fn of_product<E: Element>(element: &E, variable: u8, power: u16) -> Shape
        ensures { result ≡ times (E.shown element.now) variable power }
    {
        let exponents = element.exponents();
        let mut raised: [u32; 8] = array::from_fn(|i| u32::from(exponents[i]));
        if variable >= 1 && variable <= 8 {
            let index = variable as usize - 1;
            raised[index] = u32::from(exponents[index]) + u32::from(power);
        }
        Shape {
            family: element.family(),
            exponents: raised,
        }
    }

    /// Whether a row divides it.
    pub(crate) fn is_multiple_of<E: Element>(&self, row: &E) -> bool
        ensures { IsTrue result ↔ Divides (E.shown row.now) self.now }
    {
        let least = row.exponents();
        let mut divides = row.family() == self.family;
        // no exponent is passed over, which is quicker than a branch for each
        for i in 0..8 {
            divides &= u32::from(least[i]) <= self.exponents[i];
        }
        divides
    }
}

// Divisions: how far each row may be multiplied in each variable.
#![tactic(auto)]

ghost use Rattle.std.specs.Prelude.{◌≡◌};
ghost use Rattle.std.specs.Option.{option_map};
ghost use Rattle.barcode.specs.BarCode.{rows_of, order_of};
ghost use Rattle.divisions.specs.Laws.{Meaning, Lawful};
ghost use Rattle.divisions.specs.Either.{either};
ghost use Rattle.divisions.specs.Janet.{janet, janet_like, JanetIsToldByStars, JanetLikeIsToldByGaps};
ghost use Rattle.divisions.specs.Thomas.{thomas, ThomasIsToldByGreaterRows};
ghost use Rattle.divisions.specs.Numbered.{IsNumbered, numbered_meaning};
ghost use Rattle.divisions.specs.Lawfulness.{janet_lawful, janet_like_lawful, thomas_lawful};
ghost use Rattle.divisions.specs.declared.OneOf.TheVariants.{First, Second};

use barcode::bar_code::BarCode;
use elements::Element;

/// A division. Under an ordering it tells for each row and each variable the limit below which the
/// row may be multiplied in that variable, or that there is none.
pub trait Division: Copy + Clone {
    // What it means: that limit as a function.
    ghost meaning: { Self → Meaning };

    /// The limit of a variable at the row of a place.
    fn limit<E: Element>(&self, bar_code: &BarCode<E>, place: usize, variable: u8) -> Option<u16>
        ensures { result ≡
            meaning self.now (rows_of bar_code.now) (order_of bar_code.now) place variable };

    // It keeps the laws of divisions, which are owed on the rows of a sheet.
    ghost lawful: { (d : Self) → Lawful (meaning d) };
}

/// Janet division, of number 1: no limit at a star, limit 1 elsewhere.
#[derive(Clone, Copy, PartialEq, Eq, Debug)]
pub struct Janet;

impl Division for Janet {
    ghost meaning = { λ _. janet };

    ghost lawful = { λ d. janet_lawful };

    #[inline(always)]
    fn limit<E: Element>(&self, bar_code: &BarCode<E>, place: usize, variable: u8) -> Option<u16> {
        if bar_code.has_star(place, variable) {
            None
        } else {
            Some(1)
        }
    }
}

/// Janet-like division, of number 2: no limit at a star, the gap elsewhere.
#[derive(Clone, Copy, PartialEq, Eq, Debug)]
pub struct JanetLike;

impl Division for JanetLike {
    ghost meaning = { λ _. janet_like };

    ghost lawful = { λ d. janet_like_lawful };

    #[inline(always)]
    fn limit<E: Element>(&self, bar_code: &BarCode<E>, place: usize, variable: u8) -> Option<u16> {
        bar_code.gap(place, variable)
    }
}

/// Thomas division, of number 3: limit 1 where a row of the same family has a greater exponent, no
/// limit elsewhere. The ordering plays no part.
#[derive(Clone, Copy, PartialEq, Eq, Debug)]
pub struct Thomas;

impl Division for Thomas {
    ghost meaning = { λ _. thomas };

    ghost lawful = { λ d. thomas_lawful };

    #[inline(always)]
    fn limit<E: Element>(&self, bar_code: &BarCode<E>, place: usize, variable: u8) -> Option<u16> {
        bar_code.is_exceeded(place, variable).then_some(1)
    }
}

/// One division or another, where which one is known only when the program runs.
#[derive(Clone, Copy, PartialEq, Eq, Debug)]
pub enum OneOf<A, B> {
    First(A),
    Second(B),
}

impl<A: Division, B: Division> Division for OneOf<A, B> {
    ghost meaning = { either A.meaning B.meaning };

    ghost lawful = { elim [ First a ↦ A.lawful a | Second b ↦ B.lawful b ] };

    fn limit<E: Element>(&self, bar_code: &BarCode<E>, place: usize, variable: u8) -> Option<u16> {
        match self {
            OneOf::First(a) => a.limit(bar_code, place, variable),
            OneOf::Second(b) => b.limit(bar_code, place, variable),
        }
    }
}

/// A division that has a number.
pub type NumberedDivision = OneOf<Janet, OneOf<JanetLike, Thomas>>;

/// The division that has a number, if there is one.
// It is no TryFrom, which would be no plainer: the theorems that this contract names would need
// another function to carry them.
pub fn numbered(number: u8) -> Option<NumberedDivision>
    ensures number { IsNumbered number (option_map numbered_meaning result) }
    ensures stars { JanetIsToldByStars }
    ensures gaps { JanetLikeIsToldByGaps }
    ensures greater_rows { ThomasIsToldByGreaterRows }
{
    match number {
        1 => Some(OneOf::First(Janet)),
        2 => Some(OneOf::Second(OneOf::First(JanetLike))),
        3 => Some(OneOf::Second(OneOf::Second(Thomas))),
        _ => None,
    }
}

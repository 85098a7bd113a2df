// The greatest exponents of rows.
ghost use Rattle.std.specs.Prelude.{◌≡◌, ℕ, max, map, IfSome, IsSome, ◌↔◌};
ghost use Rattle.elements.specs.Element.{entry};
ghost use Rattle.barcode.specs.Exceeded.{AreOfOneFamily, TellExceeded};

use crate::rises::*;
use elements::Element;
use std::array;

// The greater of each two exponents.
fn raised(a: [u16; 8], b: [u16; 8]) -> [u16; 8]
    ensures { (v : ℕ) → entry result v ≡ max (entry a v) (entry b v) }
{
    array::from_fn(|i| a[i].max(b[i]))
}

/// The greatest exponents of rows, where these are all of one family.
pub(crate) fn greatest_exponents<E: Element>(rows: &[E]) -> Option<[u16; 8]>
    ensures greatest { IfSome result (TellExceeded (map E.shown rows.now)) }
    ensures one_family { IsSome result ↔ AreOfOneFamily (map E.shown rows.now) }
{
    let mut greatest = [0; 8];
    for w in rows {
        if !same_family(&rows[0], w) {
            return None;
        }
        let exponents = w.exponents();
        // an array of its own, since what is laid in one that is there has no generated proof
        let more = raised(greatest, exponents);
        greatest = more;
    }
    Some(greatest)
}

/// The exponent of a variable among eight: 0 where there is no such variable.
pub(crate) fn exponent_in(exponents: [u16; 8], variable: u8) -> u16
    ensures { result ≡ entry exponents variable }
{
    // at 0 the index wraps, and is past the end
    let index = usize::from(variable).wrapping_sub(1);
    exponents.get(index).copied().unwrap_or(0)
}

// What a long search remembers of the rows.
ghost use Rattle.std.specs.Prelude.{◌≡◌, ◌≤◌, length};

use crate::divisors::*;
use barcode::bars::Bars;
use elements::Element;

/// What makes a search quicker once it is long: the bars of the prefix's variables, and which rows
/// can divide the products. A short search is done before this pays.
#[derive(Drop)]
pub(crate) struct Memo<'a, E: Element> {
    pub(crate) bars: Bars<'a, E>,
    pub(crate) divisors: Divisors<'a, E>,
    ghost same: { divisors.rows.now ≡ bars.rows.now },
}

impl<'a, E: Element> Memo<'a, E> {
    /// Nothing is known of the rows yet.
    pub(crate) fn of(rows: &'a [E]) -> Self
        requires { length rows.now ≤ 64 }
        ensures { result.bars.rows.now ≡ rows.now }
    {
        Memo {
            bars: Bars::of(rows),
            divisors: Divisors::new(rows),
        }
    }
}

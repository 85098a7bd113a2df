// Where the products of rows with their limits lie.
ghost use Rattle.std.specs.Prelude.{◌≡◌, ◌<◌, ◌≤◌, ◌≢◌, length, None, MatchOption, IfSome};
ghost use Rattle.cones.specs.Cones.{InCone};
ghost use Rattle.cones.specs.LimitedRows.{rows_of, limits_held, LiesInCone, LiesInNoCone};
ghost use Rattle.search.specs.Columns.{Placed, TellsCones, without, Relocated};
ghost use Rattle.search.specs.Memo.{RemembersRows};
ghost use Rattle.search.specs.Product.{shown_by, IsProductOf, IsProductAt};

use crate::memo::*;
use cones::limited_rows::LimitedRows;
use elements::Element;
use places::Places;

/// For the product of a row with the power of a variable that is its limit, the place of a row
/// whose cone holds it: that of variable v at index v - 1, as limits are kept. It is an array, and
/// no list, since the search has no heap and so cannot fail for want of memory; and of places, not
/// of references, since a place is below 64 and so a byte, which keeps the table small.
pub(crate) type ConeTable = [[u8; 8]; 64];

/// Past the places of all rows: no cone has been told yet.
pub(crate) const NOWHERE: u8 = 64;

/// The product of the row of a place with a power of a variable.
#[derive(Clone, Copy)]
pub(crate) struct Product<'a, E> {
    place: usize,
    row: &'a E,
    variable: u8,
    power: u16,
}

// The product of the row of a place with the power of a variable that is its limit: none where
// there is no such row, or no limit.
fn product_of<'a, E: Element>(
    limited: &LimitedRows<'a, E>,
    place: usize,
    variable: u8,
) -> Option<Product<'a, E>>
    ensures { MatchOption result
        (place < length limited.now.rows.now → limits_held limited.now place variable ≡ None)
        (IsProductAt E.shown limited.now place variable) }
{
    let row = limited.rows.get(place)?;
    let power = limited.limit(place, variable)?;
    Some(Product {
        place,
        row,
        variable,
        power,
    })
}

// The place of a row whose cone holds a product, the cone of a guess being looked at first.
fn cone_sought<E: Element>(
    limited: &LimitedRows<E>,
    memo: &mut Option<Memo<E>>,
    product: &Product<E>,
    guess: usize,
) -> Option<usize>
    requires row { IsProductOf E.shown limited.now product.now }
    requires variable { (1 ≤ product.now.variable) × (product.now.variable ≤ 8) }
    requires memo { RemembersRows limited.now.rows.now memo.old }
    ensures cone { let w = shown_by E.shown product.now in
        MatchOption result (LiesInNoCone E.shown limited.now w) (LiesInCone E.shown limited.now w) }
    ensures memo { RemembersRows limited.now.rows.now memo.new }
{
    match memo {
        None => { limited.cone_of_product(product.row, product.variable, product.power, guess) }
        Some(memo) => {
            let places = memo.divisors.of(product.place, product.variable);
            limited.cone_among(places, product.row, product.variable, product.power, guess)
        }
    }
}

// The place of a row whose cone holds a product. By the limits but for those of variable x it lies
// in the cone of the place told, unless it is a product with that variable; it is looked for,
// beginning with a guess, only where x has taken it out of that.
fn cone_still<E: Element>(
    limited: &LimitedRows<E>,
    memo: &mut Option<Memo<E>>,
    product: &Product<E>,
    told: usize,
    guess: usize,
    x: u8,
) -> Option<usize>
    requires row { IsProductOf E.shown limited.now product.now }
    requires variable { (1 ≤ product.now.variable) × (product.now.variable ≤ limited.now.n)
        × (limited.now.n ≤ 8) }
    requires memo { RemembersRows limited.now.rows.now memo.old }
    ensures cone { let w = shown_by E.shown product.now in
        let rows = rows_of E.shown limited.now in
        let limits = limits_held limited.now in
        (product.now.variable ≢ x → InCone limited.now.n rows (without x limits) told w) →
        MatchOption result (LiesInNoCone E.shown limited.now w) (LiesInCone E.shown limited.now w) }
    ensures place { IfSome result (λ s. s < length limited.now.rows.now) }
    ensures memo { RemembersRows limited.now.rows.now memo.new }
{
    if product.variable == x {
        return cone_sought(limited, memo, product, told);
    }
    if limited.is_within(told, product.row, x) {
        return Some(told);
    }
    cone_sought(limited, memo, product, guess)
}

/// Whether each product lies in a cone, now that variable x has limits. The places are those of the
/// rows that have a limit, for each variable. The table of cones tells a cone of each product by
/// the limits but for those of x, and afterwards by all limits, if there is one. Where a product
/// has left a cone, it often lies in the one that held it before that; the table of former cones
/// may have any content.
// What a walk keeps comes in parts here: the limits are lent while the cones and the memo are
// written.
pub(crate) fn relocate<E: Element>(
    limited: &LimitedRows<E>,
    places: &[Places; 8],
    memo: &mut Option<Memo<E>>,
    cones: &mut ConeTable,
    former: &mut ConeTable,
    x: u8,
) -> bool
    requires rows { length limited.now.rows.now ≤ 64 }
    requires variables { limited.now.n ≤ 8 }
    requires x { (1 ≤ x) × (x ≤ limited.now.n) }
    requires places { Placed (length limited.now.rows.now) limited.now.limits.now places.now }
    requires memo { RemembersRows limited.now.rows.now memo.old }
    ensures cones { let rows = rows_of E.shown limited.now in
        let limits = limits_held limited.now in
        TellsCones limited.now.n rows (without x limits) cones.old →
        Relocated limited.now.n rows x limits result cones.new }
    ensures memo { RemembersRows limited.now.rows.now memo.new }
{
    // x is the first, in step 0: where some product lies in no cone, one with x mostly does not
    for step in 0..=limited.n {
        if step == x {
            continue;
        }
        let variable = if step == 0 { x } else { step };
        let mut left = places[variable as usize - 1];
        while let Some(place) = left.take_first() {
            if let Some(product) = product_of(limited, place, variable) {
                let told = cones[place][variable as usize - 1];
                let guess = former[place][variable as usize - 1];
                let Some(found) = cone_still(
                    limited,
                    memo,
                    &product,
                    usize::from(told),
                    usize::from(guess),
                    x,
                ) else {
                    return false;
                };
                let found = found as u8;
                if found != told {
                    former[place][variable as usize - 1] = told;
                }
                cones[place][variable as usize - 1] = found;
            }
        }
    }
    true
}

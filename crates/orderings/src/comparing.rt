// Which of two elements is below the other.
ghost use Rattle.std.specs.Prelude.{◌≡◌, [], ◌∷◌, MatchOption};
ghost use Rattle.orderings.specs.Order.{AgreeInAll, DifferAt};
ghost use Rattle.orderings.specs.Answer.{answer, comparison_number, comparison};
ghost use Rattle.orderings.specs.Compare.{Compares, CompareIsATotalOrder, CompareHasOneAnswer, SwappingMirrorsCompare};
ghost use Rattle.orderings.specs.Comparison.{IsComparison};

use crate::fitting::*;
use crate::orders::*;
use crate::refusals::*;
use elements::{Element, Kind};
use std::cmp::Ordering;

/// How the first of two elements stands to the second.
// It is no `Ordering`, which would be no plainer: a term is not less than another, and the numbers
// 0, 1 and 2 by which it is told would have to stand in a function of their own.
#[derive(Clone, Copy, PartialEq, Eq, Debug)]
pub enum Comparison {
    /// The first is below the second.
    Below,
    /// They are the same.
    Same,
    /// The first is above the second.
    Above,
}

/// The number by which it is told: 0 for below, 1 for the same, 2 for above.
impl From<Comparison> for u8 {
    ghost from_gives = { λ c n. n ≡ comparison_number c };

    fn from(comparison: Comparison) -> u8 {
        match comparison {
            Comparison::Below => 0,
            Comparison::Same => 1,
            Comparison::Above => 2,
        }
    }
}

/// The comparison of two elements that the order of two numbers decides.
impl From<Ordering> for Comparison {
    ghost from_gives = { λ o c. c ≡ comparison o };

    fn from(ordering: Ordering) -> Comparison {
        match ordering {
            Ordering::Less => Comparison::Below,
            Ordering::Equal => Comparison::Same,
            Ordering::Greater => Comparison::Above,
        }
    }
}

/// The first position of a list of variables at which two elements differ.
pub fn part_at<E: Element>(u: &E, w: &E, order: &[u8]) -> Option<usize>
    ensures { let u = E.shown u.now in let w = E.shown w.now in
        MatchOption result (AgreeInAll order.now u w) (λ k. DifferAt order.now k u w) }
{
    order.iter().position(|v| u.exponent(*v) != w.exponent(*v))
}

/// How `u` stands to `w` by family, and then by the exponents of the listed variables, the first
/// listed first.
pub fn comparison_of<E: Element>(u: &E, w: &E, order: &[u8]) -> Comparison
    ensures { IsComparison order.now (E.shown u.now) (E.shown w.now) result }
{
    let families = u.family().cmp(&w.family());
    if families.is_ne() {
        return Comparison::from(families);
    }
    match part_at(u, w, order) {
        None => Comparison::Same,
        Some(k) => {
            let v = order[k];
            Comparison::from(u.exponent(v).cmp(&w.exponent(v)))
        }
    }
}

/// How `u` stands to `w` under an ordering of `n` variables. Under each ordering this is a total
/// order, each input has one answer, and exchanging the elements exchanges below and above and
/// changes nothing else.
pub fn compare<E: Kind>(u: &E, w: &E, n: u8, order: &[u8]) -> Result<Comparison, Refusal>
    ensures answers { let told = answer (λ c. comparison_number c ∷ []) result in
        Compares E.admitted n order.now (E.shown u.now) (E.shown w.now) told }
    ensures total { CompareIsATotalOrder }
    ensures once { CompareHasOneAnswer }
    ensures mirrored { SwappingMirrorsCompare }
{
    if !is_variable_count(n) {
        return Err(Refusal::VariableCount);
    }
    if !is_fit(u, n) || !is_fit(w, n) {
        return Err(Refusal::UnfitElement);
    }
    if !is_ordering(order, n) {
        return Err(Refusal::NotAnOrdering);
    }
    Ok(comparison_of(u, w, order))
}

// Elements: what every kind offers, the two kinds in use, and arithmetic written once for all.
#![tactic(auto)]

ghost use Rattle.std.specs.Prelude.{◌≡◌, ℕ, ◌≤◌, Bool, true, ◌&&◌, ◌⊎◌, IsSome, IfSome, MatchOption, ◌==◌, nat_le, IsTrue, ◌↔◌};
ghost use Rattle.elements.specs.Element.{Shown, exponent, Divides, IsQuotient, Variable, Overflows, power as to_the, product as multiplied, times, blank as nothing};
ghost use Rattle.std.proofs.Common.{ap};

use std::array;

/// An element: it shows a family and eight exponents, and is read by nothing else.
pub trait Element: Copy + Clone {
    ghost shown: { Self → Shown };

    /// The number of the family.
    fn family(&self) -> u8
        ensures { result ≡ (shown self.now).family };

    /// The exponents of variables 1 to 8, in this order.
    fn exponents(&self) -> [u16; 8]
        ensures { result ≡ (shown self.now).exponents };

    /// The exponent of a variable, which counts from 1: 0 where there is no such variable.
    fn exponent(&self, variable: u8) -> u16
        ensures { result ≡ exponent (shown self.now) variable };
}

/// A kind of element: a type of elements that are known by what they show and can be made of it,
/// and the families that it admits.
pub trait Kind: Element {
    // The families that the kind admits.
    ghost admitted: { ℕ → Bool };

    /// The element that shows a family, admitted or not, and exponents.
    fn make(family: u8, exponents: [u16; 8]) -> Self
        ensures { Self.shown result ≡ record { family = family; exponents = exponents } };

    /// Whether the kind admits a family.
    fn admits(family: u8) -> bool
        ensures { result ≡ admitted family };

    // Two elements of a kind that show the same are the same.
    ghost known: { (x y : Self) → Self.shown x ≡ Self.shown y → x ≡ y };
}

/// A term with a family from `LEAST` to `GREATEST`.
#[derive(Clone, Copy, PartialEq, Eq, Debug)]
pub struct Term<const LEAST: u8, const GREATEST: u8> {
    family: u8,
    exponents: [u16; 8],
}

/// A plain term: its only family is 0.
pub type PlainTerm = Term<0, 0>;

/// A derivative: its family, from 1 to 16, is the number of its unknown function.
pub type Derivative = Term<1, 16>;

impl<const LEAST: u8, const GREATEST: u8> Element for Term<LEAST, GREATEST> {
    ghost shown = { λ t. record { family = t.family; exponents = t.exponents } };

    fn family(&self) -> u8 {
        self.family
    }

    fn exponents(&self) -> [u16; 8] {
        self.exponents
    }

    fn exponent(&self, variable: u8) -> u16 {
        // at 0 the index wraps, and is past the end
        let index = usize::from(variable).wrapping_sub(1);
        self.exponents.get(index).copied().unwrap_or(0)
    }
}

impl<const LEAST: u8, const GREATEST: u8> Kind for Term<LEAST, GREATEST> {
    ghost admitted = { λ f. nat_le LEAST f && nat_le f GREATEST };

    ghost known = { λ _ _ e.
        ap (λ (s : Shown). record { family = s.family; exponents = s.exponents }) e };

    fn make(family: u8, exponents: [u16; 8]) -> Self {
        Term { family, exponents }
    }

    fn admits(family: u8) -> bool {
        (LEAST..=GREATEST).contains(&family)
    }
}

/// The families of the two kinds in use. It does nothing: its contract states them.
pub fn kinds_in_use()
    ensures plain_term { (f : ℕ) → ⟦<PlainTerm as Kind>⟧.admitted f ≡ (f == 0) }
    ensures derivative { (f : ℕ) → ⟦<Derivative as Kind>⟧.admitted f ≡ (nat_le 1 f && nat_le f 16) }
{}

/// What stands in a place without a row, in either kind: family 0, every exponent 0.
pub fn blank<E: Kind>() -> E
    ensures { E.shown result ≡ nothing }
{
    E::make(0, [0; 8])
}

/// Whether two elements are the same, by what they show.
// It is no `==`: to ask a kind for that would ask more of it than its laws need, and be no plainer.
pub fn same<E: Kind>(a: &E, b: &E) -> bool
    ensures { IsTrue result ↔ (a.now ≡ b.now) }
{
    a.family() == b.family() && a.exponents() == b.exponents()
}

/// Whether the divisor divides the multiple.
pub fn divides<E: Element>(divisor: &E, multiple: &E) -> bool
    ensures { IsTrue result ↔ Divides (E.shown divisor.now) (E.shown multiple.now) }
{
    if divisor.family() != multiple.family() {
        return false;
    }
    let (small, large) = (divisor.exponents(), multiple.exponents());
    small
        .iter()
        .zip(large.iter())
        .all(|(least, given)| least <= given)
}

/// The multiple over the divisor: the term of the differences of the exponents.
pub fn quotient<E: Element>(divisor: &E, multiple: &E) -> Option<[u16; 8]>
    ensures value { let u = E.shown divisor.now in let w = E.shown multiple.now in
        MatchOption result (¬ Divides u w) (IsQuotient u w) }
    ensures back { IfSome result (λ t. multiplied (E.shown divisor.now) t ≡ E.shown multiple.now) }
{
    if !divides(divisor, multiple) {
        return None;
    }
    let (small, large) = (divisor.exponents(), multiple.exponents());
    Some(array::from_fn(|i| large[i] - small[i]))
}

/// A variable to a power, as a term.
pub fn power(variable: u8, degree: u16) -> Option<[u16; 8]>
    ensures { MatchOption result (¬ Variable variable) (λ t. t ≡ to_the variable degree) }
{
    if variable < 1 || variable > 8 {
        return None;
    }
    let mut term = [0u16; 8];
    term[variable as usize - 1] = degree;
    Some(term)
}

/// An element times a term, where no exponent passes 65,535.
pub fn product<E: Kind>(element: &E, term: &[u16; 8]) -> Option<E>
    ensures { let u = E.shown element.now in
        MatchOption result (Overflows u term.now) (λ p. E.shown p ≡ multiplied u term.now) }
{
    let mut sums = element.exponents();
    // by index: what is written through a zip of `iter_mut` is not known afterwards
    for (i, degree) in term.iter().enumerate() {
        sums[i] = sums[i].checked_add(*degree)?;
    }
    Some(E::make(element.family(), sums))
}

/// An element times a power of a variable, where the exponent does not pass 65,535.
pub fn times_power<E: Kind>(element: &E, variable: u8, degree: u16) -> Option<E>
    ensures value { let u = E.shown element.now in
        MatchOption result ((¬ Variable variable) ⊎ Overflows u (to_the variable degree))
        (λ p. E.shown p ≡ times u variable degree) }
    ensures small { Variable variable → ((v : ℕ) → exponent (E.shown element.now) v ≤ 4095) →
        degree ≤ 4096 → IsSome result }
{
    product(element, &power(variable, degree)?)
}

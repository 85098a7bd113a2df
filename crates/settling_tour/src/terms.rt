// The set x1^3, x1 x2, x2^2: which divides which, and how they compare.
use crate::page::Page;
use crate::{DOWN, UP};
use elements::{Element, PlainTerm, quotient, times_power};
use lines::written::{Listed, Monomial};
use orderings::comparing::{Comparison, compare};

/// Tells the terms of the set, and what divides what.
pub(crate) fn tell(page: &Page, set: &[PlainTerm; 3]) {
    let [a, b, c] = set.map(|term| term.exponents());
    println!(page;
        "A set of three terms in 2 variables: {}, {}, {}.",
        Monomial(&a),
        Monomial(&b),
        Monomial(&c)
    );
    println!(page);
    tell_divisors(page, set);
    tell_product(page, set);
    tell_order(page, set, &UP);
    tell_order(page, set, &DOWN);
}

// For each pair of different terms, whether one divides the other.
fn tell_divisors(page: &Page, set: &[PlainTerm; 3]) {
    println!(page; "Which divides which:");
    for u in set {
        for w in set {
            if u != w {
                tell_pair(page, u, w);
            }
        }
    }
}

// A multiple of two of the terms at once.
fn tell_product(page: &Page, set: &[PlainTerm; 3]) {
    let [_, term, _] = set;
    if let Some(multiple) = times_power(term, 1, 2) {
        println!(page);
        println!(page;
            "A multiple: {} times x1^2 is {}.",
            Monomial(&term.exponents()),
            Monomial(&multiple.exponents())
        );
        for divisor in set {
            tell_pair(page, divisor, &multiple);
        }
    }
}

// Whether u divides w.
fn tell_pair(page: &Page, u: &PlainTerm, w: &PlainTerm) {
    let (small, large) = (u.exponents(), w.exponents());
    let (divisor, multiple) = (Monomial(&small), Monomial(&large));
    match quotient(u, w) {
        Some(term) => println!(page;
            "  {divisor} divides {multiple}, the quotient is {}.",
            Monomial(&term)
        ),
        None => println!(page; "  {divisor} does not divide {multiple}."),
    }
}

// How the terms compare under an ordering.
fn tell_order(page: &Page, set: &[PlainTerm; 3], order: &[u8; 8]) {
    let [a, b, c] = set;
    println!(page);
    println!(page;
        "Compared under {}, the greatest variable first:",
        Listed(order)
    );
    for (u, w) in [(a, b), (a, c), (b, c)] {
        tell_comparison(page, u, w, order);
    }
}

fn tell_comparison(page: &Page, u: &PlainTerm, w: &PlainTerm, order: &[u8; 8]) {
    print!(page;
        "  {} against {}: ",
        Monomial(&u.exponents()),
        Monomial(&w.exponents())
    );
    match compare(u, w, 2, order) {
        Ok(Comparison::Below) => println!(page; "below."),
        Ok(Comparison::Same) => println!(page; "the same."),
        Ok(Comparison::Above) => println!(page; "above."),
        Err(refusal) => page.refusal(refusal),
    }
}

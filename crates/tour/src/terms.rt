// The set x1^3, x1 x2, x2^2: which divides which, and how they compare.
use crate::{DOWN, UP};
use elements::{Element, PlainTerm, quotient, times_power};
use lines::written::{Listed, Monomial};
use orderings::comparing::{Comparison, compare};
use std::io;

/// Tells the terms of the set, and what divides what.
pub(crate) fn tell(rt: &HostRuntime, set: &[PlainTerm; 3]) -> io::Result<()> {
    let [a, b, c] = set.map(|term| term.exponents());
    println!(rt;
        "A set of three terms in 2 variables: {}, {}, {}.",
        Monomial(&a),
        Monomial(&b),
        Monomial(&c)
    )?;
    println!(rt)?;
    tell_divisors(rt, set)?;
    println!(rt)?;
    tell_product(rt, set)?;
    println!(rt)?;
    tell_order(rt, set, &UP)?;
    println!(rt)?;
    tell_order(rt, set, &DOWN)?;
    println!(rt)?;
    tell_order(rt, &set[0..2], &[1, 1, 0, 0, 0, 0, 0, 0])
}

// For each pair of different terms, whether one divides the other.
fn tell_divisors(rt: &HostRuntime, set: &[PlainTerm]) -> io::Result<()> {
    println!(rt; "Which divides which:")?;
    for u in set {
        for w in set {
            if u != w {
                tell_pair(rt, u, w)?;
            }
        }
    }
    Ok(())
}

fn tell_pair(rt: &HostRuntime, u: &PlainTerm, w: &PlainTerm) -> io::Result<()> {
    let (small, large) = (u.exponents(), w.exponents());
    let (divisor, multiple) = (Monomial(&small), Monomial(&large));
    match quotient(u, w) {
        Some(term) => {
            let times = Monomial(&term);
            println!(rt; "  {divisor} divides {multiple}, which is {divisor} times {times}.")
        }
        None => println!(rt; "  {divisor} does not divide {multiple}."),
    }
}

// A multiple of two rows at once.
fn tell_product(rt: &HostRuntime, set: &[PlainTerm]) -> io::Result<()> {
    let [_, u, ..] = set else {
        return Ok(());
    };
    let Some(w) = times_power(u, 1, 2) else {
        return println!(rt; "The product has an exponent above 65,535.");
    };
    println!(rt;
        "A multiple: {} times x1^2 is {}.",
        Monomial(&u.exponents()),
        Monomial(&w.exponents())
    )?;
    for divisor in set {
        tell_pair(rt, divisor, &w)?;
    }
    Ok(())
}

// How the terms compare under an ordering.
fn tell_order(rt: &HostRuntime, set: &[PlainTerm], order: &[u8]) -> io::Result<()> {
    println!(rt;
        "Compared under {}, the greatest variable first:",
        Listed(order)
    )?;
    for (i, u) in set.iter().enumerate() {
        for w in set.iter().skip(i + 1) {
            tell_comparison(rt, u, w, order)?;
        }
    }
    Ok(())
}

fn tell_comparison(rt: &HostRuntime, u: &PlainTerm, w: &PlainTerm, order: &[u8]) -> io::Result<()> {
    let (a, b) = (u.exponents(), w.exponents());
    let (first, second) = (Monomial(&a), Monomial(&b));
    match compare(u, w, 2, order) {
        Ok(Comparison::Below) => println!(rt; "  {first} is below {second}."),
        Ok(Comparison::Same) => println!(rt; "  {first} and {second} are the same."),
        Ok(Comparison::Above) => println!(rt; "  {first} is above {second}."),
        Err(refusal) => {
            let number = u8::from(refusal);
            println!(rt; "  {first} and {second}: refused by {number}, {refusal}.")
        }
    }
}

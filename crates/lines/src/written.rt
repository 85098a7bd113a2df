// Terms and orderings as people write them.
ghost use Rattle.std.specs.Prelude.{Some};
ghost use Rattle.lines.specs.Written.{power_text, monomial_text, listed_text};

use std::fmt;

// A variable and its exponent, as x1 or x1^3.
#[derive(Clone, Copy)]
struct Power(usize, u16);

impl fmt::Display for Power {
    ghost output = { λ p. Some (power_text (p.0, p.1)) };

    fn fmt<W: fmt::Write>(&self, f: &mut fmt::Formatter<W>) -> fmt::Result {
        let Power(variable, exponent) = *self;
        match exponent {
            1 => write!(f, "x{variable}"),
            _ => write!(f, "x{variable}^{exponent}"),
        }
    }
}

/// Eight exponents as a term, as x1^3 x2, and 1 where every exponent is 0.
#[derive(Clone, Copy, PartialEq, Eq, Debug)]
pub struct Monomial<'a>(pub &'a [u16; 8]);

impl fmt::Display for Monomial<'_> {
    ghost output = { λ m. Some (monomial_text m.0.now) };

    fn fmt<W: fmt::Write>(&self, f: &mut fmt::Formatter<W>) -> fmt::Result {
        let exponents = self.0;
        let mut separator = "";
        for (i, exponent) in exponents.iter().enumerate() {
            if *exponent > 0 {
                let power = Power(i + 1, *exponent);
                write!(f, "{separator}{power}")?;
                separator = " ";
            }
        }
        if separator.is_empty() {
            write!(f, "1")?;
        }
        Ok(())
    }
}

/// The variables of an ordering, the greatest first.
#[derive(Clone, Copy, PartialEq, Eq, Debug)]
pub struct Listed<'a>(pub &'a [u8]);

impl fmt::Display for Listed<'_> {
    ghost output = { λ l. Some (listed_text l.0.now) };

    fn fmt<W: fmt::Write>(&self, f: &mut fmt::Formatter<W>) -> fmt::Result {
        let order = self.0;
        let mut separator = "";
        for variable in order {
            if *variable > 0 {
                write!(f, "{separator}{variable}")?;
                separator = ",";
            }
        }
        Ok(())
    }
}

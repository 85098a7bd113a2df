// The line of each command.
ghost use Rattle.std.specs.Prelude.{Some};
ghost use Rattle.lines.specs.Words.{each, after_space, spaced};
ghost use Rattle.lines.specs.Line.{told_words, cause_words, granted_words, fault_words, line_text};

use crate::faults::*;
use orderings::refusals::Refusal;
use std::fmt::{self, Display};

/// What a granted command answers, as it is printed.
// A shortfall and a settling are told in fields of their own: printing rests on no crate of cones
// or sheets.
#[derive(Clone, Copy, PartialEq, Eq, Debug)]
pub enum Told {
    Nothing,
    /// The place of a row.
    Place(usize),
    /// The rows are complete.
    Complete,
    /// The first shortfall: the place of its row, its variable and its power.
    Shortfall {
        place: usize,
        variable: u8,
        power: u16,
    },
    /// How many prefixes were tested, and the ordering that was left, of so many variables. It is
    /// the sheet's own eight bytes, handed on as they are; the zeros after the variables are not
    /// printed.
    Settled {
        tested: u32,
        variables: u8,
        ordering: [u8; 8],
    },
}

/// A granted command: where it stands, its code, and what it answers.
#[derive(Clone, Copy, PartialEq, Eq, Debug)]
pub struct Granted {
    pub place: usize,
    pub code: u8,
    pub told: Told,
}

/// The line of one command.
// It stands around the Result, which can have no Display of its own.
#[derive(Clone, Copy, PartialEq, Eq, Debug)]
pub struct Line(pub Result<Granted, Fault>);

// Each value after one space.
impl Display for Told {
    ghost output = { λ t. Some (each after_space (told_words t)) };

    fn fmt<W: fmt::Write>(&self, f: &mut fmt::Formatter<W>) -> fmt::Result {
        match self {
            Told::Nothing => Ok(()),
            Told::Place(place) => write!(f, " {place}"),
            Told::Complete => write!(f, " yes"),
            Told::Shortfall {
                place,
                variable,
                power,
            } => write!(f, " {place} {variable} {power}"),
            Told::Settled {
                tested,
                variables,
                ordering,
            } => {
                write!(f, " {tested}")?;
                for variable in ordering.iter().take(*variables as usize) {
                    write!(f, " {variable}")?;
                }
                Ok(())
            }
        }
    }
}

// The number and, after one space, what it carries.
impl Display for Cause {
    ghost output = { λ c. Some (spaced (cause_words c)) };

    fn fmt<W: fmt::Write>(&self, f: &mut fmt::Formatter<W>) -> fmt::Result {
        let number = u8::from(*self);
        match self {
            Cause::Sheet(Refusal::NoOrdering(tested)) => write!(f, "{number} {tested}"),
            _ => write!(f, "{number}"),
        }
    }
}

// The place, the code in hexadecimal, `ok` and the values.
impl Display for Granted {
    ghost output = { λ g. Some (spaced (granted_words g)) };

    fn fmt<W: fmt::Write>(&self, f: &mut fmt::Formatter<W>) -> fmt::Result {
        let Granted { place, code, told } = *self;
        write!(f, "{place} {code:02X} ok{told}")
    }
}

// The place, the code in hexadecimal, `no` and the cause.
impl Display for Fault {
    ghost output = { λ t. Some (spaced (fault_words t)) };

    fn fmt<W: fmt::Write>(&self, f: &mut fmt::Formatter<W>) -> fmt::Result {
        let Fault { place, code, cause } = *self;
        write!(f, "{place} {code:02X} no {cause}")
    }
}

impl Display for Line {
    ghost output = { λ l. Some (line_text l) };

    fn fmt<W: fmt::Write>(&self, f: &mut fmt::Formatter<W>) -> fmt::Result {
        match &self.0 {
            Ok(granted) => granted.fmt(f),
            Err(fault) => fault.fmt(f),
        }
    }
}

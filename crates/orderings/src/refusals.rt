// Why a call on a sheet is refused.
ghost use Rattle.std.specs.Prelude.{◌≡◌, Some};
ghost use Rattle.orderings.specs.Answer.{number as number_of, reason};

use std::fmt;

/// Why a call is refused.
#[derive(Clone, Copy, PartialEq, Eq, Debug)]
pub enum Refusal {
    /// The variable count is 0 or above 8.
    VariableCount,
    /// The table has no place, or more than 64.
    PlaceCount,
    /// The order bytes are not eight.
    OrderLength,
    /// The parts do not make a sheet.
    NotASheet,
    /// The family is not one of the kind, or an exponent is too large or stands above the variable
    /// count.
    UnfitElement,
    /// The place has no row, or the variable is not one of the sheet's.
    NoSuchBar,
    /// The list is not an ordering of the sheet's variables.
    NotAnOrdering,
    /// There is no row to judge.
    NoRows,
    /// The element is a row already.
    AlreadyARow,
    /// Every place is taken.
    TableFull,
    /// The element is not a row.
    NotARow,
    /// No ordering makes the rows complete; so many prefixes were tested.
    NoOrdering(u32),
    /// No cone holds the element.
    NoCone,
}

/// The number by which the refusal is told.
impl From<Refusal> for u8 {
    ghost from_gives = { λ r n. n ≡ number_of r };

    fn from(refusal: Refusal) -> u8 {
        match refusal {
            Refusal::VariableCount => 5,
            Refusal::PlaceCount => 6,
            Refusal::OrderLength => 7,
            Refusal::NotASheet => 8,
            Refusal::UnfitElement => 9,
            Refusal::NoSuchBar => 10,
            Refusal::NotAnOrdering => 11,
            Refusal::NoRows => 12,
            Refusal::AlreadyARow => 13,
            Refusal::TableFull => 14,
            Refusal::NotARow => 15,
            Refusal::NoOrdering(_) => 16,
            Refusal::NoCone => 17,
        }
    }
}

/// What the refusal says, in words.
impl fmt::Display for Refusal {
    ghost output = { λ r. Some (reason r) };

    fn fmt<W: fmt::Write>(&self, f: &mut fmt::Formatter<W>) -> fmt::Result {
        f.write_str(match self {
            Refusal::VariableCount => "the variable count is not 1 to 8",
            Refusal::PlaceCount => "the table does not have 1 to 64 places",
            Refusal::OrderLength => "the order bytes are not eight",
            Refusal::NotASheet => "the parts do not make a sheet",
            Refusal::UnfitElement => "the element does not fit the sheet",
            Refusal::NoSuchBar => "there is no such row or variable",
            Refusal::NotAnOrdering => "the list is not an ordering of the variables",
            Refusal::NoRows => "there is no row to judge",
            Refusal::AlreadyARow => "the element is a row already",
            Refusal::TableFull => "every place is taken",
            Refusal::NotARow => "the element is not a row",
            Refusal::NoOrdering(_) => "no ordering makes the rows complete",
            Refusal::NoCone => "no cone holds the element",
        })
    }
}

// The whole output of the log program.
ghost use Rattle.std.specs.Prelude.{◌≡◌, ◌<◌, Some};
ghost use Rattle.lines.specs.Words.{each, ended};
ghost use Rattle.lines.specs.Line.{line_text};
ghost use Rattle.lines.specs.Report.{start_number, kind_number, SaysKind, report_text};

use crate::lines::*;
use std::fmt;

/// Why an input has no log.
#[derive(Clone, Copy, PartialEq, Eq, Debug)]
pub enum BadStart {
    /// It has fewer than two bytes.
    CutShort,
    /// Its kind byte is not one of a kind.
    NoSuchKind,
    /// Its variable count is 0 or above 8.
    VariableCount,
}

// The number by which it is told.
impl From<BadStart> for u8 {
    ghost from_gives = { λ b n. n ≡ start_number b };

    fn from(bad: BadStart) -> u8 {
        match bad {
            BadStart::CutShort => 2,
            BadStart::NoSuchKind => 4,
            BadStart::VariableCount => 5,
        }
    }
}

/// The kind of a log's elements.
#[derive(Clone, Copy, PartialEq, Eq, Debug)]
pub enum LogKind {
    PlainTerms,
    Derivatives,
}

// The kind that a kind byte says.
impl TryFrom<u8> for LogKind {
    type Error = BadStart;

    ghost try_from_gives = { λ b r. SaysKind b r };

    fn try_from(byte: u8) -> Result<LogKind, BadStart> {
        match byte {
            0 => Ok(LogKind::PlainTerms),
            1 => Ok(LogKind::Derivatives),
            _ => Err(BadStart::NoSuchKind),
        }
    }
}

// The kind byte that says it.
impl From<LogKind> for u8 {
    ghost from_gives = { λ k n. n ≡ kind_number k };

    fn from(kind: LogKind) -> u8 {
        match kind {
            LogKind::PlainTerms => 0,
            LogKind::Derivatives => 1,
        }
    }
}

/// What there is to print of an input.
// It is no Result: each case is text to print, none is an error to its caller, and a Result cannot
// have a Display of its own.
#[derive(Drop)]
pub enum Report {
    TooLong,
    NoLog(BadStart),
    /// The line of each command, and the place after the last whole one.
    Log {
        variables: u8,
        // its byte, and no LogKind: a report may be made with any byte, and a narrower type would
        // ask more of whoever makes one
        kind: u8,
        lines: Vec<Line>,
        end: usize,
    },
}

// Lines, each ended.
#[derive(Clone, Copy)]
struct Ended<'a>(&'a [Line]);

impl fmt::Display for Ended<'_> {
    ghost output = { λ e. Some (each (λ l. ended (line_text l)) e.0.now) };

    fn fmt<W: fmt::Write>(&self, f: &mut fmt::Formatter<W>) -> fmt::Result {
        let lines = self.0;
        for line in lines {
            writeln!(f, "{line}")?;
        }
        Ok(())
    }
}

impl fmt::Display for Report {
    ghost output = { λ r. Some (report_text r) };

    fn fmt<W: fmt::Write>(&self, f: &mut fmt::Formatter<W>) -> fmt::Result {
        match self {
            Report::TooLong => writeln!(f, "too long"),
            Report::NoLog(cause) => {
                let number = u8::from(*cause);
                writeln!(f, "no {number}")
            }
            Report::Log {
                variables,
                kind,
                lines,
                end,
            } => {
                let lines = Ended(lines.as_slice());
                writeln!(f, "sheet {variables} {kind}\n{lines}end {end}")
            }
        }
    }
}

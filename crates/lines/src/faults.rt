// Why a command of the log is not granted.
ghost use Rattle.std.specs.Prelude.{◌≡◌};
ghost use Rattle.lines.specs.Numbers.{untaken_number, cause_number};
ghost use Rattle.lines.specs.declared.faults.Cause.TheVariants.{Reader, Session, Sheet};

use commands::Misread;
use orderings::refusals::Refusal;

/// Why the session does not take a command.
#[derive(Clone, Copy, PartialEq, Eq, Debug)]
pub enum Untaken {
    /// The session's state does not take it.
    WrongState,
    /// Its division byte is not one of a division.
    NoSuchDivision,
}

// The number by which it is told.
impl From<Untaken> for u8 {
    ghost from_gives = { λ u n. n ≡ untaken_number u };

    fn from(untaken: Untaken) -> u8 {
        match untaken {
            Untaken::WrongState => 3,
            Untaken::NoSuchDivision => 4,
        }
    }
}

/// A cause, by the layer that it belongs to.
#[derive(Clone, Copy, PartialEq, Eq, Debug)]
pub enum Cause {
    Reader(Misread),
    Session(Untaken),
    Sheet(Refusal),
}

impl From<Misread> for Cause {
    ghost from_gives = { λ m c. c ≡ Reader m };

    fn from(misread: Misread) -> Cause {
        Cause::Reader(misread)
    }
}

impl From<Untaken> for Cause {
    ghost from_gives = { λ u c. c ≡ Session u };

    fn from(untaken: Untaken) -> Cause {
        Cause::Session(untaken)
    }
}

impl From<Refusal> for Cause {
    ghost from_gives = { λ r c. c ≡ Sheet r };

    fn from(refusal: Refusal) -> Cause {
        Cause::Sheet(refusal)
    }
}

// The number by which it is told.
impl From<Cause> for u8 {
    ghost from_gives = { λ c n. n ≡ cause_number c };

    fn from(cause: Cause) -> u8 {
        match cause {
            Cause::Reader(misread) => misread.into(),
            Cause::Session(untaken) => untaken.into(),
            Cause::Sheet(refusal) => refusal.into(),
        }
    }
}

/// A fault: where the command stands, its code, and the cause.
#[derive(Clone, Copy, PartialEq, Eq, Debug)]
pub struct Fault {
    pub place: usize,
    pub code: u8,
    pub cause: Cause,
}

// The reader of the log: commands, each a code of one byte and operands of fixed width.
#![tactic(auto)]

ghost use Rattle.std.specs.Prelude.{◌≡◌, ◌<◌, [], ◌∷◌, length, MatchResult, slice_index};
ghost use Rattle.commands.specs.Log.{Reads, ReadingHasOneOutcome, Parted, element};
ghost use Rattle.commands.specs.Read.{code_of, number_of, cut_short, front};

use elements::Kind;
use std::array;

/// A command, with the part of the log that holds its operands.
#[derive(Clone, Copy, PartialEq, Eq, Debug)]
pub enum Command<'a> {
    /// The bytes of an element.
    Insert(&'a [u8]),
    Withdraw(&'a [u8]),
    /// Order bytes.
    Arrange(&'a [u8]),
    /// A division byte.
    Verdict(&'a u8),
    Weigh { division: &'a u8, order: &'a [u8] },
    Settle(&'a u8),
    Locate(&'a [u8]),
    Reopen,
}

// The byte that the command begins with.
impl From<Command<'_>> for u8 {
    ghost from_gives = { λ c n. n ≡ code_of c };

    fn from(command: Command<'_>) -> u8 {
        match command {
            Command::Insert(_) => 0x01,
            Command::Withdraw(_) => 0x02,
            Command::Arrange(_) => 0x03,
            Command::Verdict(_) => 0x04,
            Command::Weigh { .. } => 0x05,
            Command::Settle(_) => 0x06,
            Command::Locate(_) => 0x07,
            Command::Reopen => 0x08,
        }
    }
}

/// Why no command can be read.
#[derive(Clone, Copy, PartialEq, Eq, Debug)]
pub enum Misread {
    /// The first byte is no code.
    UnknownCode,
    /// The log ends inside the command.
    CutShort,
}

// The number by which it is told.
impl From<Misread> for u8 {
    ghost from_gives = { λ m n. n ≡ number_of m };

    fn from(misread: Misread) -> u8 {
        match misread {
            Misread::UnknownCode => 1,
            Misread::CutShort => 2,
        }
    }
}

/// A command and what follows it in the log.
#[derive(Clone, Copy, PartialEq, Eq, Debug)]
pub struct Reading<'a> {
    pub command: Command<'a>,
    pub rest: &'a [u8],
}

/// A first byte that begins no whole command, and why.
#[derive(Clone, Copy, PartialEq, Eq, Debug)]
pub struct Misreading {
    pub code: u8,
    pub cause: Misread,
}

const ELEMENT_BYTES: usize = 17;

const ORDER_BYTES: usize = 8;

// So many bytes after a code, and the rest.
fn part(code: u8, after: &[u8], count: usize) -> Result<(&[u8], &[u8]), Misreading>
    ensures { MatchResult result
        (λ p. Parted count after.now p.0.now p.1.now)
        (λ e. (length after.now < count) × (e ≡ cut_short code)) }
{
    if after.len() < count {
        return Err(Misreading {
            code,
            cause: Misread::CutShort,
        });
    }
    Ok(after.split_at(count))
}

// One byte after a code, and the rest.
fn one(code: u8, after: &[u8]) -> Result<(&u8, &[u8]), Misreading>
    ensures { MatchResult result
        (λ p. after.now ≡ p.0.now ∷ p.1.now)
        (λ e. (after.now ≡ []) × (e ≡ cut_short code)) }
{
    match after {
        [byte, rest @ ..] => Ok((byte, rest)),
        [] => Err(Misreading {
            code,
            cause: Misread::CutShort,
        }),
    }
}

/// The command at the front of a log, if any is left. The first byte decides it, and then what
/// follows is judged. Each code has an arm that names its first byte and what follows: so each
/// command's operands and their widths are read off its arm, and a first byte without an arm is no
/// code.
#[tactic(auto, using(crate::proofs::Fronts::reading_has_one_outcome))]
pub fn read(log: &[u8]) -> Result<Option<Reading<'_>>, Misreading>
    ensures reads { Reads log.now (front result) }
    ensures once { ReadingHasOneOutcome }
{
    let (command, rest) = match log {
        [] => return Ok(None),
        [code @ 0x01, after @ ..] => {
            let (element, rest) = part(*code, after, ELEMENT_BYTES)?;
            (Command::Insert(element), rest)
        }
        [code @ 0x02, after @ ..] => {
            let (element, rest) = part(*code, after, ELEMENT_BYTES)?;
            (Command::Withdraw(element), rest)
        }
        [code @ 0x03, after @ ..] => {
            let (order, rest) = part(*code, after, ORDER_BYTES)?;
            (Command::Arrange(order), rest)
        }
        [code @ 0x04, after @ ..] => {
            let (division, rest) = one(*code, after)?;
            (Command::Verdict(division), rest)
        }
        [code @ 0x05, after @ ..] => {
            let (division, after) = one(*code, after)?;
            let (order, rest) = part(*code, after, ORDER_BYTES)?;
            (Command::Weigh { division, order }, rest)
        }
        [code @ 0x06, after @ ..] => {
            let (division, rest) = one(*code, after)?;
            (Command::Settle(division), rest)
        }
        [code @ 0x07, after @ ..] => {
            let (element, rest) = part(*code, after, ELEMENT_BYTES)?;
            (Command::Locate(element), rest)
        }
        [code @ 0x08, after @ ..] => {
            let (_, rest) = part(*code, after, 0)?;
            (Command::Reopen, rest)
        }
        [code, ..] => {
            return Err(Misreading {
                code: *code,
                cause: Misread::UnknownCode,
            });
        }
    };
    Ok(Some(Reading { command, rest }))
}

// The byte at a place, or 0 past the end.
fn byte_at(bytes: &[u8], place: usize) -> u8
    ensures { result ≡ slice_index bytes.now place }
{
    bytes.get(place).copied().unwrap_or(0)
}

/// The element that its bytes say: the family, then eight exponents, two bytes each, the high byte
/// first. A byte that is not there is 0.
pub fn element_of<E: Kind>(bytes: &[u8]) -> E
    ensures { E.shown result ≡ element bytes.now }
{
    let exponents = array::from_fn(|i| {
        u16::from_be_bytes([byte_at(bytes, 2 * i + 1), byte_at(bytes, 2 * i + 2)])
    });
    E::make(byte_at(bytes, 0), exponents)
}

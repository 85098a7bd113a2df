// The lines of a log.
ghost use Rattle.std.specs.Prelude.{◌≤◌, length, IfOk};
ghost use Rattle.sheets.specs.Read.{MakesSheet};
ghost use Rattle.runs.specs.Replies.{parts_of, book_of};
ghost use Rattle.divisions.specs.Numbered.{numbered_meaning};
ghost use Rattle.logs.specs.Told.{Lines};
ghost use Rattle.logs.specs.Promised.{PerformsNextAsPromised};

use crate::performing::perform;
use commands::*;
use divisions::NumberedDivision;
use elements::Kind;
use lines::faults::*;
use lines::lines::*;
use runs::requests::*;
use std::alloc::{AllocError, Global};

/// What the front of a log comes to.
#[derive(Clone, Copy, PartialEq, Eq, Debug)]
pub enum Step<'a> {
    /// Nothing is left.
    End,
    /// A command was performed: its line, and the rest of the log.
    Performed { line: Line, rest: &'a [u8] },
    /// The first byte begins no whole command: its line.
    Misread(Line),
}

/// Reads the command at the front of a log, which stands at a place, and performs it on the sheet.
/// It allocates nothing.
pub fn perform_next<'a, E: Kind>(
    sheet: Sheet<E, NumberedDivision>,
    place: usize,
    log: &'a [u8],
) -> (Sheet<E, NumberedDivision>, Step<'a>)
    ensures { PerformsNextAsPromised E.admitted E.shown
        sheet place log.now result.0 result.1 }
{
    match read(log) {
        Ok(None) => (sheet, Step::End),
        Ok(Some(Reading { command, rest })) => {
            let (next, line) = perform(sheet, place, &command);
            (next, Step::Performed { line, rest })
        }
        Err(Misreading { code, cause }) => {
            let cause = cause.into();
            (
                sheet,
                Step::Misread(Line(Err(Fault { place, code, cause }))),
            )
        }
    }
}

/// Performs each command of a log on a sheet, and gives their lines, with the place after the last
/// whole command.
pub(crate) fn lines_of<E: Kind>(
    heap: Global,
    sheet: Sheet<E, NumberedDivision>,
    log: &[u8],
) -> Result<(Vec<Line>, usize), AllocError>
    requires few { length log.now ≤ 65534 }
    requires makes_sheet { MakesSheet E.admitted E.shown (parts_of sheet) }
    ensures { let book = book_of E.admitted E.shown numbered_meaning sheet in
        IfOk result (λ t. Lines book.n book log.now t.0.items t.1) }
{
    let mut sheet = sheet;
    let mut rest = log;
    let mut lines = Vec::new(heap);
    // two bytes stand before the log
    let bytes = log.len() + 2;
    // what is left of the log is handed on as a part: no byte is read twice, and none past the end
    'log: loop {
        let place = bytes - rest.len();
        let (next, step) = perform_next(sheet, place, rest);
        sheet = next;
        match step {
            Step::End => break 'log Ok((lines, place)),
            Step::Performed { line, rest: left } => {
                lines.push(line)?;
                rest = left;
            }
            Step::Misread(line) => {
                lines.push(line)?;
                break 'log Ok((lines, place));
            }
        }
    }
}

// What there is to print of an input: a count of variables, a kind, and a log.
ghost use Rattle.std.specs.Prelude.{◌≤◌, length, IfOk, OnErr, string_bytes};
ghost use Rattle.orderings.specs.Order.{VariableCount};
ghost use Rattle.lines.specs.Report.{kind_number};
ghost use Rattle.logs.specs.Input.{Reports, ReportsKind, Prints};
ghost use Rattle.logs.specs.Laws.{OpensSomeLog, TellsTheAnswersOfThePlainBook, HoldsAfterEveryCommand, AnInputHasOneOutput};

use crate::reading::lines_of;
use elements::{Derivative, Kind, PlainTerm};
use lines::reports::*;
use orderings::orders::is_variable_count;
use runs::stepping::begin;
use sheets::opening::parts_for;
use std::alloc::{AllocError, Global};

/// The most bytes that an input may have.
pub const MOST_BYTES: usize = 65_536;

// The report on a log for a sheet of 64 places, of a kind and so many variables.
fn report_kind<E: Kind>(
    heap: Global,
    variables: u8,
    kind: LogKind,
    log: &[u8],
) -> Result<Report, AllocError>
    requires { length log.now ≤ 65534 }
    ensures reported { IfOk result (ReportsKind E.admitted variables (kind_number kind) log.now) }
    ensures only_a_log_needs_memory { OnErr result (VariableCount variables) }
{
    if !is_variable_count(variables) {
        return Ok(Report::NoLog(BadStart::VariableCount));
    }
    let parts = parts_for::<E>(heap, variables, 64)?;
    match begin(parts) {
        Ok(sheet) => {
            let (lines, end) = lines_of(heap, sheet, log)?;
            Ok(Report::Log {
                variables,
                kind: kind.into(),
                lines,
                end,
            })
        }
        // parts for a count of variables and 64 places can be opened over
        Err(_) => unreachable!(),
    }
}

/// The report on an input: byte 0 is the count of variables, byte 1 the kind, and the log begins at
/// its third byte.
pub fn report(heap: Global, input: &[u8]) -> Result<Report, AllocError>
    ensures reported { IfOk result (Reports input.now) }
    ensures only_a_log_needs_memory { OnErr result (OpensSomeLog input.now) }
{
    if input.len() > MOST_BYTES {
        return Ok(Report::TooLong);
    }
    let [variables, kind, log @ ..] = input else {
        return Ok(Report::NoLog(BadStart::CutShort));
    };
    match LogKind::try_from(*kind) {
        Ok(LogKind::PlainTerms) => {
            let kind = LogKind::PlainTerms;
            report_kind::<PlainTerm>(heap, *variables, kind, log)
        }
        Ok(LogKind::Derivatives) => {
            let kind = LogKind::Derivatives;
            report_kind::<Derivative>(heap, *variables, kind, log)
        }
        Err(bad) => Ok(Report::NoLog(bad)),
    }
}

/// What is printed of an input.
#[tactic(auto, using(crate::proofs::Printed::an_input_has_one_output, crate::proofs::Ran::holds_after_every_command))]
pub fn output(heap: Global, input: &[u8]) -> Result<String, AllocError>
    ensures printed { IfOk result (λ text. Prints input.now (string_bytes text)) }
    ensures told { IfOk result (λ text.
        TellsTheAnswersOfThePlainBook input.now (string_bytes text)) }
    ensures after_every_command { HoldsAfterEveryCommand input.now }
    ensures once { AnInputHasOneOutput }
{
    report(heap, input)?.to_string(heap)
}

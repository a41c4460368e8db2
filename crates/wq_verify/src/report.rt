//! The report on the bytes of a program file: its greatest cost if it may run, else its first fault.
//! Another crate opens the file.
ghost use Rattle.std.specs.Prelude.{◌≡◌, IfOk};
ghost use Rattle.wq_verify.specs.Report.{Checks, IsReport, report_line, status_of};

use crate::fault::{ProgramFault, Refusal};
use crate::program::verify;
use std::alloc::{AllocError, Global};
use std::io::Write;
use wq_base::write_all;
use wq_code::{FileFault, decode};

/// The greatest number of bytes of a file that `check` reads.
pub const MAX_FILE: usize = 16_777_216;

/// The number of bytes of the longest name of a file. `check` gives the budget for it.
pub const LONGEST_NAME: u64 = 4096;

/// The exit status if the line could not be written.
pub const FAULT: u8 = 1;

/// The report on a program file.
#[derive(Clone, Copy, Debug, Drop)]
pub enum Report {
    /// The program may run. It has so many instructions, and costs at most this budget on a name of
    /// [`LONGEST_NAME`] bytes.
    Accepted { instructions: usize, budget: u64 },
    /// The bytes are no program file.
    WrongFile(FileFault),
    /// The program may not run, for this fault of the instruction at this place, counted from 0.
    WrongProgram { fault: ProgramFault, at: usize },
}

impl Report {
    /// The report on the bytes of a file.
    pub fn of(alloc: Global, bytes: &[u8]) -> Report
        ensures { IsReport bytes.now result }
    {
        let raw = match decode(alloc, bytes) {
            Ok(raw) => raw,
            Err(fault) => return Report::WrongFile(fault),
        };
        match verify(alloc, raw) {
            Ok(program) => Report::Accepted {
                instructions: program.raw().code.len(),
                budget: program.budget(LONGEST_NAME),
            },
            Err((_, Refusal { code: fault, at })) => Report::WrongProgram { fault, at },
        }
    }

    /// The exit status: 0 for a program that may run, and 3 for any other file.
    pub fn status(self) -> u8
        ensures { result ≡ status_of self }
    {
        match self {
            Report::Accepted { .. } => 0,
            Report::WrongFile(_) | Report::WrongProgram { .. } => 3,
        }
    }
}

/// Prints the report on the bytes of a file, and returns the exit status.
///
/// The line is `ok <instructions> <budget>` if the program may run. It is `refused F<n>` if the
/// bytes are no program file, and `refused Y<n> at <place>` if the program may not run. The status
/// is 0, 3 and 3. It is [`FAULT`] if the line could not be written whole. The writer then holds a
/// front of the line.
pub fn check<W: Write>(alloc: Global, bytes: &[u8], writer: &mut W) -> u8
    ensures { Checks bytes.now (W.contents writer.old) (W.contents writer.new) result }
{
    let report = Report::of(alloc, bytes);
    let Ok(line) = line_of(alloc, report) else {
        return FAULT;
    };
    match write_all(writer, line.as_bytes()) {
        Ok(()) => report.status(),
        Err(_) => FAULT,
    }
}

/// The line of a report.
fn line_of(alloc: Global, report: Report) -> Result<String, AllocError>
    ensures { IfOk result (λ line. line.bytes.items ≡ report_line report) }
{
    match report {
        Report::Accepted {
            instructions,
            budget,
        } => format!(in alloc; "ok {instructions} {budget}\n"),
        Report::WrongFile(fault) => format!(in alloc; "refused F{}\n", fault.number()),
        Report::WrongProgram { fault, at } => {
            format!(in alloc; "refused Y{} at {at}\n", fault.number())
        }
    }
}

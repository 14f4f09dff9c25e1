//! The result of a run: what is printed of it, and the status that it ends with.

ghost use Rattle.std.specs.Prelude.{◌≡◌, Some};
ghost use Rattle.mds_desk.specs.Program.{of_check, of_import, of_request, outcome_text, status_code, status_of};

use crate::importing::ImportFault;
use crate::performing::PerformFault;
use mds_arguments::Argument;
use mds_check::CheckFault;
use mds_records::FileFault;
use std::fmt;

/// The status that a run ends with.
#[derive(Clone, Copy)]
pub enum Status {
    /// All was done.
    Done,
    /// The file isn't well formed, or what it states or asks for was refused.
    Fault,
    /// The words ask for nothing that the program does, an argument is bad, or the file is no job.
    Usage,
    /// Something needed is unavailable: the file, the store, the output or memory.
    Unavailable,
}

/// The result of a run.
#[derive(Clone, Copy)]
pub enum Outcome {
    /// All was done, and everything was printed.
    Done,
    /// A store was made.
    Created,
    /// A store of an earlier schema became one of this schema.
    Migrated,
    /// The store that was to be migrated is one of this schema already.
    AlreadyCurrent,
    /// A request was answered, and the answer was printed.
    Answered(Status),
    /// The file isn't well formed.
    Fault(FileFault),
    /// The file is no substitution job.
    BadJob,
    /// The file is no list of holidays: the row with this number, from 1, is the first that differs (H1).
    BadHolidays(u64),
    /// An argument is bad.
    BadArgument(Argument),
    /// The words ask for nothing that the program does. What they may be was printed.
    Usage,
    /// A word isn't UTF-8 text.
    NoText,
    /// The file can't be read.
    NoInput,
    /// The output can't be written.
    NoOutput,
    /// The port can't be listened to.
    NoPort,
    /// Memory or the store is unavailable (U1).
    Unavailable,
    /// The database is a store of an earlier schema (U2).
    EarlierSchema,
    /// The database isn't a store of this schema, or isn't an empty one in which to make a store (U3).
    OtherSchema,
}

impl Status {
    /// Its number: 0, 1, 2 or 3, in the order above.
    pub fn code(self) -> u8
        ensures { result ≡ status_code self }
    {
        match self {
            Status::Done => 0,
            Status::Fault => 1,
            Status::Usage => 2,
            Status::Unavailable => 3,
        }
    }
}

impl Outcome {
    /// The result of a run that checked a file.
    pub fn of_check(answer: Result<(), CheckFault>) -> Outcome
        ensures { result ≡ of_check answer }
    {
        match answer {
            Ok(()) => Outcome::Done,
            Err(CheckFault::File(fault)) => Outcome::Fault(fault),
            Err(CheckFault::Read) => Outcome::NoInput,
            Err(CheckFault::Write) => Outcome::NoOutput,
            Err(CheckFault::Memory) => Outcome::Unavailable,
        }
    }

    /// The result of a run that did a request.
    pub fn of_request(answer: Result<Status, PerformFault>) -> Outcome
        ensures { result ≡ of_request answer }
    {
        match answer {
            Ok(status) => Outcome::Answered(status),
            Err(PerformFault::Write) => Outcome::NoOutput,
            Err(PerformFault::Memory) => Outcome::Unavailable,
        }
    }

    /// The result of a run that imported a file as it was read.
    pub fn of_import(answer: Result<Status, ImportFault>) -> Outcome
        ensures { result ≡ of_import answer }
    {
        match answer {
            Ok(status) => Outcome::Answered(status),
            Err(ImportFault::Read) => Outcome::NoInput,
            Err(ImportFault::Write) => Outcome::NoOutput,
            Err(ImportFault::Memory) => Outcome::Unavailable,
        }
    }

    /// The status to end with.
    pub fn status(self) -> Status
        ensures { result ≡ status_of self }
    {
        // decides: which status does a run end with?
        match self {
            Outcome::Done | Outcome::Created | Outcome::Migrated | Outcome::AlreadyCurrent => {
                Status::Done
            }
            Outcome::Answered(status) => status,
            Outcome::Fault(_) | Outcome::BadHolidays(_) => Status::Fault,
            Outcome::BadJob | Outcome::BadArgument(_) | Outcome::Usage | Outcome::NoText => {
                Status::Usage
            }
            Outcome::NoInput
            | Outcome::NoOutput
            | Outcome::NoPort
            | Outcome::Unavailable
            | Outcome::EarlierSchema
            | Outcome::OtherSchema => Status::Unavailable,
        }
    }
}

/// What remains to be printed of it: one line or nothing.
impl fmt::Display for Outcome {
    ghost output = { λ outcome. Some (outcome_text outcome) };

    fn fmt<W: fmt::Write>(&self, f: &mut fmt::Formatter<W>) -> fmt::Result {
        match self {
            Outcome::Done | Outcome::Answered(_) | Outcome::Usage | Outcome::NoOutput => Ok(()),
            Outcome::Created => f.write_str("created\n"),
            Outcome::Migrated => f.write_str("migrated\n"),
            Outcome::AlreadyCurrent => f.write_str("already current\n"),
            Outcome::Fault(fault) => write!(f, "{fault}\n"),
            Outcome::BadJob => f.write_str("bad job\n"),
            Outcome::BadHolidays(row) => write!(f, "H1 line {row}\n"),
            Outcome::BadArgument(argument) => write!(f, "bad argument {}\n", argument.name()),
            Outcome::NoText => f.write_str("a word is not UTF-8\n"),
            Outcome::NoInput => f.write_str("cannot read file\n"),
            Outcome::NoPort => f.write_str("cannot listen\n"),
            Outcome::Unavailable => f.write_str("U1\n"),
            Outcome::EarlierSchema => f.write_str("U2\n"),
            Outcome::OtherSchema => f.write_str("U3\n"),
        }
    }
}

//! The request that a file says.

ghost use Rattle.std.specs.Prelude.{◌≡◌, MatchResult};
ghost use Rattle.mds_requests.specs.Asking.{Asks, AsksNothing};

use crate::holidays::{HolidaysFault, read_holidays};
use crate::job::job_from_json;
use mds_messages::Request;
use mds_records::FileKind;
use std::alloc::{AllocError, Global};

/// A command that passes a file to a store.
#[derive(Clone, Copy)]
pub enum FileCommand {
    /// The file is one of this kind, and is to be imported.
    Import(FileKind),
    /// The file is a substitution job in JSON.
    Substitute,
    /// The file is a list of holidays.
    Holidays,
}

/// Why a file has no request.
#[derive(Clone, Copy)]
pub enum RequestFault {
    /// It is no substitution job.
    BadJob,
    /// It is no list of holidays: the row with this number, from 1, is the first that differs (H1).
    BadHolidays(u64),
    /// There was no memory.
    Memory,
}

impl From<AllocError> for RequestFault {
    ghost use Rattle.mds_requests.specs.declared.files.RequestFault.TheVariants as fault;

    ghost from_gives = { λ _ reason. reason ≡ fault.Memory };

    fn from(_: AllocError) -> RequestFault {
        RequestFault::Memory
    }
}

impl From<HolidaysFault> for RequestFault {
    ghost use Rattle.mds_requests.specs.TargetSteps.{of_holidays};

    ghost from_gives = { λ of_list reason. reason ≡ of_holidays of_list };

    fn from(of_list: HolidaysFault) -> RequestFault {
        match of_list {
            HolidaysFault::BadHolidays(row) => RequestFault::BadHolidays(row),
            HolidaysFault::Memory => RequestFault::Memory,
        }
    }
}

/// The request in a file that comes with a command. The bytes of an import may be any. Memory is needed only for a job in UTF-8,
/// or for a list of holidays, and never for an empty file.
pub fn request_in(
    alloc: Global,
    command: FileCommand,
    bytes: Vec<u8>,
) -> Result<Request, RequestFault>
    ensures { MatchResult result (Asks command bytes.items) (AsksNothing command bytes.items) }
{
    match command {
        FileCommand::Import(kind) => Ok(Request::Import { kind, bytes }),
        FileCommand::Substitute => substitution_in(alloc, &bytes),
        FileCommand::Holidays => holidays_in(alloc, &bytes),
    }
}

/// The request to do the job that a text says.
fn substitution_in(alloc: Global, text: &[u8]) -> Result<Request, RequestFault>
    ensures { MatchResult result (Asks FileCommand.Substitute text.now) (AsksNothing FileCommand.Substitute text.now) }
{
    match job_from_json(alloc, text)? {
        Some(job) => Ok(Request::Substitute(job)),
        None => Err(RequestFault::BadJob),
    }
}

/// The request to list the days of a list.
fn holidays_in(alloc: Global, text: &[u8]) -> Result<Request, RequestFault>
    ensures { MatchResult result (Asks FileCommand.Holidays text.now) (AsksNothing FileCommand.Holidays text.now) }
{
    Ok(Request::Holidays(read_holidays(alloc, text)?))
}

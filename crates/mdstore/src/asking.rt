//! Requests to a store in a file, and their outcomes.

ghost use Rattle.std.specs.Prelude.{◌≡◌};
ghost use Rattle.mdstore.specs.Refusals.{of_request_fault};

use crate::cause::Cause;
use crate::job_cause::job_cause;
use crate::why::Why;
use mds_desk::{Outcome, perform};
use mds_keeper::Keeper;
use mds_lines::Counted;
use mds_messages::Request;
use mds_requests::{FileCommand, RequestFault, request_in};
use std::io;
use std::io::{ErrorKind, Read};

/// All that a reader brings, or the outcome of a call if it can't be read to its end.
pub(crate) fn read_whole<R: Read + Drop>(
    rt: &HostRuntime,
    reader: R,
    why: &mut Why,
) -> Result<Vec<u8>, Outcome> {
    let mut reader = reader;
    let mut bytes = Vec::new(rt.alloc());
    match reader.read_to_end(&mut bytes) {
        Ok(_) => Ok(bytes),
        Err(error) if error.kind() == ErrorKind::OutOfMemory => {
            why.put(Cause::NoMemory);
            Err(Outcome::Unavailable)
        }
        Err(error) => {
            why.put_file(error);
            Err(Outcome::NoInput)
        }
    }
}

/// Asks a keeper for what was read. If it couldn't be read, nothing is asked.
pub(crate) fn ask_keeper<K: Keeper>(
    rt: &HostRuntime,
    keeper: &mut K,
    command: FileCommand,
    bytes: Result<Vec<u8>, Outcome>,
    why: &mut Why,
) -> Outcome {
    let bytes = match bytes {
        Ok(bytes) => bytes,
        Err(outcome) => return outcome,
    };
    let kept = kept_of(rt, command, &bytes, why);
    match request_in(rt.alloc(), command, bytes) {
        Ok(request) => perform_request(rt, keeper, &request, why),
        Err(fault) => {
            put_request_fault(rt, fault, kept, why);
            of_request_fault(fault)
        }
    }
}

/// A copy of a job, if its cause may be wanted: the reader of requests uses the bytes up. `None` without memory, too.
fn kept_of(rt: &HostRuntime, command: FileCommand, bytes: &Vec<u8>, why: &Why) -> Option<Vec<u8>> {
    match command {
        FileCommand::Substitute if why.is_wanted(rt) => bytes.clone().ok(),
        _ => None,
    }
}

/// Notes why a file asks for nothing.
fn put_request_fault(rt: &HostRuntime, fault: RequestFault, kept: Option<Vec<u8>>, why: &mut Why) {
    match fault {
        RequestFault::Memory => why.put(Cause::NoMemory),
        RequestFault::BadJob => put_job(rt, kept, why),
        RequestFault::BadHolidays(_) => (),
    }
}

/// Notes why a file is no job, if a copy of it was kept.
fn put_job(rt: &HostRuntime, kept: Option<Vec<u8>>, why: &mut Why) {
    if let Some(bytes) = kept {
        if let Ok(text) = job_cause(rt.alloc(), &bytes) {
            why.put(Cause::Text(text));
        }
    }
}

/// Does a request over a keeper, and prints its answer.
pub(crate) fn perform_request<K: Keeper>(
    rt: &HostRuntime,
    keeper: &mut K,
    request: &Request,
    why: &mut Why,
) -> Outcome {
    let mut writer = Counted::new(io::writer(rt));
    let outcome = Outcome::of_request(perform(rt.alloc(), keeper, request, &mut writer));
    why.put_memory(outcome);
    outcome
}

/// The outcome for a file that asks for nothing.
fn of_request_fault(fault: RequestFault) -> Outcome
    ensures { result ≡ of_request_fault fault }
{
    match fault {
        RequestFault::BadJob => Outcome::BadJob,
        RequestFault::BadHolidays(row) => Outcome::BadHolidays(row),
        RequestFault::Memory => Outcome::Unavailable,
    }
}

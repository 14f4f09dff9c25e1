//! What is logged of connections.

use crate::request_line::RequestLine;
use jiff::Timestamp;
use mds_wire::Status;
use std::alloc::{AllocError, Global};
use std::net::IpAddr;
use std::time::{Duration, SystemTime};

/// Where connections are logged.
#[derive(Clone, Copy, Debug, PartialEq, Eq)]
pub enum Log {
    /// Nowhere.
    Nowhere,
    /// On standard error, a line for each.
    StandardError,
}

/// What became of a connection.
#[derive(Clone, Copy)]
pub(crate) struct Served {
    pub(crate) peer: IpAddr,
    pub(crate) line: RequestLine,
    /// The status of its answer, if all of that was written.
    pub(crate) status: Option<Status>,
    /// How many bytes of the answer were written, its head included.
    pub(crate) written: u64,
    /// How long it took from when the connection was accepted.
    pub(crate) took: Duration,
}

impl Log {
    /// Logs what became of a connection.
    pub(crate) fn connection(self, rt: &HostRuntime, served: &Served) {
        if self == Log::StandardError {
            if let Ok(text) = line_of(rt, served) {
                let _ = eprint!(rt; "{text}");
            }
        }
    }

    /// Logs that no connection can be accepted any more.
    pub(crate) fn end(self, rt: &HostRuntime) {
        if self == Log::StandardError {
            if let Ok(moment) = moment_of(rt) {
                let _ = eprint!(rt; "- - - [{moment}] cannot accept connections\n");
            }
        }
    }
}

/// The line of a connection.
fn line_of(rt: &HostRuntime, served: &Served) -> Result<String, AllocError> {
    let moment = moment_of(rt)?;
    let status = status_text(rt.alloc(), served.status)?;
    let millis = served.took.as_millis();
    format!(in rt.alloc();
        "{} - - [{moment}] \"{}\" {status} {} {}.{:03}\n",
        served.peer,
        served.line,
        served.written,
        millis / 1_000,
        millis % 1_000
    )
}

/// The text of a status, or `-`.
fn status_text(alloc: Global, status: Option<Status>) -> Result<String, AllocError> {
    match status {
        Some(status) => format!(in alloc; "{}", status.number()),
        None => String::from_str(alloc, "-"),
    }
}

/// The current time, such as `29/Nov/2026:17:50:13 +0000`, or `-` if the clock fails.
fn moment_of(rt: &HostRuntime) -> Result<String, AllocError> {
    let Ok(now) = SystemTime::now(rt) else {
        return String::from_str(rt.alloc(), "-");
    };
    let Ok(moment) = Timestamp::try_from(now) else {
        return String::from_str(rt.alloc(), "-");
    };
    match moment.strftime(rt.alloc(), "%d/%b/%Y:%H:%M:%S %z") {
        Ok(text) => Ok(text),
        Err(_) => Err(AllocError),
    }
}

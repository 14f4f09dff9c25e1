//! The causes of refusals, in plain words.

use mds_arguments::Argument;
use sqlite::{Error, ErrorCode};
use std::io::ErrorKind;
use std::{fmt, io};

/// Why something was refused.
#[derive(Drop)]
pub(crate) enum Cause {
    /// No cause is known.
    Unknown,
    /// Memory ran out.
    NoMemory,
    /// A call on a file failed with this error.
    File(io::Error),
    /// There is no folder in which to make the file.
    NoFolder,
    /// SQLite doesn't take the name for a path.
    NoPath,
    /// Another process has the store open.
    InUse,
    /// SQLite left a journal next to the file.
    Journal,
    /// A hard link gave the file a second name.
    SecondName,
    /// The file isn't a database.
    NoDatabase,
    /// The page of the database with this number, from 1, has another sum than it says.
    WrongSum(u64),
    /// The database isn't well formed.
    Damaged,
    /// The database has tables or rows that the SQL library doesn't read.
    Unreadable,
    /// The disk or the file has no room.
    DiskFull,
    /// The disk failed.
    DiskFailed,
    /// Bytes of the file changed while it was open.
    Changed,
    /// The file of the store has no bytes.
    NoBytes,
    /// The log of a store is there without its file.
    LogAlone,
    /// A store with sums was asked for, in a database without them.
    NoSums,
    /// A store was to be made in a database that isn't empty.
    NotEmpty,
    /// The database is a store of an earlier schema.
    EarlierSchema,
    /// The tables aren't those of a store of this schema.
    OtherTables,
    /// The port with this number can't be used, because of this error.
    Port(u16, io::Error),
    /// What is written here.
    Text(String),
}

impl Cause {
    /// The cause that an error of the SQL library names.
    pub(crate) fn of_error(error: Error) -> Cause {
        match error {
            Error::SqliteFailure(code) => Cause::of_code(code),
            _ => Cause::Unknown,
        }
    }

    /// The cause that a code of the SQL library names.
    fn of_code(code: ErrorCode) -> Cause {
        match code {
            ErrorCode::OutOfMemory => Cause::NoMemory,
            ErrorCode::DiskFull => Cause::DiskFull,
            ErrorCode::SystemIoFailure | ErrorCode::Closed => Cause::DiskFailed,
            ErrorCode::DatabaseCorrupt => Cause::Damaged,
            ErrorCode::NotADatabase => Cause::Unreadable,
            _ => Cause::Unknown,
        }
    }
}

impl fmt::Display for Cause {
    fn fmt<W: fmt::Write>(&self, f: &mut fmt::Formatter<W>) -> fmt::Result {
        match self {
            Cause::File(error) => write_file_error(f, error),
            Cause::WrongSum(page) => write!(f, "page {page} has a wrong sum"),
            Cause::Port(port, error) => {
                write!(f, "port {port}: ")?;
                write_port_error(f, error)
            }
            Cause::Text(text) => f.write_str(text.as_str()),
            _ => f.write_str(text_of(self)),
        }
    }
}

/// The text of a cause that has no parts.
fn text_of(cause: &Cause) -> &'static str {
    match cause {
        Cause::NoMemory => "memory ran out",
        Cause::NoFolder => "no such folder to make it in",
        Cause::NoPath => "SQLite doesn't take this name for a path",
        Cause::InUse => "in use by another process",
        Cause::Journal => "SQLite left a journal next to it; open it with sqlite3 once",
        Cause::SecondName => "a hard link gave the file a second name",
        Cause::NoDatabase => "not a database",
        Cause::Damaged => "damaged, as its pages aren't well formed",
        Cause::Unreadable => "a database whose tables or rows mdstore doesn't read",
        Cause::DiskFull => "disk full",
        Cause::DiskFailed => "the disk failed",
        Cause::Changed => "bytes of the file changed while it was open",
        Cause::NoBytes => "the file has no bytes",
        Cause::LogAlone => "its log is there without the file",
        Cause::NoSums => "the file was made without sums",
        Cause::NotEmpty => "not empty",
        Cause::EarlierSchema => "a store of an earlier schema",
        Cause::OtherTables => "its tables aren't those of a store of this schema",
        _ => "no cause is known",
    }
}

/// Writes why a call on a file failed.
fn write_file_error<W: fmt::Write>(f: &mut fmt::Formatter<W>, error: &io::Error) -> fmt::Result {
    match error.kind() {
        ErrorKind::NotFound => f.write_str("no such file"),
        ErrorKind::PermissionDenied => f.write_str("permission denied"),
        ErrorKind::IsADirectory => f.write_str("a folder, not a file"),
        ErrorKind::NotADirectory => f.write_str("a part of its path isn't a folder"),
        ErrorKind::Unsupported => f.write_str("it or its log isn't a plain file"),
        ErrorKind::StorageFull => f.write_str("disk full"),
        ErrorKind::ReadOnlyFilesystem => f.write_str("the disk can't be written to"),
        ErrorKind::OutOfMemory => f.write_str("memory ran out"),
        _ => write!(f, "{error}"),
    }
}

/// Writes why a port can't be used.
fn write_port_error<W: fmt::Write>(f: &mut fmt::Formatter<W>, error: &io::Error) -> fmt::Result {
    match error.kind() {
        ErrorKind::AddrInUse => f.write_str("in use by another process"),
        ErrorKind::PermissionDenied => f.write_str("permission denied"),
        _ => write!(f, "{error}"),
    }
}

/// The form that an argument has to have.
pub(crate) fn form_of(argument: Argument) -> &'static str {
    match argument {
        Argument::Nmi => "NMI has to be ten capital letters or digits",
        Argument::Suffix => "SUFFIX has to be two capital letters or digits, like E1",
        Argument::Date => "DATE has to be a day like 20240101",
        Argument::Interval => "INTERVAL has to be a number from 1, in one to four digits",
        Argument::From => "FROM has to be a day like 20240101",
        Argument::To => "TO has to be a day like 20240101",
        Argument::Since => "SINCE has to be a day like 20240101",
        Argument::Moment => "MOMENT has to be a moment like 202401030000 or 20240103000000",
        Argument::Sender => {
            "SENDER has to be at most 240 printable ASCII characters without a comma"
        }
        Argument::Receiver => {
            "RECEIVER has to be at most 240 printable ASCII characters without a comma"
        }
    }
}

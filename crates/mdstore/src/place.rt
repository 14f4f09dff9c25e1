//! What is at the path of a store before it is opened, so that a refusal leaves just that.

use crate::cause::Cause;
use crate::damage::damage_in;
use sqlite::Files;
use sqlite_disk::Disk;
use std::fs::OpenOptions;
use std::io::{ErrorKind, Read};
use std::os::unix::fs::{MetadataExt, OpenOptionsExt};
use std::path::PathBuf;
use std::{fs, io};

/// The fewest bytes of a database, those of the smallest page.
const SHORTEST_DATABASE: u64 = 512;

/// The fewest bytes of a log that holds a page: its header, and the smallest page after a header of its own.
const SHORTEST_LOG: u64 = 32 + 24 + SHORTEST_DATABASE;

/// Where the header of a database says how many bytes at the end of each page don't belong to it.
const RESERVED: usize = 20;

/// How many these are if each page ends in a sum.
const SUM_BYTES: u8 = 8;

/// The file of a store and its log, as a call found them.
#[derive(Drop)]
pub(crate) struct Place {
    // The file to which a link leads.
    file: PathBuf,
    // How many bytes it had; none if the call made it.
    file_bytes: Option<u64>,
    // The log, which is next to that file.
    log: String,
    // How many bytes the log had; none if it wasn't there.
    log_bytes: Option<u64>,
}

/// What a file and its log may be.
#[derive(Clone, Copy)]
pub(crate) enum Standing {
    /// The file has no bytes, or isn't there, and the log has none.
    Nothing,
    /// The file has some bytes, but fewer than any database, and the log has none.
    NoDatabase,
    /// The file isn't there, and the log has bytes.
    LogAlone,
    /// Together they may be a database.
    Files,
}

impl Place {
    /// The place of an existing file.
    pub(crate) fn of_file(rt: &HostRuntime, path: &str) -> io::Result<Place> {
        let found = fs::metadata(rt, path)?;
        if !found.is_file() {
            return Err(kind_without(found.is_dir()).into());
        }
        Place::look(rt, path, Some(found.len()))
    }

    /// The place of a file. If there is no file it is made, by a call that fails if another process makes it.
    pub(crate) fn to_make(rt: &HostRuntime, path: &str) -> io::Result<Place> {
        let made = OpenOptions::new()
            .write(true)
            .create_new(true)
            .mode(0o644)
            .open(rt, path);
        match made {
            Ok(_) => (),
            Err(error) if error.kind() == ErrorKind::AlreadyExists => {
                return Place::of_file(rt, path);
            }
            Err(error) => return Err(error),
        }
        match Place::look(rt, path, None) {
            Ok(place) => Ok(place),
            Err(error) => {
                let _ = fs::remove_file(rt, path);
                Err(error)
            }
        }
    }

    /// Records what is next to a file that exists by now.
    fn look(rt: &HostRuntime, path: &str, file_bytes: Option<u64>) -> io::Result<Place> {
        let file = fs::canonicalize(rt, path)?;
        let log = format!(in rt.alloc(); "{}-wal", file.as_str())?;
        let log_bytes = bytes_of(rt, log.as_str())?;
        Ok(Place {
            file,
            file_bytes,
            log,
            log_bytes,
        })
    }

    /// What the file and its log may be.
    pub(crate) fn standing(&self) -> Standing {
        // decides: what happens to the log beside a store?
        let has_log = self.log_bytes.unwrap_or(0) > 0;
        match self.file_bytes {
            None if has_log => Standing::LogAlone,
            _ if has_log => Standing::Files,
            None | Some(0) => Standing::Nothing,
            Some(bytes) if bytes < SHORTEST_DATABASE => Standing::NoDatabase,
            Some(_) => Standing::Files,
        }
    }

    /// Whether the pages of the database end in sums. It is open, so that its header is in the file.
    pub(crate) fn has_sums(&self, rt: &HostRuntime) -> io::Result<bool> {
        let mut header = [0; RESERVED + 1];
        fs::open(rt, self.file.as_str())?.read_exact(&mut header)?;
        Ok(header[RESERVED] == SUM_BYTES)
    }

    /// What is wrong with the database, whose files are locked, if its bytes show it. A log may hold other pages than the file, so nothing is
    /// known if there is one.
    pub(crate) fn damage(&self, rt: &HostRuntime) -> io::Result<Option<Cause>> {
        if self.log_bytes.unwrap_or(0) > 0 {
            return Ok(None);
        }
        damage_in(rt, self.file.as_str())
    }

    /// Removes the log, which is empty or whose content is all in the file. While the files are locked nobody else
    /// uses it. If it can't be removed, that does no harm.
    pub(crate) fn remove_log<D: Disk>(&self, rt: &HostRuntime, _locked: &Files<D>) {
        let _ = fs::remove_file(rt, self.log.as_str());
    }

    /// Removes what the call made, while the files are locked.
    pub(crate) fn restore<D: Disk>(&self, rt: &HostRuntime, locked: &Files<D>) {
        // decides: what happens to the log beside a store?
        match self.standing() {
            Standing::Nothing => {
                let _ = put_back(rt, self.log.as_str(), self.log_bytes);
                let _ = put_back(rt, self.file.as_str(), self.file_bytes);
            }
            _ => self.remove_empty_log(rt, locked),
        }
    }

    /// Removes a log that the call made, if it holds no page. One that holds a page may be needed.
    pub(crate) fn remove_empty_log<D: Disk>(&self, rt: &HostRuntime, locked: &Files<D>) {
        if self.log_bytes.is_none() && is_shorter(rt, self.log.as_str(), SHORTEST_LOG) {
            self.remove_log(rt, locked);
        }
    }

    /// Removes the file that the call made, if it couldn't be opened and has no bytes yet.
    pub(crate) fn take_away_file(&self, rt: &HostRuntime) {
        if self.file_bytes.is_none() && is_shorter(rt, self.file.as_str(), 1) {
            let _ = fs::remove_file(rt, self.file.as_str());
        }
    }
}

/// The error if something else is in the place of a file.
fn kind_without(is_folder: bool) -> ErrorKind {
    if is_folder {
        ErrorKind::IsADirectory
    } else {
        ErrorKind::Unsupported
    }
}

/// Whether a file has another name, too, by a hard link.
pub(crate) fn has_other_name(rt: &HostRuntime, path: &str) -> bool {
    matches!(fs::metadata(rt, path), Ok(found) if found.nlink() > 1)
}

/// How many bytes a file has, if it exists. Anything but a file, such as a folder or a link, is an error.
fn bytes_of(rt: &HostRuntime, path: &str) -> io::Result<Option<u64>> {
    match fs::symlink_metadata(rt, path) {
        Ok(found) if found.is_file() => Ok(Some(found.len())),
        Ok(_) => Err(ErrorKind::Unsupported.into()),
        Err(error) if error.kind() == ErrorKind::NotFound => Ok(None),
        Err(error) => Err(error),
    }
}

/// Whether a file exists and is shorter than `length` bytes.
fn is_shorter(rt: &HostRuntime, path: &str, length: u64) -> bool {
    matches!(bytes_of(rt, path), Ok(Some(bytes)) if bytes < length)
}

/// Removes a file that didn't exist before, and empties one that was empty.
fn put_back(rt: &HostRuntime, path: &str, before: Option<u64>) -> io::Result<()> {
    match before {
        None => fs::remove_file(rt, path),
        Some(_) => OpenOptions::new().write(true).open(rt, path)?.set_len(0),
    }
}

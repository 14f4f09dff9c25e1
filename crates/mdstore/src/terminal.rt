//! Whether a terminal shows what the program prints.

use std::fs;
use std::os::unix::fs::{FileTypeExt, MetadataExt};

/// Standard error, by the name that Linux gives to it.
const STANDARD_ERROR: &str = "/proc/self/fd/2";

/// Whether standard error is a terminal. It is if it is a device of a kind that Linux has for terminals. Without `/proc` it isn't.
pub(crate) fn has_terminal(rt: &HostRuntime) -> bool {
    match fs::metadata(rt, STANDARD_ERROR) {
        Ok(found) => found.file_type().is_char_device() && is_terminal_kind(kind_of(found.rdev())),
        Err(_) => false,
    }
}

/// The kind in the number of a device (its major number).
fn kind_of(device: u64) -> u64 {
    device / 256 % 4096
}

/// Whether devices of a kind are terminals: consoles and serial lines, lines over USB, those of virtual machines, and pseudo terminals.
fn is_terminal_kind(kind: u64) -> bool {
    // `Documentation/admin-guide/devices.txt` of Linux has these numbers.
    matches!(kind, 4 | 5 | 136..=143 | 166 | 188 | 204 | 229)
}

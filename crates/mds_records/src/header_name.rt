//! The names of the kinds of files.

/// The name of a kind of file, in field 2 of its header.
#[derive(Clone, Copy)]
pub enum HeaderName {
    /// Interval data.
    Nem12,
    /// Accumulation data.
    Nem13,
}

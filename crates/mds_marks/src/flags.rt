//! The flags of qualities, each as the letter used in files, tables and JSON. MDFF Specification, appendix of quality
//! flags.

/// Actual data. No method follows it.
pub const ACTUAL: u8 = b'A';

/// Forward estimated data, by a method.
pub const ESTIMATED: u8 = b'E';

/// Final substituted data, by a method.
pub const FINAL: u8 = b'F';

/// Null data: there is no value, and no method.
pub const NULL: u8 = b'N';

/// Substituted data, by a method.
pub const SUBSTITUTED: u8 = b'S';

/// Variable data: the 400 records of a day state the quality of each interval. No reading has this flag.
pub const VARIABLE: u8 = b'V';

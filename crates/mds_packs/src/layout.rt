//! The meaning of single bytes and numbers in a packed body (profile).

/// The first byte of a body.
pub const VERSION: u8 = 1;

/// The code of a reason without a code.
pub const NO_CODE: u16 = 0xffff;

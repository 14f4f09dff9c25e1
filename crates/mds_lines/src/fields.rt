//! The fields of a line.

ghost use Rattle.std.specs.Prelude.{◌≡◌, ◌-◌, ◌<◌, ◌⊎◌, ℕ, List, length, slice_get, Some, MatchOption};
ghost use Rattle.mds_lines.specs.Lines.{fields_of};

use std::marker::Model;

/// The fields of a line, separated by commas. There is at least one.
#[derive(Drop)]
pub struct Fields<'a> {
    line: &'a [u8],
}

impl<'a> Model for Fields<'a> {
    ghost use Rattle.std.specs.Prelude.{ℕ, List};
    ghost use Rattle.mds_lines.specs.Lines.{fields_of};

    ghost Value = { List (List ℕ) };

    ghost view = { λ fields. fields_of fields.line.now };
}

impl<'a> Fields<'a> {
    /// The fields of a line's text.
    pub fn new(line: &'a [u8]) -> Fields<'a>
        ensures { result ≡ fields_of line.now }
    {
        Fields { line }
    }

    /// The number of fields.
    pub fn count(&self) -> usize
        ensures { result ≡ length self.now }
    {
        self.line.iter().filter(|byte| **byte == b',').count() + 1
    }

    /// The field with this number, counted from 1, or `None` if the line has fewer.
    pub fn get(&self, number: usize) -> Option<&'a [u8]>
        ensures { MatchOption result ((number ≡ 0) ⊎ (length self.now < number))
            (λ found. (0 < number) × (slice_get self.now (number - 1) ≡ Some found.now)) }
    {
        let before = number.checked_sub(1)?;
        self.line.split(|byte| *byte == b',').nth(before)
    }
}

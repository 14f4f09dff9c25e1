//! A version as a book lends it.

ghost use Rattle.std.specs.Prelude.{◌≡◌, ◌<◌, ◌↔◌, IfOk, IsTrue, OnErr, length};
ghost use Rattle.mds_marks.specs.Reading.{is_reading};

use mds_quantity::Quantity;
use mds_terms::{Length, Mark, Moment, Reading};
use std::alloc::AllocError;

/// A version of an interval, with a borrowed mark. It takes no memory, in whatever form the book keeps
/// its versions.
#[derive(Clone, Copy)]
pub struct LentVersion<'a> {
    pub update: Moment,
    /// The length of the interval.
    pub length: Length,
    pub mark: &'a Mark,
    /// The value under that mark; `None` under N.
    pub value: Option<Quantity>,
    pub ghost together: { IsTrue (is_reading mark.now.quality.flag value) },
}

impl LentVersion<'_> {
    /// A copy of its reading. Takes memory only for the text of a reason.
    pub fn reading(&self) -> Result<Reading, AllocError>
        ensures value { IfOk result (λ reading. reading ≡ record { mark = self.now.mark.now; value = self.now.value }) }
        ensures only { OnErr result (0 < length self.now.mark.now.reason.text) }
    {
        let mark = self.mark.try_clone()?;
        Ok(Reading::new(mark, self.value).unwrap())
    }

    /// Whether its reading is this one.
    pub fn is_of(&self, reading: &Reading) -> bool
        ensures { IsTrue result ↔ (record { mark = self.now.mark.now; value = self.now.value } ≡ reading.now) }
    {
        self.mark.is_same(reading.mark()) && are_same(self.value, reading.value())
    }
}

/// Whether two value fields are the same.
fn are_same(one: Option<Quantity>, other: Option<Quantity>) -> bool
    ensures { IsTrue result ↔ (one ≡ other) }
{
    match (one, other) {
        (Some(one), Some(other)) => one.millionths() == other.millionths(),
        (None, None) => true,
        _ => false,
    }
}

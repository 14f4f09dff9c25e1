//! What a substitution job looks at.

use mds_keeper::DayBook;

/// The days that a job looks at: its own, its candidates, and the days before and after it.
#[derive(Drop)]
pub struct Context {
    pub target: DayBook,
    /// Nearest first; a position without a candidate is `None`.
    pub candidates: [Option<DayBook>; 4],
    /// `None` if the job's day is the first of the calendar.
    pub before: Option<DayBook>,
    /// `None` if the job's day is the last of the calendar.
    pub after: Option<DayBook>,
}

//! What the store can't answer. Errors of the library, and rows that this program didn't write, become `Unavailable` here and
//! nowhere else.

ghost use Rattle.std.specs.Prelude.{◌≡◌, IsErr, MatchResult, None, Ok, Some};

use mds_keeper::Unavailable;
use sqlite::Error;

/// Passes on what the library returns. If that is an error, the store can't answer now (U1).
pub fn or_unavailable<T>(answer: Result<T, Error>) -> Result<T, Unavailable>
    ensures { MatchResult result (λ x. answer ≡ Ok x) (λ _. IsErr answer) }
{
    // decides: U1: a query fails
    match answer {
        Ok(x) => Ok(x),
        Err(_) => Err(Unavailable),
    }
}

/// Passes on what a row says. If the row doesn't read, this program didn't write it, and the store can't answer from it (U1).
pub fn told<T>(cell: Option<T>) -> Result<T, Unavailable>
    ensures { MatchResult result (λ x. cell ≡ Some x) (λ _. cell ≡ None) }
{
    // decides: U1: a row doesn't read
    match cell {
        Some(x) => Ok(x),
        None => Err(Unavailable),
    }
}

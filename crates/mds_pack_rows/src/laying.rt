//! Combines the readings of a day with others of it.

ghost use Rattle.std.specs.Prelude.{◌≡◌, IfOk, option_map};
ghost use Rattle.mds_pack_rows.specs.Laying.{held_of, laid};

use mds_terms::Reading;
use std::alloc::{AllocError, Global};

/// All readings of both. `None` if an interval has two, or the days have different counts of intervals.
pub(crate) fn lay(
    alloc: Global,
    ones: &[Option<Reading>],
    others: &[Option<Reading>],
) -> Result<Option<Vec<Option<Reading>>>, AllocError>
    ensures { IfOk result (λ o. option_map (λ v. v.items) o ≡ laid ones.now others.now) }
{
    let mut all = Vec::with_capacity(alloc, ones.len())?;
    let mut left = ones;
    let mut right = others;
    while let [one, more @ ..] = left {
        let [other, rest @ ..] = right else {
            return Ok(None);
        };
        let Some(held) = one_of(one, other)? else {
            return Ok(None);
        };
        all.push(held)?;
        left = more;
        right = rest;
    }
    if right.is_empty() {
        Ok(Some(all))
    } else {
        Ok(None)
    }
}

/// What an interval has of both, if at most one has a reading there.
fn one_of(
    one: &Option<Reading>,
    other: &Option<Reading>,
) -> Result<Option<Option<Reading>>, AllocError>
    ensures { IfOk result (λ o. o ≡ held_of one.now other.now) }
{
    match (one, other) {
        (None, None) => Ok(Some(None)),
        (None, Some(reading)) => Ok(Some(Some(reading.try_clone()?))),
        (Some(reading), None) => Ok(Some(Some(reading.try_clone()?))),
        (Some(_), Some(_)) => Ok(None),
    }
}

//! The suffixes of an export.

ghost use Rattle.std.specs.Prelude.{◌≡◌, ◌↔◌, ◌≤◌, ℕ, List, IfNone, IfSome, IsTrue, length};
ghost use Rattle.mds_ranges.specs.Selections.{AreDistinct, HasManySuffixes};
ghost use Rattle.mds_ranges.specs.SuffixesSteps.{IsAfter, IsBefore, IsNext};

use mds_terms::Suffix;
use std::marker::Model;
use std::ops::DerefSlice;

/// The most distinct suffixes of an export.
const MOST_SUFFIXES: usize = 8;

/// At most eight suffixes, stored in the value itself.
#[derive(Drop)]
pub struct Suffixes {
    places: [Suffix; MOST_SUFFIXES],
    count: usize,
}

impl Model for Suffixes {
    ghost use Rattle.std.specs.Prelude.{◌≡◌, ◌≤◌, ℕ, List, length, take};

    ghost Value = { List (List ℕ) };

    ghost view = { λ suffixes. take suffixes.count suffixes.places };

    ghost invariant = { λ suffixes. (suffixes.count ≤ 8) × (length suffixes.places ≡ 8) };
}

impl DerefSlice for Suffixes {
    type Elem = Suffix;

    ghost deref_gives = { λ suffixes items. items ≡ suffixes };

    fn deref(&self) -> &[Suffix] {
        &self.places[..self.count]
    }
}

/// The distinct suffixes among these, in the order of their bytes. `None` if there are more than eight. Takes no memory.
pub fn distinct(suffixes: &[Suffix]) -> Option<Suffixes>
    ensures some { IfSome result (AreDistinct suffixes.now) }
    ensures few { IfSome result (λ distinct. length distinct ≤ 8) }
    ensures none { IfNone result (HasManySuffixes suffixes.now) }
{
    // Each is the first after the one before it, so none has to be moved.
    let mut places = [blank(); MOST_SUFFIXES];
    let mut count = 0;
    let mut last = None;
    while let Some(next) = next_after(&last, suffixes) {
        // decides: M12: more than eight suffixes
        if count == MOST_SUFFIXES {
            return None;
        }
        places[count] = next;
        count += 1;
        last = Some(next);
    }
    Some(Suffixes { places, count })
}

/// The first of these suffixes that is after the last one, if there is one.
fn next_after(last: &Option<Suffix>, suffixes: &[Suffix]) -> Option<Suffix>
    ensures { IsNext last.now suffixes.now result }
{
    let mut next = None;
    for suffix in suffixes {
        if is_between(last, suffix, &next) {
            next = Some(*suffix);
        }
    }
    next
}

/// Whether a suffix is after one and before another, if these exist.
fn is_between(first: &Option<Suffix>, suffix: &Suffix, last: &Option<Suffix>) -> bool
    ensures { IsTrue result ↔ (IsAfter first.now suffix.now × IfSome last.now (IsBefore suffix.now)) }
{
    is_after(first, suffix) && is_before(suffix, last)
}

/// Whether a suffix is after another, if there is one.
fn is_after(first: &Option<Suffix>, suffix: &Suffix) -> bool
    ensures { IsTrue result ↔ IsAfter first.now suffix.now }
{
    match first {
        Some(first) => first.cmp(suffix).is_lt(),
        None => true,
    }
}

/// Whether a suffix is before another, if there is one.
fn is_before(suffix: &Suffix, last: &Option<Suffix>) -> bool
    ensures { IsTrue result ↔ IfSome last.now (IsBefore suffix.now) }
{
    match last {
        Some(last) => suffix.cmp(last).is_lt(),
        None => true,
    }
}

/// A suffix for unused places.
fn blank() -> Suffix {
    Suffix::read(b"E1").unwrap()
}

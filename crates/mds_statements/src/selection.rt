//! What is selected for an export.

ghost use Rattle.std.specs.Prelude.{◌≡◌, ◌≤◌, ◌↔◌, IfNone, IfSome, IsTrue, length, option_map};
ghost use Rattle.mds_statements.specs.Selected.{AreOrderly, days_of, most_days};

use crate::selected::{SelectedDay, SelectedStream};

/// What is selected for an export: streams in the order of their bytes, and the days of each by date. Each day has a reading for
/// each interval of its length. There are at most 3,200 days, so that the text has fewer lines than a file may have (L10).
#[derive(Drop)]
pub struct Selection {
    pub streams: Vec<SelectedStream>,
    pub ghost orderly: { AreOrderly streams.items },
}

/// The most days of a selection.
const MOST_DAYS: usize = 3_200;

impl Selection {
    /// A selection of these streams. `None` if the streams don't ascend by the bytes of the NMI and then of the suffix, or the
    /// days of a stream by date. `None` too if a day doesn't have a reading for each interval, or there are more than 3,200 days.
    pub fn new(streams: Vec<SelectedStream>) -> Option<Selection>
        ensures some { IfSome result (λ selection. selection.streams ≡ streams) }
        ensures none { IfNone result (AreOrderly streams.items → ⊥) }
    {
        if !are_orderly(&streams) {
            return None;
        }
        Some(Selection { streams })
    }
}

ghost use Rattle.std.specs.Prelude.{None, ◌&&◌, nat_le};
ghost use Rattle.mds_statements.specs.SelectedSteps.{day_follows, days_follow, is_after, stream_follows, streams_follow};

/// Whether streams and days ascend, each day has a reading for each interval, and there aren't too many days.
fn are_orderly(streams: &[SelectedStream]) -> bool
    ensures { IsTrue result ↔ AreOrderly streams.now }
{
    are_few(streams) && are_in_order(streams)
}

/// Whether there are at most 3,200 days.
fn are_few(streams: &[SelectedStream]) -> bool
    ensures { result ≡ nat_le (length (days_of streams.now)) most_days }
{
    let mut count = 0;
    for selected in streams {
        count += selected.days.len();
        if count > MOST_DAYS {
            return false;
        }
    }
    true
}

/// Whether streams ascend, the days of each ascend, and each day has a reading for each interval.
fn are_in_order(streams: &[SelectedStream]) -> bool
    ensures { result ≡ streams_follow None streams.now }
{
    let mut last = None;
    for selected in streams {
        if !stream_follows(selected, last) {
            return false;
        }
        last = Some(selected);
    }
    true
}

/// Whether a stream comes after the last one, its days ascend, and each has a reading for each interval.
fn stream_follows(selected: &SelectedStream, last: Option<&SelectedStream>) -> bool
    ensures { result ≡ stream_follows (option_map (λ last. last.now) last.entry) selected.now }
{
    is_after(selected, last) && days_follow(&selected.days)
}

/// Whether a stream comes after the last one, if there is one.
fn is_after(selected: &SelectedStream, last: Option<&SelectedStream>) -> bool
    ensures { result ≡ is_after (option_map (λ last. last.now) last.entry) selected.now }
{
    match last {
        Some(last) => last.stream.cmp(&selected.stream).is_lt(),
        None => true,
    }
}

/// Whether days ascend, and each has a reading for each interval.
fn days_follow(days: &[SelectedDay]) -> bool
    ensures { result ≡ days_follow None days.now }
{
    let mut last = None;
    for day in days {
        if !day_follows(day, last) {
            return false;
        }
        last = Some(day);
    }
    true
}

/// Whether a day comes after the last one, if there is one, and has a reading for each interval.
fn day_follows(day: &SelectedDay, last: Option<&SelectedDay>) -> bool
    ensures { result ≡ day_follows (option_map (λ last. last.now) last.entry) day.now }
{
    let has_all = day.readings.len() == day.length.count();
    match last {
        Some(last) => last.date < day.date && has_all,
        None => has_all,
    }
}

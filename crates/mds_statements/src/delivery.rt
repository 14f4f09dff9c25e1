//! All that a NEM12 file states.

ghost use Rattle.std.specs.Prelude.{◌≡◌, ◌↔◌, IfNone, IfSome, IsTrue};
ghost use Rattle.mds_statements.specs.Orderly.{AreOrderly};

use crate::blocks::{Block, DeliveredDay, Header};

/// What a NEM12 file states, in the order of its lines. Its days are on ascending lines, and each has a reading for each
/// interval of its length.
#[derive(Drop)]
pub struct Delivery {
    pub header: Header,
    /// One for each 200 record.
    pub blocks: Vec<Block>,
    pub ghost orderly: { AreOrderly blocks.items },
}

impl Delivery {
    /// A delivery of these blocks under a header. `None` if the days aren't on ascending lines, or one of them doesn't
    /// have a reading for each interval.
    pub fn new(header: Header, blocks: Vec<Block>) -> Option<Delivery>
        ensures some { IfSome result (λ delivery. (delivery.header ≡ header) × (delivery.blocks ≡ blocks)) }
        ensures none { IfNone result (AreOrderly blocks.items → ⊥) }
    {
        if !are_orderly(&blocks) {
            return None;
        }
        Some(Delivery { header, blocks })
    }
}

ghost use Rattle.mds_statements.specs.OrderlySteps.{day_follows, days_follow, is_after, last_line};

/// Whether the days of blocks are on ascending lines, and each has a reading for each interval.
fn are_orderly(blocks: &[Block]) -> bool
    ensures { IsTrue result ↔ AreOrderly blocks.now }
{
    let mut last = None;
    for block in blocks {
        if !days_follow(&block.days, last, block.length.count()) {
            return false;
        }
        last = last_line(&block.days, last);
    }
    true
}

/// Whether days follow the line `before`: they are on ascending lines after it, and each has `count` readings.
fn days_follow(days: &[DeliveredDay], before: Option<u64>, count: usize) -> bool
    ensures { result ≡ days_follow count before days.now }
{
    let mut last = before;
    for day in days {
        if !day_follows(day, last, count) {
            return false;
        }
        last = Some(day.line);
    }
    true
}

/// Whether a day comes after the last line, and has `count` readings.
fn day_follows(day: &DeliveredDay, last: Option<u64>, count: usize) -> bool
    ensures { result ≡ day_follows count last day.now }
{
    is_after(last, day.line) && day.readings.len() == count
}

/// Whether a line comes after the last line, if there is one.
fn is_after(last: Option<u64>, line: u64) -> bool
    ensures { result ≡ is_after last line }
{
    match last {
        Some(last) => last < line,
        None => true,
    }
}

/// The line of the last of these days, or `before` if there are none.
fn last_line(days: &[DeliveredDay], before: Option<u64>) -> Option<u64>
    ensures { result ≡ last_line before days.now }
{
    match days.last() {
        Some(day) => Some(day.line),
        None => before,
    }
}

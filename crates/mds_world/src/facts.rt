//! What facts are about.

ghost use Rattle.std.specs.Prelude.{◌≡◌};
ghost use Rattle.mds_world.specs.Current.{no_details};

use mds_quantity::Unit;
use mds_terms::{Day, Details, Length, Moment, Stream};
use std::alloc::Global;
use std::cmp::Ordering;

/// A day of a stream. Ordered by the stream, and then by the day.
#[derive(Clone, Copy, PartialEq, Eq)]
pub struct StreamDay {
    pub stream: Stream,
    pub day: Day,
}

impl PartialOrd for StreamDay {
    ghost use Rattle.std.proofs.Common.{rules};
    ghost use Rattle.std.specs.Cmp.{partial_order_from_own_ties, partial_order_from_total};
    ghost use Rattle.std.specs.Ordering.{as_partial_cmp};
    ghost use Rattle.std.specs.Cmp.Rules.{comparing};
    ghost use Rattle.mds_world.specs.StreamDays.{stream_day_cmp, stream_day_total};

    ghost partial_cmp = { as_partial_cmp stream_day_cmp };

    ghost laws = { partial_order_from_own_ties (partial_order_from_total stream_day_total) (Prim.search (comparing, rules)) };

    fn partial_cmp(&self, other: &StreamDay) -> Option<Ordering> {
        Some(self.cmp(other))
    }
}

impl Ord for StreamDay {
    ghost use Rattle.std.proofs.Common.{rules};
    ghost use Rattle.std.specs.Cmp.Rules.{comparing};
    ghost use Rattle.std.specs.Prelude.{refl};
    ghost use Rattle.mds_world.specs.StreamDays.{stream_day_cmp, stream_day_total};

    ghost cmp = { stream_day_cmp };

    ghost total = { stream_day_total };

    ghost matches_partial_cmp = { λ _ _. refl };

    ghost matches_eq = { Prim.search (comparing, rules) };

    // Days that meet in a map are mostly of one stream. Testing two streams for equality is fast; ordering them goes byte by byte.
    fn cmp(&self, other: &StreamDay) -> Ordering {
        if self.stream == other.stream {
            self.day.cmp(&other.day)
        } else {
            self.stream.cmp(&other.stream)
        }
    }
}

/// The head of a known day under an update: the length of its intervals under it, and the unit of the day.
#[derive(Clone, Copy)]
pub struct Head {
    pub stream: Stream,
    pub day: Day,
    pub update: Moment,
    pub length: Length,
    pub unit: Unit,
}

/// The key of a version of a reading. It has an interval of a day, numbered from 1, the length of the intervals, and the update.
#[derive(Clone, Copy)]
pub struct Key {
    pub stream: Stream,
    pub day: Day,
    pub length: Length,
    pub interval: u16,
    pub update: Moment,
}

/// The details of a day of a stream, with the moment of the header that they came under.
#[derive(Drop)]
pub struct Detail {
    pub stream: Stream,
    pub day: Day,
    pub moment: Moment,
    pub details: Details,
}

/// Details with five empty fields, for an unknown meter. Takes no memory.
#[tactic(auto, unfolding(mds_terms::specs::Details::details_of))]
pub fn empty_details(alloc: Global) -> Details
    ensures { result ≡ no_details }
{
    Details::read(alloc, b"", b"", b"", b"", b"")
        .unwrap()
        .unwrap()
}

//! What the words of a query ask for that come with a target.

ghost use Rattle.std.specs.Prelude.{◌≡◌, ◌≢◌, [], MatchResult, map};
ghost use Rattle.mds_requests.specs.QuerySteps.{texts_of};
ghost use Rattle.mds_requests.specs.Targets.{AskForQueryAt, AskForQueryBy, AsksNothing};
ghost use Rattle.mds_requests.specs.TargetSteps.{IsBad};
ghost use Rattle.mds_wire.specs.Routes.{part};

use crate::query::Query;
use crate::targets::TargetFault;
use mds_arguments::{FoundWords, QueryName, found_request};
use mds_messages::Request;
use mds_wire::first_part;

/// Finds words in the pairs of a query: each is the value of a name that occurs once.
#[derive(Drop)]
struct PairWords<'q, 'a> {
    pairs: &'q Query<'a>,
}

impl<'q, 'a> FoundWords<'q> for PairWords<'q, 'a> {
    ghost use Rattle.mds_requests.specs.Queries.{only, values_named};
    ghost use Rattle.mds_requests.specs.QuerySteps.{texts_of};

    ghost word_of = { λ found name. only (values_named name (texts_of found.pairs.now)) };

    fn find(&self, name: &str) -> Option<&'q [u8]> {
        self.pairs.value(name)
    }
}

/// Finds words in a path: each is a part behind the name of the route. The path is split once for all of them.
#[derive(Clone, Copy)]
struct PathWords<'p> {
    path: &'p [u8],
    nmi: &'p [u8],
    suffix: &'p [u8],
    date: &'p [u8],
    interval: &'p [u8],
    ghost third: { nmi.now ≡ part 3 path.now },
    ghost fourth: { suffix.now ≡ part 4 path.now },
    ghost fifth: { date.now ≡ part 5 path.now },
    ghost sixth: { interval.now ≡ part 6 path.now },
}

impl<'p> PathWords<'p> {
    /// The words in a path.
    fn of(path: &'p [u8]) -> PathWords<'p>
        ensures { result.path.now ≡ path.now }
    {
        let front = first_part(path);
        let version = first_part(front.1);
        let name = first_part(version.1);
        let nmi = first_part(name.1);
        let suffix = first_part(nmi.1);
        let date = first_part(suffix.1);
        let interval = first_part(date.1);
        PathWords {
            path,
            nmi: nmi.0,
            suffix: suffix.0,
            date: date.0,
            interval: interval.0,
        }
    }
}

impl<'p> FoundWords<'p> for PathWords<'p> {
    ghost use Rattle.mds_requests.specs.Targets.{word_at};

    ghost word_of = { λ found name. word_at found.path.now name };

    fn find(&self, name: &str) -> Option<&'p [u8]> {
        match name {
            "nmi" => Some(self.nmi),
            "suffix" => Some(self.suffix),
            "date" => Some(self.date),
            "interval" => Some(self.interval),
            _ => None,
        }
    }
}

/// The request for a query whose words are in pairs. Each required name occurs once, each optional name at most once, and no other.
pub(crate) fn asked_by_pairs(
    query: QueryName,
    required: &[&str],
    optional: &[&str],
    pairs: &Query<'_>,
) -> Result<Request, TargetFault>
    ensures { MatchResult result
        (AskForQueryBy query (map (λ name. name.now) required.now) (map (λ name. name.now) optional.now) (texts_of pairs.now))
        (AsksNothing (texts_of pairs.now ≢ [])
        (AskForQueryBy query (map (λ name. name.now) required.now) (map (λ name. name.now) optional.now) (texts_of pairs.now))) }
{
    if !pairs.has_names(required, optional) {
        return Err(TargetFault::Bad);
    }
    Ok(found_request(query, &PairWords { pairs })?)
}

/// The request for a query whose words are the parts of a path.
pub(crate) fn asked_by_path(query: QueryName, path: &[u8]) -> Result<Request, TargetFault>
    ensures { MatchResult result (AskForQueryAt query path.now) (IsBad (AskForQueryAt query path.now)) }
{
    asked_by_words(query, &PathWords::of(path))
}

/// The request for a query whose words were found in a path.
fn asked_by_words(query: QueryName, words: &PathWords<'_>) -> Result<Request, TargetFault>
    ensures { MatchResult result (AskForQueryAt query words.now.path.now) (IsBad (AskForQueryAt query words.now.path.now)) }
{
    Ok(found_request(query, words)?)
}

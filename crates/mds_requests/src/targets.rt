//! The request that a target and a body ask for.

ghost use Rattle.std.specs.Prelude.{◌≡◌, ◌≢◌, [], MatchResult};
ghost use Rattle.mds_requests.specs.QuerySteps.{texts_of};
ghost use Rattle.mds_requests.specs.Targets.{AskForQueryBy, AsksAt, AsksBy, AsksNothing, IsFaultAt, IsFaultBy, range_names};

use crate::bodies::{file_asked, import_asked};
use crate::exports::export_asked;
use crate::files::{FileCommand, RequestFault};
use crate::query::Query;
use crate::words::{asked_by_pairs, asked_by_path};
use mds_arguments::{Argument, QueryName};
use mds_messages::Request;
use mds_wire::{Route, path_of, query_of};
use std::alloc::{AllocError, Global};

/// Why a target and a body have no request.
#[derive(Clone, Copy)]
pub enum TargetFault {
    /// A part of the path, the query or the JSON body is bad.
    Bad,
    /// The body is no list of holidays: the row with this number, from 1, is the first that differs (H1).
    BadHolidays(u64),
    /// There was no memory.
    Memory,
}

impl From<Argument> for TargetFault {
    ghost use Rattle.mds_requests.specs.declared.targets.TargetFault.TheVariants as fault;

    ghost from_gives = { λ _ reason. reason ≡ fault.Bad };

    fn from(_: Argument) -> TargetFault {
        TargetFault::Bad
    }
}

impl From<AllocError> for TargetFault {
    ghost use Rattle.mds_requests.specs.declared.targets.TargetFault.TheVariants as fault;

    ghost from_gives = { λ _ reason. reason ≡ fault.Memory };

    fn from(_: AllocError) -> TargetFault {
        TargetFault::Memory
    }
}

impl From<RequestFault> for TargetFault {
    ghost use Rattle.mds_requests.specs.TargetSteps.{fault_of};

    ghost from_gives = { λ of_file reason. reason ≡ fault_of of_file };

    fn from(of_file: RequestFault) -> TargetFault {
        match of_file {
            RequestFault::BadJob => TargetFault::Bad,
            RequestFault::BadHolidays(row) => TargetFault::BadHolidays(row),
            RequestFault::Memory => TargetFault::Memory,
        }
    }
}

/// The request that a target and a body ask for, by the route of the target's path. Memory is needed only for a query with a
/// pair, a job in UTF-8 and a list of holidays. An empty body needs none.
pub fn request_at(
    alloc: Global,
    route: Route,
    target: &[u8],
    body: Vec<u8>,
) -> Result<Request, TargetFault>
    ensures { MatchResult result (AsksAt route target.now body.items) (IsFaultAt route target.now body.items) }
{
    let query = Query::read(alloc, query_of(target))?;
    request_by(alloc, route, path_of(target), &query, body)
}

/// The request that a path, a query and a body ask for.
fn request_by(
    alloc: Global,
    route: Route,
    path: &[u8],
    query: &Query<'_>,
    body: Vec<u8>,
) -> Result<Request, TargetFault>
    ensures { MatchResult result (AsksBy route path.now (texts_of query.now) body.items)
        (IsFaultBy route path.now (texts_of query.now) body.items) }
{
    // decides: which request does a target ask for?
    match route {
        Route::Imports => import_asked(alloc, query, body),
        Route::Gaps => asked_of_range(QueryName::Gaps, query),
        Route::Finals => asked_of_range(QueryName::Finals, query),
        Route::Readings => asked_of_range(QueryName::Readings, query),
        Route::Missing => asked_by_pairs(QueryName::Missing, &["from", "to"], &["since"], query),
        Route::Exports => export_asked(alloc, query),
        // The other routes take no query.
        _ if !query.is_empty() => Err(TargetFault::Bad),
        Route::Substitutions => file_asked(alloc, FileCommand::Substitute, body),
        Route::Holidays => file_asked(alloc, FileCommand::Holidays, body),
        Route::Streams => Ok(Request::Streams),
        Route::Days => asked_by_path(QueryName::Day, path),
        Route::Versions => asked_by_path(QueryName::Versions, path),
        Route::Periods => asked_by_path(QueryName::Periods, path),
    }
}

/// The request for a query of a range of days, whose names are all required.
fn asked_of_range(query: QueryName, pairs: &Query<'_>) -> Result<Request, TargetFault>
    ensures { MatchResult result (AskForQueryBy query range_names [] (texts_of pairs.now))
        (AsksNothing (texts_of pairs.now ≢ []) (AskForQueryBy query range_names [] (texts_of pairs.now))) }
{
    asked_by_pairs(query, &["nmi", "suffix", "from", "to"], &[], pairs)
}

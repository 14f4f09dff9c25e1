//! Queries of a store, if their arguments are good.

use crate::cause::Cause;
use crate::commands;
use crate::why::Why;
use mds_arguments::{
    ArgumentsFault, ExportArguments, QueryName, QueryWords, export_request, query_request,
};
use mds_desk::Outcome;

/// Asks a store for a query, if its words are good.
pub(crate) fn ask_query(
    rt: &HostRuntime,
    store: &str,
    query: QueryName,
    words: &QueryWords<'_>,
    why: &mut Why,
) -> Outcome {
    match query_request(query, words) {
        Ok(request) => commands::query(rt, store, &request, why),
        Err(argument) => Outcome::BadArgument(argument),
    }
}

/// Asks a store for an export.
pub(crate) fn query_export(
    rt: &HostRuntime,
    store: &str,
    arguments: &ExportArguments<'_>,
    why: &mut Why,
) -> Outcome {
    match export_request(rt.alloc(), arguments) {
        Ok(request) => commands::query(rt, store, &request, why),
        Err(ArgumentsFault::Bad(argument)) => Outcome::BadArgument(argument),
        Err(ArgumentsFault::Memory) => {
            why.put(Cause::NoMemory);
            Outcome::Unavailable
        }
    }
}

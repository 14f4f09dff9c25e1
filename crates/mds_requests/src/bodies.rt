//! What a body asks for.

ghost use Rattle.std.specs.Prelude.{◌≡◌, ◌≢◌, ◌↔◌, [], ◌∷◌, IfOk, IsTrue, MatchResult, OnErr};
ghost use Rattle.mds_requests.specs.Asking.{Asks};
ghost use Rattle.mds_requests.specs.QuerySteps.{texts_of};
ghost use Rattle.mds_requests.specs.Queries.{pairs_of};
ghost use Rattle.mds_requests.specs.Targets.{AskForImportBy, AsksNothing, ImportsIntervalData, kind_asked, kind_named};
ghost use Rattle.mds_requests.specs.TargetSteps.{IsFileFault};
ghost use Rattle.mds_wire.specs.Judging.{query_of};

use crate::files::{FileCommand, request_in};
use crate::query::Query;
use crate::targets::TargetFault;
use mds_messages::Request;
use mds_records::FileKind;
use mds_wire::{Route, query_of};
use std::alloc::{AllocError, Global};

/// The request for an import of the kind that a query names.
pub(crate) fn import_asked(
    alloc: Global,
    query: &Query<'_>,
    body: Vec<u8>,
) -> Result<Request, TargetFault>
    ensures { MatchResult result (AskForImportBy (texts_of query.now) body.items)
        (AsksNothing (texts_of query.now ≢ []) (AskForImportBy (texts_of query.now) body.items)) }
{
    match kind_asked(query) {
        Some(kind) => file_asked(alloc, FileCommand::Import(kind), body),
        None => Err(TargetFault::Bad),
    }
}

/// Whether a target asks for an import of interval data, whatever the body is. Such a body may be read as it comes. It fails only
/// if memory is refused, and never without a query.
pub fn imports_interval_data(alloc: Global, route: Route, target: &[u8]) -> Result<bool, AllocError>
    ensures ok { IfOk result (λ is. IsTrue is ↔ ImportsIntervalData route target.now) }
    ensures err { OnErr result (pairs_of (query_of target.now) ≢ []) }
{
    if !matches!(route, Route::Imports) {
        return Ok(false);
    }
    let query = Query::read(alloc, query_of(target))?;
    let kind = kind_asked(&query);
    Ok(matches!(kind, Some(FileKind::Nem12)))
}

/// The kind of file whose import a query asks for: interval data if it has no pair. `None` if it asks for no import.
fn kind_asked(query: &Query<'_>) -> Option<FileKind>
    ensures { result ≡ kind_asked (texts_of query.now) }
{
    if !query.has_only(&[], &["kind"]) {
        return None;
    }
    if query.is_empty() {
        return Some(FileKind::Nem12);
    }
    match query.value("kind") {
        Some(name) => kind_of(name),
        None => None,
    }
}

/// The kind of file with this name.
fn kind_of(name: &[u8]) -> Option<FileKind>
    ensures { result ≡ kind_named (name.now ∷ []) }
{
    if name == b"nem12".as_slice() {
        return Some(FileKind::Nem12);
    }
    if name == b"nem13".as_slice() {
        return Some(FileKind::Nem13);
    }
    None
}

/// The request that a body says.
pub(crate) fn file_asked(
    alloc: Global,
    command: FileCommand,
    body: Vec<u8>,
) -> Result<Request, TargetFault>
    ensures { MatchResult result (Asks command body.items) (IsFileFault command body.items) }
{
    Ok(request_in(alloc, command, body)?)
}

//! What a query for an export asks for.

ghost use Rattle.std.specs.Prelude.{◌≡◌, ℕ, List, MatchOption, MatchResult};
ghost use Rattle.mds_requests.specs.QuerySteps.{texts_of};
ghost use Rattle.mds_requests.specs.Targets.{AskForExportBy, ExportsNothing, SaysExport};

use crate::query::Query;
use crate::targets::TargetFault;
use mds_arguments::{ArgumentsFault, ExportArguments, export_request};
use mds_messages::Request;
use std::alloc::Global;

/// The request for the export that a query says.
pub(crate) fn export_asked(alloc: Global, query: &Query<'_>) -> Result<Request, TargetFault>
    ensures { MatchResult result (AskForExportBy (texts_of query.now)) (ExportsNothing (texts_of query.now)) }
{
    let suffixes = query.values(alloc, "suffix")?;
    let Some(arguments) = export_in(query, suffixes) else {
        return Err(TargetFault::Bad);
    };
    match export_request(alloc, &arguments) {
        Ok(request) => Ok(request),
        Err(ArgumentsFault::Bad(_)) => Err(TargetFault::Bad),
        Err(ArgumentsFault::Memory) => Err(TargetFault::Memory),
    }
}

/// The texts of an export that a query says, with its suffixes.
fn export_in<'q>(query: &'q Query<'_>, suffixes: Vec<&'q [u8]>) -> Option<ExportArguments<'q>>
    ensures { MatchOption result
        ((nmi from to moment sender receiver : List ℕ)
        → ¬ SaysExport (texts_of query.now) nmi from to moment sender receiver)
        (λ export. SaysExport (texts_of query.now) export.nmi.now export.from.now export.to.now export.moment.now
        export.sender.now export.receiver.now × (export.suffixes ≡ suffixes.entry)) }
{
    if !query.has_only(
        &[
            "nmi", "suffix", "from", "to", "moment", "sender", "receiver",
        ],
        &[],
    ) {
        return None;
    }
    Some(ExportArguments {
        nmi: query.value("nmi")?,
        from: query.value("from")?,
        to: query.value("to")?,
        moment: query.value("moment")?,
        sender: query.value("sender")?,
        receiver: query.value("receiver")?,
        suffixes,
    })
}

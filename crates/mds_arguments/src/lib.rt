//! The arguments of a query, as texts: which words are theirs, and which request they ask for.
//!
//! It decides what each argument may be. If several are bad, the first in the order of the command's words is named.
//! Callers: `mds_words` finds the words of commands, and `mdstore` makes requests of them. `mds_requests` does so for queries over HTTP,
//! and `mds_desk` prints the name of a bad argument.
//! Must not change: the names of queries and of arguments, which are commands and printed texts, and the order in which arguments are
//! checked.
#![tactic(auto)]

mod arguments;
mod requests;

pub use arguments::{Argument, ExportArguments, FoundWords, QueryName, QueryWords};
pub use requests::{ArgumentsFault, export_request, found_request, query_request};

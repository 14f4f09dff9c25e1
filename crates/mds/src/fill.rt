//! What a substitution job fills in.

pub use mds_fill::{Context, candidates, fill};

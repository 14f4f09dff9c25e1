//! Substitution jobs: which intervals of which day the holder of a store wants filled in, and by which method.
//!
//! It decides which jobs are bad (M11, `Job::is_bad`), which methods and ids a job may have, and as which text a store
//! keeps a job.
//! Called by `mds_requests`, which reads a job from JSON, by `mds_service` and `mds_fill`, and by the keepers for
//! bodies.
//! Must not change: the body of a job, since rows of `mds_job` hold it (`Bodies.antt`). Two jobs are the same only if
//! all their parts are. Public names are in `mds::versions`.
#![tactic(auto)]

mod body;
mod job;
mod job_id;
mod method;

pub use body::bodies_read_back;
pub use job::{Job, JobManner, JobPlace};
pub use job_id::JobId;
pub use method::Method;

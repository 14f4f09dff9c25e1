//! The rows of substitution jobs.

ghost use Rattle.std.specs.Prelude.{◌≡◌, ◌<◌, ◌≤◌, ◌^◌, IfNone, IfOk, IfSome, IsTrue, OnErr, length, pos, string_bytes};
ghost use Rattle.std.specs.Char.{is_ascii_uppercase};
ghost use Rattle.mds_jobs.specs.Bodies.{IsJobBody, job_in, parts_of};
ghost use Rattle.mds_jobs.specs.Jobs.{content_of};
ghost use Rattle.mds_tables.specs.Stores.{AreRowsOf};
ghost use Rattle.mds_tables.specs.MadeRows.{IsRowOfJob};

use mds_jobs::{Job, JobId};
use mds_keeper::Unavailable;
use std::alloc::Global;

/// What the row of a job holds: its id, its body, and the count of the readings that it made.
#[derive(Drop)]
pub struct JobRow {
    pub(crate) id: JobId,
    pub(crate) body: String,
    pub(crate) count: i64,
}

/// The row of each job, in their order. Unavailable (U1) if there is no memory for their texts. Also for a job that no
/// row holds: its flag is no capital letter, or its count is 2^63 or more.
pub fn job_rows(alloc: Global, jobs: &[(Job, u64)]) -> Result<Vec<JobRow>, Unavailable>
    ensures rows { IfOk result (λ rows. AreRowsOf IsRowOfJob jobs.now rows.items) }
    ensures none { OnErr result (0 < length jobs.now) }
{
    let mut rows = Vec::with_capacity(alloc, jobs.len())?;
    for i in 0..jobs.len() {
        let row = job_row(alloc, &jobs[i])?;
        rows.push(row)?;
    }
    Ok(rows)
}

/// The row of a job.
fn job_row(alloc: Global, job: &(Job, u64)) -> Result<JobRow, Unavailable>
    ensures { IfOk result (IsRowOfJob job.now) }
{
    let Some(count) = count_cell(job) else {
        return Err(Unavailable);
    };
    let body = body_of(alloc, &job.0)?;
    Ok(JobRow {
        id: job.0.id,
        body,
        count,
    })
}

/// The count of a job, if a row can hold the job: its flag is a capital letter, and the count is below 2^63.
fn count_cell(job: &(Job, u64)) -> Option<i64>
    ensures some { IfSome result (λ count. (count ≡ pos job.now.1) × IsTrue (is_ascii_uppercase job.now.0.flag)) }
    ensures none { IfNone result (IsTrue (is_ascii_uppercase job.now.0.flag) → 2 ^ 63 ≤ job.now.1) }
{
    let is_letter = job.0.flag.is_ascii_uppercase();
    if !is_letter {
        return None;
    }
    i64::try_from(job.1).ok()
}

/// The body of a job, which reads back as that job.
fn body_of(alloc: Global, job: &Job) -> Result<String, Unavailable>
    requires { IsTrue (is_ascii_uppercase job.now.flag) }
    ensures is { IfOk result (λ body. IsJobBody (content_of job.now) (string_bytes body)) }
    ensures says { IfOk result (λ body. job_in (parts_of (string_bytes body)) ≡ content_of job.now) }
{
    let mut body = String::new(alloc);
    job.write_body(&mut body)?;
    Ok(body)
}

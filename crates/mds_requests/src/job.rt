//! The reader of a substitution job.

ghost use Rattle.std.specs.Prelude.{◌≡◌, ◌<◌, IfOk, IfSome, IfNone, IsUtf8, MatchOption, OnErr, length};
ghost use Rattle.serde_json.specs.View.{view};
ghost use Rattle.mds_jobs.specs.declared.job.Job.{Job};
ghost use Rattle.mds_requests.specs.JobObjects.{IsJobObject, IsJobText};
ghost use Rattle.mds_requests.specs.JobSteps.{IsManner, IsPlace};

use crate::job_fields::has_job_keys;
use crate::job_parts::{
    day_in, first_in, flag_in, id_in, last_in, length_in, method_in, nmi_in, reason_in, suffix_in,
    unit_in, update_in,
};
use mds_jobs::{Job, JobManner, JobPlace};
use mds_terms::Stream;
use serde_json::Value;
use std::alloc::{AllocError, Global};
use std::str;

/// Reads a substitution job from a JSON text (profile): an object with exactly the keys of a job.
/// `None` if the text is no such object. It fails only if memory is refused: never if the text is empty or isn't UTF-8.
pub fn job_from_json(alloc: Global, text: &[u8]) -> Result<Option<Job>, AllocError>
    ensures found { IfOk result (λ found. MatchOption found
        ((job : Job) → ¬ IsJobText text.now job)
        (λ job. IsJobText text.now job)) }
    ensures memory { OnErr result (IsUtf8 text.now × (0 < length text.now)) }
{
    let Ok(text) = str::from_utf8(text) else {
        return Ok(None);
    };
    // decides: bad job: the text is no substitution job
    match Value::from_str(alloc, text) {
        Ok(value) => job_in(alloc, &value),
        Err(error) => {
            if error.is_memory() {
                Err(AllocError)
            } else {
                Ok(None)
            }
        }
    }
}

/// The job in a value.
fn job_in(alloc: Global, value: &Value) -> Result<Option<Job>, AllocError>
    ensures { IfOk result (λ found. MatchOption found
        ((job : Job) → ¬ IsJobObject (view value.now) job)
        (λ job. IsJobObject (view value.now) job)) }
{
    if !has_job_keys(value) {
        return Ok(None);
    }
    let Some(id) = id_in(value) else {
        return Ok(None);
    };
    let Some(place) = place_in(value) else {
        return Ok(None);
    };
    let Some(manner) = manner_in(value) else {
        return Ok(None);
    };
    let Some(reason) = reason_in(alloc, value)? else {
        return Ok(None);
    };
    Ok(Some(Job::new(id, place, manner, reason)))
}

/// Which intervals the job fills.
fn place_in(value: &Value) -> Option<JobPlace>
    ensures some { IfSome result (λ place. IsPlace (view value.now) place) }
    ensures none { IfNone result ((job : Job) → ¬ IsJobObject (view value.now) job) }
{
    Some(JobPlace {
        stream: Stream {
            nmi: nmi_in(value)?,
            suffix: suffix_in(value)?,
        },
        day: day_in(value)?,
        first: first_in(value)?,
        last: last_in(value)?,
    })
}

/// How the job fills them.
fn manner_in(value: &Value) -> Option<JobManner>
    ensures some { IfSome result (λ manner. IsManner (view value.now) manner) }
    ensures none { IfNone result ((job : Job) → ¬ IsJobObject (view value.now) job) }
{
    Some(JobManner {
        length: length_in(value)?,
        unit: unit_in(value)?,
        method: method_in(value)?,
        flag: flag_in(value)?,
        update: update_in(value)?,
    })
}

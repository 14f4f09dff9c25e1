//! The substitution jobs that are kept in memory.

ghost use Rattle.std.specs.Prelude.{◌≡◌, IfOk, OnOk, map};
ghost use Rattle.std.specs.FinSet as set;
ghost use Rattle.mds_world.specs.World.{IsLawful, union};
ghost use Rattle.mds_keeper.specs.Content.{job_fact};
ghost use Rattle.mds_keeper.specs.Queries.{IsJobOf};
ghost use Rattle.mds_memory.specs.Stored.{AreOfTheirIds, HasPlaces, jobs_world};

use mds_jobs::{Job, JobId};
use std::alloc::AllocError;
use std::collections::BTreeMap;

/// The job with this id, and the count of the readings that it made. `None` if no such job is kept.
pub(crate) fn job_of(
    jobs: &BTreeMap<JobId, Option<(Job, u64)>>,
    id: &JobId,
) -> Result<Option<(Job, u64)>, AllocError>
    requires { AreOfTheirIds jobs.now }
    ensures { IfOk result (IsJobOf (jobs_world jobs.now) id.now) }
{
    match jobs.get(id) {
        Some(kept) => copied(kept),
        None => Ok(None),
    }
}

/// A copy of what a place holds.
fn copied(kept: &Option<(Job, u64)>) -> Result<Option<(Job, u64)>, AllocError>
    ensures { IfOk result (λ copy. copy ≡ kept.now) }
{
    match kept {
        Some((job, count)) => Ok(Some((job.try_clone()?, *count))),
        None => Ok(None),
    }
}

/// Reserves a place for each job. What is kept stays as it is.
pub(crate) fn make_places(
    jobs: &mut BTreeMap<JobId, Option<(Job, u64)>>,
    more: &[(Job, u64)],
) -> Result<(), AllocError>
    ensures same { jobs_world jobs.new ≡ jobs_world jobs.old }
    ensures theirs { AreOfTheirIds jobs.old → AreOfTheirIds jobs.new }
    ensures room { OnOk result (HasPlaces jobs.new more.now) }
{
    for (job, _) in more {
        if !jobs.contains_key(&job.id) {
            jobs.insert(job.id, None)?;
        }
    }
    Ok(())
}

/// Adds jobs to those that are kept. There are places for them.
pub(crate) fn put_jobs(jobs: &mut BTreeMap<JobId, Option<(Job, u64)>>, more: Vec<(Job, u64)>)
    requires room { HasPlaces jobs.old more.items }
    requires theirs { AreOfTheirIds jobs.old }
    requires lawful { IsLawful (union (jobs_world jobs.old) (set.from_list (map job_fact more.items))) }
    ensures theirs { AreOfTheirIds jobs.new }
    ensures put { jobs_world jobs.new ≡ union (jobs_world jobs.old) (set.from_list (map job_fact more.items)) }
{
    for (job, count) in more {
        let id = job.id;
        // Inserting under a key that exists needs no memory.
        let Ok(_) = jobs.insert(id, Some((job, count))) else {
            unreachable!();
        };
    }
}

//! The readings that a job fills in.

ghost use Rattle.std.specs.Prelude.{◌≡◌, length, IfOk, IfErr, Some, Err};
ghost use Rattle.mds_world.specs.World.{World};
ghost use Rattle.mds_keeper.specs.DayMerges.{IfRefused};
ghost use Rattle.mds_jobs.specs.Jobs.{IsBad, content_of};
ghost use Rattle.mds_fill.specs.Fills.{AreSubstitutes, IsContext, IsFillRefusal, IsFree, IsTooLong, LacksAnchor, LacksLikeDay, target_count};
ghost use Rattle.mds_fill.specs.FillSteps.{AreFilled, IsGood, IsSource};

use crate::context::Context;
use crate::sources::{Source, source_of, value_at};
use crate::targets::{blocked, is_good};
use mds_jobs::Job;
use mds_keeper::{Refusal, RefusalCode, Stop};
use mds_quantity::Quantity;
use mds_terms::{Mark, Quality, Reading};
use std::alloc::{AllocError, Global};

/// The readings that a job fills in, one for each interval from its first to its last. Otherwise the first rule that
/// stops it, in this order: M5, M6, M8, M7, M9.
pub fn fill(alloc: Global, job: &Job, context: &Context) -> Result<Vec<Reading>, Stop>
    requires good { IsBad (content_of job.now) → ⊥ }
    ensures count { IfOk result (λ readings. length readings.items ≡ target_count (content_of job.now)) }
    ensures ok { (w : World) → IsContext w (content_of job.now) context.now
        → IfOk result (λ readings. AreSubstitutes w (content_of job.now) readings.items) }
    ensures refused { (w : World) → IsContext w (content_of job.now) context.now
        → IfErr result (λ stop. IfRefused stop (IsFillRefusal w (content_of job.now))) }

    // Memory runs out only if no rule stops the job. The mean alone may still lack a like day.
    ensures memory { (w : World) → IsContext w (content_of job.now) context.now → result ≡ Err Stop.Memory
        → IsFree w (content_of job.now) × (IsTooLong (content_of job.now) → ⊥)
        × (LacksAnchor w (content_of job.now) → ⊥) × (LacksLikeDay w (content_of job.now) → job.now.method ≡ 15) }
{
    // For the proof: its intervals are of its day, and its method and its flag are ones that a job may have.
    is_good(job);
    if let Some(refusal) = blocked(&context.target, job) {
        return Err(Stop::Refused(refusal));
    }
    match source_of(job, context) {
        Ok(source) => readings(alloc, job, context, &source),
        Err(code) => Err(Stop::Refused(Refusal::of_request(code))),
    }
}

/// The readings of the targets by the source of the job, or the refusal that a target has no value on any like day.
fn readings(
    alloc: Global,
    job: &Job,
    context: &Context,
    source: &Source,
) -> Result<Vec<Reading>, Stop>
    requires { IsGood (content_of job.now) }
    ensures count { IfOk result (λ readings. length readings.items ≡ target_count (content_of job.now)) }
    ensures ok { (w : World) → IsContext w (content_of job.now) context.now → IsSource w (content_of job.now) source.now
        → IfOk result (λ readings.
        AreFilled w (content_of job.now) (target_count (content_of job.now)) readings.items) }
    ensures refused { (w : World) → IsContext w (content_of job.now) context.now
        → IsSource w (content_of job.now) source.now → IfErr result (λ stop. IfRefused stop (λ refusal.
        (refusal ≡ record { code = RefusalCode.NoLikeDay; line = 0; field = 0; interval = 0 })
        × LacksLikeDay w (content_of job.now))) }
{
    let count = job.last + 1 - job.first;
    let mut readings = Vec::with_capacity(alloc, usize::from(count))?;
    for interval in job.first..job.last + 1 {
        let Some(value) = value_at(job, context, source, interval) else {
            return Err(Stop::Refused(Refusal::of_request(RefusalCode::NoLikeDay)));
        };
        let reading = substitute(job, value)?;
        readings.push(reading)?;
    }
    Ok(readings)
}

/// The reading of a value with a job's flag, method and reason.
fn substitute(job: &Job, value: Quantity) -> Result<Reading, AllocError>
    requires { IsGood (content_of job.now) }
    ensures { IfOk result (λ reading. (reading.mark ≡ record {
      quality = record { flag = job.now.flag; method = job.now.method };
      reason = job.now.reason;
    }) × (reading.value ≡ Some value)) }
{
    let reason = job.reason.try_clone()?;
    let quality = Quality::new(job.flag, job.method).unwrap();
    let mark = Mark { quality, reason };
    Ok(Reading::new(mark, Some(value)).unwrap())
}

//! The parts of a job, each at its key.

ghost use Rattle.std.specs.Prelude.{◌≡◌, IfOk, IsSome, OnErr, codes};
ghost use Rattle.serde_json.specs.View.{view};
ghost use Rattle.mds_requests.specs.JobFields.{text_at};
ghost use Rattle.mds_requests.specs.JobObjects.{day_in, first_in, flag_in, id_in, last_in, length_in, method_in, nmi_in, reason_in, suffix_in, unit_in, update_in};

use crate::job_fields::{flag_of, number_at, text_at};
use mds_jobs::JobId;
use mds_quantity::Unit;
use mds_terms::{Day, Length, Moment, Nmi, Reason, Suffix};
use serde_json::Value;
use std::alloc::{AllocError, Global};

/// The greatest number of an interval that is read.
const INTERVALS: u64 = 65_535;

/// The greatest length in minutes.
const MINUTES: u64 = 30;

/// The greatest method that is read.
const METHODS: u64 = 255;

/// Its id.
pub(crate) fn id_in(value: &Value) -> Option<JobId>
    ensures { result ≡ id_in (view value.now) }
{
    JobId::read(text_at(value, "id")?.as_bytes())
}

/// Its NMI.
pub(crate) fn nmi_in(value: &Value) -> Option<Nmi>
    ensures { result ≡ nmi_in (view value.now) }
{
    Nmi::read(text_at(value, "nmi")?.as_bytes())
}

/// Its suffix.
pub(crate) fn suffix_in(value: &Value) -> Option<Suffix>
    ensures { result ≡ suffix_in (view value.now) }
{
    Suffix::read(text_at(value, "suffix")?.as_bytes())
}

/// Its day.
pub(crate) fn day_in(value: &Value) -> Option<Day>
    ensures { result ≡ day_in (view value.now) }
{
    Day::read(text_at(value, "date")?.as_bytes())
}

/// Its first interval.
pub(crate) fn first_in(value: &Value) -> Option<u16>
    ensures { result ≡ first_in (view value.now) }
{
    Some(number_at(value, "first", INTERVALS)? as u16)
}

/// Its last interval.
pub(crate) fn last_in(value: &Value) -> Option<u16>
    ensures { result ≡ last_in (view value.now) }
{
    Some(number_at(value, "last", INTERVALS)? as u16)
}

/// The length of its intervals.
pub(crate) fn length_in(value: &Value) -> Option<Length>
    ensures { result ≡ length_in (view value.now) }
{
    Length::from_minutes(number_at(value, "length", MINUTES)? as i64)
}

/// Its unit.
pub(crate) fn unit_in(value: &Value) -> Option<Unit>
    ensures { result ≡ unit_in (view value.now) }
{
    Unit::read(text_at(value, "unit")?.as_bytes())
}

/// Its method.
pub(crate) fn method_in(value: &Value) -> Option<u8>
    ensures { result ≡ method_in (view value.now) }
{
    Some(number_at(value, "method", METHODS)? as u8)
}

/// Its quality flag.
pub(crate) fn flag_in(value: &Value) -> Option<u8>
    ensures { result ≡ flag_in (view value.now) }
{
    flag_of(text_at(value, "flag")?)
}

/// Its reason.
pub(crate) fn reason_in(alloc: Global, value: &Value) -> Result<Option<Reason>, AllocError>
    ensures value { IfOk result (λ reason. reason ≡ reason_in (view value.now)) }
    // Memory is needed only if both texts are there.
    ensures only { OnErr result (IsSome (text_at (codes "code") (view value.now)) × IsSome (text_at (codes "text") (view value.now))) }
{
    let Some(code) = text_at(value, "code") else {
        return Ok(None);
    };
    let Some(text) = text_at(value, "text") else {
        return Ok(None);
    };
    Reason::read(alloc, code.as_bytes(), text.as_bytes())
}

/// Its update.
pub(crate) fn update_in(value: &Value) -> Option<Moment>
    ensures { result ≡ update_in (view value.now) }
{
    Moment::read(text_at(value, "update")?.as_bytes())
}

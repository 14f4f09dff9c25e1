//! What claims add to a day's book.

ghost use Rattle.std.specs.Prelude.{◌≡◌, IfSome};

use mds_keeper::{Additions, Claim, DayBook, Stop};
use mds_quantity::Unit;
use mds_runs::DayReadings;
use mds_terms::{Day, Length, Moment, Reading, Stream};
use std::alloc::Global;

/// Half-hourly readings of quality A: all are 1 except the third.
pub(crate) fn readings_of(alloc: Global, third: &str) -> Option<DayReadings> {
    let mut readings = Vec::new(alloc);
    for i in 0..48 {
        let value = if i == 2 { third } else { "1" };
        let reading = Reading::read(alloc, b"A", b"", b"", value.as_bytes()).ok()??;
        readings.push(reading).ok()?;
    }
    if readings.len() != 48 {
        return None;
    }
    DayReadings::of(alloc, &readings).ok()
}

/// What a line claims of a half-hourly day, under an update in seconds.
fn claim_of(alloc: Global, line: u64, seconds: i64, third: &str) -> Option<Claim>
    ensures { IfSome result (λ claim. claim.line ≡ line) }
{
    let length = Length::from_minutes(30)?;
    let update = Moment::from_seconds(seconds)?;
    let readings = readings_of(alloc, third)?;
    if readings.len() != length.count() {
        return None;
    }
    Some(Claim {
        line,
        length,
        unit: Unit::KWh,
        update,
        readings,
    })
}

/// What two claims of an unknown day add. Line 3 claims it under an update of 10 seconds. Line 9 claims it under another update,
/// with another third reading.
fn plan_of(alloc: Global, seconds: i64) -> Option<Result<Additions, Stop>> {
    let stream = Stream::read(b"NCDE001111", b"E1")?;
    let day = Day::read(b"20240101")?;
    let book = DayBook::new(stream, day, None, Vec::new(alloc))?;
    let claims = [
        claim_of(alloc, 3, 10, "1")?,
        claim_of(alloc, 9, seconds, "2")?,
    ];
    Some(book.plan(alloc, &claims))
}

/// What they add, as a text: how many heads of new days, further heads, days and rows there are, and the row at place 50. If they
/// are refused, it says why.
fn told(alloc: Global, seconds: i64) -> Option<String> {
    let added = match plan_of(alloc, seconds)? {
        Ok(added) => added,
        Err(Stop::Refused(refusal)) => return format!(in alloc; "{refusal}").ok(),
        Err(Stop::Memory) => return None,
    };
    let new_days = added.new_days.len();
    let heads = added.heads.len();
    let days = added.days.len();
    let mut rows = Vec::new(alloc);
    for day in added.days {
        day.rows.append_to(&mut rows).ok()?;
    }
    let (interval, version) = rows.get(50)?;
    let mut text = format!(in alloc;
        "{} {} {} {} {interval} {} ",
        new_days,
        heads,
        days,
        rows.len(),
        version.update.seconds()
    )
    .ok()?;
    version.reading.write_to(&mut text).ok()?;
    Some(text)
}

#[test]
fn claims_are_planned(rt: HostRuntime) {
    let added = told(rt.alloc(), 20);
    assert!(rt; added.as_deref() == Some("1 1 2 96 3 20 A,,,2"));
    let refused = told(rt.alloc(), 10);
    assert!(rt; refused.as_deref() == Some("M3 line 9 interval 3"));
}

//! The columns of rows, borrowed from the terms that they hold.

ghost use Rattle.std.specs.Prelude.{◌≡◌, ◌≤◌, [], ◌∷◌, take};
ghost use Rattle.sqlite.specs.Values.{bound};
ghost use Rattle.sqlite.specs.declared.types.Value.TheVariants.{Int, Text};
ghost use Rattle.mds_keeper.specs.Content.{detail_on};
ghost use Rattle.mds_tables.specs.Cells as row;

use mds_jobs::JobId;
use mds_keeper::DetailDays;
use mds_statements::PeriodKey;
use mds_terms::{Day, Event, Moment, Stream};
use mds_world::Head;
use sqlite::types::ValueRef;

/// The columns that name a stream.
pub fn stream_cells<'a>(stream: &'a Stream) -> [ValueRef<'a>; 2]
    ensures { bound result ≡ row.stream_cells stream.now }
{
    [
        ValueRef::Text(stream.nmi.text().as_bytes()),
        ValueRef::Text(stream.suffix.text().as_bytes()),
    ]
}

/// The columns that name a day of a stream.
pub fn day_cells<'a>(stream: &'a Stream, day: Day) -> [ValueRef<'a>; 3]
    ensures { bound result ≡ row.day_cells stream.now day }
{
    [
        ValueRef::Text(stream.nmi.text().as_bytes()),
        ValueRef::Text(stream.suffix.text().as_bytes()),
        ValueRef::Int(day.number()),
    ]
}

/// The columns that name a stream, and the first and the last day of a range.
pub fn range_cells<'a>(stream: &'a Stream, first: Day, last: Day) -> [ValueRef<'a>; 4]
    ensures { bound result ≡ row.range_cells stream.now first last }
{
    [
        ValueRef::Text(stream.nmi.text().as_bytes()),
        ValueRef::Text(stream.suffix.text().as_bytes()),
        ValueRef::Int(first.number()),
        ValueRef::Int(last.number()),
    ]
}

/// The columns of a day in mds_head: the day and its unit.
pub fn unit_cells<'a>(head: &'a Head) -> [ValueRef<'a>; 5]
    ensures { bound result ≡ row.unit_cells head.now }
{
    // decides: which rows does a head get?
    [
        ValueRef::Text(head.stream.nmi.text().as_bytes()),
        ValueRef::Text(head.stream.suffix.text().as_bytes()),
        ValueRef::Int(head.day.number()),
        ValueRef::Int(0),
        ValueRef::Text(head.unit.text().as_bytes()),
    ]
}

/// The columns of a head in mds_form: its day, its update and its length.
pub fn form_cells<'a>(head: &'a Head) -> [ValueRef<'a>; 5]
    ensures { bound result ≡ row.form_cells head.now }
{
    // decides: which rows does a head get?
    [
        ValueRef::Text(head.stream.nmi.text().as_bytes()),
        ValueRef::Text(head.stream.suffix.text().as_bytes()),
        ValueRef::Int(head.day.number()),
        ValueRef::Int(head.update.seconds()),
        ValueRef::Int(head.length.minutes()),
    ]
}

/// The columns of details, on one of their days.
pub fn detail_cells<'a>(details: &'a DetailDays, day: Day) -> [ValueRef<'a>; 9]
    ensures { bound result ≡ row.detail_cells (detail_on details.now day) }
{
    [
        ValueRef::Text(details.stream.nmi.text().as_bytes()),
        ValueRef::Text(details.stream.suffix.text().as_bytes()),
        ValueRef::Int(day.number()),
        ValueRef::Int(details.moment.seconds()),
        ValueRef::Text(details.details.configuration().as_bytes()),
        ValueRef::Text(details.details.register().as_bytes()),
        ValueRef::Text(details.details.datastream().as_bytes()),
        ValueRef::Text(details.details.meter().as_bytes()),
        ValueRef::Int(next_cell(details.details.next())),
    ]
}

/// The number of a day, or -1 if it is absent.
fn next_cell(day: Option<Day>) -> i64
    ensures { Int result ≡ row.optional_cell day }
{
    match day {
        Some(day) => day.number(),
        None => -1,
    }
}

/// The columns of an event. The caller passes the text of its transaction code.
pub fn event_cells<'a>(
    event: &'a Event,
    nmi: &'a [u8],
    suffix: &'a [u8],
    letter: &'a [u8],
) -> [ValueRef<'a>; 7]
    requires nmi { nmi.now ≡ event.now.nmi }
    requires suffix { suffix.now ≡ event.now.suffix }
    requires letter { letter.now ≡ row.letter_text event.now.trans }
    ensures { bound result ≡ row.event_cells event.now }
{
    [
        ValueRef::Text(nmi),
        ValueRef::Text(suffix),
        ValueRef::Int(event.day().number()),
        ValueRef::Text(letter),
        ValueRef::Text(event.ticket().as_bytes()),
        ValueRef::Int(moment_cell(event.moment())),
        ValueRef::Text(event.reading().as_bytes()),
    ]
}

/// The seconds of a moment, or -1 if it is absent.
fn moment_cell(moment: Option<Moment>) -> i64
    ensures { Int result ≡ row.optional_cell moment }
{
    match moment {
        Some(moment) => moment.seconds(),
        None => -1,
    }
}

/// The letter of an event's transaction code, and how many letters the code has.
pub fn letter_of(event: &Event) -> ([u8; 1], usize)
    ensures text { take result.1 result.0 ≡ row.letter_text event.now.trans }
    ensures count { result.1 ≤ 1 }
{
    match event.trans() {
        Some(code) => ([code.letter()], 1),
        None => ([0], 0),
    }
}

/// The columns that name an accumulation.
pub fn period_key_cells<'a>(key: &'a PeriodKey) -> [ValueRef<'a>; 6]
    ensures { bound result ≡ row.period_key_cells key.now }
{
    [
        ValueRef::Text(key.stream.nmi.text().as_bytes()),
        ValueRef::Text(key.stream.suffix.text().as_bytes()),
        ValueRef::Text(key.register.text().as_bytes()),
        ValueRef::Int(key.start.seconds()),
        ValueRef::Int(key.finish.seconds()),
        ValueRef::Int(key.update.seconds()),
    ]
}

/// The columns of an accumulation. The caller passes the body.
pub fn period_cells<'a>(key: &'a PeriodKey, body: &'a [u8]) -> [ValueRef<'a>; 7]
    ensures { bound result ≡ row.period_cells key.now body.now }
{
    [
        ValueRef::Text(key.stream.nmi.text().as_bytes()),
        ValueRef::Text(key.stream.suffix.text().as_bytes()),
        ValueRef::Text(key.register.text().as_bytes()),
        ValueRef::Int(key.start.seconds()),
        ValueRef::Int(key.finish.seconds()),
        ValueRef::Int(key.update.seconds()),
        ValueRef::Text(body),
    ]
}

/// The column of a holiday.
pub fn holiday_cells(day: Day) -> [ValueRef<'static>; 1]
    ensures { bound result ≡ row.holiday_cells day }
{
    [ValueRef::Int(day.number())]
}

/// The column that names a job.
pub fn id_cells<'a>(id: &'a JobId) -> [ValueRef<'a>; 1]
    ensures { bound result ≡ Text id.now ∷ [] }
{
    [ValueRef::Text(id.text().as_bytes())]
}

/// The columns of a job. The caller passes the body.
pub fn job_cells<'a>(id: &'a JobId, body: &'a [u8], count: i64) -> [ValueRef<'a>; 3]
    ensures { bound result ≡ row.job_cells id.now body.now count }
{
    [
        ValueRef::Text(id.text().as_bytes()),
        ValueRef::Text(body),
        ValueRef::Int(count),
    ]
}

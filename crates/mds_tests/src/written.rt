//! Rows of a NEM12 file, one by one.

use crate::versions::readings_of;
use mds_export::{DayRow, DetailsRow, HeaderRow, Row, RunRow, write_record};
use mds_quantity::Unit;
use mds_terms::{Day, Details, Length, Mark, Moment, PrintableText, Stream};
use std::alloc::Global;

/// The lines of a row of each kind, from and to one participant. It is a day of half hours with the value 1,
/// except the third with 2.
fn rows_of(alloc: Global, name: PrintableText<'_>) -> Option<Vec<u8>> {
    let moment = Moment::read(b"20240102000000")?;
    let date = Day::read(b"20240101")?;
    let stream = Stream::read(b"NEM1201009", b"E1")?;
    let length = Length::from_minutes(30)?;
    let details = Details::read(alloc, b"E1", b"1", b"N1", b"01009", b"").ok()??;
    let mark = Mark::read(alloc, b"F14", b"53", b"").ok()??;
    let readings = readings_of(alloc, "2")?;
    let header = HeaderRow {
        moment,
        sender: name,
        receiver: name,
    };
    let block = DetailsRow {
        stream,
        details: &details,
        unit: Unit::KWh,
        length,
    };
    let day = DayRow {
        date,
        readings: &readings,
        mark: None,
        update: moment,
    };
    let run = RunRow {
        first: 1,
        last: 48,
        mark: &mark,
    };
    let mut out = Vec::new(alloc);
    write_record(&Row::Header(header), &mut out).ok()?;
    write_record(&Row::Details(block), &mut out).ok()?;
    write_record(&Row::Day(day), &mut out).ok()?;
    write_record(&Row::Run(run), &mut out).ok()?;
    write_record(&Row::End, &mut out).ok()?;
    Some(out)
}

#[test]
fn a_row_of_each_kind_is_written(rt: HostRuntime) {
    let text = match PrintableText::read(b"MDP1") {
        Some(name) => rows_of(rt.alloc(), name),
        None => None,
    };
    let wanted =
        b"100,NEM12,202401020000,MDP1,MDP1\r\n200,NEM1201009,E1,1,E1,N1,01009,kWh,30,\r\n300,20240101,1,1,2,1,1,1,1,1,1,1,1,1,1,1,1,1,1,1,1,1,1,1,1,1,1,1,1,1,1,1,1,1,1,1,1,1,1,1,1,1,1,1,1,1,1,1,1,1,V,,,20240102000000,\r\n400,1,48,F14,53,\r\n900\r\n";
    assert!(rt; text.as_deref() == Some(wanted.as_slice()));
}

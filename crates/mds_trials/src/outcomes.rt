//! The outcome of reading a NEM12 file: all that it states, as a text, or its fault.

use mds_nem12::{Block, DeliveredDay, Delivery, Header, Nem12Fault};
use std::alloc::{AllocError, Global};

/// The outcome of reading a file. Two texts are the same if two deliveries state the same.
pub fn outcome_of(alloc: Global, read: Result<Delivery, Nem12Fault>) -> Result<String, Nem12Fault> {
    match read {
        Ok(delivery) => Ok(delivery_text(alloc, &delivery)?),
        Err(fault) => Err(fault),
    }
}

/// All that a delivery states, in the order of its lines.
fn delivery_text(alloc: Global, delivery: &Delivery) -> Result<String, AllocError> {
    let mut out = String::new(alloc);
    write_header(&delivery.header, &mut out)?;
    for block in &delivery.blocks {
        write_block(block, &mut out)?;
    }
    Ok(out)
}

fn write_header(header: &Header, out: &mut String) -> Result<(), AllocError> {
    header.moment.write_to(out)?;
    write!(
        out,
        ",{},{}\n",
        header.sender.text(),
        header.receiver.text()
    )
}

fn write_block(block: &Block, out: &mut String) -> Result<(), AllocError> {
    write!(out, "{} ", block.line)?;
    block.stream.write_to(out)?;
    out.push(',')?;
    block.details.write_to(out)?;
    out.push(',')?;
    block.length.write_to(out)?;
    write!(out, ",{}\n", block.unit.text())?;
    for day in &block.days {
        write_day(day, out)?;
    }
    Ok(())
}

fn write_day(day: &DeliveredDay, out: &mut String) -> Result<(), AllocError> {
    write!(out, "{} ", day.line)?;
    day.date.write_to(out)?;
    out.push(',')?;
    day.update.write_to(out)?;
    for i in 0..day.readings.len() {
        let reading = day.readings.reading(i)?;
        out.push_str("\nreading ")?;
        reading.write_to(out)?;
    }
    for event in &day.events {
        out.push_str("\nevent ")?;
        event.write_to(out)?;
    }
    out.push('\n')
}

//! Copies of a delivery and of its parts.

ghost use Rattle.std.specs.Prelude.{◌≡◌, ◌+◌, ◌<◌, ℕ, IfOk, OnErr, length};
ghost use Rattle.std.specs.List.{flat_map};
ghost use Rattle.mds_statements.specs.Delivered.{block_statements, day_statements, delivery_statements};
ghost use Rattle.mds_statements.specs.declared.blocks.Block.{Block as ABlock};

use crate::blocks::{Block, DeliveredDay, Header};
use crate::delivery::Delivery;
use mds_terms::Event;
use std::alloc::{AllocError, Global};

impl Delivery {
    /// A copy of the delivery, which states the same. It fails only if memory is refused, and never if both texts of its header
    /// are empty and it has no block.
    pub fn try_clone(&self) -> Result<Delivery, AllocError>
        ensures value { IfOk result (λ delivery. delivery_statements delivery ≡ delivery_statements self.now) }
        ensures full { OnErr result (0 < length self.now.header.sender + length self.now.header.receiver + length self.now.blocks.items) }
    {
        let header = self.header.try_clone()?;
        let blocks = copy_blocks(*self.blocks.allocator(), &self.blocks)?;
        Ok(Delivery { header, blocks })
    }
}

impl Header {
    /// A copy of the header. It fails only if memory is refused, and never if both texts are empty.
    pub fn try_clone(&self) -> Result<Header, AllocError>
        ensures value { IfOk result (λ header. header ≡ self.now) }
        ensures full { OnErr result (0 < length self.now.sender + length self.now.receiver) }
    {
        Ok(Header {
            moment: self.moment,
            sender: self.sender.try_clone()?,
            receiver: self.receiver.try_clone()?,
        })
    }
}

impl Block {
    /// A copy of the block with its days. It fails only if memory is refused, and never if the texts of its details are empty
    /// and it has no day.
    pub fn try_clone(&self) -> Result<Block, AllocError>
        ensures value { IfOk result (λ block. (moment : ℕ) → block_statements moment block ≡ block_statements moment self.now) }
        ensures full { OnErr result (0 < length self.now.details.configuration + length self.now.details.register
            + length self.now.details.datastream + length self.now.details.meter + length self.now.days.items) }
    {
        Ok(Block {
            line: self.line,
            stream: self.stream,
            details: self.details.try_clone()?,
            length: self.length,
            unit: self.unit,
            days: copy_days(*self.days.allocator(), &self.days)?,
        })
    }
}

impl DeliveredDay {
    /// A copy of the day with its readings and events. It fails only if memory is refused, and never if it has neither.
    pub fn try_clone(&self) -> Result<DeliveredDay, AllocError>
        ensures value { IfOk result (λ day. (moment : ℕ) (block : ABlock) → day_statements moment block day ≡ day_statements moment block self.now) }
        ensures full { OnErr result (0 < length self.now.readings + length self.now.events.items) }
    {
        Ok(DeliveredDay {
            line: self.line,
            date: self.date,
            update: self.update,
            readings: self.readings.try_clone(*self.events.allocator())?,
            events: copy_events(*self.events.allocator(), &self.events)?,
        })
    }
}

/// Copies of blocks, in the same order. Takes memory only if there are any.
fn copy_blocks(alloc: Global, blocks: &[Block]) -> Result<Vec<Block>, AllocError>
    ensures value { IfOk result (λ copies. (moment : ℕ)
        → flat_map (block_statements moment) copies.items ≡ flat_map (block_statements moment) blocks.now) }
    ensures full { OnErr result (0 < length blocks.now) }
{
    let mut copies = Vec::with_capacity(alloc, blocks.len())?;
    for block in blocks {
        copies.push(block.try_clone()?)?;
    }
    Ok(copies)
}

/// Copies of days, in the same order. Takes memory only if there are any.
fn copy_days(alloc: Global, days: &[DeliveredDay]) -> Result<Vec<DeliveredDay>, AllocError>
    ensures value { IfOk result (λ copies. (moment : ℕ) (block : ABlock)
        → flat_map (day_statements moment block) copies.items ≡ flat_map (day_statements moment block) days.now) }
    ensures full { OnErr result (0 < length days.now) }
{
    let mut copies = Vec::with_capacity(alloc, days.len())?;
    for day in days {
        copies.push(day.try_clone()?)?;
    }
    Ok(copies)
}

/// Copies of events, in the same order. Takes memory only if there are any.
fn copy_events(alloc: Global, events: &[Event]) -> Result<Vec<Event>, AllocError>
    ensures value { IfOk result (λ copies. copies.items ≡ events.now) }
    ensures full { OnErr result (0 < length events.now) }
{
    let mut copies = Vec::with_capacity(alloc, events.len())?;
    for event in events {
        copies.push(event.try_clone()?)?;
    }
    Ok(copies)
}

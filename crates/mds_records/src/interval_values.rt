//! The values of a day, read once.

ghost use Rattle.std.specs.Prelude.{◌≡◌, ◌*◌, ◌^◌, ◌<◌, ◌≤◌, ◌||◌, [], not, length, map, take, drop, unsigned_abs, if◌then◌else◌, is_some, Some, None, IfOk, IfSome, IfNone, OnSome};
ghost use Rattle.mds_lines.specs.Lines.{fields_of};
ghost use Rattle.mds_records.specs.RecordSteps.{AreValues, first_false, is_empty_or_quantity, is_there};
ghost use Rattle.mds_records.specs.Records.{quantity_in, sum_of};

use mds_quantity::Quantity;
use std::alloc::{AllocError, Global};
use std::marker::Model;

/// The most values of a day: those of intervals of 5 minutes.
const MOST: usize = 288;

/// The length in bytes of a short value with the comma after it.
const SHORT_STEP: usize = 6;

/// The values of a day's intervals, in order. A value is `None` if its field is empty.
#[derive(Drop)]
pub struct IntervalValues {
    slots: Vec<Option<Quantity>>,
    /// How many of the slots belong to a day, from the first on.
    count: usize,
}

impl Model for IntervalValues {
    ghost use Rattle.std.specs.Prelude.{◌≡◌, ◌≤◌, ℤ, List, Option, take, vec_len};

    ghost Value = { List (Option ℤ) };

    ghost view = { λ values. take values.count values.slots.items };

    ghost invariant = { λ values. (vec_len values.slots ≡ 288) × (values.count ≤ 288) };
}

/// The first of the values that aren't quantities.
#[derive(Clone, Copy)]
pub(crate) struct ValueFaults {
    /// The field number of the first that is neither empty nor a quantity.
    pub(crate) bad: Option<usize>,
    /// The field number of the first that is empty.
    pub(crate) empty: Option<usize>,
}

/// What the values of a day amount to, and what follows them.
#[derive(Clone, Copy)]
pub(crate) struct DayValues<'a> {
    /// The text after the comma that ends the values.
    pub(crate) rest: &'a [u8],
    /// Their sum, in millionths.
    pub(crate) sum: i128,
    pub(crate) faults: ValueFaults,
}

/// What the short values at the start of a text amount to.
#[derive(Clone, Copy)]
struct ShortValues {
    /// How many there are.
    count: usize,
    /// Where the next value begins.
    at: usize,
    /// Their sum, in millionths.
    sum: i128,
}

impl IntervalValues {
    /// No values, and room for those of any day. It never takes any other memory.
    pub fn new(alloc: Global) -> Result<IntervalValues, AllocError>
        ensures { IfOk result (λ values. values ≡ []) }
    {
        Ok(IntervalValues {
            slots: vec![in alloc; None; MOST]?,
            count: 0,
        })
    }

    /// The values, at most 288.
    pub fn as_slice(&self) -> &[Option<Quantity>]
        ensures value { result.now ≡ self.now }
        ensures few { length self.now ≤ 288 }
    {
        &self.slots[..self.count]
    }

    /// Reads `count` values at the start of a text, which replace those that it held. `None` if no
    /// field follows them.
    pub(crate) fn read<'a>(&mut self, text: &'a [u8], count: usize) -> Option<DayValues<'a>>
        requires few { (0 < count) × (count ≤ 288) }
        ensures none { IfNone result (length (fields_of text.now) ≤ count) }
        ensures some { IfSome result (λ values. AreValues count (fields_of text.now) values) }
        ensures held { OnSome result (self.new ≡ map quantity_in (take count (fields_of text.now))) }
    {
        let values = read_front(text, &mut self.slots, count)?;
        self.count = count;
        Some(values)
    }
}

impl ValueFaults {
    /// Records the field number of a value that isn't a quantity.
    #[cold]
    #[inline(never)]
    fn note(&mut self, number: usize, is_empty: bool)
        ensures bad { self.new.bad
            ≡ (if is_some self.old.bad || is_empty then self.old.bad else Some number) }
        ensures empty { self.new.empty
            ≡ (if is_some self.old.empty || not is_empty then self.old.empty else Some number) }
    {
        if is_empty {
            self.empty = self.empty.or(Some(number));
        } else {
            self.bad = self.bad.or(Some(number));
        }
    }
}

/// Reads `count` values at the start of a text, one into each slot from the first on. `None` if no
/// field follows them.
fn read_front<'a>(
    text: &'a [u8],
    slots: &mut [Option<Quantity>],
    count: usize,
) -> Option<DayValues<'a>>
    requires few { (0 < count) × (count ≤ length slots.old) × (length slots.old ≤ 288) }
    ensures none { IfNone result (length (fields_of text.now) ≤ count) }
    ensures some { IfSome result (λ values. AreValues count (fields_of text.now) values) }
    ensures held { OnSome result (take count slots.new ≡ map quantity_in (take count (fields_of text.now))) }
{
    read_values(text, &mut slots[..count])
}

/// Reads short values at the start of a text, one into each slot from the first on, up to the first
/// value that isn't short. Most days have no other values. It is kept out of line, so that its loop
/// has all registers.
#[inline(never)]
fn read_short_values(text: &[u8], slots: &mut [Option<Quantity>]) -> ShortValues
    requires few { length slots.old ≤ 288 }
    ensures few { result.count ≤ length slots.old }
    ensures within { result.at ≤ length text.now }
    ensures left { fields_of (drop result.at text.now) ≡ drop result.count (fields_of text.now) }
    ensures held { take result.count slots.new ≡ map quantity_in (take result.count (fields_of text.now)) }
    ensures sum { result.sum ≡ sum_of (take result.count (fields_of text.now)) }
    ensures small { unsigned_abs result.sum ≤ result.count * 10 ^ 18 }
    ensures bad { first_false 3 (map is_empty_or_quantity (take result.count (fields_of text.now))) ≡ None }
    ensures empty { first_false 3 (map is_there (take result.count (fields_of text.now))) ≡ None }
{
    let mut at = 0;
    let mut sum: i128 = 0;
    for k in 0..slots.len() {
        let (_, left) = text.split_at(at);
        let Some(quantity) = Quantity::read_short(left) else {
            return ShortValues { count: k, at, sum };
        };
        slots[k] = Some(quantity);
        sum += i128::from(quantity.millionths());
        at += SHORT_STEP;
    }
    ShortValues {
        count: slots.len(),
        at,
        sum,
    }
}

/// Reads as many values at the start of a text as there are slots, one into each. `None` if no
/// field follows them. It is kept out of line, so that its loop keeps its counters in registers.
#[inline(never)]
fn read_values<'a>(text: &'a [u8], slots: &mut [Option<Quantity>]) -> Option<DayValues<'a>>
    requires few { (0 < length slots.old) × (length slots.old ≤ 288) }
    ensures none { IfNone result (length (fields_of text.now) ≤ length slots.old) }
    ensures some { IfSome result (λ values. AreValues (length slots.old) (fields_of text.now) values) }
    ensures held { OnSome result (slots.new ≡ map quantity_in (take (length slots.old) (fields_of text.now))) }
{
    let front = read_short_values(text, slots);
    let mut at = front.at;
    let mut sum = front.sum;
    let mut faults = ValueFaults {
        bad: None,
        empty: None,
    };
    for k in front.count..slots.len() {
        let (_, left) = text.split_at(at);
        let (value, length) = Quantity::read_field(left);
        match value {
            Ok(quantity) => sum += i128::from(quantity.millionths()),
            Err(_) => faults.note(k + 3, length == 0),
        }
        slots[k] = value.ok();
        let end = at + length;
        if end == text.len() {
            return None;
        }
        at = end + 1;
    }
    let (_, rest) = text.split_at(at);
    Some(DayValues { rest, sum, faults })
}

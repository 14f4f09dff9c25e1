//! A day in progress: a 300 record, and the runs of the 400 records that have followed it.

ghost use Rattle.std.specs.Prelude.{◌≡◌, ◌++◌, ◌∷◌, [], length, None, OnOk, OnErr, IfOk, IsTrue, unsigned_abs, ◌<◌, ◌≤◌, ◌*◌, ◌+◌, ◌^◌, ◌==◌, ◌+ℤ◌, false, fold, option_to_list, is_some, count_by};
ghost use Rattle.std.specs.List.{flat_map};
ghost use Rattle.mds_marks.specs.BorrowedMarks.{mark_value};
ghost use Rattle.mds_marks.specs.Quality.{variable};
ghost use Rattle.mds_marks.specs.Reading.{is_reading};
ghost use Rattle.mds_runs.specs.Runs.{is_in_range};
ghost use Rattle.mds_days.specs.Days.{AreValuesOf, IsWhole, no_day, run_value};
ghost use Rattle.mds_days.specs.Readings.{amounts, leaves_gap, reading_by, readings_of, total};
ghost use Rattle.mds_days.specs.RunFaults.{lacks_value, run_fault};

use mds_marks::flags::{NULL, VARIABLE};
use mds_quantity::Quantity;
use mds_records::{FaultCode, IntervalDataRecord, IntervalEventRecord, IntervalValues};
use mds_runs::{Cover, DayReadings, Run, RunFault, mark_from};
use mds_terms::{Day, Mark, Moment};
use std::alloc::{AllocError, Global};
use std::marker::Model;
use std::mem;

/// A day as stated by its 300 record and the 400 records after it. One `DayData` is kept for all days of a file. So a
/// day takes memory only for its runs and for the texts of reasons.
#[derive(Drop)]
pub struct DayData {
    alloc: Global,
    line: u64,
    date: Day,
    update: Option<Moment>,
    mark: Mark,
    /// The sum of the values, in millionths.
    sum: i128,
    values: IntervalValues,
    cover: Cover,
}

/// How many intervals of a day have a value, and the sum of these values in millionths.
#[derive(Clone, Copy)]
pub struct Tally {
    pub count: usize,
    pub total: i128,
}

impl Model for DayData {
    ghost use Rattle.std.specs.Prelude.{◌≡◌, length, option_to_list};
    ghost use Rattle.std.specs.List.{flat_map};
    ghost use Rattle.mds_days.specs.Days.{DayValue, IsDay};
    ghost use Rattle.mds_days.specs.Readings.{total};

    ghost Value = { DayValue };

    ghost view = { λ d. record {
      line = d.line;
      date = d.date;
      update = d.update;
      mark = d.mark;
      values = d.values;
      runs = d.cover.runs;
    } };

    ghost invariant = { λ d. IsDay (record {
      line = d.line;
      date = d.date;
      update = d.update;
      mark = d.mark;
      values = d.values;
      runs = d.cover.runs;
    }) × (d.cover.count ≡ length d.values) × (d.sum ≡ total (flat_map option_to_list d.values)) };
}

impl DayData {
    /// No day yet: one without intervals. Takes the memory for a day's values.
    pub fn new(alloc: Global) -> Result<DayData, AllocError>
        ensures { IfOk result (λ day. day ≡ no_day) }
    {
        Ok(DayData {
            alloc,
            line: 0,
            date: Day::from_number(0).unwrap(),
            update: None,
            mark: Mark::bare_null(),
            sum: 0,
            values: IntervalValues::new(alloc)?,
            cover: Cover::new(alloc, 0),
        })
    }

    /// Begins the day of the 300 record on line `line`, with the values that were read with it. The values that the day
    /// held before are left in `values`. Takes memory only for the text of a reason. If that is refused, the day and
    /// the values are unchanged.
    pub fn begin(
        &mut self,
        line: u64,
        day: &IntervalDataRecord<'_>,
        values: &mut IntervalValues,
    ) -> Result<(), AllocError>
        requires sum { day.now.sum ≡ total (flat_map option_to_list values.old) }
        requires valued { AreValuesOf (mark_value day.now.mark) values.old }
        ensures done { OnOk result (self.new ≡ record {
          line = line;
          date = day.now.date;
          update = day.now.update;
          mark = mark_value day.now.mark;
          values = values.old;
          runs = [];
        }) }
        ensures left { OnOk result (values.new ≡ self.old.values) }
        ensures kept { OnErr result (self.new ≡ self.old) }
        ensures returned { OnErr result (values.new ≡ values.old) }
        ensures memory { OnErr result (0 < length day.now.mark.reason.text.now) }
    {
        self.mark = day.mark.to_mark(self.alloc)?;
        self.line = line;
        self.date = day.date;
        self.update = day.update;
        self.sum = day.sum;
        self.cover = Cover::new(self.alloc, values.as_slice().len() as u16);
        mem::swap(&mut self.values, values);
        Ok(())
    }

    /// The line of its 300 record.
    pub fn line(&self) -> u64
        ensures { result ≡ self.now.line }
    {
        self.line
    }

    /// Its date.
    pub fn date(&self) -> Day
        ensures { result ≡ self.now.date }
    {
        self.date
    }

    /// When it was updated, if its 300 record states it.
    pub fn update(&self) -> Option<Moment>
        ensures { result ≡ self.now.update }
    {
        self.update
    }

    /// Its number of intervals.
    pub fn count(&self) -> usize
        ensures { result ≡ length self.now.values }
    {
        usize::from(self.cover.count())
    }

    /// Whether it is of variable quality, and its runs leave an interval out (L8).
    pub fn leaves_gap(&self) -> bool
        ensures { result ≡ leaves_gap (length self.now.values) self.now.mark self.now.runs }
    {
        // decides: L8: the runs of a variable day leave an interval out
        self.mark.quality.flag() == VARIABLE && !self.cover.is_full()
    }

    /// Why the run of a 400 record is refused, if it is: L6, L7 or L12, in this order.
    pub fn run_fault(&self, event: &IntervalEventRecord<'_>) -> Option<FaultCode>
        ensures { result
            ≡ run_fault (length self.now.values) self.now.runs self.now.values (run_value event.now) }
    {
        match self.cover.refusal(event.first, event.last) {
            Some(RunFault::Order) => Some(FaultCode::RunOrder),
            Some(_) => Some(FaultCode::RunRange),
            None => {
                // decides: L12: a 400 whose quality isn't N has an interval without a value
                let needs_values = event.mark.quality.flag() != NULL;
                if needs_values && lacks_value(self.values.as_slice(), event.first, event.last) {
                    return Some(FaultCode::NoValue);
                }
                None
            }
        }
    }

    /// Takes the run of a 400 record. After an error nothing has changed.
    pub fn push(&mut self, event: &IntervalEventRecord<'_>) -> Result<(), AllocError>
        requires faultless { run_fault (length self.old.values) self.old.runs self.old.values (run_value event.now)
            ≡ None }
        requires not_variable { (event.now.mark.quality.flag == variable) ≡ false }
        ensures done { OnOk result (self.new
            ≡ record self.old { runs = self.old.runs ++ run_value event.now ∷ [] }) }
        ensures kept { OnErr result (self.new ≡ self.old) }
    {
        let run = Run {
            first: event.first,
            last: event.last,
            mark: event.mark.to_mark(self.alloc)?,
        };
        match self.cover.push(run) {
            Ok(()) => Ok(()),
            Err(_) => Err(AllocError),
        }
    }

    /// The readings of its intervals, in order. It fails only if memory is refused, and takes none if there are no
    /// intervals.
    pub fn readings(&self) -> Result<DayReadings, AllocError>
        requires { IsWhole self.now }
        ensures value { IfOk result (λ readings. readings
            ≡ readings_of (length self.now.values) self.now.mark self.now.runs self.now.values) }
        ensures memory { OnErr result (0 < length self.now.values) }
    {
        let mut readings = DayReadings::with_capacity(self.alloc, self.count())?;
        // decides: which mark and value does an interval have?
        let mut runs = self.cover.runs();
        if runs.is_empty() {
            readings.push_all(&self.mark, self.values.as_slice())?;
            return Ok(readings);
        }
        for (k, value) in self.values.as_slice().iter().enumerate() {
            let (mark, rest) = mark_from(runs, &self.mark, k as u16 + 1);
            runs = rest;
            push_reading(&mut readings, mark, *value)?;
        }
        Ok(readings)
    }

    /// How many intervals have a value after all runs are applied, and the sum of these values.
    pub fn tally(&self) -> Tally
        ensures count { result.count
            ≡ length (amounts (readings_of (length self.now.values) self.now.mark self.now.runs self.now.values)) }
        ensures total { result.total
            ≡ total (amounts (readings_of (length self.now.values) self.now.mark self.now.runs self.now.values)) }
    {
        let mut runs = self.cover.runs();
        if runs.is_empty() {
            return own_tally(&self.mark, self.values.as_slice(), self.sum);
        }
        let mut tally = Tally { count: 0, total: 0 };
        for (k, value) in self.values.as_slice().iter().enumerate() {
            let (mark, rest) = mark_from(runs, &self.mark, k as u16 + 1);
            runs = rest;
            tally.add(mark, *value);
        }
        tally
    }
}

impl Tally {
    /// Adds the value of an interval with a mark, if it has one.
    fn add(&mut self, mark: &Mark, value: Option<Quantity>)
        requires few { self.old.count < 288 }
        requires small { unsigned_abs self.old.total ≤ self.old.count * 10 ^ 18 }
        ensures count { self.new.count
            ≡ self.old.count + length (option_to_list (reading_by mark.now value).value) }
        ensures total { self.new.total ≡ fold (λ sum value. sum +ℤ value) self.old.total
            (option_to_list (reading_by mark.now value).value) }
        ensures small { unsigned_abs self.new.total ≤ self.new.count * 10 ^ 18 }
    {
        if mark.quality.flag() == NULL {
            return;
        }
        if let Some(value) = value {
            self.count += 1;
            self.total += i128::from(value.millionths());
        }
    }
}

/// The tally of a day without runs, from its own mark, its values and their sum. It looks at the values only if the
/// quality is variable.
fn own_tally(own: &Mark, values: &[Option<Quantity>], sum: i128) -> Tally
    requires sum { sum ≡ total (flat_map option_to_list values.now) }
    requires valued { AreValuesOf own.now values.now }
    ensures count { result.count ≡ length (amounts (readings_of (length values.now) own.now [] values.now)) }
    ensures total { result.total ≡ total (amounts (readings_of (length values.now) own.now [] values.now)) }
{
    let flag = own.quality.flag();
    if flag == NULL {
        return Tally { count: 0, total: 0 };
    }
    if flag == VARIABLE {
        return Tally {
            count: count_values(values),
            total: sum,
        };
    }
    Tally {
        count: values.len(),
        total: sum,
    }
}

/// How many intervals have a value.
fn count_values(values: &[Option<Quantity>]) -> usize
    ensures { result ≡ count_by (λ value. is_some value) values.now }
{
    values.iter().filter(|value| value.is_some()).count()
}

/// Whether some interval from `first` to `last` has no value (L12).
fn lacks_value(values: &[Option<Quantity>], first: u16, last: u16) -> bool
    requires { IsTrue (is_in_range (length values.now) first last) }
    ensures { result ≡ lacks_value values.now first last }
{
    let (first, last) = (usize::from(first), usize::from(last));
    values[first - 1..last].iter().any(|value| value.is_none())
}

/// Appends the reading of an interval with a mark and a value field, which go together.
fn push_reading(
    readings: &mut DayReadings,
    mark: &Mark,
    value: Option<Quantity>,
) -> Result<(), AllocError>
    requires few { length readings.old + 1 < 2 ^ 16 }
    requires together { IsTrue (is_reading mark.now.quality.flag (reading_by mark.now value).value) }
    ensures { OnOk result (readings.new ≡ readings.old ++ reading_by mark.now value ∷ []) }
{
    let value = if mark.quality.flag() == NULL {
        None
    } else {
        value
    };
    readings.push(mark, value)
}

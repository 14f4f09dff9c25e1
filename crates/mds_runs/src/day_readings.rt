//! The readings of a day as they are kept: runs of marks, and eight bytes for each value.

ghost use Rattle.std.specs.Prelude.{◌≡◌, ◌≢◌, ◌↔◌, ◌==◌, ◌+◌, ◌-◌, ◌<◌, ◌≤◌, ◌^◌, ℕ, [], ◌∷◌, ◌++◌, IfNone, IfOk, IfSome, IsOk, IsTrue, None, OnErr, OnOk, Some, get_or, length, map, option_map, pos, replicate, unwrap_or, vec_capacity, vec_len};
ghost use Rattle.std.specs.List.{list_all, slice_get};
ghost use Rattle.mds_marks.specs.Quality.{null};
ghost use Rattle.mds_marks.specs.Reading.{ReadingValue, is_lawful, is_reading};
ghost use Rattle.mds_marks.specs.ReadingSteps.{kept_value};
ghost use Rattle.mds_runs.specs.Gaps.{runs_of};
ghost use Rattle.mds_runs.specs.KeptReadings.{AreClose, EndBefore, is_small, lengthened, marks_in, number_of};
ghost use Rattle.mds_runs.specs.Marked.{reading_by};
ghost use Rattle.mds_runs.specs.Runs.{last_end};

use crate::cover::{Run, last_end};
use mds_marks::flags::NULL;
use mds_marks::{Mark, Reading};
use mds_quantity::Quantity;
use std::alloc::{AllocError, Global};
use std::marker::Model;

/// The readings of a day's intervals, in order and at most 65,535. Contracts see them as a list. A day of 48 readings under
/// one mark takes some 420 bytes.
#[derive(Drop)]
pub struct DayReadings {
    /// Runs that hold each interval. Two adjacent ones have different marks.
    runs: Vec<Run>,
    /// The value of each interval in millionths, or 0 if it has no value.
    millionths: Vec<i64>,
}

impl Model for DayReadings {
    ghost use Rattle.std.specs.Prelude.{List};
    ghost use Rattle.mds_marks.specs.Reading.{ReadingValue};
    ghost use Rattle.mds_runs.specs.KeptReadings.{AreKept, readings_kept};

    ghost Value = { List ReadingValue };

    ghost view = { λ r. readings_kept r.runs.items r.millionths.items };

    ghost invariant = { λ r. AreKept r.runs.items r.millionths.items };
}

impl DayReadings {
    /// No readings yet, with room for `count` of them.
    pub fn with_capacity(alloc: Global, count: usize) -> Result<DayReadings, AllocError>
        ensures value { IfOk result (λ readings. readings ≡ []) }
        ensures memory { OnErr result (0 < count) }
    {
        let millionths = Vec::with_capacity(alloc, count)?;
        Ok(DayReadings {
            runs: Vec::new(alloc),
            millionths,
        })
    }

    /// These readings, in this order. It fails only if memory is refused, and only if there is at least one.
    pub fn of(alloc: Global, readings: &[Reading]) -> Result<DayReadings, AllocError>
        requires few { length readings.now < 2 ^ 16 }
        ensures value { IfOk result (λ kept. kept ≡ readings.now) }
        ensures memory { OnErr result (0 < length readings.now) }
    {
        let mut kept = DayReadings::with_capacity(alloc, readings.len())?;
        for reading in readings {
            kept.push(reading.mark(), reading.value())?;
        }
        Ok(kept)
    }

    /// Appends a reading with this mark and this value, which go together. It fails only if memory is refused. After an error
    /// it isn't specified which readings there are.
    pub fn push(&mut self, mark: &Mark, value: Option<Quantity>) -> Result<(), AllocError>
        requires few { length self.old + 1 < 2 ^ 16 }
        requires together { IsTrue (is_reading mark.now.quality.flag value) }
        ensures { OnOk result (self.new ≡ self.old ++ record { mark = mark.now; value = value } ∷ []) }
    {
        self.push_all(mark, &[value])
    }

    /// Appends a reading with this mark for each of these value fields. Under N none has a value. It fails only if memory is
    /// refused. After an error it isn't specified which readings there are.
    pub fn push_all(&mut self, mark: &Mark, values: &[Option<Quantity>]) -> Result<(), AllocError>
        requires few { length self.old + length values.now < 2 ^ 16 }
        requires together { (k : ℕ) → k < length values.now
            → IsTrue (is_reading mark.now.quality.flag (reading_by mark.now (get_or values.now k None)).value) }
        ensures done { OnOk result (self.new ≡ self.old ++ map (reading_by mark.now) values.now) }
        ensures memory { OnErr result (0 < length values.now) }
    {
        if values.is_empty() {
            return Ok(());
        }
        // For the proof: the mark is lawful.
        mark.parts_are_lawful();
        self.millionths.reserve(values.len())?;
        let end = (self.millionths.len() + values.len()) as u16;
        // decides: how are a day's readings stored in memory?
        put_stretch(&mut self.runs, mark, end)?;
        put_values(&mut self.millionths, is_null(mark), values)
    }

    /// The number of readings.
    pub fn len(&self) -> usize
        ensures value { result ≡ length self.now }
        ensures few { result < 2 ^ 16 }
    {
        self.millionths.len()
    }

    /// The law of their parts: each is lawful.
    pub fn are_lawful(&self)
        ensures { IsTrue (list_all is_lawful self.now) }
    {
        let _ = &self.runs;
    }

    /// The mark of the reading at an index.
    pub fn mark(&self, at: usize) -> &Mark
        requires { at < length self.now }
        ensures { (d : ReadingValue) → result.now ≡ (get_or self.now at d).mark }
    {
        mark_at(&self.runs, at)
    }

    /// The value of the reading at an index, if it has one.
    pub fn value(&self, at: usize) -> Option<Quantity>
        requires { at < length self.now }
        ensures { (d : ReadingValue) → result ≡ (get_or self.now at d).value }
    {
        let millionths = self.millionths[at];
        if millionths != 0 {
            return Quantity::from_millionths(millionths);
        }
        zero_under(mark_at(&self.runs, at))
    }

    /// A copy of the reading at an index. Takes memory only for the text of a reason.
    pub fn reading(&self, at: usize) -> Result<Reading, AllocError>
        requires { at < length self.now }
        ensures value { IfOk result (λ reading. (d : ReadingValue) → reading ≡ get_or self.now at d) }
        ensures only { OnErr result ((d : ReadingValue) → 0 < length (get_or self.now at d).mark.reason.text) }
    {
        // For the proof: each reading is lawful.
        self.are_lawful();
        let mark = self.mark(at).try_clone()?;
        Ok(Reading::new(mark, self.value(at)).unwrap())
    }

    /// Whether the reading at an index equals this one.
    pub fn is_at(&self, at: usize, reading: &Reading) -> bool
        requires { at < length self.now }
        ensures { IsTrue result ↔ (slice_get self.now at ≡ Some reading.now) }
    {
        self.mark(at).is_same(reading.mark()) && are_same(self.value(at), reading.value())
    }

    /// The first index at which these readings and others differ. Both have the same number.
    pub fn first_difference(&self, others: &DayReadings) -> Option<usize>
        requires as_many { length self.now ≡ length others.now }
        ensures some { IfSome result (λ at. (slice_get self.now at ≢ slice_get others.now at)
            × ((k : ℕ) → k < at → slice_get self.now k ≡ slice_get others.now k) × (at < length self.now)) }
        ensures none { IfNone result ((k : ℕ) → slice_get self.now k ≡ slice_get others.now k) }
    {
        if have_same_runs(&self.runs, &others.runs) {
            return first_other(&self.millionths, &others.millionths);
        }
        for at in 0..self.millionths.len() {
            if !self.is_same_at(others, at) {
                return Some(at);
            }
        }
        None
    }

    /// The runs of the intervals with one mark. They hold each interval, and two adjacent ones have different marks.
    pub fn runs(&self) -> &[Run]
        ensures { result.now ≡ runs_of 1 (map (λ reading. Some reading.mark) self.now) }
    {
        self.runs.as_slice()
    }

    /// The value of each in millionths, or 0 if it has no value.
    pub fn millionths(&self) -> &[i64]
        ensures { result.now ≡ map (λ reading. unwrap_or reading.value (pos 0)) self.now }
    {
        self.millionths.as_slice()
    }

    /// A copy of each, in order. Takes memory only if there is at least one.
    pub fn to_vec(&self, alloc: Global) -> Result<Vec<Reading>, AllocError>
        ensures value { IfOk result (λ readings. readings.items ≡ self.now) }
        ensures memory { OnErr result (0 < length self.now) }
    {
        let mut readings = Vec::with_capacity(alloc, self.len())?;
        for at in 0..self.len() {
            readings.push(self.reading(at)?)?;
        }
        Ok(readings)
    }

    /// A copy of all of them. Takes memory only if there is at least one.
    pub fn try_clone(&self, alloc: Global) -> Result<DayReadings, AllocError>
        ensures value { IfOk result (λ copy. copy ≡ self.now) }
        ensures memory { OnErr result (0 < length self.now) }
    {
        let mut millionths = Vec::with_capacity(alloc, self.millionths.len())?;
        millionths.extend_from_slice(&self.millionths)?;
        let runs = copied(alloc, &self.runs)?;
        Ok(DayReadings { runs, millionths })
    }

    /// Whether these readings and others are the same at an index.
    fn is_same_at(&self, others: &DayReadings, at: usize) -> bool
        requires here { at < length self.now }
        requires there { at < length others.now }
        ensures { IsTrue result ↔ (slice_get self.now at ≡ slice_get others.now at) }
    {
        self.millionths[at] == others.millionths[at]
            && mark_at(&self.runs, at).is_same(mark_at(&others.runs, at))
    }
}

/// Whether both have the same runs.
fn have_same_runs(one: &[Run], other: &[Run]) -> bool
    ensures { IsTrue result → one.now ≡ other.now }
{
    if one.len() != other.len() {
        return false;
    }
    for k in 0..one.len() {
        if !is_same_run(&one[k], &other[k]) {
            return false;
        }
    }
    true
}

/// Whether both are the same run.
fn is_same_run(one: &Run, other: &Run) -> bool
    ensures { IsTrue result → one.now ≡ other.now }
{
    one.first == other.first && one.last == other.last && one.mark.is_same(&other.mark)
}

/// The first index at which two lists of numbers differ. Both have the same length.
fn first_other(one: &[i64], other: &[i64]) -> Option<usize>
    requires as_many { length one.now ≡ length other.now }
    ensures some { IfSome result (λ at. (slice_get one.now at ≢ slice_get other.now at)
        × ((k : ℕ) → k < at → slice_get one.now k ≡ slice_get other.now k) × (at < length one.now)) }
    ensures none { IfNone result ((k : ℕ) → slice_get one.now k ≡ slice_get other.now k) }
{
    for at in 0..one.len() {
        if one[at] != other[at] {
            return Some(at);
        }
    }
    None
}

/// The mark of the interval at an index. Most days have one run, which is looked at first.
fn mark_at(runs: &[Run], at: usize) -> &Mark
    requires { (count : ℕ) × AreClose 0 runs.now count × (at < count) }
    ensures { slice_get (marks_in 0 runs.now) at ≡ Some result.now }
{
    if let [run, ..] = runs {
        if at < usize::from(run.last) {
            return &run.mark;
        }
    }
    &runs[place_of(runs, at)].mark
}

/// The index of the run that holds the interval at an index.
fn place_of(runs: &[Run], at: usize) -> usize
    requires { (count : ℕ) × AreClose 0 runs.now count }
    ensures { EndBefore runs.now at result }
{
    runs.partition_point(|run| usize::from(run.last) <= at)
}

/// The value kept as zero millionths under a mark.
fn zero_under(mark: &Mark) -> Option<Quantity>
    ensures { result ≡ kept_value mark.now.quality.flag (pos 0) }
{
    if is_null(mark) {
        return None;
    }
    Quantity::from_millionths(0)
}

/// Whether a mark means that there is no value.
fn is_null(mark: &Mark) -> bool
    ensures { result ≡ (mark.now.quality.flag == null) }
{
    mark.quality.flag() == NULL
}

/// Whether two value fields are the same.
fn are_same(one: Option<Quantity>, other: Option<Quantity>) -> bool
    ensures { IsTrue result ↔ (one ≡ other) }
{
    match (one, other) {
        (Some(one), Some(other)) => one.millionths() == other.millionths(),
        (None, None) => true,
        _ => false,
    }
}

/// Gives the intervals after the last run, up to `end`, a mark. If the last run has this mark it is extended. Otherwise they
/// are a run of their own. After an error nothing has changed.
fn put_stretch(runs: &mut Vec<Run>, mark: &Mark, end: u16) -> Result<(), AllocError>
    requires close { AreClose 0 runs.old.items (last_end runs.old.items) }
    requires more { last_end runs.old.items < end }
    ensures close { OnOk result (AreClose 0 runs.new.items end) }
    ensures marks { OnOk result (marks_in 0 runs.new.items
        ≡ marks_in 0 runs.old.items ++ replicate (end - last_end runs.old.items) mark.now) }
    ensures kept { OnErr result (runs.new.items ≡ runs.old.items) }
{
    if ends_with(runs, mark) {
        lengthen(runs, end);
        return Ok(());
    }
    let first = last_end(runs) + 1;
    let mark = mark.try_clone()?;
    make_room(runs)?;
    runs.push(Run {
        first,
        last: end,
        mark,
    })?;
    Ok(())
}

/// Makes room for the first run and no more, as most days have one.
fn make_room(runs: &mut Vec<Run>) -> Result<(), AllocError>
    ensures { runs.new.items ≡ runs.old.items }
{
    if runs.is_empty() {
        return runs.reserve_exact(1);
    }
    Ok(())
}

/// Whether the last of the runs has this mark.
fn ends_with(runs: &[Run], mark: &Mark) -> bool
    ensures { IsTrue result ↔ (option_map (λ run. run.mark) (slice_get runs.now (length runs.now - 1)) ≡ Some mark.now) }
{
    match runs.last() {
        Some(run) => run.mark.is_same(mark),
        None => false,
    }
}

/// Extends the last run up to `end`.
fn lengthen(runs: &mut Vec<Run>, end: u16)
    requires { 0 < length runs.old.items }
    ensures { runs.new.items ≡ lengthened end runs.old.items }
{
    let place = runs.len() - 1;
    runs[place].last = end;
}

/// Appends what is kept of the value fields of one mark, which may be null. With enough room it succeeds.
fn put_values(
    millionths: &mut Vec<i64>,
    is_null: bool,
    values: &[Option<Quantity>],
) -> Result<(), AllocError>
    ensures done { OnOk result (millionths.new.items
        ≡ millionths.old.items ++ map (number_of is_null) values.now) }
    ensures small { OnOk result (IsTrue (list_all (is_small is_null) values.now)) }
    ensures succeeds { vec_len millionths.old + length values.now ≤ vec_capacity millionths.old → IsOk result }
{
    for value in values {
        millionths.push(number_of(is_null, *value))?;
    }
    Ok(())
}

/// What is kept of a value field: its millionths, or 0 if the field is empty or the mark is null.
fn number_of(is_null: bool, value: Option<Quantity>) -> i64
    ensures value { result ≡ number_of is_null value }
    ensures small { IsTrue (is_small is_null value) }
{
    match value {
        Some(value) if !is_null => value.millionths(),
        _ => 0,
    }
}

/// Copies of runs.
fn copied(alloc: Global, runs: &[Run]) -> Result<Vec<Run>, AllocError>
    ensures value { IfOk result (λ copies. copies.items ≡ runs.now) }
    ensures memory { OnErr result (0 < length runs.now) }
{
    let mut copies = Vec::with_capacity(alloc, runs.len())?;
    for run in runs {
        copies.push(Run {
            first: run.first,
            last: run.last,
            mark: run.mark.try_clone()?,
        })?;
    }
    Ok(copies)
}

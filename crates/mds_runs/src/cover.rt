//! Runs, and the cover of a day that they make.

ghost use Rattle.std.specs.Prelude.{◌≡◌, ◌≢◌, ◌↔◌, ◌+◌, ◌-◌, ◌^◌, ◌<◌, ◌≤◌, ℕ, List, [], ◌∷◌, ◌++◌, filter, length, nat_le, replicate, slice_get, Contains, Some, IfOk, IfErr, OnOk, OnErr, IsTrue, not};
ghost use Rattle.std.specs.Option.{unwrap_or};
ghost use Rattle.mds_marks.specs.declared.mark.Mark.{Mark};
ghost use Rattle.mds_runs.specs.Gaps.{runs_of, spread_with_gaps, IsLeastWithGaps, LaysText, over, overlaid};
ghost use Rattle.mds_runs.specs.GapSteps.{stretch_of, first_begun};
ghost use Rattle.mds_runs.specs.RunSteps.{first_mark, runs_from, held_by};
ghost use Rattle.mds_runs.specs.Runs.{holds, is_in_range, AreRuns, AreAscending, run_at, mark_at, spread_of, IsFull, leaves_out, IsLeast, last_end, refusal};
ghost use Rattle.mds_runs.specs.declared.cover.Run.{Run};
ghost use Rattle.mds_runs.specs.declared.cover.RunFault.{RunFault};

use mds_marks::Mark;
use std::alloc::{AllocError, Global};
use std::marker::Model;

/// Intervals `first` to `last` of a day, counted from 1, with one mark (MDFF Specification, the 400
/// record: StartInterval, EndInterval, QualityMethod, ReasonCode and ReasonDescription).
#[derive(Drop)]
pub struct Run {
    pub first: u16,
    pub last: u16,
    pub mark: Mark,
}

/// Why a run is refused: the first of these that applies (profile).
#[derive(Clone, Copy, PartialEq, Eq)]
pub enum RunFault {
    /// It isn't within the day, or ends before it begins (L6).
    Range,
    /// It doesn't begin after the end of the last run (L7).
    Order,
    /// Out of memory.
    Memory,
}

/// Runs in ascending order, no two with a common interval, in a day of at most 65,535 intervals. They need not hold
/// every interval.
#[derive(Drop)]
pub struct Cover {
    count: u16,
    /// How many intervals the runs hold.
    held: u16,
    runs: Vec<Run>,
}

impl Model for Cover {
    ghost use Rattle.std.specs.Prelude.{◌≡◌};
    ghost use Rattle.mds_runs.specs.RunSteps.{held_by};
    ghost use Rattle.mds_runs.specs.Runs.{CoverValue, AreRuns};

    ghost Value = { CoverValue };

    ghost view = { λ cover. record { count = cover.count; runs = cover.runs.items } };

    ghost invariant = { λ cover. AreRuns cover.count cover.runs.items
        × (cover.held ≡ held_by cover.runs.items) };
}

impl Cover {
    /// The cover of a day with `count` intervals, without runs. Takes no memory.
    pub fn new(alloc: Global, count: u16) -> Cover
        ensures { result ≡ record { count = count; runs = [] } }
    {
        Cover {
            count,
            held: 0,
            runs: Vec::new(alloc),
        }
    }

    /// Returns why a run of intervals `first` to `last` is refused, if it is, apart from memory. Either it isn't within
    /// the day (L6), or it doesn't begin after the end of the last run (L7). Looks at the last run alone.
    pub fn refusal(&self, first: u16, last: u16) -> Option<RunFault>
        ensures { result ≡ refusal self.now.count self.now.runs first last }
    {
        // decides: L6: the intervals of a 400 aren't within the day
        if !is_in_range(self.count, first, last) {
            return Some(RunFault::Range);
        }
        // decides: L7: a 400 doesn't begin after the run before it
        if first <= last_end(&self.runs) {
            return Some(RunFault::Order);
        }
        None
    }

    /// Adds a run that is within the day and begins after the end of the last one. Looks at the last run alone. It fails
    /// with the fault of `refusal`, or if memory is refused. After an error nothing has changed, and the run is dropped.
    pub fn push(&mut self, run: Run) -> Result<(), RunFault>
        ensures done { OnOk result (self.new
            ≡ record self.old { runs = self.old.runs ++ run ∷ [] }) }
        ensures taken { OnOk result
            (refusal self.old.count self.old.runs run.first run.last ≡ None) }
        ensures refused { IfErr result (λ fault. fault
            ≡ unwrap_or (refusal self.old.count self.old.runs run.first run.last) RunFault.Memory) }
        ensures kept { OnErr result (self.new ≡ self.old) }
    {
        if let Some(fault) = self.refusal(run.first, run.last) {
            return Err(fault);
        }
        let length = run.last - run.first + 1;
        match self.runs.push(run) {
            Ok(()) => {
                self.held += length;
                Ok(())
            }
            Err(_) => Err(RunFault::Memory),
        }
    }

    /// Its runs, in ascending order, no two with a common interval.
    pub fn runs(&self) -> &[Run]
        ensures value { result.now ≡ self.now.runs }
        ensures lawful { AreRuns self.now.count self.now.runs }
    {
        self.runs.as_slice()
    }

    /// The number of intervals in the day.
    pub fn count(&self) -> u16
        ensures { result ≡ self.now.count }
    {
        self.count
    }

    /// Whether each interval is held by a run. It looks at no run: disjoint runs that hold as many intervals as the day
    /// has hold each of them.
    pub fn is_full(&self) -> bool
        ensures full { IsTrue result ↔ IsFull self.now.count self.now.runs }
        ensures none { result ≡ not (leaves_out self.now.count self.now.runs) }
    {
        self.held == self.count
    }
}

/// Whether intervals `first` to `last` are within a day of `count` intervals, and are at least one.
fn is_in_range(count: u16, first: u16, last: u16) -> bool
    ensures { result ≡ is_in_range count first last }
{
    1 <= first && first <= last && last <= count
}

/// The last interval of the last run, or 0 if there are no runs.
pub(crate) fn last_end(runs: &[Run]) -> u16
    ensures { result ≡ last_end runs.now }
{
    match runs.last() {
        Some(run) => run.last,
        None => 0,
    }
}

/// The mark of an interval, and the runs that later intervals may be in. Runs that end before this interval are skipped.
/// A caller that goes on with the returned runs skips each run once.
pub fn mark_from<'a>(runs: &'a [Run], default: &'a Mark, interval: u16) -> (&'a Mark, &'a [Run])
    requires { AreAscending runs.now }
    ensures mark { result.0.now ≡ mark_at runs.now default.now interval }
    ensures later { (next : ℕ) → interval ≤ next
        → mark_at result.1.now default.now next ≡ mark_at runs.now default.now next }
    ensures left { result.1.now ≡ filter (λ run. nat_le interval run.last) runs.now }
    ensures lawful { AreAscending result.1.now }
{
    // decides: which mark and value does an interval have?
    let left = runs_from(runs, interval);
    (first_mark(left, default, interval), left)
}

/// These runs without those at the start that end before an interval.
fn runs_from(runs: &[Run], interval: u16) -> &[Run]
    ensures { result.now ≡ runs_from runs.now interval }
{
    let mut left = runs;
    while let [run, rest @ ..] = left {
        if interval <= run.last {
            return left;
        }
        left = rest;
    }
    left
}

/// The mark of the first run, or the default if it begins after the interval or there are no runs.
fn first_mark<'a>(runs: &'a [Run], default: &'a Mark, interval: u16) -> &'a Mark
    ensures { result.now ≡ first_mark runs.now default.now interval }
{
    match runs.first() {
        Some(run) if run.first <= interval => &run.mark,
        _ => default,
    }
}

/// The marks of the day's intervals in order. An interval has the mark of the run that holds it, or else the default. It
/// makes one pass over the runs. It fails only if memory is refused, and only for a day that isn't empty.
pub fn spread(alloc: Global, cover: &Cover, default: &Mark) -> Result<Vec<Mark>, AllocError>
    ensures done { IfOk result (λ marks. marks.items
        ≡ spread_of cover.now.count cover.now.runs default.now) }
    ensures full { OnErr result (0 < cover.now.count) }
{
    let mut marks = Vec::with_capacity(alloc, usize::from(cover.count))?;
    for run in &cover.runs {
        fill(&mut marks, default, run.first - 1)?;
        fill(&mut marks, &run.mark, run.last)?;
    }
    fill(&mut marks, default, cover.count)?;
    Ok(marks)
}

/// Appends copies of a mark until there are `count` marks.
fn fill(marks: &mut Vec<Mark>, mark: &Mark, count: u16) -> Result<(), AllocError>
    ensures done { OnOk result (marks.new.items
        ≡ marks.old.items ++ replicate (count - length marks.old.items) mark.now) }
    ensures full { OnErr result (0 < count) }
{
    while marks.len() < usize::from(count) {
        marks.push(mark.try_clone()?)?;
    }
    Ok(())
}

/// The full cover with the fewest runs of a day with these marks, one for each interval and at most 65,535. Each mark is
/// compared with one before it. It fails only if memory is refused, and only for a day that isn't empty.
pub fn gather(alloc: Global, marks: &[Mark]) -> Result<Cover, AllocError>
    requires { length marks.now < 2 ^ 16 }
    ensures count { IfOk result (λ cover. cover.count ≡ length marks.now) }
    ensures lawful { IfOk result (λ cover. AreRuns cover.count cover.runs) }
    ensures whole { IfOk result (λ cover. IsFull cover.count cover.runs) }
    ensures same { IfOk result (λ cover. (default : Mark)
        → spread_of cover.count cover.runs default ≡ marks.now) }
    ensures least { IfOk result (λ cover. IsLeast cover.count cover.runs) }
    ensures full { OnErr result (0 < length marks.now) }
{
    let count = marks.len() as u16;
    let mut runs = Vec::new(alloc);
    let mut place = 0;
    while place < marks.len() {
        let end = end_of_run(marks, place);
        runs.push(Run {
            first: place as u16 + 1,
            last: end as u16,
            mark: marks[place].try_clone()?,
        })?;
        place = end;
    }
    Ok(Cover {
        count,
        held: count,
        runs,
    })
}

/// The index of the first mark after this one that differs from it, or the number of marks.
fn end_of_run(marks: &[Mark], start: usize) -> usize
    requires { start < length marks.now }
    ensures within { (start < result) × (result ≤ length marks.now) }
    ensures alike { (k : ℕ) → start ≤ k → k < result
        → slice_get marks.now k ≡ slice_get marks.now start }
    ensures differs { result < length marks.now
        → slice_get marks.now result ≢ slice_get marks.now start }
{
    let mark = &marks[start];
    for end in start + 1..marks.len() {
        if !marks[end].is_same(mark) {
            return end;
        }
    }
    marks.len()
}

/// The cover with the fewest runs of a list of marks and gaps, one for each interval and at most 65,535. Its runs hold
/// exactly the intervals that have a mark. It fails only if memory is refused, and only for a day that isn't empty.
pub fn gather_some(alloc: Global, marks: &[Option<Mark>]) -> Result<Cover, AllocError>
    requires { length marks.now < 2 ^ 16 }
    ensures count { IfOk result (λ cover. cover.count ≡ length marks.now) }
    ensures lawful { IfOk result (λ cover. AreRuns cover.count cover.runs) }
    ensures same { IfOk result (λ cover. spread_with_gaps cover.count cover.runs ≡ marks.now) }
    ensures least { IfOk result (λ cover. IsLeastWithGaps cover.count cover.runs) }
    ensures value { IfOk result (λ cover. cover.runs ≡ runs_of 1 marks.now) }
    ensures full { OnErr result (0 < length marks.now) }
{
    let count = marks.len() as u16;
    let mut runs = Vec::new(alloc);
    let mut held = 0;
    let mut start = 0;
    while start < marks.len() {
        let end = end_of_stretch(marks, start);
        held += push_stretch(&mut runs, start as u16 + 1, end as u16, &marks[start])?;
        start = end;
    }
    Ok(Cover { count, held, runs })
}

/// Appends the run of intervals `first` to `last` if they have a mark, and returns how many it holds. A gap has no run.
fn push_stretch(
    runs: &mut Vec<Run>,
    first: u16,
    last: u16,
    mark: &Option<Mark>,
) -> Result<u16, AllocError>
    requires { (0 < first) × (first ≤ last) }
    ensures held { IfOk result (λ held. held ≡ held_by (stretch_of first last mark.now)) }
    ensures done { OnOk result (runs.new.items ≡ runs.old.items ++ stretch_of first last mark.now) }
{
    let Some(mark) = mark else {
        return Ok(0);
    };
    let mark = mark.try_clone()?;
    runs.push(Run { first, last, mark })?;
    Ok(last - first + 1)
}

/// The index of the first place after this one that differs from it, or the number of places. A gap differs from each
/// mark.
fn end_of_stretch(marks: &[Option<Mark>], start: usize) -> usize
    requires { start < length marks.now }
    ensures within { (start < result) × (result ≤ length marks.now) }
    ensures alike { (k : ℕ) → start ≤ k → k < result
        → slice_get marks.now k ≡ slice_get marks.now start }
    ensures differs { result < length marks.now
        → slice_get marks.now result ≢ slice_get marks.now start }
{
    let mark = &marks[start];
    for end in start + 1..marks.len() {
        if !are_alike(&marks[end], mark) {
            return end;
        }
    }
    marks.len()
}

/// Whether both are the same mark, or both are gaps.
fn are_alike(one: &Option<Mark>, other: &Option<Mark>) -> bool
    ensures { IsTrue result ↔ (one.now ≡ other.now) }
{
    match (one, other) {
        (Some(one), Some(other)) => one.is_same(other),
        (None, None) => true,
        _ => false,
    }
}

/// Lays a cover over marks and gaps. An interval has the mark of the run that holds it, or else keeps what it had. It
/// makes one pass over both. It fails only if memory is refused, and only if an interval gets a mark with a text. The
/// marks are dropped then.
pub fn overlay(marks: Vec<Option<Mark>>, cover: &Cover) -> Result<Vec<Option<Mark>>, AllocError>
    requires { length marks.items < 2 ^ 16 }
    ensures value { IfOk result (λ new. new.items ≡ overlaid cover.now.runs 1 marks.items) }
    ensures full { OnErr result (0 < length marks.items) }
    ensures only { OnErr result (LaysText cover.now.runs (length marks.items)) }
{
    let mut new = marks;
    set_marks(&mut new, cover.runs.as_slice())?;
    Ok(new)
}

/// Sets the mark of each interval held by a run.
fn set_marks(marks: &mut Vec<Option<Mark>>, runs: &[Run]) -> Result<(), AllocError>
    requires few { length marks.old.items < 2 ^ 16 }
    requires lawful { AreAscending runs.now }
    ensures done { OnOk result (marks.new.items ≡ overlaid runs.now 1 marks.old.items) }
    ensures full { OnErr result (0 < length marks.old.items) }
    ensures only { OnErr result (LaysText runs.now (length marks.old.items)) }
{
    let mut left = runs;
    for k in 0..marks.len() {
        left = runs_from(left, k as u16 + 1);
        set_mark(&mut marks[k], left, k as u16 + 1)?;
    }
    Ok(())
}

/// Sets the mark of an interval to that of the first run, if that run has begun.
fn set_mark(mark: &mut Option<Mark>, runs: &[Run], interval: u16) -> Result<(), AllocError>
    ensures done { OnOk result (mark.new ≡ over (first_begun runs.now interval) mark.old) }
    ensures only { OnErr result ((run : Run) × (first_begun runs.now interval ≡ Some run)
        × (0 < length run.mark.reason.text)) }
{
    if let [run, ..] = runs {
        if run.first <= interval {
            *mark = Some(run.mark.try_clone()?);
        }
    }
    Ok(())
}

/// The law of faults: `==` says whether two are the same. The function does nothing.
pub fn equal_faults()
    ensures { (fault other : RunFault)
        → IsTrue (⟦<RunFault as PartialEq>⟧.eq fault other) ↔ (fault ≡ other) }
{}

/// The laws of the run that holds an interval. At most one of the lawful runs does, and `run_at` finds it. The function
/// does nothing.
pub fn one_run_holds()
    ensures found { (count : ℕ) (runs : List Run) (interval : ℕ) (run : Run)
        → AreRuns count runs → Contains runs run → IsTrue (holds interval run)
        → run_at runs interval ≡ Some run }
    ensures one { (count : ℕ) (runs : List Run) (interval : ℕ) (run other : Run)
        → AreRuns count runs → Contains runs run → Contains runs other
        → IsTrue (holds interval run) → IsTrue (holds interval other) → run ≡ other }
{}

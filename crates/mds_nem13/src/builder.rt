//! Accumulations being built.

ghost use Rattle.std.specs.Prelude.{◌≡◌, ℕ, [], List, OnOk};
ghost use Rattle.mds_records.specs.Records.{IsAccumulationB2bDetails};
ghost use Rattle.mds_nem13.specs.Said.{note_in};

use crate::accumulation::Accumulation;
use crate::content::{write_fields, write_note};
use crate::sink::PeriodSink;
use mds_records::{AccumulationB2bDetailsRecord, AccumulationDataRecord, HeaderRecord};
use mds_statements::PeriodKey;
use mds_terms::{Moment, PrintableString};
use std::alloc::{AllocError, Global};

/// The accumulations that a file has stated so far.
#[derive(Drop)]
pub(crate) struct AccumulationBuilder {
    alloc: Global,
    accumulations: Vec<Accumulation>,
}

impl AccumulationBuilder {
    ghost use Rattle.mds_nem13.specs.BuilderSteps.{IsTold};

    /// The state before the first statement.
    pub(crate) fn new(alloc: Global) -> AccumulationBuilder
        ensures { IsTold result [] }
    {
        AccumulationBuilder {
            alloc,
            accumulations: Vec::new(alloc),
        }
    }

    /// All that was received.
    pub(crate) fn into_accumulations(self) -> Vec<Accumulation>
        ensures { result.items ≡ self.accumulations.items }
    {
        self.accumulations
    }
}

impl PeriodSink for AccumulationBuilder {
    ghost use Rattle.mds_nem13.specs.BuilderSteps.{IsTold};

    ghost told = { IsTold };

    fn header(&mut self, _: &HeaderRecord<'_>) -> Result<(), AllocError> {
        Ok(())
    }

    fn period(
        &mut self,
        line: u64,
        moment: Moment,
        period: &AccumulationDataRecord<'_>,
    ) -> Result<(), AllocError> {
        let register = PrintableString::of(self.alloc, &period.register)?;
        let mut content = String::new(self.alloc);
        write_fields(period, &mut content)?;
        // decides: which update does a 250 without one have?
        let key = PeriodKey {
            stream: period.stream,
            register,
            start: period.previous.moment,
            finish: period.current.moment,
            update: period.update.unwrap_or(moment),
        };
        self.accumulations
            .push(Accumulation { line, key, content })?;
        Ok(())
    }

    fn note(&mut self, note: &AccumulationB2bDetailsRecord<'_>) -> Result<(), AllocError> {
        push_note(&mut self.accumulations, note)
    }
}

ghost use Rattle.mds_nem13.specs.BuilderSteps.{GainsLine, LastBecomes};

/// Appends a note to the content of the last accumulation, if there is one.
fn push_note(
    accumulations: &mut Vec<Accumulation>,
    note: &AccumulationB2bDetailsRecord<'_>,
) -> Result<(), AllocError>
    ensures { (line : List ℕ) → IsAccumulationB2bDetails line note.now → OnOk result
        (LastBecomes (GainsLine (note_in line)) accumulations.old.items accumulations.new.items) }
{
    if let Some(last) = accumulations.last_mut() {
        write_note(note, &mut last.content)?;
    }
    Ok(())
}

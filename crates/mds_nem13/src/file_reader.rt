//! A NEM13 file read record by record: where each record is allowed, and what it states.

ghost use Rattle.std.specs.Prelude.{◌≡◌, ◌+◌, ℕ, List, [], length, true, Ok};
ghost use Rattle.mds_lines.specs.Kinds.{kind_of};
ghost use Rattle.mds_lines.specs.Numbered.{number_of, text_of};
ghost use Rattle.mds_nem13.specs.Answers.{MayLackMemory};
ghost use Rattle.mds_nem13.specs.Faults.{fields_fault, nem13};
ghost use Rattle.mds_nem13.specs.FileReaderSteps.{HasTaken, HasTold, Takes};

use crate::sink::PeriodSink;
use mds_lines::{Kind, Line};
use mds_records::{
    FaultCode, HeaderName, read_accumulation_b2b_details, read_accumulation_data, read_end,
    read_header,
};
use mds_terms::Moment;
use mds_walk::{RecordSink, TakeFault, at_field, at_line};

/// The last record, with the moment of the header if a 250 record may follow.
#[derive(Clone, Copy)]
pub(crate) enum LastRecord {
    /// There is no record yet.
    Nothing,
    /// A 100 record, with this moment.
    Header(Moment),
    /// A 250 record.
    Period(Moment),
    /// A 550 record.
    Note(Moment),
    /// A 900 record.
    End,
}

/// A file as far as its records were taken. Its statements go to a sink.
#[derive(Drop)]
pub struct FileReader<T> {
    sink: T,
    last: LastRecord,
}

impl LastRecord {
    ghost use Rattle.mds_nem13.specs.FileReaderSteps.{last_kind, last_moment};
    ghost use Rattle.mds_nem13.specs.Place.{is_in_place};

    /// Whether a record of a kind may come next.
    fn allows(&self, kind: Kind) -> bool
        ensures { result ≡ is_in_place (last_kind self.now) kind }
    {
        // decides: L3: its record isn't in place
        match self {
            LastRecord::Nothing => matches!(kind, Kind::Header),
            LastRecord::Header(_) => matches!(kind, Kind::AccumulationData | Kind::EndOfData),
            LastRecord::Period(_) | LastRecord::Note(_) => matches!(
                kind,
                Kind::AccumulationData | Kind::AccumulationB2bDetails | Kind::EndOfData
            ),
            LastRecord::End => false,
        }
    }

    /// The moment of the header, if a 250 record may follow.
    fn moment(&self) -> Option<Moment>
        ensures { result ≡ last_moment self.now }
    {
        match self {
            LastRecord::Header(moment) | LastRecord::Period(moment) | LastRecord::Note(moment) => {
                Some(*moment)
            }
            LastRecord::Nothing | LastRecord::End => None,
        }
    }
}

impl<T: PeriodSink + Drop> FileReader<T> {
    ghost use Rattle.mds_nem13.specs.FileReaderSteps.{last_kind, last_moment};
    ghost use Rattle.mds_nem13.specs.Place.{is_in_place};

    /// The state before the first line of a file, whose statements will all go to the sink.
    pub fn new(sink: T) -> FileReader<T>
        requires { T.told sink [] }
        ensures { HasTaken T.told [] result }
    {
        FileReader {
            sink,
            last: LastRecord::Nothing,
        }
    }

    /// Takes a record of a kind, which is in place.
    fn take_fields(&mut self, line: &Line<'_>, kind: Kind) -> Result<(), TakeFault>
        requires known { kind_of (text_of line.now) ≡ Ok kind }
        requires place { is_in_place (last_kind self.old.last) kind ≡ true }
        ensures { (before : List (List ℕ)) → HasTaken T.told before self.old
            → number_of line.now ≡ length before + 1
            → Takes T.told before (text_of line.now) (fields_fault before (text_of line.now) kind) result self.new }
    {
        match kind {
            Kind::Header => self.take_header(line),
            Kind::AccumulationData => self.take_period(line),
            Kind::AccumulationB2bDetails => self.take_note(line),
            Kind::EndOfData => self.take_end(line),
            Kind::NmiDataDetails | Kind::IntervalData | Kind::IntervalEvent | Kind::B2bDetails => {
                unreachable!()
            }
        }
    }

    /// Takes a 100 record.
    fn take_header(&mut self, line: &Line<'_>) -> Result<(), TakeFault>
        requires known { kind_of (text_of line.now) ≡ Ok Kind.Header }
        requires place { is_in_place (last_kind self.old.last) Kind.Header ≡ true }
        ensures { (before : List (List ℕ)) → HasTaken T.told before self.old
            → number_of line.now ≡ length before + 1
            → Takes T.told before (text_of line.now) (fields_fault before (text_of line.now) Kind.Header)
            result self.new }
    {
        match read_header(line.text(), HeaderName::Nem13) {
            Ok(header) => {
                self.sink.header(&header)?;
                self.last = LastRecord::Header(header.moment);
                Ok(())
            }
            Err(fault) => Err(at_field(fault, line)),
        }
    }

    /// Takes a 250 record.
    fn take_period(&mut self, line: &Line<'_>) -> Result<(), TakeFault>
        requires known { kind_of (text_of line.now) ≡ Ok Kind.AccumulationData }
        requires place { is_in_place (last_kind self.old.last) Kind.AccumulationData ≡ true }
        ensures { (before : List (List ℕ)) → HasTaken T.told before self.old
            → number_of line.now ≡ length before + 1
            → Takes T.told before (text_of line.now) (fields_fault before (text_of line.now) Kind.AccumulationData)
            result self.new }
    {
        match read_accumulation_data(line.text()) {
            Ok(period) => {
                let moment = self.last.moment().unwrap();
                self.sink.period(line.number(), moment, &period)?;
                self.last = LastRecord::Period(moment);
                Ok(())
            }
            Err(fault) => Err(at_field(fault, line)),
        }
    }

    /// Takes a 550 record.
    fn take_note(&mut self, line: &Line<'_>) -> Result<(), TakeFault>
        requires known { kind_of (text_of line.now) ≡ Ok Kind.AccumulationB2bDetails }
        requires place { is_in_place (last_kind self.old.last) Kind.AccumulationB2bDetails ≡ true }
        ensures { (before : List (List ℕ)) → HasTaken T.told before self.old
            → number_of line.now ≡ length before + 1
            → Takes T.told before (text_of line.now)
            (fields_fault before (text_of line.now) Kind.AccumulationB2bDetails) result self.new }
    {
        match read_accumulation_b2b_details(line.text()) {
            Ok(note) => {
                let moment = self.last.moment().unwrap();
                self.sink.note(&note)?;
                self.last = LastRecord::Note(moment);
                Ok(())
            }
            Err(fault) => Err(at_field(fault, line)),
        }
    }

    /// Takes a 900 record.
    fn take_end(&mut self, line: &Line<'_>) -> Result<(), TakeFault>
        requires known { kind_of (text_of line.now) ≡ Ok Kind.EndOfData }
        requires place { is_in_place (last_kind self.old.last) Kind.EndOfData ≡ true }
        ensures { (before : List (List ℕ)) → HasTaken T.told before self.old
            → number_of line.now ≡ length before + 1
            → Takes T.told before (text_of line.now) (fields_fault before (text_of line.now) Kind.EndOfData)
            result self.new }
    {
        match read_end(line.text()) {
            Ok(()) => {
                self.last = LastRecord::End;
                Ok(())
            }
            Err(fault) => Err(at_field(fault, line)),
        }
    }
}

impl<T: PeriodSink + Drop> RecordSink for FileReader<T> {
    type Output = T;

    ghost judge = { nem13 };

    ghost taken = { λ reader before. HasTaken T.told before reader };

    ghost made = { HasTold T.told };

    ghost may_lack = { MayLackMemory };

    fn take_empty(&mut self) {}

    fn take_record(&mut self, line: &Line<'_>, kind: Kind) -> Result<(), TakeFault> {
        if !self.last.allows(kind) {
            return Err(at_line(FaultCode::OutOfPlace, line));
        }
        self.take_fields(line, kind)
    }

    fn finish(self) -> Result<T, FaultCode> {
        // decides: L9: the file ends without its end of data
        match self.last {
            LastRecord::End => Ok(self.sink),
            _ => Err(FaultCode::MissingEnd),
        }
    }
}

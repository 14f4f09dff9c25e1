//! The kinds of files, and the faults that a file can have.

ghost use Rattle.std.specs.Prelude.{◌≡◌, ◌↔◌, IsTrue, Some};
ghost use Rattle.mds_records.specs.Printed.{code_text, fault_text};

use crate::header_name::HeaderName;
use std::fmt;

/// The kinds of MDFF files.
#[derive(Clone, Copy, Debug, PartialEq, Eq)]
pub enum FileKind {
    /// Interval data.
    Nem12,
    /// Accumulation data.
    Nem13,
}

impl FileKind {
    ghost use Rattle.mds_records.specs.Layouts.{header_name};
    ghost use Rattle.mds_records.specs.declared.file.FileKind.{FileKind as AFileKind};

    /// A law: `==` says whether two kinds of files are the same.
    pub fn one_equality()
        ensures { (a b : AFileKind) → IsTrue (⟦<FileKind as PartialEq>⟧.eq a b) ↔ (a ≡ b) }
    {}

    /// The name in the headers of such files.
    pub fn header_name(self) -> HeaderName
        ensures { result ≡ header_name self }
    {
        match self {
            FileKind::Nem12 => HeaderName::Nem12,
            FileKind::Nem13 => HeaderName::Nem13,
        }
    }
}

/// What is wrong with a line of a file. Each is printed as its code.
#[derive(Clone, Copy, Debug, PartialEq, Eq)]
pub enum FaultCode {
    /// L1: the line isn't UTF-8.
    NotText,
    /// L2: its first field isn't a record indicator.
    UnknownRecord,
    /// L3: its record isn't in place.
    OutOfPlace,
    /// L4: it has too few fields, or a field past the last that isn't empty.
    FieldCount,
    /// L5: a field isn't what the record's layout says.
    BadField,
    /// L6: the intervals of a 400 aren't within the day, or end before they begin.
    RunRange,
    /// L7: a 400 doesn't begin after the run before it under the same 300.
    RunOrder,
    /// L8: the runs of a variable day leave an interval out.
    RunGap,
    /// L9: the file ends without its end of data.
    MissingEnd,
    /// L10: the line has too many bytes, or the file too many lines.
    TooLarge,
    /// L11: the header is that of the other kind of file.
    WrongFile,
    /// L12: a 400 whose quality isn't N holds an interval without a value.
    NoValue,
}

impl FaultCode {
    ghost use Rattle.mds_records.specs.declared.file.FaultCode.{FaultCode as AFaultCode};

    /// A law: `==` says whether two codes are the same.
    pub fn one_equality()
        ensures { (a b : AFaultCode) → IsTrue (⟦<FaultCode as PartialEq>⟧.eq a b) ↔ (a ≡ b) }
    {}

    /// Its code, such as `L5`.
    pub fn text(self) -> &'static str
        ensures { result.now ≡ code_text self }
    {
        match self {
            FaultCode::NotText => "L1",
            FaultCode::UnknownRecord => "L2",
            FaultCode::OutOfPlace => "L3",
            FaultCode::FieldCount => "L4",
            FaultCode::BadField => "L5",
            FaultCode::RunRange => "L6",
            FaultCode::RunOrder => "L7",
            FaultCode::RunGap => "L8",
            FaultCode::MissingEnd => "L9",
            FaultCode::TooLarge => "L10",
            FaultCode::WrongFile => "L11",
            FaultCode::NoValue => "L12",
        }
    }
}

impl fmt::Display for FaultCode {
    ghost output = { λ code. Some (code_text code) };

    fn fmt<W: fmt::Write>(&self, f: &mut fmt::Formatter<W>) -> fmt::Result {
        f.write_str(self.text())
    }
}

/// The fault of a file: what is wrong, and where. Lines and fields are numbered from 1. The field
/// is 0 if no field is at fault.
#[derive(Clone, Copy, Debug, PartialEq, Eq)]
pub struct FileFault {
    pub code: FaultCode,
    pub line: u64,
    pub field: usize,
}

impl FileFault {
    ghost use Rattle.mds_records.specs.declared.file.FileFault.{FileFault as AFileFault};

    /// A law: `==` says whether two faults are the same.
    pub fn one_equality()
        ensures { (a b : AFileFault) → IsTrue (⟦<FileFault as PartialEq>⟧.eq a b) ↔ (a ≡ b) }
    {}
}

impl fmt::Display for FileFault {
    ghost output = { λ fault. Some (fault_text fault) };

    fn fmt<W: fmt::Write>(&self, f: &mut fmt::Formatter<W>) -> fmt::Result {
        write!(f, "{} line {}", self.code, self.line)?;
        if self.field != 0 {
            write!(f, " field {}", self.field)?;
        }
        Ok(())
    }
}

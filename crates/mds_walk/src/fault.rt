//! Why a file, or one of its lines, is refused.

ghost use Rattle.std.specs.Prelude.{◌≡◌, ◌^◌, ◌-◌, ◌<◌, ◌+◌};
ghost use Rattle.mds_lines.specs.Numbered.{number_of};
ghost use Rattle.mds_walk.specs.Faults.{at_line as fault_at, at_field as field_fault_at};

use mds_lines::Line;
use mds_records::{FaultCode, FieldFault, FileFault};
use std::alloc::AllocError;

/// Why a file, or its next line, is refused.
#[derive(Clone, Copy, Debug, PartialEq, Eq)]
pub enum TakeFault {
    /// The file isn't well formed.
    File(FileFault),
    /// Out of memory.
    Memory,
}

impl TakeFault {
    ghost use Rattle.std.specs.Prelude.{◌↔◌, IsTrue};
    ghost use Rattle.mds_walk.specs.declared.fault.TakeFault.{TakeFault as AFault};

    /// A law: `==` says whether two faults are the same.
    pub fn one_equality()
        ensures { (a b : AFault) → IsTrue (⟦<TakeFault as PartialEq>⟧.eq a b) ↔ (a ≡ b) }
    {}
}

impl From<AllocError> for TakeFault {
    ghost use Rattle.mds_walk.specs.declared.fault.TakeFault.TheVariants.{Memory};

    ghost from_gives = { λ _ fault. fault ≡ Memory };

    fn from(_: AllocError) -> TakeFault {
        TakeFault::Memory
    }
}

/// Why a file can't be read.
#[derive(Clone, Copy, Debug, PartialEq, Eq)]
pub enum ReadFault {
    /// The file isn't well formed.
    File(FileFault),
    /// The source failed.
    Read,
    /// Out of memory.
    Memory,
}

impl ReadFault {
    ghost use Rattle.std.specs.Prelude.{◌↔◌, IsTrue};
    ghost use Rattle.mds_walk.specs.declared.fault.ReadFault.{ReadFault as AFault};

    /// A law: `==` says whether two faults are the same.
    pub fn one_equality()
        ensures { (a b : AFault) → IsTrue (⟦<ReadFault as PartialEq>⟧.eq a b) ↔ (a ≡ b) }
    {}
}

/// A fault of a whole line.
pub fn at_line(code: FaultCode, line: &Line<'_>) -> TakeFault
    ensures { result ≡ TakeFault.File (fault_at (number_of line.now) code) }
{
    TakeFault::File(FileFault {
        code,
        line: line.number(),
        field: 0,
    })
}

/// A fault of the line after `lines` lines.
pub fn at_end(code: FaultCode, lines: u64) -> TakeFault
    requires { lines < 2 ^ 64 - 1 }
    ensures { result ≡ TakeFault.File (fault_at (lines + 1) code) }
{
    TakeFault::File(FileFault {
        code,
        line: lines + 1,
        field: 0,
    })
}

/// A fault of a line's fields.
pub fn at_field(fault: FieldFault, line: &Line<'_>) -> TakeFault
    ensures { result ≡ TakeFault.File (field_fault_at (number_of line.now) fault) }
{
    match fault {
        FieldFault::WrongFile => at_line(FaultCode::WrongFile, line),
        FieldFault::Count => at_line(FaultCode::FieldCount, line),
        FieldFault::Bad(field) => TakeFault::File(FileFault {
            code: FaultCode::BadField,
            line: line.number(),
            field,
        }),
    }
}

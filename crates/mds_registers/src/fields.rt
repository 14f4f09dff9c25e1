//! Appends the fields of a row as `csv` writes them, one by one. The register of readings has a row for each interval,
//! and the writer of `csv` looks at each byte of it. Here a byte is looked at only in a field that may need quotation
//! marks.

ghost use Rattle.std.specs.Prelude.{◌≡◌, ◌++◌, ◌∷◌, [], IsTrue, OnOk};
ghost use Rattle.csv.specs.Writing.{default_writer, escaped, needs_byte, needs_quotes as asks_for_quotes};
ghost use Rattle.mds_quantity.specs.Append.{Appends};
ghost use Rattle.mds_registers.specs.FieldsSteps.{closed};

use std::alloc::AllocError;

/// Appends a field and the comma after it. After an error a part of that may be appended.
pub(crate) fn write_field(row: &mut Vec<u8>, field: &[u8]) -> Result<(), AllocError>
    ensures { OnOk result (Appends row.old.items row.new.items (closed field.now)) }
{
    if needs_quotes(field) {
        return write_quoted(row, field);
    }
    row.extend_from_slice(field)?;
    row.push(b',')?;
    Ok(())
}

/// Whether a field is written between quotation marks.
fn needs_quotes(field: &[u8]) -> bool
    ensures { result ≡ asks_for_quotes default_writer field.now }
{
    field.iter().any(|byte| is_special(*byte))
}

/// Whether a field that has this byte is written between quotation marks.
fn is_special(byte: u8) -> bool
    ensures { result ≡ needs_byte default_writer byte }
{
    byte == b',' || byte == b'"' || byte == b'\r' || byte == b'\n'
}

/// Appends a field between quotation marks, and the comma after it. Only the text of a reason may need them.
#[cold]
#[inline(never)]
fn write_quoted(row: &mut Vec<u8>, field: &[u8]) -> Result<(), AllocError>
    requires { IsTrue (asks_for_quotes default_writer field.now) }
    ensures { OnOk result (Appends row.old.items row.new.items (closed field.now)) }
{
    row.push(b'"')?;
    for byte in field {
        write_escaped(row, *byte)?;
    }
    row.extend_from_slice(b"\",")
}

/// Appends a byte of a field between quotation marks. A mark in the field is doubled.
fn write_escaped(row: &mut Vec<u8>, byte: u8) -> Result<(), AllocError>
    ensures { OnOk result (Appends row.old.items row.new.items (escaped default_writer (byte ∷ []))) }
{
    if byte == b'"' {
        return row.extend_from_slice(b"\"\"");
    }
    row.push(byte)?;
    Ok(())
}

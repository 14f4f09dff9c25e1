//! Appending lines to a text.

ghost use Rattle.std.specs.Prelude.{◌≡◌, ◌+◌, ◌<◌, ◌≤◌, ◌++◌, ◌∷◌, [], length, map, vec_capacity, vec_len, OnOk, OnErr};
ghost use Rattle.mds_quantity.specs.Append.{Appends, AppendsPart};
ghost use Rattle.mds_export.specs.Rows.{line_of};
ghost use Rattle.mds_export.specs.Begun.{Begins};
ghost use Rattle.mds_export.specs.RowSteps.{closed};

use std::alloc::AllocError;

/// Appends texts joined by commas, CR and LF, or after an error a prefix of that.
pub(crate) fn write_line(out: &mut Vec<u8>, texts: &[&[u8]]) -> Result<(), AllocError>
    ensures done { OnOk result (Appends out.old.items out.new.items (line_of (map (λ text. text.now) texts.now))) }
    ensures part { OnErr result (AppendsPart out.old.items out.new.items (line_of (map (λ text. text.now) texts.now))) }
    ensures grown { OnErr result (Begins out.old.items out.new.items) }
    ensures full { OnErr result (vec_capacity out.old < vec_len out.old + length (line_of (map (λ text. text.now) texts.now))) }
{
    match texts {
        [] => out.extend_from_slice(b"\r\n"),
        [last] => {
            out.extend_from_slice(last)?;
            out.extend_from_slice(b"\r\n")
        }
        [first, rest @ ..] => {
            write_field(out, first)?;
            write_line(out, rest)
        }
    }
}

/// Appends a text and the comma after it, or after an error a prefix of that.
pub(crate) fn write_field(out: &mut Vec<u8>, text: &[u8]) -> Result<(), AllocError>
    ensures done { OnOk result (Appends out.old.items out.new.items (closed text.now)) }
    ensures part { OnErr result (AppendsPart out.old.items out.new.items (closed text.now)) }
    ensures grown { OnErr result (Begins out.old.items out.new.items) }
    ensures full { OnErr result (vec_capacity out.old < vec_len out.old + length (closed text.now)) }
    ensures grows { vec_capacity out.old ≤ vec_capacity out.new }
    ensures len { OnOk result (vec_len out.new ≡ vec_len out.old + length (closed text.now)) }
{
    out.extend_from_slice(text)?;
    out.push(b',')?;
    Ok(())
}

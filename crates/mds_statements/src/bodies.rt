//! The body in which an accumulation is kept: the text of its content, with its update after the fields.

ghost use Rattle.std.specs.Prelude.{◌≡◌, ◌<◌, ◌≤◌, ◌+◌, ℕ, List, IfOk, MatchOption, OnErr, OnOk, length, string_bytes, string_capacity, string_len};
ghost use Rattle.mds_quantity.specs.Append.{Appends, AppendsPart};
ghost use Rattle.mds_statements.specs.Bodies.{IsPeriodBody, content_of_body};
ghost use Rattle.mds_statements.specs.BodySteps.{IsFirstLine};
ghost use Rattle.mds_statements.specs.Contents.{content_of};

use crate::periods::{Period, PeriodContent};
use std::alloc::{AllocError, Global};
use std::str;

impl Period {
    /// Appends its body: the text of its content, with a comma and its update after the fields. Fails only if `out` has no room
    /// for all of it and can't grow. A prefix of it may be appended then.
    pub fn write_body(&self, out: &mut String) -> Result<(), AllocError>
        ensures done { OnOk result ((body : List ℕ) × IsPeriodBody self.now body
            × Appends (string_bytes out.old) (string_bytes out.new) body) }
        ensures part { OnErr result ((body : List ℕ) × IsPeriodBody self.now body
            × AppendsPart (string_bytes out.old) (string_bytes out.new) body
            × (string_capacity out.old < string_len out.old + length body)) }
    {
        let (fields, notes) = first_line(self.content.text());
        let update = self.key.update.digits();
        out.push_str(fields)?;
        out.push(',')?;
        out.push_str(str::from_utf8(&update).unwrap())?;
        out.push_str(notes)
    }
}

impl PeriodContent {
    /// The content in a body, whatever is in the place of the update. `None` if there is only one field. It fails only if memory
    /// is refused, and never if there is only one field or the text is empty.
    pub fn from_body(alloc: Global, body: &str) -> Result<Option<PeriodContent>, AllocError>
        ensures ok { IfOk result (λ found. MatchOption found (length (content_of body.now).fields ≤ 1)
            (λ content. content ≡ content_of_body body.now)) }
        ensures err { OnErr result ((text : List ℕ) → content_of text ≡ content_of_body body.now → 0 < length text) }
        ensures some { OnErr result (1 < length (content_of body.now).fields) }
    {
        let (line, notes) = first_line(body);
        let Some(end) = line.rfind(',') else {
            return Ok(None);
        };
        let (fields, _) = line.split_at(end);
        let mut text = String::new(alloc);
        text.reserve_exact(fields.len() + notes.len())?;
        text.push_str(fields)?;
        text.push_str(notes)?;
        Ok(Some(PeriodContent::new(text)))
    }
}

/// The first line of a text, and what follows it.
fn first_line(text: &str) -> (&str, &str)
    ensures { IsFirstLine text.now result.0.now result.1.now }
{
    match text.find('\n') {
        Some(end) => text.split_at(end),
        None => (text, ""),
    }
}

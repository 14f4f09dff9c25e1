//! The rest of a line while its fields are taken one after the other.

ghost use Rattle.std.specs.Prelude.{◌≡◌, ◌≤◌, length, drop, option_copied};
ghost use Rattle.std.specs.List.{position_or_len};
ghost use Rattle.mds_lines.specs.Lines.{fields_of, is_comma};
ghost use Rattle.mds_lines.specs.Rest.{fields_left, first_of, are_blank};

/// The length of the field at the start of a text. The field ends before the first comma, or at the end of the text.
fn field_length(text: &[u8]) -> usize
    ensures value { result ≡ position_or_len is_comma text.now }
    ensures within { result ≤ length text.now }
{
    text.iter()
        .position(|byte| *byte == b',')
        .unwrap_or(text.len())
}

/// Takes the field at the start of the rest of a line, and returns what is left after it. If nothing is left, the
/// field is empty.
pub fn next_field(rest: Option<&[u8]>) -> (&[u8], Option<&[u8]>)
    ensures taken { result.0.now ≡ first_of (fields_left (option_copied rest.entry)) }
    ensures left { fields_left (option_copied result.1) ≡ drop 1 (fields_left (option_copied rest.entry)) }
{
    let Some(text) = rest else {
        return (&[], None);
    };
    let length = field_length(text);
    if length == text.len() {
        (text, None)
    } else {
        let (_, rest) = text.split_at(length + 1);
        (&text[..length], Some(rest))
    }
}

/// Whether all remaining fields of a line are empty. If nothing is left, they are.
pub fn is_blank_from(rest: Option<&[u8]>) -> bool
    ensures { result ≡ are_blank (fields_left (option_copied rest.entry)) }
{
    match rest {
        Some(text) => is_blank(text),
        None => true,
    }
}

/// Whether all fields of a text are empty, so that it is commas alone.
fn is_blank(text: &[u8]) -> bool
    ensures { result ≡ are_blank (fields_of text.now) }
{
    text.iter().all(|byte| *byte == b',')
}

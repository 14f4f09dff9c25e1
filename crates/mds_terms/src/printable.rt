//! Printable texts.

ghost use Rattle.std.specs.Prelude.{◌≡◌, IfSome, is_some, true};
ghost use Rattle.mds_terms.specs.Printable.{is_printable, is_printable_char};
ghost use Rattle.std.specs.List.{list_all};

use std::str;

/// A borrowed printable text: at most 240 characters of printable ASCII, without commas (profile).
#[derive(Clone, Copy)]
pub struct PrintableText<'a> {
    text: &'a [u8],
    pub ghost printable: { is_printable text.now ≡ true },
}

/// The most bytes of a printable text.
const LONGEST: usize = 240;

impl<'a> PrintableText<'a> {
    ghost use Rattle.mds_terms.specs.BorrowedTexts.{text_of};

    /// The printable text of these bytes, or `None` if they aren't one.
    pub fn read(text: &'a [u8]) -> Option<PrintableText<'a>>
        ensures accepted { is_some result ≡ is_printable text.now }
        ensures value { IfSome result (λ read. text_of read ≡ text.now) }
    {
        if text.len() > LONGEST || !is_printable_ascii(text) {
            return None;
        }
        Some(PrintableText { text })
    }

    /// Its text.
    pub fn text(&self) -> &'a str
        ensures value { result.now ≡ text_of self.now }
        ensures printable { is_printable (text_of self.now) ≡ true }
    {
        str::from_utf8(self.text).unwrap()
    }
}

/// Whether all bytes are printable ASCII other than a comma.
fn is_printable_ascii(text: &[u8]) -> bool
    ensures { result ≡ list_all is_printable_char text.now }
{
    text.iter().all(|c| matches!(*c, b' '..=b'~') && *c != b',')
}

//! Parts of terms: owned texts, parts that may be absent, and how parts are written.

ghost use Rattle.std.specs.Prelude.{◌≡◌, ◌<◌, ◌+◌, true, [], ◌∷◌, map, Some, IfSome, IfOk, OnOk, OnErr, length, string_bytes, string_capacity, string_len};
ghost use Rattle.std.specs.Char.{is_ascii_digit, is_ascii_uppercase};
ghost use Rattle.std.specs.List.{list_all};
ghost use Rattle.mds_quantity.specs.Append.{Appends, AppendsPart};
ghost use Rattle.mds_calendar.specs.Calendar.{day_of, moment_of};
ghost use Rattle.mds_terms.specs.Event.{letter_of, trans_text as text_of_trans};
ghost use Rattle.mds_terms.specs.Parts.{joined, optional};

use crate::trans_code::TransCode;
use mds_calendar::{Day, Moment};
use std::alloc::{AllocError, Global};
use std::str;

/// An owned text with these bytes. The empty one takes no memory.
pub(crate) fn own_text(alloc: Global, text: &str) -> Result<String, AllocError>
    ensures value { IfOk result (λ own. string_bytes own ≡ text.now) }
    ensures full { OnErr result (0 < length text.now) }
{
    let mut own = String::with_capacity(alloc, text.len())?;
    own.push_str(text)?;
    Ok(own)
}

/// Reads a day that may be absent: the empty text is an absent day. `None` if the text isn't a day.
pub(crate) fn read_optional_day(text: &[u8]) -> Option<Option<Day>>
    ensures { result ≡ optional day_of text.now }
{
    if text.is_empty() {
        return Some(None);
    }
    Day::read(text).map(Some)
}

/// Reads a moment that may be absent: the empty text is an absent moment. `None` if the text isn't
/// a moment.
pub(crate) fn read_optional_moment(text: &[u8]) -> Option<Option<Moment>>
    ensures { result ≡ optional moment_of text.now }
{
    if text.is_empty() {
        return Some(None);
    }
    Moment::read(text).map(Some)
}

/// Reads a transaction code that may be absent: the empty text is an absent code. `None` if the
/// text isn't a code.
pub(crate) fn read_optional_trans(text: &[u8]) -> Option<Option<TransCode>>
    ensures { result ≡ optional letter_of text.now }
{
    if text.is_empty() {
        return Some(None);
    }
    TransCode::read(text).map(Some)
}

/// Appends texts joined by commas. After an error a prefix of the result may be appended.
pub fn write_joined(out: &mut String, texts: &[&str]) -> Result<(), AllocError>
    ensures done { OnOk result (Appends (string_bytes out.old) (string_bytes out.new)
        (joined (map (λ text. text.now) texts.now))) }
    ensures part { OnErr result (AppendsPart (string_bytes out.old) (string_bytes out.new)
        (joined (map (λ text. text.now) texts.now))) }
    ensures full { OnErr result (string_capacity out.old
        < string_len out.old + length (joined (map (λ text. text.now) texts.now))) }
{
    match texts {
        [] => Ok(()),
        [last] => out.push_str(last),
        [first, rest @ ..] => {
            out.push_str(first)?;
            out.push(',')?;
            write_joined(out, rest)
        }
    }
}

/// The digits of a day, CCYYMMDD, or zeros if it is absent.
pub(crate) fn day_digits(day: Option<Day>) -> [u8; 8]
    ensures digits { list_all is_ascii_digit result ≡ true }
    ensures value { IfSome day (λ day. day_of result ≡ Some day) }
{
    match day {
        Some(day) => day.digits(),
        None => [b'0'; 8],
    }
}

/// The text of a day that has these digits, or the empty text if it is absent.
pub(crate) fn day_text(day: Option<Day>, digits: &[u8; 8]) -> &str
    requires digits { list_all is_ascii_digit digits.now ≡ true }
    requires value { IfSome day (λ day. day_of digits.now ≡ Some day) }
    ensures { optional day_of result.now ≡ Some day }
{
    if day.is_none() {
        return "";
    }
    str::from_utf8(digits).unwrap()
}

/// The digits of a moment, CCYYMMDDhhmmss, or zeros if it is absent.
pub(crate) fn moment_digits(moment: Option<Moment>) -> [u8; 14]
    ensures digits { list_all is_ascii_digit result ≡ true }
    ensures value { IfSome moment (λ moment. moment_of result ≡ Some moment) }
{
    match moment {
        Some(moment) => moment.digits(),
        None => [b'0'; 14],
    }
}

/// The text of a moment that has these digits, or the empty text if it is absent.
pub(crate) fn moment_text(moment: Option<Moment>, digits: &[u8; 14]) -> &str
    requires digits { list_all is_ascii_digit digits.now ≡ true }
    requires value { IfSome moment (λ moment. moment_of digits.now ≡ Some moment) }
    ensures { optional moment_of result.now ≡ Some moment }
{
    if moment.is_none() {
        return "";
    }
    str::from_utf8(digits).unwrap()
}

/// The letter of a transaction code, or an A if it is absent.
pub(crate) fn trans_letter(trans: Option<TransCode>) -> [u8; 1]
    ensures letter { list_all is_ascii_uppercase result ≡ true }
    ensures value { IfSome trans (λ code. result ≡ code ∷ []) }
{
    match trans {
        Some(code) => [code.letter()],
        None => [b'A'],
    }
}

/// The text of a transaction code that has this letter, or the empty text if it is absent.
pub(crate) fn trans_text(trans: Option<TransCode>, letter: &[u8; 1]) -> &str
    requires letter { list_all is_ascii_uppercase letter.now ≡ true }
    requires value { IfSome trans (λ code. letter.now ≡ code ∷ []) }
    ensures { result.now ≡ text_of_trans trans }
{
    if trans.is_none() {
        return "";
    }
    str::from_utf8(letter).unwrap()
}

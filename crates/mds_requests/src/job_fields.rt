//! What a JSON object says at a key.

ghost use Rattle.std.specs.Prelude.{◌≡◌, ◌↔◌, ◌≤◌, ℕ, IfSome, IsTrue, Some, option_map, option_and_then};
ghost use Rattle.serde_json.specs.View.{view};
ghost use Rattle.mds_requests.specs.JobFields.{flag_of, keys_of, number_at, text_at};
ghost use Rattle.mds_requests.specs.JobObjects.{job_keys};

use mds_marks::flags::{ACTUAL, ESTIMATED, FINAL, NULL, SUBSTITUTED, VARIABLE};
use serde_json::Value;

/// The text at a key.
pub(crate) fn text_at<'a>(value: &'a Value, key: &str) -> Option<&'a str>
    ensures { option_map (λ text. text.now) result ≡ text_at key.now (view value.now) }
{
    value.get(key).and_then(Value::as_str)
}

/// The whole number at a key, up to a greatest one.
pub(crate) fn number_at(value: &Value, key: &str, most: u64) -> Option<u64>
    ensures value { result ≡ number_at key.now most (view value.now) }
    ensures small { IfSome result (λ number. number ≤ most) }
{
    let number = value.get(key).and_then(Value::as_u64)?;
    if number <= most { Some(number) } else { None }
}

/// The quality flag that a text of one character names.
pub(crate) fn flag_of(text: &str) -> Option<u8>
    ensures { result ≡ flag_of text.now }
{
    match text.as_bytes() {
        [flag @ (ACTUAL | ESTIMATED | FINAL | NULL | SUBSTITUTED | VARIABLE)] => Some(*flag),
        _ => None,
    }
}

/// The keys of a job, in the order of their bytes.
const KEYS: [&str; 13] = [
    "code", "date", "first", "flag", "id", "last", "length", "method", "nmi", "suffix", "text",
    "unit", "update",
];

/// Whether a value is an object with exactly the keys of a job.
pub(crate) fn has_job_keys(value: &Value) -> bool
    ensures { IsTrue result ↔ (keys_of (view value.now) ≡ Some job_keys) }
{
    let Some(members) = value.as_object() else {
        return false;
    };
    let mut left = KEYS.as_slice();
    for key in members.keys() {
        let [next, rest @ ..] = left else {
            return false;
        };
        if key.as_str() != *next {
            return false;
        }
        left = rest;
    }
    left.is_empty()
}

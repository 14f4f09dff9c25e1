//! Why a file is no substitution job.
//!
//! It looks at a file that the reader of jobs has refused, and names the first thing that a job can't have. `docs/FORMATS.md`, "Substitution
//! jobs", lists the keys and their values.

use mds_jobs::JobId;
use mds_quantity::Unit;
use mds_terms::{Day, Moment, Nmi, Reason, Suffix};
use serde_json::{Map, Value};
use std::alloc::{AllocError, Global};
use std::str;

/// The keys of a job, in the order of their description.
const KEYS: [&str; 13] = [
    "id", "nmi", "suffix", "date", "first", "last", "length", "unit", "method", "flag", "code",
    "text", "update",
];

/// What is wrong with a text that is no job, in plain words.
pub(crate) fn job_cause(alloc: Global, bytes: &[u8]) -> Result<String, AllocError> {
    let Ok(text) = str::from_utf8(bytes) else {
        return String::from_str(alloc, "not UTF-8");
    };
    match Value::from_str(alloc, text) {
        Ok(value) => value_cause(alloc, &value),
        Err(error) if error.is_memory() => String::from_str(alloc, "memory ran out"),
        Err(error) => {
            let (line, column) = (error.line(), error.column());
            format!(in alloc; "not JSON at line {line} column {column}")
        }
    }
}

/// What is wrong with a value that is no job.
fn value_cause(alloc: Global, value: &Value) -> Result<String, AllocError> {
    let Some(members) = value.as_object() else {
        return String::from_str(alloc, "not a JSON object");
    };
    if let Some(key) = unknown_key(members) {
        return format!(in alloc; "the key {key:?} isn't known");
    }
    if let Some(key) = missing_key(members) {
        return format!(in alloc; "the key {key:?} is missing");
    }
    wrong_value(alloc, value)
}

/// The first key that no job has.
fn unknown_key(members: &Map<String, Value>) -> Option<&str> {
    for key in members.keys() {
        if !KEYS.contains(&key.as_str()) {
            return Some(key.as_str());
        }
    }
    None
}

/// The first key of a job that an object lacks.
fn missing_key(members: &Map<String, Value>) -> Option<&'static str> {
    for key in KEYS {
        if !members.contains_key(key) {
            return Some(key);
        }
    }
    None
}

/// Which value is wrong in an object with the keys of a job.
fn wrong_value(alloc: Global, value: &Value) -> Result<String, AllocError> {
    for key in KEYS {
        let form = form_of(key);
        if !has_form(value, key) {
            return format!(in alloc; "{key:?} has to be {form}");
        }
    }
    if reads_reason(alloc, value)? {
        String::from_str(alloc, "no cause is known")
    } else {
        String::from_str(
            alloc,
            "\"code\" and \"text\" have to be a reason, as in a 400",
        )
    }
}

/// The form of the value at a key.
fn form_of(key: &str) -> &'static str {
    match key {
        "id" => "1 to 36 letters, digits and -, as a string",
        "nmi" => "ten capital letters or digits, as a string",
        "suffix" => "two capital letters or digits, as a string",
        "date" => "a day like \"20240101\", as a string",
        "first" | "last" => "a whole number up to 65535",
        "length" => "5, 15 or 30",
        "unit" => "a unit like \"kWh\"",
        "method" => "a whole number up to 255",
        "flag" => "one of \"A\", \"E\", \"F\", \"N\", \"S\" and \"V\"",
        "update" => "a moment like \"20240109000000\"",
        _ => "a string",
    }
}

/// Whether the value at a key has its form.
fn has_form(value: &Value, key: &str) -> bool {
    let text = value.get(key).and_then(Value::as_str);
    let bytes = text.unwrap_or("").as_bytes();
    let number = value.get(key).and_then(Value::as_u64).unwrap_or(u64::MAX);
    match key {
        "id" => JobId::read(bytes).is_some(),
        "nmi" => Nmi::read(bytes).is_some(),
        "suffix" => Suffix::read(bytes).is_some(),
        "date" => Day::read(bytes).is_some(),
        "first" | "last" => number <= 65_535,
        "length" => matches!(number, 5 | 15 | 30),
        "unit" => Unit::read(bytes).is_some(),
        "method" => number <= 255,
        "flag" => matches!(bytes, [b'A' | b'E' | b'F' | b'N' | b'S' | b'V']),
        "update" => Moment::read(bytes).is_some(),
        _ => text.is_some(),
    }
}

/// Whether the two texts of a reason are one.
fn reads_reason(alloc: Global, value: &Value) -> Result<bool, AllocError> {
    let code = value.get("code").and_then(Value::as_str).unwrap_or("");
    let text = value.get("text").and_then(Value::as_str).unwrap_or("");
    let reason = Reason::read(alloc, code.as_bytes(), text.as_bytes())?;
    Ok(reason.is_some())
}

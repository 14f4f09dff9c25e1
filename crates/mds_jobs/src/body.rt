//! A substitution job as the text that a store keeps, and back.

ghost use Rattle.std.specs.Prelude.{◌≡◌, ◌≢◌, ◌≤◌, ◌<◌, ◌+◌, ℕ, if◌then◌else◌, List, [], ◌∷◌, length, true, IsTrue, MatchOption, IfSome, IfNone, IfOk, OnOk, OnErr, string_bytes, string_capacity, string_len};
ghost use Rattle.std.specs.Char.{is_ascii_digit, is_ascii_uppercase};
ghost use Rattle.std.specs.List.{list_all, position_or_len};
ghost use Rattle.mds_quantity.specs.Append.{Appends, AppendsPart};
ghost use Rattle.mds_quantity.specs.Unit.{unit_text as text_of_unit};
ghost use Rattle.mds_names.specs.Names.{is_comma};
ghost use Rattle.mds_marks.specs.Reason.{code_text as text_of_code};
ghost use Rattle.mds_world.specs.Facts.{JobContent};
ghost use Rattle.mds_jobs.specs.Bodies.{AreJobParts, IsJobBody, IsLawfulJob, Writes, flag_of, job_in, parts_of};
ghost use Rattle.mds_jobs.specs.BodySteps.{SaysManner, SaysPlace, texts_of};
ghost use Rattle.mds_jobs.specs.Jobs.{IsBad, content_of};
ghost use Rattle.mds_jobs.specs.declared.job.JobManner.{JobManner};
ghost use Rattle.mds_jobs.specs.declared.job.JobPlace.{JobPlace};

use crate::job::{Job, JobManner, JobPlace};
use crate::job_id::JobId;
use itoa::Buffer;
use mds_quantity::Unit;
use mds_terms::{Day, Length, Moment, ReasonRef, Stream, write_joined};
use std::alloc::{AllocError, Global};
use std::str;

/// The number of texts in a body.
const PARTS: usize = 12;

/// The texts between the commas of a body.
#[derive(Clone, Copy)]
struct Parts<'a> {
    texts: [&'a [u8]; PARTS],
}

impl Job {
    /// Appends its body: its parts except the id as twelve texts joined by commas, such as
    /// `NEM1201009,E1,20240122,5,8,30,kWh,15,F,76,,20240123000000`. It reads back (`from_body`) if the flag is a capital
    /// letter, as in each job that isn't bad. Any other flag is left out. Fails only if `out` has no room for all of it
    /// and can't grow. A prefix of it may be appended then.
    pub fn write_body(&self, out: &mut String) -> Result<(), AllocError>
        ensures done { IsTrue (is_ascii_uppercase self.now.flag) → OnOk result ((body : List ℕ)
            × IsJobBody (content_of self.now) body × (job_in (parts_of body) ≡ content_of self.now)
            × Appends (string_bytes out.old) (string_bytes out.new) body) }
        ensures text { OnOk result ((body : List ℕ) × IsJobBody (content_of self.now) body
            × Appends (string_bytes out.old) (string_bytes out.new) body) }
        ensures part { OnErr result ((body : List ℕ) × IsJobBody (content_of self.now) body
            × AppendsPart (string_bytes out.old) (string_bytes out.new) body
            × (string_capacity out.old < string_len out.old + length body)) }
        ensures lawful { IsTrue (is_ascii_uppercase self.now.flag) → IsLawfulJob (content_of self.now) }
        ensures letter { (IsBad (content_of self.now) → ⊥) → IsTrue (is_ascii_uppercase self.now.flag) }
    {
        let date = self.day.digits();
        let update = self.update.digits();
        let flag = [self.flag];
        let mut first = Buffer::new();
        let first = first.format(self.first);
        let mut last = Buffer::new();
        let last = last.format(self.last);
        let mut minutes = Buffer::new();
        let minutes = minutes.format(self.length.minutes());
        let mut method = Buffer::new();
        let method = method.format(self.method);
        let unit = unit_text(&self.unit);
        let mut code = Buffer::new();
        let code = code_text(self.reason.code(), &mut code);
        write_joined(
            out,
            &[
                self.stream.nmi.text(),
                self.stream.suffix.text(),
                digits_text(&date),
                first,
                last,
                minutes,
                unit,
                method,
                flag_text(&flag),
                code,
                self.reason.text(),
                digits_text(&update),
            ],
        )
    }

    /// The job with this id and body, or `None` if the parts of the body can't be read as a job. A number with leading
    /// zeros and a unit in small letters are read too. Takes memory only for the reason's text.
    pub fn from_body(alloc: Global, id: JobId, body: &[u8]) -> Result<Option<Job>, AllocError>
        ensures some { IfOk result (λ found. IfSome found (λ job.
            (job.id ≡ id) × (content_of job ≡ job_in (parts_of body.now)))) }
        ensures parts { IfOk result (λ found. IfSome found (λ job. AreJobParts (parts_of body.now) (content_of job))) }
        ensures none { IfOk result (λ found. IfNone found ((job : JobContent)
            → AreJobParts (parts_of body.now) job → ⊥)) }
        ensures full { OnErr result ((job : JobContent)
            × AreJobParts (parts_of body.now) job × (0 < length job.text)) }
    {
        let Some(parts) = parts_in(body) else {
            return Ok(None);
        };
        let Some(place) = place_in(&parts) else {
            return Ok(None);
        };
        let Some(manner) = manner_in(&parts) else {
            return Ok(None);
        };
        let Some(reason) = ReasonRef::read(parts.texts[9], parts.texts[10]) else {
            return Ok(None);
        };
        let reason = reason.to_reason(alloc)?;
        Ok(Some(Job::new(id, place, manner, reason)))
    }
}

/// A law: the body of a lawful job reads as this job, and has its parts. A job has one body, and parts are read as one
/// job. The function does nothing.
pub fn bodies_read_back()
    ensures parts { (job : JobContent) (body : List ℕ)
        → IsLawfulJob job → IsJobBody job body → AreJobParts (parts_of body) job }
    ensures says { (job : JobContent) (body : List ℕ)
        → IsLawfulJob job → IsJobBody job body → job_in (parts_of body) ≡ job }
    ensures only { (job : JobContent) (a b : List ℕ) → IsJobBody job a → IsJobBody job b → a ≡ b }
    ensures one { (parts : List (List ℕ)) (job : JobContent) → AreJobParts parts job → job ≡ job_in parts }
{}

/// Digits as a text.
fn digits_text(digits: &[u8]) -> &str
    requires { list_all is_ascii_digit digits.now ≡ true }
    ensures { result.now ≡ digits.now }
{
    str::from_utf8(digits).unwrap()
}

/// The written text of a unit.
fn unit_text(unit: &Unit) -> &str
    ensures { result.now ≡ text_of_unit unit.now }
{
    unit.text()
}

/// The text of flags, or an empty text if one isn't a capital letter. No job that can be done has such a flag.
fn flag_text(flags: &[u8]) -> &str
    ensures { result.now ≡ (if list_all is_ascii_uppercase flags.now then flags.now else []) }
{
    if are_letters(flags) {
        str::from_utf8(flags).unwrap()
    } else {
        ""
    }
}

/// Whether all are capital letters.
fn are_letters(flags: &[u8]) -> bool
    ensures { result ≡ list_all is_ascii_uppercase flags.now }
{
    flags.iter().all(|flag| flag.is_ascii_uppercase())
}

/// The text of a reason's code, which is empty if there is no code.
fn code_text(code: Option<u16>, buffer: &mut Buffer) -> &str
    ensures { result.now ≡ text_of_code code }
{
    match code {
        Some(number) => buffer.format(number),
        None => "",
    }
}

/// The length of the first part of a text: up to its first comma, or all of it if there is no comma.
fn part_length(text: &[u8]) -> usize
    ensures value { result ≡ position_or_len is_comma text.now }
    ensures within { result ≤ length text.now }
{
    text.iter()
        .position(|byte| *byte == b',')
        .unwrap_or(text.len())
}

/// The first part of a text and what follows its comma, or `None` if the text has no comma.
fn first_part(text: &[u8]) -> Option<(&[u8], &[u8])>
    ensures { MatchOption result (parts_of text.now ≡ text.now ∷ [])
        (λ found. parts_of text.now ≡ found.0.now ∷ parts_of found.1.now) }
{
    let count = part_length(text);
    if count == text.len() {
        return None;
    }
    let (_, rest) = text.split_at(count + 1);
    Some((&text[..count], rest))
}

/// The parts of a body, or `None` if there aren't twelve.
fn parts_in(body: &[u8]) -> Option<Parts<'_>>
    ensures { MatchOption result (length (parts_of body.now) ≢ 12)
        (λ parts. (texts_of parts.texts ≡ parts_of body.now) × (length (parts_of body.now) ≡ 12)) }
{
    let mut texts: [&[u8]; PARTS] = [&[]; PARTS];
    let mut rest = body;
    for at in 0..PARTS - 1 {
        let Some(found) = first_part(rest) else {
            return None;
        };
        texts[at] = found.0;
        rest = found.1;
    }
    match first_part(rest) {
        Some(_) => None,
        None => {
            texts[PARTS - 1] = rest;
            Some(Parts { texts })
        }
    }
}

/// The intervals named by the parts of a body.
fn place_in(parts: &Parts<'_>) -> Option<JobPlace>
    ensures some { IfSome result (λ place. SaysPlace (texts_of parts.now.texts) place) }
    ensures none { IfNone result ((place : JobPlace) → SaysPlace (texts_of parts.now.texts) place → ⊥) }
{
    Some(JobPlace {
        stream: Stream::read(parts.texts[0], parts.texts[1])?,
        day: Day::read(parts.texts[2])?,
        first: number_in(parts.texts[3])?,
        last: number_in(parts.texts[4])?,
    })
}

/// How the parts of a body fill them.
fn manner_in(parts: &Parts<'_>) -> Option<JobManner>
    ensures some { IfSome result (λ manner. SaysManner (texts_of parts.now.texts) manner) }
    ensures none { IfNone result ((manner : JobManner) → SaysManner (texts_of parts.now.texts) manner → ⊥) }
{
    Some(JobManner {
        length: Length::read(parts.texts[5])?,
        unit: Unit::read(parts.texts[6])?,
        method: method_in(parts.texts[7])?,
        flag: flag_in(parts.texts[8])?,
        update: Moment::read(parts.texts[11])?,
    })
}

/// The number below 65,536 that a text spells in decimal digits.
fn number_in(text: &[u8]) -> Option<u16>
    ensures some { IfSome result (λ number. Writes 16 text.now number) }
    ensures none { IfNone result ((number : ℕ) → Writes 16 text.now number → ⊥) }
{
    // `parse` accepts a plus sign before the digits, too.
    if text.first() == Some(&b'+') {
        return None;
    }
    let Ok(text) = str::from_utf8(text) else {
        return None;
    };
    text.parse().ok()
}

/// The number below 256 that a text spells in decimal digits.
fn method_in(text: &[u8]) -> Option<u8>
    ensures some { IfSome result (λ number. Writes 8 text.now number) }
    ensures none { IfNone result ((number : ℕ) → Writes 8 text.now number → ⊥) }
{
    u8::try_from(number_in(text)?).ok()
}

/// The quality flag of a text: one capital letter.
fn flag_in(text: &[u8]) -> Option<u8>
    ensures { result ≡ flag_of text.now }
{
    match text {
        [flag @ b'A'..=b'Z'] => Some(*flag),
        _ => None,
    }
}

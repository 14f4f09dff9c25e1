//! The id of a substitution job.

ghost use Rattle.std.specs.Prelude.{◌≡◌, ◌↔◌, ℕ, List, IsTrue};
ghost use Rattle.std.specs.List.{list_all};
ghost use Rattle.std.specs.Ordering.{nat_cmp};
ghost use Rattle.std.specs.Cmp.Lexicographic.{slice_cmp};
ghost use Rattle.mds_jobs.specs.Ids.{is_id_char, is_job_id, job_id_of};

use std::marker::Model;
use std::str;

/// The id that the holder of a store gives to a substitution job. It has 1 to 36 letters (A to Z, a to z), digits
/// and hyphens (profile). Ids are ordered by their bytes.
#[derive(Clone, Copy, Debug, PartialEq, Eq, PartialOrd, Ord)]
pub struct JobId {
    /// Its text, followed by zeros.
    bytes: [u8; LONGEST],
    count: usize,
}

impl Model for JobId {
    ghost use Rattle.std.specs.Prelude.{ℕ, List, length, take};
    ghost use Rattle.mds_jobs.specs.IdSteps.{IsPadded, length_back, padded, padded_back};

    ghost Value = { List ℕ };

    ghost view = { λ id. take id.count id.bytes };

    ghost invariant = { λ id. IsPadded id.bytes id.count };

    ghost inverse = { λ text. record { bytes = padded text; count = length text } };

    ghost inverse_ok = { λ id lawful i. record {
      bytes = padded_back id.bytes id.count lawful i;
      count = length_back id.bytes id.count lawful i;
    } };
}

/// The most characters of an id.
const LONGEST: usize = 36;

impl JobId {
    /// Reads an id from its text. `None` if the text isn't 1 to 36 letters, digits and hyphens.
    pub fn read(text: &[u8]) -> Option<JobId>
        ensures { result ≡ job_id_of text.now }
    {
        if text.is_empty() || text.len() > LONGEST || !are_id_chars(text) {
            return None;
        }
        let mut bytes = [0; LONGEST];
        bytes[..text.len()].copy_from_slice(text);
        Some(JobId {
            bytes,
            count: text.len(),
        })
    }

    /// Its text.
    pub fn text(&self) -> &str
        ensures value { result.now ≡ self.now }
        ensures name { IsTrue (is_job_id self.now) }
        ensures equal { (other : List ℕ)
            → IsTrue (⟦<JobId as PartialEq>⟧.eq self.now other) ↔ (self.now ≡ other) }
        // By bytes: the first difference decides.
        ensures order { (other : List ℕ)
            → ⟦<JobId as Ord>⟧.cmp self.now other ≡ slice_cmp nat_cmp self.now other }
    {
        str::from_utf8(&self.bytes[..self.count]).unwrap()
    }
}

/// Whether each byte is a letter, a digit or a hyphen.
fn are_id_chars(text: &[u8]) -> bool
    ensures { result ≡ list_all is_id_char text.now }
{
    text.iter().all(|c| c.is_ascii_uppercase()
        || c.is_ascii_lowercase()
        || c.is_ascii_digit()
        || *c == b'-')
}

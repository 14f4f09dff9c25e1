//! The pairs of a query.

ghost use Rattle.std.specs.Prelude.{◌≡◌, ◌≢◌, ◌↔◌, ◌++◌, ◌==◌, nat_lt, [], IsTrue, MatchResult, bytes_eq, length, map, option_map};
ghost use Rattle.std.specs.List.{list_all, list_any};
ghost use Rattle.mds_requests.specs.Queries.{has_names, has_only, only, pairs_of, values_named};
ghost use Rattle.mds_requests.specs.QuerySteps.{texts_of};

use std::alloc::{AllocError, Global};
use std::borrow::CowStr;

/// The names and the values of a query, decoded.
#[derive(Drop)]
pub(crate) struct Query<'a> {
    pairs: Vec<(CowStr<'a, Global>, CowStr<'a, Global>)>,
}

impl<'a> Query<'a> {
    /// Reads a query.
    pub(crate) fn read(alloc: Global, query: &'a [u8]) -> Result<Query<'a>, AllocError>
        ensures { MatchResult result (λ read. texts_of read ≡ pairs_of query.now) (λ _. pairs_of query.now ≢ []) }
    {
        let mut pairs = Vec::new(alloc);
        for pair in form_urlencoded::parse(alloc, query) {
            pairs.push(pair?)?;
        }
        Ok(Query { pairs })
    }

    /// Whether it has no pair.
    pub(crate) fn is_empty(&self) -> bool
        ensures { IsTrue result ↔ (texts_of self.now ≡ []) }
    {
        self.pairs.is_empty()
    }

    /// Whether it has each required name once, each optional name at most once, and no other.
    pub(crate) fn has_names(&self, required: &[&str], optional: &[&str]) -> bool
        ensures { result ≡ has_names (map (λ name. name.now) required.now) (map (λ name. name.now) optional.now) (texts_of self.now) }
    {
        self.has_only(required, optional)
            && self.has_each_once(required)
            && self.has_none_twice(optional)
    }

    /// Whether every pair has one of these names.
    pub(crate) fn has_only(&self, names: &[&str], others: &[&str]) -> bool
        ensures { result ≡ has_only (map (λ name. name.now) names.now ++ map (λ name. name.now) others.now) (texts_of self.now) }
    {
        for (name, _) in &self.pairs {
            if !is_among(name.as_str(), names, others) {
                return false;
            }
        }
        true
    }

    /// Whether it has each of these names once.
    fn has_each_once(&self, names: &[&str]) -> bool
        ensures { result ≡ list_all (λ name. length (values_named name (texts_of self.now)) == 1) (map (λ name. name.now) names.now) }
    {
        for name in names {
            if self.count(name) != 1 {
                return false;
            }
        }
        true
    }

    /// Whether it has each of these names at most once.
    fn has_none_twice(&self, names: &[&str]) -> bool
        ensures { result ≡ list_all (λ name. nat_lt (length (values_named name (texts_of self.now))) 2) (map (λ name. name.now) names.now) }
    {
        for name in names {
            if self.count(name) > 1 {
                return false;
            }
        }
        true
    }

    /// How many pairs have this name.
    fn count(&self, name: &str) -> usize
        ensures { result ≡ length (values_named name.now (texts_of self.now)) }
    {
        let mut count = 0;
        for (key, _) in &self.pairs {
            if key.as_str() == name {
                count += 1;
            }
        }
        count
    }

    /// The value of a name that occurs once.
    pub(crate) fn value(&self, name: &str) -> Option<&[u8]>
        ensures { option_map (λ value. value.now) result ≡ only (values_named name.now (texts_of self.now)) }
    {
        let mut found = None;
        for (key, value) in &self.pairs {
            if key.as_str() == name {
                if found.is_some() {
                    return None;
                }
                found = Some(value.as_bytes());
            }
        }
        found
    }

    /// The values of a name, in their order.
    pub(crate) fn values(&self, alloc: Global, name: &str) -> Result<Vec<&[u8]>, AllocError>
        ensures { MatchResult result
            (λ values. map (λ value. value.now) values.items ≡ values_named name.now (texts_of self.now))
            (λ _. texts_of self.now ≢ []) }
    {
        let mut values = Vec::new(alloc);
        for (key, value) in &self.pairs {
            if key.as_str() == name {
                values.push(value.as_bytes())?;
            }
        }
        Ok(values)
    }
}

/// Whether a name is one of these.
#[tactic(auto, using(crate::proofs::Pairs::among_either))]
fn is_among(name: &str, names: &[&str], others: &[&str]) -> bool
    ensures { result ≡ list_any (bytes_eq name.now)
        (map (λ known. known.now) names.now ++ map (λ known. known.now) others.now) }
{
    is_one_of(name, names) || is_one_of(name, others)
}

/// Whether a name is one of these.
fn is_one_of(name: &str, names: &[&str]) -> bool
    ensures { result ≡ list_any (bytes_eq name.now) (map (λ known. known.now) names.now) }
{
    names.iter().any(|known| name == *known)
}

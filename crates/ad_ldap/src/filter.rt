//! A filter of a search as a value.

ghost use Rattle.std.specs.Prelude.{◌≡◌, ◌++◌, ◌∷◌, [], map, IfOk, OnOk, OnErr};
ghost use Rattle.ad_ldap.specs.FilterValue.{filter_seen, filters_seen, filters_of};
ghost use Rattle.ad_ldap.specs.FilterValue as value;

use ad_bytes::Bytes;
use ad_value::Pattern;
use std::alloc::{AllocError, Global};

/// A filter of a search (RFC 4511 4.5.1.7). In an item the first field is the attribute's name and the second its
/// value, as they were sent.
#[cycle(filter)]
#[derive(Debug, Drop)]
pub enum Filter {
    And(Filters),
    Or(Filters),
    Not(Box<Filter>),
    Equal(Bytes, Bytes),
    /// The pieces are as they were sent.
    Pieces(Bytes, Pattern),
    AtLeast(Bytes, Bytes),
    AtMost(Bytes, Bytes),
    Present(Bytes),
    Like(Bytes, Bytes),
    /// An extensible match, of which nothing is kept.
    Extensible,
}

/// A list of filters. A contract sees a filter by `filter_seen` and a list by `filters_seen`.
#[cycle(filter)]
#[derive(Debug, Drop)]
pub struct Filters {
    items: Vec<Filter>,
}

impl Filters {
    /// The empty list.
    pub fn new(alloc: Global) -> Filters
        ensures { filters_seen result ≡ [] }
    {
        Filters {
            items: Vec::new(alloc),
        }
    }

    /// The filters in order.
    pub fn as_slice(&self) -> &[Filter]
        ensures { map filter_seen result.now ≡ filters_seen self.now }
    {
        self.items.as_slice()
    }

    /// Puts a filter at the end.
    pub fn push(&mut self, filter: Filter) -> Result<(), AllocError>
        ensures ok { OnOk result (filters_seen self.new ≡ filters_seen self.old
            ++ filter_seen filter ∷ []) }
        ensures err { OnErr result (filters_seen self.new ≡ filters_seen self.old) }
    {
        self.items.push(filter)?;
        Ok(())
    }
}

// What a contract sees of a filter that is made of others.
pub(crate) fn all_of(filters: Filters) -> Filter
    ensures { filter_seen result ≡ value.And (filters_of (filters_seen filters)) }
{
    Filter::And(filters)
}

pub(crate) fn any_of(filters: Filters) -> Filter
    ensures { filter_seen result ≡ value.Or (filters_of (filters_seen filters)) }
{
    Filter::Or(filters)
}

pub(crate) fn negated(alloc: Global, filter: Filter) -> Result<Filter, AllocError>
    ensures { IfOk result (λ f. filter_seen f ≡ value.Not (filter_seen filter)) }
{
    Ok(Filter::Not(Box::new(alloc, filter)?))
}

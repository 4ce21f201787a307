//! Filters are read, item by item.

ghost use Rattle.std.specs.Prelude.{◌≡◌, ◌<◌, length, OnOk};
ghost use Rattle.ad_bytes.specs.Reading.{Reads, ReadsUnless, GivesUnless};
ghost use Rattle.ad_ldap.specs.FilterValue.{filter_seen, filters_seen};
ghost use Rattle.ad_ldap.specs.Reading.{is_memory, inside_at, each_of};
ghost use Rattle.ad_ldap.specs.FilterReading.{assertion_of, middle_of, pieces_of, substrings_of, passed_at};
ghost use Rattle.ad_ldap.specs.FilterReading.{extensible_of, kind_by_tag, kind_at, alone_of, item_of, filter_of};
ghost use Rattle.ad_ldap.specs.FilterReading.{filter_at};
ghost use Rattle.ad_ldap.specs.Limits.{most_levels};
ghost use Rattle.ad_ldap.specs.Tags.{sequence, substrings, not_filter, extensible_match};

use crate::elements::{begins, body, default, end_of, ended, form, octets, option, some};
use crate::fault::LdapFault;
use crate::filter::{Filter, Filters, all_of, any_of, negated};
use crate::tags;
use ad_bytes::{Bytes, Input};
use ad_value::{Pattern, Pieces};
use std::alloc::Global;

const MAX_LEVELS: u8 = 64;

#[derive(Clone, Copy)]
pub(crate) enum FilterKind {
    And,
    Or,
    Not,
    Equal,
    Pieces,
    AtLeast,
    AtMost,
    Present,
    Like,
    Extensible,
}

/// An attribute's name and a value.
#[tactic(auto, unfolding(crate::specs::FilterReading::assertion_of))]
pub(crate) fn assertion(
    alloc: Global,
    input: &mut Input<'_>,
    end: usize,
) -> Result<(Bytes, Bytes), LdapFault>
    ensures { GivesUnless is_memory (λ x. (x.0, x.1)) result (assertion_of end input.old) }
{
    let attr = octets(alloc, input, end, tags::OCTET_STRING)?;
    let value = octets(alloc, input, end, tags::OCTET_STRING)?;
    ended(input, end)?;
    Ok((attr, value))
}

#[tactic(auto, unfolding(crate::specs::Reading::inside_at))]
pub(crate) fn assertion_inside(
    alloc: Global,
    input: &mut Input<'_>,
    end: usize,
    tag: u8,
) -> Result<(Bytes, Bytes), LdapFault>
    ensures read { ReadsUnless is_memory (λ x. (x.0, x.1)) result input.new
        (inside_at tag assertion_of end input.old) }
    ensures left { OnOk result (length input.new < length input.old) }
{
    let mut body = body(input, end, tag)?;
    let inner_end = end_of(input, end);
    assertion(alloc, &mut body, inner_end)
}

// The middle pieces that stand here.
fn middle(alloc: Global, input: &mut Input<'_>, end: usize) -> Result<Pieces, LdapFault>
    ensures { ReadsUnless is_memory (λ pieces. pieces) result input.new (middle_of end input.old) }
{
    let mut pieces = Pieces::new(alloc);
    'each: while begins(input, tags::MIDDLE_PIECE) {
        let octets = octets(alloc, input, end, tags::MIDDLE_PIECE)?;
        pieces.push(octets)?;
    }
    Ok(pieces)
}

#[tactic(auto, unfolding(crate::specs::FilterReading::pieces_of))]
fn pieces(alloc: Global, input: &mut Input<'_>, end: usize) -> Result<Pattern, LdapFault>
    ensures { GivesUnless is_memory (λ pattern. pattern) result (pieces_of end input.old) }
{
    some(input, end)?;
    let first = option(alloc, input, end, tags::INITIAL_PIECE)?;
    let middle = middle(alloc, input, end)?;
    let last = option(alloc, input, end, tags::FINAL_PIECE)?;
    ended(input, end)?;
    Ok(Pattern {
        first,
        middle,
        last,
    })
}

#[tactic(auto, unfolding(crate::specs::Reading::inside_at))]
fn pieces_inside(alloc: Global, input: &mut Input<'_>, end: usize) -> Result<Pattern, LdapFault>
    ensures { ReadsUnless is_memory (λ pattern. pattern) result input.new
        (inside_at sequence pieces_of end input.old) }
{
    let mut body = body(input, end, tags::SEQUENCE)?;
    let inner_end = end_of(input, end);
    pieces(alloc, &mut body, inner_end)
}

#[tactic(auto, unfolding(crate::specs::FilterReading::substrings_of))]
fn substrings(
    alloc: Global,
    input: &mut Input<'_>,
    end: usize,
) -> Result<(Bytes, Pattern), LdapFault>
    ensures { GivesUnless is_memory (λ x. (x.0, x.1)) result (substrings_of end input.old) }
{
    let attr = octets(alloc, input, end, tags::OCTET_STRING)?;
    let pattern = pieces_inside(alloc, input, end)?;
    ended(input, end)?;
    Ok((attr, pattern))
}

#[tactic(auto, unfolding(crate::specs::Reading::inside_at))]
fn substrings_inside(
    alloc: Global,
    input: &mut Input<'_>,
    end: usize,
) -> Result<(Bytes, Pattern), LdapFault>
    ensures read { ReadsUnless is_memory (λ x. (x.0, x.1)) result input.new
        (inside_at substrings substrings_of end input.old) }
    ensures left { OnOk result (length input.new < length input.old) }
{
    let mut body = body(input, end, tags::SUBSTRINGS)?;
    let inner_end = end_of(input, end);
    substrings(alloc, &mut body, inner_end)
}

// Passes over an octet string with this tag, where one begins here.
#[tactic(auto, unfolding(crate::specs::FilterReading::passed_at))]
fn pass_option(input: &mut Input<'_>, end: usize, tag: u8) -> Result<(), LdapFault>
    ensures { Reads result input.new (passed_at tag end input.old) }
{
    if begins(input, tag) {
        let _ = body(input, end, tag)?;
    }
    Ok(())
}

#[tactic(auto, unfolding(crate::specs::FilterReading::extensible_of))]
fn extensible(input: &mut Input<'_>, end: usize) -> Result<(), LdapFault>
    ensures { result ≡ extensible_of end input.old }
{
    pass_option(input, end, tags::MATCHING_RULE)?;
    pass_option(input, end, tags::MATCH_TYPE)?;
    let _ = body(input, end, tags::MATCH_VALUE)?;
    let _ = default(input, end, tags::MATCH_IN_NAMES)?;
    ended(input, end)
}

#[tactic(auto, unfolding(crate::specs::Reading::inside_at))]
fn extensible_inside(input: &mut Input<'_>, end: usize) -> Result<(), LdapFault>
    ensures read { Reads result input.new (inside_at extensible_match extensible_of end input.old) }
    ensures left { OnOk result (length input.new < length input.old) }
{
    let mut body = body(input, end, tags::EXTENSIBLE_MATCH)?;
    let inner_end = end_of(input, end);
    extensible(&mut body, inner_end)
}

// Which kind of filter begins with this tag.
fn kind_of(tag: u8) -> Option<FilterKind>
    ensures { result ≡ kind_by_tag tag }
{
    if tag == tags::AND_FILTER {
        Some(FilterKind::And)
    } else if tag == tags::OR_FILTER {
        Some(FilterKind::Or)
    } else if tag == tags::NOT_FILTER {
        Some(FilterKind::Not)
    } else if tag == tags::EQUALITY_MATCH {
        Some(FilterKind::Equal)
    } else if tag == tags::SUBSTRINGS {
        Some(FilterKind::Pieces)
    } else if tag == tags::GREATER_OR_EQUAL {
        Some(FilterKind::AtLeast)
    } else if tag == tags::LESS_OR_EQUAL {
        Some(FilterKind::AtMost)
    } else if tag == tags::PRESENCE {
        Some(FilterKind::Present)
    } else if tag == tags::APPROXIMATE_MATCH {
        Some(FilterKind::Like)
    } else if tag == tags::EXTENSIBLE_MATCH {
        Some(FilterKind::Extensible)
    } else {
        None
    }
}

#[tactic(auto, unfolding(crate::specs::FilterReading::kind_at))]
fn kind(input: &Input<'_>, end: usize) -> Result<FilterKind, LdapFault>
    ensures { result ≡ kind_at end input.now }
{
    let [tag, ..] = input.rest() else {
        return Err(form(input, end));
    };
    match kind_of(*tag) {
        Some(kind) => Ok(kind),
        None => Err(form(input, end)),
    }
}

// A filter of this kind, which has no inner filters.
#[tactic(auto, unfolding(crate::specs::FilterReading::item_of))]
fn item_of_kind(
    alloc: Global,
    kind: FilterKind,
    input: &mut Input<'_>,
    end: usize,
) -> Result<Filter, LdapFault>
    ensures read { ReadsUnless is_memory filter_seen result input.new (item_of kind end input.old) }
    ensures left { OnOk result (length input.new < length input.old) }
{
    match kind {
        FilterKind::Equal => {
            let (attr, value) = assertion_inside(alloc, input, end, tags::EQUALITY_MATCH)?;
            Ok(Filter::Equal(attr, value))
        }
        FilterKind::Pieces => {
            let (attr, pattern) = substrings_inside(alloc, input, end)?;
            Ok(Filter::Pieces(attr, pattern))
        }
        FilterKind::AtLeast => {
            let (attr, value) = assertion_inside(alloc, input, end, tags::GREATER_OR_EQUAL)?;
            Ok(Filter::AtLeast(attr, value))
        }
        FilterKind::AtMost => {
            let (attr, value) = assertion_inside(alloc, input, end, tags::LESS_OR_EQUAL)?;
            Ok(Filter::AtMost(attr, value))
        }
        FilterKind::Present => {
            let attr = octets(alloc, input, end, tags::PRESENCE)?;
            Ok(Filter::Present(attr))
        }
        FilterKind::Like => {
            let (attr, value) = assertion_inside(alloc, input, end, tags::APPROXIMATE_MATCH)?;
            Ok(Filter::Like(attr, value))
        }
        _ => {
            extensible_inside(input, end)?;
            Ok(Filter::Extensible)
        }
    }
}

// The filters up to the end.
#[cycle(reading)]
fn filters(
    alloc: Global,
    input: &mut Input<'_>,
    end: usize,
    levels: u8,
) -> Result<Filters, LdapFault>
    ensures { GivesUnless is_memory filters_seen result (each_of (filter_at levels) end input.old) }
{
    let mut filters = Filters::new(alloc);
    'each: while !input.is_empty() {
        let filter = filter(alloc, input, end, levels)?;
        filters.push(filter)?;
    }
    Ok(filters)
}

// The one filter.
#[cycle(reading)]
#[tactic(auto, unfolding(crate::specs::FilterReading::alone_of))]
fn alone(alloc: Global, input: &mut Input<'_>, end: usize, levels: u8) -> Result<Filter, LdapFault>
    ensures { GivesUnless is_memory filter_seen result (alone_of (filter_at levels) end input.old) }
{
    let filter = filter(alloc, input, end, levels)?;
    ended(input, end)?;
    Ok(filter)
}

#[cycle(reading)]
#[tactic(auto, unfolding(crate::specs::Reading::inside_at))]
fn filters_inside(
    alloc: Global,
    input: &mut Input<'_>,
    end: usize,
    tag: u8,
    levels: u8,
) -> Result<Filters, LdapFault>
    ensures read { ReadsUnless is_memory filters_seen result input.new
        (inside_at tag (each_of (filter_at levels)) end input.old) }
    ensures left { OnOk result (length input.new < length input.old) }
{
    let mut body = body(input, end, tag)?;
    let inner_end = end_of(input, end);
    filters(alloc, &mut body, inner_end, levels)
}

#[cycle(reading)]
#[tactic(auto, unfolding(crate::specs::Reading::inside_at))]
fn alone_inside(
    alloc: Global,
    input: &mut Input<'_>,
    end: usize,
    levels: u8,
) -> Result<Filter, LdapFault>
    ensures read { ReadsUnless is_memory filter_seen result input.new
        (inside_at not_filter (alone_of (filter_at levels)) end input.old) }
    ensures left { OnOk result (length input.new < length input.old) }
{
    let mut body = body(input, end, tags::NOT_FILTER)?;
    let inner_end = end_of(input, end);
    alone(alloc, &mut body, inner_end, levels)
}

// A filter of this kind.
#[cycle(reading)]
#[tactic(auto, unfolding(crate::specs::FilterReading::filter_of))]
fn filter_of_kind(
    alloc: Global,
    kind: FilterKind,
    input: &mut Input<'_>,
    end: usize,
    levels: u8,
) -> Result<Filter, LdapFault>
    ensures read { ReadsUnless is_memory filter_seen result input.new
        (filter_of (filter_at levels) kind end input.old) }
    ensures left { OnOk result (length input.new < length input.old) }
{
    match kind {
        FilterKind::And => {
            let filters = filters_inside(alloc, input, end, tags::AND_FILTER, levels)?;
            Ok(all_of(filters))
        }
        FilterKind::Or => {
            let filters = filters_inside(alloc, input, end, tags::OR_FILTER, levels)?;
            Ok(any_of(filters))
        }
        FilterKind::Not => {
            let filter = alone_inside(alloc, input, end, levels)?;
            let negated = negated(alloc, filter)?;
            Ok(negated)
        }
        _ => item_of_kind(alloc, kind, input, end),
    }
}

/// A filter of at most so many levels, in whose items the attribute's name and the value are as they were sent.
#[cycle(reading)]
#[tactic(auto, unfolding(crate::specs::FilterReading::filter_at))]
fn filter(alloc: Global, input: &mut Input<'_>, end: usize, levels: u8) -> Result<Filter, LdapFault>
    ensures read { ReadsUnless is_memory filter_seen result input.new
        (filter_at levels end input.old) }
    ensures left { OnOk result (length input.new < length input.old) }
{
    let kind = kind(input, end)?;
    if levels == 0 {
        return Err(LdapFault::Deep);
    }
    filter_of_kind(alloc, kind, input, end, levels - 1)
}

// How many levels a filter may have.
#[tactic(auto, unfolding(crate::specs::Limits::most_levels))]
fn most_levels() -> u8
    ensures { result ≡ most_levels }
{
    MAX_LEVELS
}

/// The filter of a search.
pub(crate) fn search_filter(
    alloc: Global,
    input: &mut Input<'_>,
    end: usize,
) -> Result<Filter, LdapFault>
    ensures read { ReadsUnless is_memory filter_seen result input.new
        (filter_at most_levels end input.old) }
    ensures left { OnOk result (length input.new < length input.old) }
{
    filter(alloc, input, end, most_levels())
}

//! Phase 4 as a whole: the directory before its descriptors are computed.

ghost use Rattle.std.specs.Prelude.{◌≡◌, ◌<◌, ◌≤◌, ◌^◌, ◌&&◌, true, nat_le, List, [], Ok, map, length, IfOk};
ghost use Rattle.std.specs.Option.{option_copied};
ghost use Rattle.std.specs.List.{list_all};
ghost use Rattle.ad_bytes.specs.Reading.{GivesUnless};
ghost use Rattle.ad_dir_model.specs.Limits.{max_objects, max_counter};
ghost use Rattle.ad_load_records.specs.Faults.{is_memory};
ghost use Rattle.ad_load_objects.specs.Drafts.{Draft as DraftValue};
ghost use Rattle.ad_load_objects.specs.Seen.{draft_seen};
ghost use Rattle.ad_load_objects.specs.Index.{drafts_seen, IsIndexed};
ghost use Rattle.ad_load.specs.Links.{domain_of, objects_of, meta_of, directory_with, is_shallow, is_within_limits};
ghost use Rattle.ad_load.specs.Links.{linked};
ghost use Rattle.ad_load.specs.Counting.{IsCounted};
ghost use Rattle.ad_load.specs.Seen.{entry_seen, before_seen};
ghost use Rattle.ad_load_records.specs.Records.{most_lines};

use crate::counters::{next_rid, suffix_of};
use crate::limits::{are_shallow, check_defaults, is_short};
use crate::links::{domain_of, objects_of};
use ad_dir::{Meta, Object};
use ad_dir_objects::are_light;
use ad_dn::Dn;
use ad_ids::Sid;
use ad_load_objects::{Draft, Drafts};
use ad_load_records::{LoadCause, LoadFault, bad};
use ad_schema::Schema;
use ad_sd::NormalSd;
use std::alloc::{AllocError, Global};

/// The largest number of objects.
const MAX_OBJECTS: usize = 65_536;

/// The largest number that a counter may have.
const MAX_COUNTER: u64 = 4_294_967_295;

/// The objects with the descriptors that they have as their own, and the counters.
#[derive(Drop)]
pub(crate) struct Before {
    pub(crate) objects: Vec<(Object, NormalSd)>,
    pub(crate) meta: Meta,
}

// What drafts say of the whole.
#[derive(Drop)]
struct Counted {
    next_number: u32,
    next_rid: u64,
    suffix: Dn,
    shallow: bool,
}

#[tactic(auto, unfolding(ad_dir_model::specs::Limits::max_objects))]
fn are_few(objects: &[(Object, NormalSd)]) -> bool
    ensures { result ≡ nat_le (length objects.now) max_objects }
{
    objects.len() <= MAX_OBJECTS
}

#[tactic(auto, unfolding(ad_dir_model::specs::Limits::max_counter))]
fn is_counter(number: u64) -> bool
    ensures { result ≡ nat_le number max_counter }
{
    number <= MAX_COUNTER
}

fn all_hold(few: bool, shallow: bool, light: bool, rid: bool, short: bool) -> bool
    ensures { result ≡ (few && shallow && light && rid && short) }
{
    few && shallow && light && rid && short
}

fn is_within_limits(
    alloc: Global,
    schema: &Schema,
    shallow: bool,
    objects: &[(Object, NormalSd)],
    next_rid: u64,
    suffix: &Dn,
) -> Result<bool, AllocError>
    ensures within { IfOk result (λ within. (drafts : List DraftValue) → length drafts ≤ most_lines
        → shallow ≡ list_all (is_shallow drafts) drafts → next_rid
        ≡ (meta_of schema.now drafts).next_rid
        → suffix.now.rdns ≡ (meta_of schema.now drafts).suffix
        → within ≡ is_within_limits drafts
        (directory_with schema.now drafts (map entry_seen objects.now))) }
    ensures rid { IfOk result (λ within. within ≡ true → next_rid < 2 ^ 32) }
{
    let short = is_short(alloc, suffix)?;
    Ok(all_hold(
        are_few(objects),
        shallow,
        are_light(schema, objects),
        is_counter(next_rid),
        short,
    ))
}

// What drafts say of the whole: the counters, the name above the root, and whether no object is too deep.
fn count(
    alloc: Global,
    schema: &Schema,
    domain: Option<&Sid>,
    drafts: &[Draft],
) -> Result<Counted, AllocError>
    requires few { length drafts.now ≤ most_lines }
    requires domain { option_copied domain ≡ domain_of schema.now (map draft_seen drafts.now) }
    ensures { IfOk result (IsCounted schema.now (map draft_seen drafts.now)) }
{
    let suffix = suffix_of(alloc, drafts)?;
    let next_rid = next_rid(schema, domain, drafts);
    let shallow = are_shallow(drafts);
    let next_number = drafts.len() as u32 + 1;
    Ok(Counted {
        next_number,
        next_rid,
        suffix,
        shallow,
    })
}

// The counter of identifiers as it is kept, where all is within the limits and the default descriptors can be read.
fn check(
    alloc: Global,
    schema: &Schema,
    domain: Option<&Sid>,
    objects: &[(Object, NormalSd)],
    counted: &Counted,
) -> Result<u32, LoadFault>
    ghost all: { List DraftValue }
    requires few { length all ≤ most_lines }
    requires domain { option_copied domain ≡ domain_of schema.now all }
    requires objects { objects_of schema.now all ≡ Ok (map entry_seen objects.now) }
    requires counted { IsCounted schema.now all counted.now }
    ensures { GivesUnless is_memory (λ rid. record {
      schema = schema.now;
      objects = map entry_seen objects.now;
      pending = [];
      meta = record {
        next_number = counted.now.next_number;
        next_rid = rid;
        suffix
            = counted.now.suffix.rdns;
      };
    }) result (linked schema.now all) }
{
    let within = is_within_limits(
        alloc,
        schema,
        counted.shallow,
        objects,
        counted.next_rid,
        &counted.suffix,
    )?;
    if !within {
        return Err(bad(0, LoadCause::Limit));
    }
    check_defaults(alloc, schema, domain)?;
    Ok(counted.next_rid as u32)
}

// The objects and the counters, where they are within the limits.
fn before_of(
    alloc: Global,
    schema: &Schema,
    domain: Option<&Sid>,
    objects: Vec<(Object, NormalSd)>,
    counted: Counted,
) -> Result<Before, LoadFault>
    ghost all: { List DraftValue }
    requires few { length all ≤ most_lines }
    requires domain { option_copied domain ≡ domain_of schema.now all }
    requires objects { objects_of schema.now all ≡ Ok (map entry_seen objects.items) }
    requires counted { IsCounted schema.now all counted }
    ensures { GivesUnless is_memory (before_seen schema.now) result (linked schema.now all) }
{
    let next_rid = check(alloc, schema, domain, objects.as_slice(), &counted)?;
    Ok(Before {
        objects,
        meta: Meta {
            next_number: counted.next_number,
            next_rid,
            suffix: counted.suffix,
        },
    })
}

// The objects of drafts with their links.
fn objects_with(
    alloc: Global,
    schema: &Schema,
    drafts: Drafts,
    domain: Option<&Sid>,
) -> Result<Vec<(Object, NormalSd)>, LoadFault>
    requires few { length drafts.items.items ≤ most_lines }
    requires indexed { IsIndexed drafts }
    requires domain { option_copied domain ≡ domain_of schema.now (drafts_seen drafts) }
    ensures { GivesUnless is_memory (λ objects. map entry_seen objects.items) result
        (objects_of schema.now (drafts_seen drafts)) }
{
    let names = drafts.names;
    objects_of(alloc, schema, &names, drafts.items, domain)
}

/// The objects of drafts with their links, and the counters.
pub(crate) fn link_all(alloc: Global, schema: &Schema, drafts: Drafts) -> Result<Before, LoadFault>
    ghost all: { List DraftValue }
    requires few { length drafts.items.items ≤ most_lines }
    requires indexed { IsIndexed drafts }
    requires same { all ≡ drafts_seen drafts }
    ensures { GivesUnless is_memory (before_seen schema.now) result (linked schema.now all) }
{
    let items = drafts.items.as_slice();
    let of_root = domain_of(schema, items);
    let domain = of_root.as_ref();
    let counted = count(alloc, schema, domain, items)?;
    let objects = objects_with(alloc, schema, drafts, domain)?;
    before_of(alloc, schema, domain, objects, counted)
}

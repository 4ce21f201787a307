//! Whether the schema, the counters and the limits of what was read are sound.

ghost use Rattle.std.specs.Prelude.{◌≡◌, ◌↔◌, ◌<◌, ℕ, true, Some, None, IsTrue, IfOk};
ghost use Rattle.std.specs.Option.{option_copied};
ghost use Rattle.std.specs.List.{AllByRecursion, list_all};
ghost use Rattle.ad_ids.specs.SidChild.{child_of};
ghost use Rattle.ad_dn.specs.Text.{rdns_text};
ghost use Rattle.ad_schema.specs.Classes.{classes_of};
ghost use Rattle.ad_dir_model.specs.Limits.{max_text};
ghost use Rattle.ad_dir_model.specs.Soundness.{default_reads, is_short, is_short_record};
ghost use Rattle.ad_dir_objects.specs.Seen.{meta_seen, objects_of, object_seen};
ghost use Rattle.ad_sd.specs.declared.parts.Sd.{Sd as SdValue};
ghost use Rattle.ad_rows_sound.specs.Parts.{IsCounted};

use crate::finding::Entry;
use ad_dir::{Meta, Object, last_of, object_sid};
use ad_dn::Dn;
use ad_ids::Sid;
use ad_schema::{ClassInfo, Line, Schema, SchemaRecord};
use ad_sddl::{SddlFault, read};
use std::alloc::{AllocError, Global};

const MAX_TEXT: usize = 1_048_576;

fn default_reads(alloc: Global, domain: Option<&Sid>, info: &ClassInfo) -> Result<bool, AllocError>
    ensures { IfOk result (λ reads. reads ≡ default_reads (option_copied domain.entry) info.now) }
{
    let Some(text) = &info.default_sd else {
        return Ok(true);
    };
    match read(alloc, text.as_slice(), domain) {
        Ok(_) => Ok(true),
        Err(SddlFault::Bad { .. }) => Ok(false),
        Err(SddlFault::Memory) => Err(AllocError),
    }
}

/// Whether the text of each class's default descriptor is read with the domain's identifier.
pub(crate) fn defaults_read(
    alloc: Global,
    schema: &Schema,
    domain: Option<&Sid>,
) -> Result<bool, AllocError>
    ensures { IfOk result (λ read. read ≡ list_all (default_reads (option_copied domain.entry))
        (classes_of schema.now)) }
{
    for info in schema.classes() {
        if !default_reads(alloc, domain, info)? {
            return Ok(false);
        }
    }
    Ok(true)
}

// Whether an identifier is the domain's with this number more.
fn is_child(domain: &Sid, number: u32, sid: &Sid) -> bool
    ensures { IsTrue result ↔ (child_of domain.now number ≡ Some sid.now) }
{
    match domain.child(number) {
        Some(child) => child == *sid,
        None => false,
    }
}

// Whether an identifier that is the domain's with one number more has one below the next.
fn is_counted(domain: &Sid, sid: &Sid, next: u32) -> bool
    ensures { IsTrue result ↔ ((rid : ℕ) → child_of domain.now rid ≡ Some sid.now → rid < next) }
{
    match last_of(sid.sub_authorities()) {
        Some(number) => number < next || !is_child(domain, number, sid),
        None => true,
    }
}

// Whether the number of an object and its identifier are below the counters.
fn is_counted_in(schema: &Schema, domain: Option<&Sid>, meta: &Meta, object: &Object) -> bool
    ensures { (sd : SdValue) → IsTrue result ↔ IsCounted schema.now (option_copied domain.entry)
        (meta_seen meta.now) (object_seen object.now sd) }
{
    if object.number >= meta.next_number {
        return false;
    }
    match (domain, object_sid(schema, object)) {
        (Some(domain), Some(sid)) => is_counted(domain, &sid, meta.next_rid),
        _ => true,
    }
}

/// Whether the numbers of all objects and their identifiers are below the counters.
pub(crate) fn are_counted(
    schema: &Schema,
    domain: Option<&Sid>,
    meta: &Meta,
    objects: &[Entry],
) -> bool
    ensures { IsTrue result ↔ AllByRecursion
        (IsCounted schema.now (option_copied domain.entry) (meta_seen meta.now))
        (objects_of objects.now) }
{
    for entry in objects {
        if !is_counted_in(schema, domain, meta, &entry.0) {
            return false;
        }
    }
    true
}

#[tactic(auto, unfolding(ad_dir_model::specs::Limits::max_text))]
fn is_short(bytes: &[u8]) -> bool
    ensures { result ≡ is_short bytes.now }
{
    bytes.len() <= MAX_TEXT
}

/// Whether the text of the name above the root is no longer than a text may be.
pub(crate) fn is_short_name(alloc: Global, suffix: &Dn) -> Result<bool, AllocError>
    ensures { IfOk result (λ short. short ≡ is_short (rdns_text suffix.now.rdns)) }
{
    let text = suffix.text(alloc)?;
    Ok(is_short(text.as_slice()))
}

fn is_short_line(line: &Line) -> bool
    ensures { result ≡ is_short line.now.value }
{
    is_short(line.value.as_slice())
}

fn is_short_record(record: &SchemaRecord) -> bool
    ensures { result ≡ is_short_record «record».now }
{
    record
        .lines
        .as_slice()
        .iter()
        .all(|line| is_short_line(line))
}

/// Whether no value of a record is longer than a text may be.
pub(crate) fn are_short(records: &[SchemaRecord]) -> bool
    ensures { result ≡ list_all is_short_record records.now }
{
    records.iter().all(|record| is_short_record(record))
}

//! Phase 3: the objects, one after the other.

ghost use Rattle.std.specs.Prelude.{◌≡◌, ◌<◌, ◌≤◌, [], Ok, Err, false, map, length, IfOk, IfErr, OnOk};
ghost use Rattle.ad_bytes.specs.Reading.{GivesUnless};
ghost use Rattle.ad_dn.specs.NameKey.{rdns_key};
ghost use Rattle.ad_schema.specs.Classes.{classes_of};
ghost use Rattle.ad_load_records.specs.Faults.{is_memory};
ghost use Rattle.ad_load_objects.specs.Through.{through};
ghost use Rattle.ad_load_objects.specs.Drafts.{naming_value};
ghost use Rattle.ad_load_objects.specs.Objects.{draft_of, with_record, drafts_of};
ghost use Rattle.ad_load_records.specs.Seen.{seen};
ghost use Rattle.ad_load_objects.specs.Seen.{draft_seen};
ghost use Rattle.ad_load_objects.specs.KeptSeen.{kept_seen};
ghost use Rattle.ad_load_objects.specs.Index.{drafts_seen, place_key, IsIndexed, HasSids, IsKeyed};
ghost use Rattle.ad_load_objects.specs.Standing.{draft_at};
ghost use Rattle.ad_load_objects.specs.Found.{AreFound};
ghost use Rattle.ad_load_records.specs.Records.{most_lines};

use crate::classes::{class_of, is_named_by};
use crate::drafts::{Draft, Drafts};
use crate::found::{Found, none_found};
use crate::index::{Keyed, is_taken, name_key, no_drafts, parent_of, place_key, push};
use crate::order::{has_root, is_object, sort_by_parts};
use crate::repeated::ReadSd;
use crate::values::{DraftValues, take_lines};
use ad_bytes::Bytes;
use ad_dn::Dn;
use ad_load_records::{LoadCause, LoadFault, Record, bad};
use ad_schema::{ClassId, Schema};
use std::alloc::Global;

// The draft that has what the lines gave.
fn draft_with(dn: Dn, parent: u32, class: ClassId, kept: DraftValues) -> Draft
    ensures { draft_seen result ≡ record {
      rdns = dn.rdns;
      parent = parent;
      class = class.0;
      given
          = (kept_seen kept).given;
      sd = (kept_seen kept).sd;
    } }
{
    let DraftValues { given, sd } = kept;
    Draft {
        dn,
        parent,
        class,
        given: given.into_items(),
        sd,
    }
}

// Where the object of a record stands: its parent, its class, and the key of its place.
#[derive(Drop)]
struct Standing {
    parent: u32,
    class: ClassId,
    place: Bytes,
}

// Where the object of a record stands, by the key of its name, and what is left to be read then.
#[tactic(auto, unfolding(crate::specs::Objects::draft_of))]
fn standing_of(
    alloc: Global,
    schema: &Schema,
    drafts: &Drafts,
    found: &mut Vec<Found>,
    one: &Record,
    name: &[u8],
) -> Result<Standing, LoadFault>
    requires few { length drafts.now.items.items ≤ most_lines }
    requires indexed { IsIndexed drafts.now }
    requires name { name.now ≡ rdns_key one.now.dn.rdns }
    requires found { AreFound schema.now found.old.items }
    ensures stands { IfOk result (λ at. draft_of schema.now (drafts_seen drafts.now) (seen one.now)
        ≡ draft_at schema.now (drafts_seen drafts.now) at.parent at.class.0 (seen one.now)) }
    ensures fault { IfErr result (λ fault. is_memory fault ≡ false
        → draft_of schema.now (drafts_seen drafts.now) (seen one.now) ≡ Err fault) }
    ensures in_range { IfOk result (λ at. at.class.0 < length (classes_of schema.now)) }
    ensures key { IfOk result (λ at. at.place
        ≡ place_key at.parent (naming_value one.now.dn.rdns)) }
    ensures found { OnOk result (AreFound schema.now found.new.items) }
{
    let line = one.line;
    let Some(parent) = parent_of(drafts, &one.dn, name) else {
        return Err(bad(line, LoadCause::Parent));
    };
    let class = class_of(alloc, schema, found, line, one.lines.as_slice())?;
    if !is_named_by(schema, class, &one.dn.rdns) {
        return Err(bad(line, LoadCause::Naming));
    }
    let place = place_key(alloc, parent, &one.dn)?;
    if is_taken(drafts, place.as_slice()) {
        return Err(bad(line, LoadCause::NameTaken));
    }
    Ok(Standing {
        parent,
        class,
        place,
    })
}

fn draft_of(
    alloc: Global,
    schema: &Schema,
    drafts: &Drafts,
    last: &mut Option<ReadSd>,
    found: &mut Vec<Found>,
    one: Record,
) -> Result<Keyed, LoadFault>
    requires few { length drafts.now.items.items ≤ most_lines }
    requires indexed { IsIndexed drafts.now }
    requires sids { HasSids schema.now drafts.now }
    requires found { AreFound schema.now found.old.items }
    ensures made { GivesUnless is_memory (λ made. draft_seen made.draft) result
        (draft_of schema.now (drafts_seen drafts.now) (seen one)) }
    ensures keyed { IfOk result IsKeyed }
    ensures found { OnOk result (AreFound schema.now found.new.items) }
{
    let name = name_key(alloc, &one.dn)?;
    let at = standing_of(alloc, schema, drafts, found, &one, name.as_slice())?;
    let kept = take_lines(alloc, schema, drafts, last, found, at.class, one.lines)?;
    let draft = draft_with(one.dn, at.parent, at.class, kept);
    Ok(Keyed {
        draft,
        name,
        place: at.place,
    })
}

// Adds the draft of a record, where it is that of an object.
#[tactic(auto, unfolding(crate::specs::Objects::with_record))]
fn add_record(
    alloc: Global,
    schema: &Schema,
    drafts: &mut Drafts,
    last: &mut Option<ReadSd>,
    found: &mut Vec<Found>,
    one: Record,
) -> Result<(), LoadFault>
    requires few { length drafts.old.items.items ≤ most_lines }
    requires indexed { IsIndexed drafts.old }
    requires sids { HasSids schema.now drafts.old }
    requires found { AreFound schema.now found.old.items }
    ensures made { GivesUnless is_memory (λ _. drafts_seen drafts.new) result
        (with_record schema.now (drafts_seen drafts.old) (seen one)) }
    ensures indexed { OnOk result (IsIndexed drafts.new) }
    ensures sids { OnOk result (HasSids schema.now drafts.new) }
    ensures found { OnOk result (AreFound schema.now found.new.items) }
{
    if !is_object(&one) {
        return Ok(());
    }
    let made = draft_of(alloc, schema, drafts, last, found, one)?;
    push(schema, drafts, made)?;
    Ok(())
}

// Adds the drafts of sorted records to none. Each record is given back as soon as its draft is made, since both
// have all its values.
fn add_records(
    alloc: Global,
    schema: &Schema,
    drafts: &mut Drafts,
    last: &mut Option<ReadSd>,
    found: &mut Vec<Found>,
    records: Vec<Record>,
) -> Result<(), LoadFault>
    requires few { length records.items ≤ most_lines }
    requires none { drafts_seen drafts.old ≡ [] }
    requires indexed { IsIndexed drafts.old }
    requires sids { drafts.old.sids.keys ≡ [] }
    requires found { AreFound schema.now found.old.items }
    ensures drafts { GivesUnless is_memory (λ _. drafts_seen drafts.new) result
        (through (with_record schema.now) [] (map seen records.items)) }
    ensures few { OnOk result (length drafts.new.items.items ≤ most_lines) }
    ensures indexed { OnOk result (IsIndexed drafts.new) }
{
    for one in records {
        add_record(alloc, schema, drafts, last, found, one)?;
    }
    Ok(())
}

// The drafts of sorted records.
fn all_drafts(alloc: Global, schema: &Schema, records: Vec<Record>) -> Result<Drafts, LoadFault>
    requires { length records.items ≤ most_lines }
    ensures drafts { GivesUnless is_memory drafts_seen result
        (through (with_record schema.now) [] (map seen records.items)) }
    ensures few { IfOk result (λ drafts. length drafts.items.items ≤ most_lines) }
    ensures indexed { IfOk result IsIndexed }
{
    let mut found = none_found(alloc)?;
    let mut last = None;
    let mut drafts = no_drafts(alloc);
    add_records(alloc, schema, &mut drafts, &mut last, &mut found, records)?;
    Ok(drafts)
}

/// The drafts of the objects among the records.
#[tactic(auto, unfolding(crate::specs::Objects::drafts_of))]
pub fn drafts_of(alloc: Global, schema: &Schema, records: Vec<Record>) -> Result<Drafts, LoadFault>
    requires { length records.items ≤ most_lines }
    ensures drafts { GivesUnless is_memory drafts_seen result
        (drafts_of schema.now (map seen records.items)) }
    ensures few { IfOk result (λ drafts. length drafts.items.items ≤ most_lines) }
    ensures indexed { IfOk result IsIndexed }
{
    let mut records = records;
    sort_by_parts(&mut records)?;
    if !has_root(records.as_slice()) {
        return Err(bad(0, LoadCause::Root));
    }
    all_drafts(alloc, schema, records)
}

//! Objects by their names and by their places below a parent.

ghost use Rattle.std.specs.Prelude.{◌≡◌, ◌≤◌, ◌<◌, ◌^◌, ◌++◌, ℕ, [], ◌∷◌, drop, length, List, IfOk, OnOk};
ghost use Rattle.std.specs.Option.{option_copied};
ghost use Rattle.ad_bytes.specs.Numbers.{be_bytes};
ghost use Rattle.ad_dn.specs.NameKey.{rdns_key};
ghost use Rattle.ad_dn.specs.Value.{AreRdns};
ghost use Rattle.ad_schema_classes.specs.declared.names.Case.TheVariants.{Kept};
ghost use Rattle.ad_schema_classes.specs.Hashes.{place_by};
ghost use Rattle.ad_load_objects.specs.Drafts.{Draft as DraftValue, naming_value, number_named};
ghost use Rattle.ad_load_objects.specs.Objects.{parent_of, is_taken, is_sid_used};
ghost use Rattle.ad_load_objects.specs.Seen.{draft_seen};
ghost use Rattle.ad_load_objects.specs.Index.{drafts_seen, place_key, with_sid, AreNames, IsIndexed, IsKeyed, HasSids};
ghost use Rattle.ad_load_records.specs.Records.{most_lines};

use crate::above::key_above;
use crate::drafts::{Draft, Drafts, draft_sid, naming_value};
use ad_bytes::Bytes;
use ad_dn::{Dn, fold_bytes, key};
use ad_ids::Sid;
use ad_schema::Schema;
use ad_schema_classes::Names;
use indexmap::IndexSet;
use std::alloc::{AllocError, Global};

/// An object's draft, and the keys of its name and of its place.
#[derive(Drop)]
pub(crate) struct Keyed {
    pub(crate) draft: Draft,
    pub(crate) name: Bytes,
    pub(crate) place: Bytes,
}

/// No objects.
pub(crate) fn no_drafts(alloc: Global) -> Drafts
    ensures seen { drafts_seen result ≡ [] }
    ensures indexed { IsIndexed result }
    ensures sids { result.sids.keys ≡ [] }
{
    Drafts {
        items: Vec::new(alloc),
        names: Names::new(alloc),
        places: Names::new(alloc),
        sids: IndexSet::new(alloc),
    }
}

/// Tells that a name has the form of a name, and does nothing.
pub(crate) fn has_form(dn: &Dn)
    ensures { AreRdns dn.now.rdns }
{
    dn.rdns.as_slice();
}

/// The key of a name.
pub(crate) fn name_key(alloc: Global, dn: &Dn) -> Result<Bytes, AllocError>
    ensures { IfOk result (λ key. key ≡ rdns_key dn.now.rdns) }
{
    Ok(Bytes::from_vec(key(alloc, dn)?))
}

// The parent's number in four bytes, and then these bytes.
#[tactic(auto, unfolding(ad_bytes::specs::Numbers::be_bytes))]
fn behind_number(alloc: Global, number: u32, bytes: &[u8]) -> Result<Bytes, AllocError>
    ensures { IfOk result (λ both. both ≡ be_bytes 4 number ++ bytes.now) }
{
    Bytes::from_both(alloc, &number.to_be_bytes(), bytes)
}

/// The key of a place: that of the child of the parent with the naming value of this name.
pub(crate) fn place_key(alloc: Global, parent: u32, dn: &Dn) -> Result<Bytes, AllocError>
    ensures { IfOk result (λ key. key ≡ place_key parent (naming_value dn.now.rdns)) }
{
    let folded = fold_bytes(alloc, naming_value(&dn.rdns))?;
    behind_number(alloc, parent, folded.as_slice())
}

fn find(names: &Names, key: &[u8]) -> Option<u32>
    ensures { result ≡ place_by Kept names.now key.now }
{
    names.find_exact(key)
}

// ---- names

// The place of a name among the keys of names.
fn place_named(alloc: Global, names: &Names, dn: &Dn) -> Result<Option<u32>, AllocError>
    ensures { IfOk result (λ place. place ≡ place_by Kept names.now (rdns_key dn.now.rdns)) }
{
    let key = key(alloc, dn)?;
    Ok(find(names, key.as_slice()))
}

/// The number of the object of a name, among objects that have these names.
pub fn number_in(alloc: Global, names: &Names, dn: &Dn) -> Result<Option<u32>, AllocError>
    ghost all: { List DraftValue }
    requires few { length all ≤ most_lines }
    requires names { AreNames all names.now }
    ensures { IfOk result (λ number. number ≡ number_named all dn.now.rdns) }
{
    has_form(dn);
    match place_named(alloc, names, dn)? {
        Some(place) => Ok(Some(place + 1)),
        None => Ok(None),
    }
}

// The number of the object whose name is this one without its first part.
fn number_above(drafts: &Drafts, dn: &Dn, key: &[u8]) -> Option<u32>
    requires few { length drafts.now.items.items ≤ most_lines }
    requires indexed { IsIndexed drafts.now }
    requires key { key.now ≡ rdns_key dn.now.rdns }
    ensures { result ≡ number_named (drafts_seen drafts.now) (drop 1 dn.now.rdns) }
{
    match find(&drafts.names, key_above(dn, key)) {
        Some(place) => Some(place + 1),
        None => None,
    }
}

/// The number of the object above a name, of which this is the key; the root has 0.
#[tactic(auto, unfolding(crate::specs::Objects::parent_of))]
pub(crate) fn parent_of(drafts: &Drafts, dn: &Dn, key: &[u8]) -> Option<u32>
    requires few { length drafts.now.items.items ≤ most_lines }
    requires indexed { IsIndexed drafts.now }
    requires key { key.now ≡ rdns_key dn.now.rdns }
    ensures { result ≡ parent_of (drafts_seen drafts.now) dn.now.rdns }
{
    if drafts.items.is_empty() {
        return Some(0);
    }
    number_above(drafts, dn, key)
}

// ---- places and identifiers

/// Whether a child of a parent has a naming value, of which this is the key.
pub(crate) fn is_taken(drafts: &Drafts, key: &[u8]) -> bool
    requires indexed { IsIndexed drafts.now }
    ensures { (parent : ℕ) (name : List ℕ) → parent < 2 ^ 32 → key.now ≡ place_key parent name
        → result ≡ is_taken (drafts_seen drafts.now) parent name }
{
    find(&drafts.places, key).is_some()
}

/// Whether an object has the identifier.
#[tactic(auto, unfolding(crate::specs::Objects::is_sid_used))]
pub(crate) fn is_sid_used(schema: &Schema, drafts: &Drafts, sid: Option<&Sid>) -> bool
    requires { HasSids schema.now drafts.now }
    ensures { result ≡ is_sid_used schema.now (drafts_seen drafts.now) (option_copied sid.entry) }
{
    match sid {
        Some(sid) => drafts.sids.contains(sid),
        None => false,
    }
}

// PutsOnce an identifier, where there is one, with the others.
fn note_sid(sids: &mut IndexSet<Sid>, sid: Option<Sid>) -> Result<(), AllocError>
    ensures { OnOk result (sids.new.keys ≡ with_sid sids.old.keys sid) }
{
    if let Some(sid) = sid {
        sids.insert(sid)?;
    }
    Ok(())
}

/// PutsOnce an object after the others, by the keys of its name and of its place.
pub(crate) fn push(schema: &Schema, drafts: &mut Drafts, one: Keyed) -> Result<(), AllocError>
    requires few { length drafts.old.items.items ≤ most_lines }
    requires indexed { IsIndexed drafts.old }
    requires sids { HasSids schema.now drafts.old }
    requires keyed { IsKeyed one }
    ensures seen { OnOk result (drafts_seen drafts.new ≡ drafts_seen drafts.old
        ++ draft_seen one.draft ∷ []) }
    ensures indexed { OnOk result (IsIndexed drafts.new) }
    ensures sids { OnOk result (HasSids schema.now drafts.new) }
{
    let Keyed { draft, name, place } = one;
    has_form(&draft.dn);
    note_sid(&mut drafts.sids, draft_sid(schema, &draft))?;
    drafts.names.push(name)?;
    drafts.places.push(place)?;
    drafts.items.push(draft)?;
    Ok(())
}

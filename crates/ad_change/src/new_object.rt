//! A new object: its values, its number and its identifier, its descriptor, and the edits that put it.

ghost use Rattle.std.specs.Prelude.{◌≡◌, ◌<◌, ◌+◌, true, is_some, if◌then◌else◌, Option, Some, None};
ghost use Rattle.std.specs.Prelude.{[], ◌∷◌, map, length, IfOk, OnOk};
ghost use Rattle.std.specs.Option.{option_copied};
ghost use Rattle.ad_ids.specs.SidValue.{SidValue};
ghost use Rattle.ad_ids.specs.Sid.{IsSid, sid_bytes};
ghost use Rattle.ad_value.specs.Value.{as_shown};
ghost use Rattle.ad_sd.specs.Normal.{SpellsNormal};
ghost use Rattle.ad_sd.specs.declared.parts.Sd.{Sd as SdValue};
ghost use Rattle.ad_inherit.specs.Creation.{chosen};
ghost use Rattle.ad_schema.specs.Attributes.{attrs_of};
ghost use Rattle.ad_schema.specs.Classes.{classes_of, is_must};
ghost use Rattle.ad_schema_defaults.specs.Defaults.{default_of};
ghost use Rattle.ad_dir_objects.specs.Seen.{stored_seen, held_seen, object_seen, meta_seen};
ghost use Rattle.ad_dir_model.specs.Limits.{max_counter};
ghost use Rattle.ad_dir_model.specs.Object.{plain, Object as ObjectValue};
ghost use Rattle.ad_dir_model.specs.Objects.{is_live};
ghost use Rattle.ad_dir_model.specs.Attributes.{object_sid};
ghost use Rattle.ad_dir_model.specs.Identity.{domain_sid, domain_child};
ghost use Rattle.ad_dir_model.specs.Changes as changes;
ghost use Rattle.ad_dir_model.specs.Edits.{add_edits};
ghost use Rattle.ad_dir_model.specs.Soundness.{IsSound, AttrsRiseFrom};
ghost use Rattle.ad_change.specs.Adding.{held_before};
ghost use Rattle.ad_change.specs.Creating.{new_whole};
ghost use Rattle.ad_dir.specs.Conditions.{AreEdits};

use ad_bytes::{Bytes, List, OneOrMany};
use ad_change_values::{Held, put_stored, take_stored};
use ad_dir::{Dir, Edit, Meta, Object, ROOT, Stored, guid_of, live_sd};
use ad_ids::{Sid, Token};
use ad_inherit::create;
use ad_schema::{AttrId, ClassId, RuleAttr};
use ad_schema_defaults::default_parts;
use ad_sd::{SdParts, normal};
use ad_value::Value;
use std::alloc::{AllocError, Global};

// ---- values

// Puts an attribute with its values in the place of what is held of it, where there are any.
fn put_before(
    alloc: Global,
    held: &mut Held,
    attr: AttrId,
    stored: OneOrMany<Stored>,
) -> Result<(), AllocError>
    requires { AttrsRiseFrom 0 (map held_seen held.old.items) }
    ensures { OnOk result (map held_seen held.new.items
        ≡ held_before attr.0 (map stored_seen stored) (map held_seen held.old.items)) }
{
    if stored.is_empty() {
        return Ok(());
    }
    take_stored(alloc, held, attr);
    put_stored(held, attr, stored)
}

// ---- the identifier

/// The domain's identifier has the form of one.
pub(crate) fn domain_is_sid(dir: &Dir)
    ensures { (sid : SidValue) → domain_sid dir.now ≡ Some sid → IsSid sid }
{
    match dir.self_sid(ROOT) {
        Some(sid) => sid.has_its_ranges(),
        None => {}
    }
}

// The domain's identifier with the next number after it.
#[tactic(auto, unfolding(ad_dir_model::specs::Identity::domain_child, ad_dir_model::specs::Identity::domain_sid))]
fn next_sid(dir: &Dir) -> Option<Sid>
    ensures { result ≡ domain_child dir.now dir.now.meta.next_rid }
{
    match dir.self_sid(ROOT) {
        Some(domain) => domain.child(dir.meta().next_rid),
        None => None,
    }
}

// That one, where the class must have the attribute.
fn if_must(dir: &Dir, class: ClassId, attr: AttrId) -> Option<Sid>
    requires class { class.0 < length (classes_of dir.now.schema) }
    requires attr { attr.0 < length (attrs_of dir.now.schema) }
    ensures { result ≡ (if is_must dir.now.schema class.0 attr.0 then domain_child dir.now
        dir.now.meta.next_rid else None) }
{
    if dir.schema().must(class, attr) {
        next_sid(dir)
    } else {
        None
    }
}

// The identifier that an object of the class gets.
#[tactic(auto, unfolding(ad_dir_model::specs::Changes::new_sid, ad_dir_model::specs::Attributes::rule_place))]
fn new_sid(dir: &Dir, class: ClassId) -> Option<Sid>
    requires { class.0 < length (classes_of dir.now.schema) }
    ensures { result ≡ changes.new_sid dir.now class.0 }
{
    let schema = dir.schema();
    match schema.attr_of_rule(RuleAttr::ObjectSid) {
        Some(attr) => if_must(dir, class, attr),
        None => None,
    }
}

// The value of an identifier's bytes.
fn sid_value(alloc: Global, sid: &Sid) -> Result<Value, AllocError>
    ensures { IfOk result (λ value. value ≡ as_shown (sid_bytes sid.now)) }
{
    let mut bytes = Vec::new(alloc);
    sid.append(&mut bytes)?;
    Value::as_shown(alloc, bytes.as_slice())
}

// Puts an identifier as the one value of an attribute.
fn put_sid(alloc: Global, held: &mut Held, attr: AttrId, sid: &Sid) -> Result<(), AllocError>
    requires { AttrsRiseFrom 0 (map held_seen held.old.items) }
    ensures { OnOk result (map held_seen held.new.items
        ≡ changes.with_values attr.0 (plain (as_shown (sid_bytes sid.now)) ∷ [])
        (map held_seen held.old.items)) }
{
    let mut stored = OneOrMany::new(alloc);
    stored.push(Stored::Plain(sid_value(alloc, sid)?))?;
    put_before(alloc, held, attr, stored)
}

// Puts an identifier that an object gets.
#[tactic(auto, unfolding(ad_dir_model::specs::Attributes::rule_place))]
fn put_new_sid(alloc: Global, dir: &Dir, held: &mut Held, sid: &Sid) -> Result<(), AllocError>
    requires { AttrsRiseFrom 0 (map held_seen held.old.items) }
    ensures { OnOk result (map held_seen held.new.items
        ≡ changes.with_new_sid (object_sid dir.now.schema) (Some sid.now)
        (map held_seen held.old.items)) }
{
    match dir.schema().attr_of_rule(RuleAttr::ObjectSid) {
        Some(attr) => put_sid(alloc, held, attr, sid),
        None => Ok(()),
    }
}

// Puts the identifier that an object gets, if it gets one.
fn with_sid(alloc: Global, dir: &Dir, held: &mut Held, sid: Option<&Sid>) -> Result<(), AllocError>
    requires { AttrsRiseFrom 0 (map held_seen held.old.items) }
    ensures { OnOk result (map held_seen held.new.items
        ≡ changes.with_new_sid (object_sid dir.now.schema) (option_copied sid.entry)
        (map held_seen held.old.items)) }
{
    match sid {
        Some(sid) => put_new_sid(alloc, dir, held, sid),
        None => Ok(()),
    }
}

// The object with its number and this identifier.
fn object_numbered(
    alloc: Global,
    dir: &Dir,
    parent: u32,
    class: ClassId,
    name: &Bytes,
    mut held: Held,
    sid: Option<&Sid>,
) -> Result<Object, AllocError>
    requires rise { AttrsRiseFrom 0 (map held_seen held.items) }
    requires sid { option_copied sid ≡ changes.new_sid dir.now class.0 }
    ensures { IfOk result (λ object. (sd : SdValue) → object_seen object sd
        ≡ changes.numbered dir.now (record {
          number = 0;
          parent = parent;
          class = class.0;
          name = name.now;
          values = map held_seen held.items;
          sd = sd;
        })) }
{
    with_sid(alloc, dir, &mut held, sid)?;
    let meta = dir.meta();
    let own = name.copy(alloc)?;
    let values = List::from_vec(held);
    Ok(Object {
        number: meta.next_number,
        parent,
        class,
        name: own,
        values,
    })
}

/// The object with its number and the identifier that it gets.
pub(crate) fn new_object(
    alloc: Global,
    dir: &Dir,
    parent: u32,
    class: ClassId,
    name: &Bytes,
    held: Held,
) -> Result<Object, AllocError>
    requires rise { AttrsRiseFrom 0 (map held_seen held.items) }
    requires class { class.0 < length (classes_of dir.now.schema) }
    ensures { IfOk result (λ object. (sd : SdValue) → object_seen object sd
        ≡ changes.numbered dir.now (record {
          number = 0;
          parent = parent;
          class = class.0;
          name = name.now;
          values = map held_seen held.items;
          sd = sd;
        })) }
{
    let sid = new_sid(dir, class);
    object_numbered(alloc, dir, parent, class, name, held, sid.as_ref())
}

/// Whether an object of the class gets an identifier.
pub(crate) fn gets_sid(dir: &Dir, class: ClassId) -> bool
    requires { class.0 < length (classes_of dir.now.schema) }
    ensures { result ≡ is_some (changes.new_sid dir.now class.0) }
{
    new_sid(dir, class).is_some()
}

// ---- the descriptor

// The normal bytes of the descriptor that it has.
fn new_descriptor(
    alloc: Global,
    dir: &Dir,
    token: &Token,
    parent: u32,
    class: ClassId,
    sd: &Option<SdParts>,
) -> Result<Vec<u8>, AllocError>
    requires parent { is_live dir.now.objects parent ≡ true }
    requires class { class.0 < length (classes_of dir.now.schema) }
    ensures { IfOk result (λ bytes. SpellsNormal (new_whole dir.now token.now parent class.0 sd.now)
        bytes.items) }
{
    let schema = dir.schema();
    let default = default_parts(alloc, schema, dir.self_sid(ROOT), class)?;
    let guid = guid_of(schema, class);
    let above = live_sd(dir, parent);
    let made = create(
        alloc,
        above,
        sd.as_ref(),
        &default,
        guid,
        token.owner,
        token.primary,
    )?;
    normal(alloc, &made)
}

// ---- edits

// The next number but one.
#[tactic(auto, unfolding(ad_dir_model::specs::Limits::max_counter))]
fn number_after(number: u32) -> u32
    requires { number < max_counter }
    ensures { result ≡ number + 1 }
{
    number + 1
}

// The number of the next identifier, where one is given or none.
#[tactic(auto, unfolding(ad_dir_model::specs::Limits::max_counter))]
fn rid_after(rid: u32, gets_sid: bool) -> u32
    requires { gets_sid ≡ true → rid < max_counter }
    ensures { result ≡ (if gets_sid then rid + 1 else rid) }
{
    if gets_sid {
        return rid + 1;
    }
    rid
}

// The counters after one object more, which gets an identifier or none.
fn counted_on(alloc: Global, dir: &Dir, gets_sid: bool) -> Result<Meta, AllocError>
    requires number { dir.now.meta.next_number < max_counter }
    requires rid { gets_sid ≡ true → dir.now.meta.next_rid < max_counter }
    ensures { (sid : Option SidValue) → gets_sid ≡ is_some sid
        → IfOk result (λ meta. meta_seen meta ≡ changes.counted_on dir.now.meta sid) }
{
    let meta = dir.meta();
    let next_number = number_after(meta.next_number);
    let next_rid = rid_after(meta.next_rid, gets_sid);
    let suffix = meta.suffix.copy(alloc)?;
    Ok(Meta {
        next_number,
        next_rid,
        suffix,
    })
}

/// The edits that put a new object.
pub(crate) fn new_edits(
    alloc: Global,
    dir: &Dir,
    token: &Token,
    object: Object,
    sd: &Option<SdParts>,
) -> Result<List<Edit>, AllocError>
    requires sound { IsSound dir.now }
    requires parent { is_live dir.now.objects object.parent ≡ true }
    requires class { object.class.0 < length (classes_of dir.now.schema) }
    requires number { dir.now.meta.next_number < max_counter }
    requires rid { is_some (changes.new_sid dir.now object.class.0) ≡ true → dir.now.meta.next_rid
        < max_counter }
    ensures { IfOk result (λ edits. (o : ObjectValue) → o.parent ≡ object.parent → o.class
        ≡ object.class.0
        → o.sd ≡ chosen sd.now (default_of dir.now.schema (domain_sid dir.now) o.class)
        token.now.owner token.now.primary
        → object_seen object o.sd ≡ changes.numbered dir.now o → AreEdits (add_edits dir.now o)
        edits) }
{
    let bytes = new_descriptor(alloc, dir, token, object.parent, object.class, sd)?;
    let gets = gets_sid(dir, object.class);
    let meta = counted_on(alloc, dir, gets)?;
    let mut edits = List::new(alloc);
    edits.push(Edit::PutObject(object, bytes))?;
    edits.push(Edit::PutMeta(meta))?;
    Ok(edits)
}

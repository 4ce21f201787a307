//! The identifier of an object: the first value of its objectSid.

ghost use Rattle.std.specs.Prelude.{◌≡◌, map};
ghost use Rattle.std.specs.Option.{option_copied};
ghost use Rattle.ad_ids.specs.SidReading.{sid_at};
ghost use Rattle.ad_ids.specs.SidOfText.{sid_of_text};
ghost use Rattle.ad_value.specs.ValueOf.{sid_of, whole_sid};
ghost use Rattle.ad_dir_model.specs.Object.{stored_in, first_plain};
ghost use Rattle.ad_dir_model.specs.Identity.{last_of, sid_in};
ghost use Rattle.ad_sd.specs.declared.parts.Sd.{Sd as SdValue};
ghost use Rattle.ad_dir_objects.specs.Seen.{stored_seen, held_seen, object_seen};

use crate::object::{Object, Stored};
use ad_bytes::{Input, OneOrMany};
use ad_ids::{Sid, what_a_sid_s_text_spells};
use ad_schema::{AttrId, RuleAttr, Schema};
use ad_value::Value;

// The identifier that all of the bytes are.
fn whole(bytes: &[u8]) -> Option<Sid>
    ensures { result ≡ whole_sid (sid_at bytes.now) }
{
    let mut input = Input::new(bytes);
    match Sid::read(&mut input) {
        Ok(sid) => { if input.is_empty() { Some(sid) } else { None } }
        Err(_) => None,
    }
}

// The identifier that the whole text encodes.
fn of_text(bytes: &[u8]) -> Option<Sid>
    ensures { result ≡ sid_of_text bytes.now }
{
    what_a_sid_s_text_spells();
    match Sid::from_text(bytes) {
        Ok(sid) => Some(sid),
        Err(_) => None,
    }
}

/// The identifier that a value shows, in its bytes ([MS-DTYP] 2.4.2) or as its text. None where it shows none. It
/// takes no memory.
#[tactic(auto, unfolding(ad_value::specs::ValueOf::sid_of))]
pub fn sid_of(bytes: &[u8]) -> Option<Sid>
    ensures { result ≡ sid_of bytes.now }
{
    match whole(bytes) {
        Some(sid) => Some(sid),
        None => of_text(bytes),
    }
}

// The first of some stored values, where it is no link.
fn first_plain(stored: &[Stored]) -> Option<&Value>
    ensures { option_copied result ≡ first_plain (map stored_seen stored.now) }
{
    match stored.first() {
        Some(Stored::Plain(value)) => Some(value),
        _ => None,
    }
}

/// The stored values of an attribute.
pub fn stored_of(values: &[(AttrId, OneOrMany<Stored>)], attr: AttrId) -> &[Stored]
    ensures { map stored_seen result.now ≡ stored_in (map held_seen values.entry.now) attr.0 }
{
    for held in values {
        if held.0.0 == attr.0 {
            return held.1.as_slice();
        }
    }
    &[]
}

/// The first stored value of an attribute, where it is no link.
pub fn first_of(values: &[(AttrId, OneOrMany<Stored>)], attr: AttrId) -> Option<&Value>
    ensures { option_copied result ≡ first_plain
        (stored_in (map held_seen values.entry.now) attr.0) }
{
    first_plain(stored_of(values, attr))
}

/// The identifier of an object: the first value of its objectSid, where that is one's bytes or text. It takes no
/// memory.
#[tactic(auto, unfolding(ad_dir_model::specs::Identity::sid_in, ad_dir_model::specs::Identity::first_of_attr, ad_dir_model::specs::Attributes::rule_place))]
pub fn object_sid(schema: &Schema, object: &Object) -> Option<Sid>
    ensures { (sd : SdValue) → result ≡ sid_in schema.now (object_seen object.now sd) }
{
    let Some(attr) = schema.attr_of_rule(RuleAttr::ObjectSid) else {
        return None;
    };
    match first_of(object.values.as_slice(), attr) {
        Some(value) => sid_of(value.shown()),
        None => None,
    }
}

/// The last of some numbers, as of an identifier's sub-authorities; none where there are none. It takes no memory.
pub fn last_of(numbers: &[u32]) -> Option<u32>
    ensures { result ≡ last_of numbers.now }
{
    numbers.get(numbers.len().saturating_sub(1)).copied()
}

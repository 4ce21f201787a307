//! What is known of objects before their links are.

ghost use Rattle.std.specs.Prelude.{◌≡◌, map, option_map};
ghost use Rattle.std.specs.Option.{option_copied};
ghost use Rattle.std.specs.Str.{IsUtf8};
ghost use Rattle.ad_load_objects.specs.Drafts.{naming_value, first_given, sid_at, draft_sid};
ghost use Rattle.ad_load_objects.specs.Seen.{given_seen, draft_seen};

use ad_bytes::Bytes;
use ad_dir_objects::sid_of;
use ad_dn::{Dn, Rdns};
use ad_ids::Sid;
use ad_schema::{AttrId, ClassId, RuleAttr, Schema};
use ad_schema_classes::Names;
use ad_sd::NormalSd;
use ad_value::Value;
use indexmap::IndexSet;
use std::rc::Rc;

/// A value that was read, by its line, with the attribute's name as it is spelled there.
#[derive(Drop)]
pub struct Given {
    pub line: u32,
    pub spelled: Bytes,
    pub attr: AttrId,
    pub value: Value,
}

/// An object before its links are known. Its number is its place among all, counted from 1.
#[derive(Drop)]
pub struct Draft {
    pub dn: Dn,
    pub parent: u32,
    pub class: ClassId,
    pub given: Vec<Given>,
    pub sd: Option<Rc<NormalSd>>,
}

/// The objects so far, in the order of their numbers, for each the keys of its name and of its place below its
/// parent, and the identifiers that they have.
#[derive(Drop)]
pub struct Drafts {
    pub items: Vec<Draft>,
    pub names: Names,
    pub places: Names,
    pub sids: IndexSet<Sid>,
}

/// The value of the first part of a name.
pub fn naming_value(rdns: &Rdns) -> &[u8]
    ensures value { result.now ≡ naming_value rdns.now }
    ensures utf8 { IsUtf8 result.now }
{
    match rdns.as_slice() {
        [] => b"",
        [first, ..] => first.value.as_slice(),
    }
}

// ---- identifiers

// The first value of an attribute.
fn first_given(given: &[Given], attr: AttrId) -> Option<&Value>
    ensures { option_copied result ≡ first_given (map given_seen given.now) attr.0 }
{
    for one in given {
        if one.attr.0 == attr.0 {
            return Some(&one.value);
        }
    }
    None
}

// The identifier that the first value of the attribute shows.
fn sid_at(attr: Option<AttrId>, draft: &Draft) -> Option<Sid>
    ensures { result ≡ sid_at (option_map (λ id. id.0) attr) (draft_seen draft.now) }
{
    let Some(attr) = attr else {
        return None;
    };
    match first_given(draft.given.as_slice(), attr) {
        Some(value) => sid_of(value.shown()),
        None => None,
    }
}

/// The identifier of an object.
#[tactic(auto, unfolding(crate::specs::Drafts::draft_sid, ad_dir_model::specs::Attributes::rule_place))]
pub fn draft_sid(schema: &Schema, draft: &Draft) -> Option<Sid>
    ensures { result ≡ draft_sid schema.now (draft_seen draft.now) }
{
    sid_at(schema.attr_of_rule(RuleAttr::ObjectSid), draft)
}

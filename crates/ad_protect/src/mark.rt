//! adminCount: the attribute, and the value that protected objects get of it.

ghost use Rattle.std.specs.Prelude.{◌≡◌, ◌<◌, ◌||◌, ◌&&◌, codes, length, map, IfOk};
ghost use Rattle.std.specs.Option.{option_map};
ghost use Rattle.std.specs.Str.{bytes_eq};
ghost use Rattle.ad_value.specs.Value.{same_key};
ghost use Rattle.ad_schema.specs.Attributes.{attrs_of};
ghost use Rattle.ad_schema.specs.Meaning.{attr_is_link, attr_is_back_link};
ghost use Rattle.ad_value.specs.ValueOf.{normal_or_fault};
ghost use Rattle.ad_dir_objects.specs.Seen.{stored_seen};
ghost use Rattle.ad_dir_model.specs.Attributes.{syntax_at};
ghost use Rattle.ad_dir_model.specs.Protection.{mark_of, admin_count, is_value, is_one_value};
ghost use Rattle.ad_protect.specs.Putting.{mark_seen};

use ad_dir::Stored;
use ad_schema::{AttrId, Schema};
use ad_value::{Value, ValueFault, equal, normal};
use std::alloc::{AllocError, Global};

/// An attribute and the one value that is written.
#[derive(Drop)]
pub(crate) struct Mark {
    pub attr: AttrId,
    pub value: Value,
}

fn is_linked(schema: &Schema, attr: AttrId) -> bool
    requires { attr.0 < length (attrs_of schema.now) }
    ensures { result ≡ (attr_is_link schema.now attr.0 || attr_is_back_link schema.now attr.0) }
{
    schema.is_link(attr) || schema.is_back_link(attr)
}

// The value 1, where the syntax of the attribute reads it.
fn one_of(alloc: Global, schema: &Schema, attr: AttrId) -> Result<Option<Mark>, AllocError>
    requires { attr.0 < length (attrs_of schema.now) }
    ensures { IfOk result (λ mark. option_map mark_seen mark
        ≡ mark_of attr.0 (normal_or_fault (syntax_at schema.now attr.0) (codes "1"))) }
{
    match normal(alloc, schema.attr_info(attr).syntax, b"1") {
        Ok(value) => Ok(Some(Mark { attr, value })),
        Err(ValueFault::Memory) => Err(AllocError),
        Err(ValueFault::TooLong) => Ok(None),
        Err(ValueFault::Syntax) => Ok(None),
    }
}

/// adminCount with the value 1, where the schema has it as no link and no back link and its syntax reads 1.
#[tactic(auto, unfolding(ad_dir_model::specs::Protection::admin_count))]
pub(crate) fn admin_count(alloc: Global, schema: &Schema) -> Result<Option<Mark>, AllocError>
    ensures { IfOk result (λ mark. option_map mark_seen mark ≡ admin_count schema.now) }
{
    match schema.attr(b"adminCount") {
        Some(attr) => {
            if is_linked(schema, attr) {
                return Ok(None);
            }
            one_of(alloc, schema, attr)
        }
        None => Ok(None),
    }
}

fn is_same(value: &Value, other: &Value) -> bool
    ensures { result ≡ (bytes_eq other.now.shown value.now.shown && same_key other.now.key
        value.now.key) }
{
    other.shown() == value.shown() && equal(other, value)
}

fn is_value(value: &Value, stored: &Stored) -> bool
    ensures { result ≡ is_value value.now (stored_seen stored.now) }
{
    match stored {
        Stored::Plain(other) => is_same(value, other),
        Stored::Link(_) => false,
    }
}

/// Whether the one value is this.
pub(crate) fn is_one_value(value: &Value, stored: &[Stored]) -> bool
    ensures { result ≡ is_one_value value.now (map stored_seen stored.now) }
{
    match stored {
        [one] => is_value(value, one),
        _ => false,
    }
}

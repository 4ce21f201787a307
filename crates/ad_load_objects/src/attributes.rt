//! Which attribute a rule means. An attribute's own name is looked at first, since to look a name up takes much
//! longer.

ghost use Rattle.std.specs.Prelude.{◌≡◌, ◌<◌, ◌==◌, length, false};
ghost use Rattle.std.specs.Option.{option_map_or};
ghost use Rattle.ad_schema.specs.Attributes.{attrs_of};
ghost use Rattle.ad_dir_model.specs.Attributes.{attr_name, object_sid};

use ad_schema::{AttrId, RuleAttr, Schema};
use ad_schema_classes::same_name;

// The name of an attribute.
fn own_name(schema: &Schema, attr: AttrId) -> &[u8]
    requires { attr.0 < length (attrs_of schema.now) }
    ensures { result.now ≡ attr_name schema.entry.now attr.0 }
{
    schema.attr_info(attr).name.as_slice()
}

// Whether the rules find this attribute where they ask for identifiers.
#[tactic(auto, unfolding(ad_dir_model::specs::Attributes::rule_place))]
fn is_asked(schema: &Schema, attr: AttrId) -> bool
    ensures { result ≡ option_map_or (λ place. place == attr.0) (object_sid schema.now) false }
{
    match schema.attr_of_rule(RuleAttr::ObjectSid) {
        Some(place) => place.0 == attr.0,
        None => false,
    }
}

/// Whether identifiers of objects are values of this attribute.
pub(crate) fn is_of_sids(schema: &Schema, attr: AttrId) -> bool
    requires { attr.0 < length (attrs_of schema.now) }
    ensures { result ≡ option_map_or (λ place. place == attr.0) (object_sid schema.now) false }
{
    if !same_name(own_name(schema, attr), b"objectSid") {
        return false;
    }
    is_asked(schema, attr)
}

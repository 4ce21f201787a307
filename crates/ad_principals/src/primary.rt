//! The primary group of a principal.

ghost use Rattle.std.specs.Prelude.{◌≡◌};
ghost use Rattle.std.specs.Option.{option_copied, option_and_then};
ghost use Rattle.ad_dir_model.specs.Identity.{domain_child};
ghost use Rattle.ad_principals.specs.Groups.{rid_in, primary_rid, primary_of};

use crate::values::first_value;
use ad_dir::{Dir, ROOT};
use ad_ids::Sid;
use ad_schema::RuleAttr;
use ad_value::Value;

// The number of 32 bits that a value is.
fn rid_in(value: Option<&Value>) -> Option<u32>
    ensures { result ≡ option_and_then (λ value. rid_in value.key) (option_copied value.entry) }
{
    match value {
        Some(value) => match value.number() {
            Some(number) => u32::try_from(number).ok(),
            None => None,
        },
        None => None,
    }
}

#[tactic(auto, unfolding(crate::specs::Groups::primary_rid, ad_dir_model::specs::Attributes::rule_place))]
fn primary_rid(dir: &Dir, number: u32) -> Option<u32>
    ensures { result ≡ primary_rid dir.now number }
{
    rid_in(first_value(
        dir,
        number,
        dir.schema().attr_of_rule(RuleAttr::PrimaryGroupId),
    ))
}

/// The domain's identifier with one more number.
#[tactic(auto, unfolding(ad_dir_model::specs::Identity::domain_child, ad_dir_model::specs::Identity::domain_sid))]
pub(crate) fn domain_child(dir: &Dir, rid: u32) -> Option<Sid>
    ensures { result ≡ domain_child dir.now rid }
{
    match dir.self_sid(ROOT) {
        Some(domain) => domain.child(rid),
        None => None,
    }
}

/// The primary group of an object: the domain's identifier with its primaryGroupID, or else Users.
#[tactic(auto, unfolding(crate::specs::Groups::primary_of))]
pub(crate) fn primary_of(dir: &Dir, number: u32) -> Sid
    ensures { result ≡ primary_of dir.now number }
{
    match primary_rid(dir, number) {
        Some(rid) => match domain_child(dir, rid) {
            Some(sid) => sid,
            None => Sid::users(),
        },
        None => Sid::users(),
    }
}

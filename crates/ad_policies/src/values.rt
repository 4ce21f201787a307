//! The first value that an object has of an attribute.

ghost use Rattle.std.specs.Prelude.{◌≡◌};
ghost use Rattle.std.specs.Option.{option_map, option_copied};
ghost use Rattle.ad_dir_model.specs.Objects.{object_at};
ghost use Rattle.ad_dir_model.specs.Identity.{first_of_attr};

use ad_dir::{Dir, first_of};
use ad_schema::AttrId;
use ad_value::Value;

// The first value of an attribute of an object that may be live.
fn first_at(dir: &Dir, number: u32, attr: AttrId) -> Option<&Value>
    ensures { option_copied result ≡ first_of_attr (Some attr.0)
        (object_at dir.now.objects number) }
{
    match dir.object(number) {
        Some(object) => first_of(object.values.as_slice(), attr),
        None => None,
    }
}

/// The first value that an object has of an attribute, if there is such an attribute. One that isn't live has none.
/// It takes no memory.
#[tactic(auto, unfolding(ad_dir_model::specs::Identity::first_of_attr))]
pub fn first_value(dir: &Dir, number: u32, attr: Option<AttrId>) -> Option<&Value>
    ensures { option_copied result ≡ first_of_attr (option_map (λ id. id.0) attr)
        (object_at dir.now.objects number) }
{
    match attr {
        Some(attr) => first_at(dir, number, attr),
        None => None,
    }
}

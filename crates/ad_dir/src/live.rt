//! Live objects: each with its descriptor, its class and its parent, for a caller who knows that it is there. They take
//! no memory.

ghost use Rattle.std.specs.Prelude.{◌≡◌, ◌≢◌, ◌<◌, true, length};
ghost use Rattle.ad_schema.specs.Attributes.{attrs_of};
ghost use Rattle.ad_schema.specs.Classes.{classes_of, naming_of};
ghost use Rattle.ad_sd.specs.Seen.{seen};
ghost use Rattle.ad_dir_objects.specs.Seen.{object_seen};
ghost use Rattle.ad_dir_model.specs.Objects.{is_live, object_at, parent_at, sd_at};
ghost use Rattle.ad_dir_model.specs.Tree.{root};

use crate::dir::Dir;
use ad_dir_objects::Object;
use ad_schema::{AttrId, ClassId};
use ad_sd::SdView;

/// A live object.
pub fn live_object(dir: &Dir, number: u32) -> &Object
    requires { is_live dir.now.objects number ≡ true }
    ensures { object_seen result.now (sd_at dir.now.objects number) ≡ object_at dir.now.objects
        number }
{
    match dir.object(number) {
        Some(object) => object,
        None => unreachable!(),
    }
}

/// The descriptor of a live object.
pub fn live_sd(dir: &Dir, number: u32) -> SdView<'_>
    requires { is_live dir.now.objects number ≡ true }
    ensures { seen result ≡ sd_at dir.now.objects number }
{
    match dir.sd(number) {
        Some(view) => view,
        None => unreachable!(),
    }
}

/// The class of a live object, which is one of the schema.
pub fn class_of(dir: &Dir, number: u32) -> ClassId
    requires { is_live dir.now.objects number ≡ true }
    ensures class { result.0 ≡ (object_at dir.now.objects number).class }
    ensures in_range { result.0 < length (classes_of dir.now.schema) }
{
    dir.invariants();
    live_object(dir, number).class
}

/// The attribute that names a live object, which is one of the schema.
pub fn naming_of(dir: &Dir, number: u32) -> AttrId
    requires { is_live dir.now.objects number ≡ true }
    ensures naming { result.0 ≡ naming_of dir.now.schema (object_at dir.now.objects number).class }
    ensures in_range { result.0 < length (attrs_of dir.now.schema) }
{
    dir.schema().class_info(class_of(dir, number)).naming
}

/// The parent of a live object that isn't the root.
pub fn parent_of(dir: &Dir, number: u32) -> u32
    requires live { is_live dir.now.objects number ≡ true }
    requires below { number ≢ root }
    ensures parent { result ≡ parent_at dir.now.objects number }
    ensures live { is_live dir.now.objects result ≡ true }
{
    dir.invariants();
    live_object(dir, number).parent
}

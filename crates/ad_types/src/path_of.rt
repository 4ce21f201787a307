//! The path of an attribute.

ghost use Rattle.std.specs.Prelude.{◌≡◌, ◌<◌, length};
ghost use Rattle.ad_schema.specs.Attributes.{attrs_of};
ghost use Rattle.ad_schema.specs.Classes.{classes_of};
ghost use Rattle.ad_types.specs.Path.{guids_of};
ghost use Rattle.ad_types.specs.TypesOf.{attr_path, path_of};

use crate::type_path::Path;
use ad_ids::Guid;
use ad_schema::{AttrId, AttrInfo, ClassId, Schema};

fn attr_path(class: Guid, info: &AttrInfo) -> Path
    ensures { guids_of result ≡ attr_path class info.now }
{
    match info.set {
        Some(set) => Path::three(class, set, info.guid),
        None => Path::two(class, info.guid),
    }
}

/// The path of an attribute of an object of this class ([MS-ADTS] 5.1.3): the GUIDs of the class, of the attribute's
/// property set where it has one, and of the attribute. The ids are of this schema.
pub fn path(schema: &Schema, class: ClassId, attr: AttrId) -> Path
    requires class { class.0 < length (classes_of schema.now) }
    requires attr { attr.0 < length (attrs_of schema.now) }
    ensures { guids_of result ≡ path_of schema.now class attr }
{
    attr_path(schema.class_info(class).guid, schema.attr_info(attr))
}

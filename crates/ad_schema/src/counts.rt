//! How many attributes and classes a schema has.

ghost use Rattle.std.specs.Prelude.{◌≡◌, length};
ghost use Rattle.ad_schema.specs.Attributes.{attrs_of};
ghost use Rattle.ad_schema.specs.Classes.{classes_of};

use crate::laws::records_are_few;
use crate::schema::Schema;

/// The number of the schema's attributes.
pub fn attr_count(schema: &Schema) -> u32
    ensures { result ≡ length (attrs_of schema.now) }
{
    schema.make_schema();
    records_are_few();
    schema.attrs().len() as u32
}

/// The number of the schema's classes.
pub fn class_count(schema: &Schema) -> u32
    ensures { result ≡ length (classes_of schema.now) }
{
    schema.make_schema();
    records_are_few();
    schema.classes().len() as u32
}

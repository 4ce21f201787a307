//! The class of an object, by the values of its objectClass.

ghost use Rattle.std.specs.Prelude.{◌≡◌, ◌<◌, map, length, IfOk, OnOk};
ghost use Rattle.ad_bytes.specs.Reading.{GivesUnless};
ghost use Rattle.ad_schema.specs.Classes.{classes_of, naming_of};
ghost use Rattle.ad_dir_model.specs.Attributes.{attr_name};
ghost use Rattle.ad_load_records.specs.Faults.{is_memory};
ghost use Rattle.ad_load_records.specs.Seen.{held_field};
ghost use Rattle.ad_load_objects.specs.Found.{AreFound};
ghost use Rattle.ad_load_objects.specs.Objects.{with_class, classes_named, class_of, is_named_by};

use crate::found::{Found, class_named};
use ad_dir_objects::naming_name;
use ad_dn::Rdns;
use ad_load_records::{HeldLine, LoadCause, LoadFault, bad};
use ad_schema::{ClassId, Schema};
use ad_schema_classes::same_name;
use ad_schema_defaults::{is_structural, lowest};
use std::alloc::Global;

// How many classes most objects name at most.
const MOST: usize = 8;

// Adds the class of a line, where it is one of objectClass.
#[tactic(auto, unfolding(crate::specs::Objects::with_class))]
fn add_class(
    alloc: Global,
    schema: &Schema,
    found: &mut Vec<Found>,
    line: u32,
    classes: &mut Vec<ClassId>,
    field: &HeldLine,
) -> Result<(), LoadFault>
    requires { AreFound schema.now found.old.items }
    ensures made { GivesUnless is_memory (λ _. classes.new.items) result
        (with_class schema.now line classes.old.items (held_field field.now)) }
    ensures found { OnOk result (AreFound schema.now found.new.items) }
{
    if !same_name(field.name.as_slice(), b"objectClass") {
        return Ok(());
    }
    match class_named(alloc, schema, found, field.value())? {
        Some(class) => {
            classes.push(class)?;
            Ok(())
        }
        None => Err(bad(line, LoadCause::Class)),
    }
}

#[tactic(auto, unfolding(crate::specs::Objects::classes_named))]
fn classes_named(
    alloc: Global,
    schema: &Schema,
    found: &mut Vec<Found>,
    line: u32,
    fields: &[HeldLine],
) -> Result<Vec<ClassId>, LoadFault>
    requires { AreFound schema.now found.old.items }
    ensures made { GivesUnless is_memory (λ classes. classes.items) result
        (classes_named schema.now line (map held_field fields.now)) }
    ensures found { OnOk result (AreFound schema.now found.new.items) }
{
    let mut classes = Vec::with_capacity(alloc, MOST)?;
    for field in fields {
        add_class(alloc, schema, found, line, &mut classes, field)?;
    }
    Ok(classes)
}

/// The class of an object whose record begins at this line: of the classes that its objectClass names the one whose
/// chain has all of them. `found` is what was found last by names.
#[tactic(auto, unfolding(crate::specs::Objects::class_of))]
pub(crate) fn class_of(
    alloc: Global,
    schema: &Schema,
    found: &mut Vec<Found>,
    line: u32,
    fields: &[HeldLine],
) -> Result<ClassId, LoadFault>
    requires { AreFound schema.now found.old.items }
    ensures class { GivesUnless is_memory (λ class. class) result
        (class_of schema.now line (map held_field fields.now)) }
    ensures in_range { IfOk result (λ class. class.0 < length (classes_of schema.now)) }
    ensures found { OnOk result (AreFound schema.now found.new.items) }
{
    let classes = classes_named(alloc, schema, found, line, fields)?;
    let Some(class) = lowest(schema, classes.as_slice()) else {
        return Err(bad(line, LoadCause::Class));
    };
    if !is_structural(schema, class) {
        return Err(bad(line, LoadCause::Class));
    }
    Ok(class)
}

/// Whether a name begins with the naming attribute of the class.
pub(crate) fn is_named_by(schema: &Schema, class: ClassId, rdns: &Rdns) -> bool
    requires { class.0 < length (classes_of schema.now) }
    ensures { result ≡ is_named_by (attr_name schema.now (naming_of schema.now class.0)) rdns.now }
{
    match rdns.as_slice() {
        [] => false,
        [first, ..] => same_name(first.kind.as_slice(), naming_name(schema, class)),
    }
}

//! What the record of a class says, by place.

ghost use Rattle.std.specs.Prelude.{◌≡◌, IfOk};
ghost use Rattle.ad_schema_classes.specs.Names.{place_of};
ghost use Rattle.ad_schema.specs.Fields.{value_if};
ghost use Rattle.ad_schema.specs.Links.{links_in};
ghost use Rattle.ad_schema.specs.Classes.{superclass, own_naming, places_of, neighbours};

use crate::field::Field;
use crate::line::Line;
use crate::reading::class_guid;
use crate::record::{is_line_of, text_of, value_of};
use ad_bytes::List;
use ad_schema_classes::{ClassLinks, Names, same_name};
use std::alloc::{AllocError, Global};

#[tactic(auto, unfolding(crate::specs::Classes::superclass))]
fn superclass(classes: &Names, lines: &[Line]) -> Option<u32>
    ensures { result ≡ superclass classes.now lines.now }
{
    let name = text_of(Field::SubClassOf, lines);
    if same_name(name, text_of(Field::DisplayName, lines)) {
        return None;
    }
    classes.find(name)
}

#[tactic(auto, unfolding(crate::specs::Classes::own_naming))]
fn own_naming(attrs: &Names, lines: &[Line]) -> Option<u32>
    ensures { result ≡ own_naming attrs.now lines.now }
{
    match value_of(Field::NamingAttribute, lines) {
        Some(name) => attrs.find(name),
        None => None,
    }
}

/// What a line names, where it has one of two names.
#[tactic(auto, unfolding(crate::specs::Fields::value_if))]
fn place_in(names: &Names, field: Field, system: Field, line: &Line) -> Option<u32>
    ensures { result ≡ value_if (place_of names.now) field system line.now }
{
    if is_line_of(field, line) || is_line_of(system, line) {
        return names.find(line.value.as_slice());
    }
    None
}

/// The attributes or classes of the lines of two names.
fn places_of(
    alloc: Global,
    names: &Names,
    field: Field,
    system: Field,
    lines: &[Line],
) -> Result<List<u32>, AllocError>
    ensures { IfOk result (λ ids. ids ≡ places_of names.now field system lines.now) }
{
    let mut ids = List::new(alloc);
    for line in lines {
        let Some(id) = place_in(names, field, system, line) else {
            continue;
        };
        ids.push(id)?;
    }
    Ok(ids)
}

#[tactic(auto, unfolding(crate::specs::Classes::neighbours))]
fn neighbours(alloc: Global, classes: &Names, lines: &[Line]) -> Result<List<u32>, AllocError>
    ensures { IfOk result (λ ids. ids ≡ neighbours classes.now lines.now) }
{
    let mut ids = places_of(
        alloc,
        classes,
        Field::Auxiliary,
        Field::SystemAuxiliary,
        lines,
    )?;
    if let Some(above) = superclass(classes, lines) {
        ids.push(above)?;
    }
    Ok(ids)
}

/// What the record of a class says, among attributes and classes of these names.
#[tactic(auto, unfolding(crate::specs::Links::links_in))]
pub fn read_links(
    alloc: Global,
    attrs: &Names,
    classes: &Names,
    lines: &[Line],
) -> Result<ClassLinks, AllocError>
    ensures { IfOk result (λ links. links ≡ links_in attrs.now classes.now lines.now) }
{
    Ok(ClassLinks {
        guid: class_guid(lines),
        above: superclass(classes, lines),
        naming: own_naming(attrs, lines),
        musts: places_of(
            alloc,
            attrs,
            Field::MustContain,
            Field::SystemMustContain,
            lines,
        )?,
        mays: places_of(
            alloc,
            attrs,
            Field::MayContain,
            Field::SystemMayContain,
            lines,
        )?,
        neighbours: neighbours(alloc, classes, lines)?,
        superiors: places_of(
            alloc,
            classes,
            Field::Superiors,
            Field::SystemSuperiors,
            lines,
        )?,
    })
}

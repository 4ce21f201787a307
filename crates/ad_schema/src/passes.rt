//! What all records of a schema say, read record by record.

ghost use Rattle.std.specs.Prelude.{◌≡◌, ◌<◌, ◌^◌, length, map, IfOk};
ghost use Rattle.std.specs.Option.{option_map};
ghost use Rattle.ad_schema.specs.declared.line.SchemaKind.TheVariants.{Class};
ghost use Rattle.ad_schema.specs.Attributes.{lines_if, lines_of, attrs_of, rights_of};
ghost use Rattle.ad_schema.specs.Links.{links_in};
ghost use Rattle.ad_schema.specs.Records.{is_unknown, unknown_in, first_unknown};

use crate::field::Field;
use crate::info::{AttrInfo, RightInfo};
use crate::line::{Line, SchemaKind, SchemaRecord};
use crate::links::read_links;
use crate::reading::{read_attr, read_right};
use crate::record::field_of;
use ad_schema_classes::{ClassLinks, Names};
use std::alloc::{AllocError, Global};

/// The lines of a record, where it is of this kind.
#[tactic(auto, unfolding(crate::specs::Attributes::lines_if))]
pub fn lines_if(kind: SchemaKind, one: &SchemaRecord) -> Option<&[Line]>
    ensures { option_map (λ lines. lines.now) result ≡ lines_if kind one.now }
{
    match (kind, one.kind) {
        (SchemaKind::Attribute, SchemaKind::Attribute)
        | (SchemaKind::Class, SchemaKind::Class)
        | (SchemaKind::Right, SchemaKind::Right) => Some(one.lines.as_slice()),
        _ => None,
    }
}

/// The attributes.
#[tactic(auto, unfolding(crate::specs::Attributes::attrs_of))]
pub fn all_attrs(alloc: Global, records: &[SchemaRecord]) -> Result<Vec<AttrInfo>, AllocError>
    ensures { IfOk result (λ infos. infos.items ≡ attrs_of records.now) }
{
    let mut infos = Vec::new(alloc);
    for record in records {
        let Some(lines) = lines_if(SchemaKind::Attribute, record) else {
            continue;
        };
        let info = read_attr(alloc, lines)?;
        infos.push(info)?;
    }
    Ok(infos)
}

/// The rights.
#[tactic(auto, unfolding(crate::specs::Attributes::rights_of))]
pub fn all_rights(alloc: Global, records: &[SchemaRecord]) -> Result<Vec<RightInfo>, AllocError>
    ensures { IfOk result (λ infos. infos.items ≡ rights_of records.now) }
{
    let mut infos = Vec::new(alloc);
    for record in records {
        let Some(lines) = lines_if(SchemaKind::Right, record) else {
            continue;
        };
        let info = read_right(alloc, lines)?;
        infos.push(info)?;
    }
    Ok(infos)
}

/// What the records of classes name.
pub fn all_links(
    alloc: Global,
    attrs: &Names,
    classes: &Names,
    records: &[SchemaRecord],
) -> Result<Vec<ClassLinks>, AllocError>
    requires { length classes.now ≡ length (lines_of Class records.now) }
    ensures links { IfOk result (λ links.
        links.items ≡ map (links_in attrs.now classes.now) (lines_of Class records.now)) }
    ensures few { IfOk result (λ links. length links.items < 2 ^ 32) }
{
    let mut links = Vec::with_capacity(alloc, classes.len())?;
    for record in records {
        let Some(lines) = lines_if(SchemaKind::Class, record) else {
            continue;
        };
        let link = read_links(alloc, attrs, classes, lines)?;
        links.push(link)?;
    }
    Ok(links)
}

/// Whether a line of a class names an attribute or a class that isn't there.
#[tactic(auto, unfolding(crate::specs::Records::is_unknown))]
fn is_unknown(attrs: &Names, classes: &Names, line: &Line) -> bool
    ensures { result ≡ is_unknown attrs.now classes.now line.now }
{
    let Some(field) = field_of(SchemaKind::Class, line) else {
        return false;
    };
    let name = line.value.as_slice();
    match field {
        Field::SubClassOf
        | Field::Superiors
        | Field::Auxiliary
        | Field::SystemSuperiors
        | Field::SystemAuxiliary => classes.find(name).is_none(),
        Field::NamingAttribute
        | Field::MustContain
        | Field::MayContain
        | Field::SystemMustContain
        | Field::SystemMayContain => attrs.find(name).is_none(),
        _ => false,
    }
}

#[tactic(auto, unfolding(crate::specs::Records::unknown_in))]
fn unknown_in<'a>(attrs: &Names, classes: &Names, lines: &'a [Line]) -> Option<&'a [u8]>
    ensures { option_map (λ name. name.now) result
        ≡ unknown_in attrs.now classes.now lines.entry.now }
{
    let line = lines.iter().find(|line| is_unknown(attrs, classes, line))?;
    Some(line.value.as_slice())
}

/// The first attribute or class that is named and isn't there.
pub fn first_unknown<'a>(
    attrs: &Names,
    classes: &Names,
    records: &'a [SchemaRecord],
) -> Option<&'a [u8]>
    ensures { option_map (λ name. name.now) result
        ≡ first_unknown attrs.now classes.now (lines_of Class records.entry.now) }
{
    for record in records {
        let Some(lines) = lines_if(SchemaKind::Class, record) else {
            continue;
        };
        if let Some(name) = unknown_in(attrs, classes, lines) {
            return Some(name);
        }
    }
    None
}

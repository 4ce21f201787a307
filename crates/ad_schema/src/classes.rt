//! The classes of a schema, from what their records name.

ghost use Rattle.std.specs.Prelude.{◌≡◌, ◌<◌, ◌^◌, map, length, IfOk};
ghost use Rattle.ad_schema.specs.declared.line.SchemaKind.TheVariants.{Class};
ghost use Rattle.ad_schema.specs.Attributes.{lines_of};
ghost use Rattle.ad_schema_classes.specs.Chains.{naming_by};
ghost use Rattle.ad_schema.specs.Classes.{class_infos};
ghost use Rattle.ad_schema_classes.specs.Rows.{aboves, namings};

use crate::info::ClassInfo;
use crate::line::{Line, SchemaKind, SchemaRecord};
use crate::passes::lines_if;
use crate::reading::read_class;
use ad_schema_classes::{ClassLinks, above_of, naming_of};
use std::alloc::{AllocError, Global};

/// The lines of the records of classes.
fn class_lines(alloc: Global, records: &[SchemaRecord]) -> Result<Vec<&[Line]>, AllocError>
    ensures { IfOk result (λ all. map (λ lines. lines.now) all.items
        ≡ lines_of Class records.entry.now) }
{
    let mut all = Vec::new(alloc);
    for record in records {
        let Some(lines) = lines_if(SchemaKind::Class, record) else {
            continue;
        };
        all.push(lines)?;
    }
    Ok(all)
}

/// The classes of these lines.
fn all_classes(
    alloc: Global,
    lines: &[&[Line]],
    links: &[ClassLinks],
    cn: u32,
) -> Result<Vec<ClassInfo>, AllocError>
    requires { length lines.now < 2 ^ 32 }
    ensures { IfOk result (λ infos. infos.items ≡ class_infos (aboves links.now)
        (namings links.now) cn 0 (map (λ lines. lines.now) lines.now)) }
{
    let mut infos = Vec::new(alloc);
    for i in 0..lines.len() {
        let class = i as u32;
        let naming = naming_of(links, cn, class);
        let info = read_class(alloc, above_of(links, class), naming, lines[i])?;
        infos.push(info)?;
    }
    Ok(infos)
}

/// The classes.
pub fn read_classes(
    alloc: Global,
    records: &[SchemaRecord],
    links: &[ClassLinks],
    cn: u32,
) -> Result<Vec<ClassInfo>, AllocError>
    requires { length (lines_of Class records.now) < 2 ^ 32 }
    ensures { IfOk result (λ infos. infos.items ≡ class_infos (aboves links.now)
        (namings links.now) cn 0 (lines_of Class records.now)) }
{
    let lines = class_lines(alloc, records)?;
    all_classes(alloc, lines.as_slice(), links, cn)
}

//! From records to a schema.

ghost use Rattle.std.specs.Prelude.{◌≡◌, ◌<◌, ◌^◌, codes, is_some, length, slice_get, IfOk, Some};
ghost use Rattle.ad_bytes.specs.Reading.{GivesUnless, need};
ghost use Rattle.ad_schema.specs.declared.line.SchemaKind.TheVariants.{Attribute, Class};
ghost use Rattle.ad_schema.specs.declared.fault.SchemaFault.TheVariants.{Unknown, Loop};
ghost use Rattle.ad_schema.specs.Attributes.{lines_of, names_of};
ghost use Rattle.ad_schema_classes.specs.Names.{place_of};
ghost use Rattle.ad_schema.specs.Classes.{cn_of};
ghost use Rattle.ad_schema.specs.Titles.{right_keys};
ghost use Rattle.ad_schema.specs.Links.{links_of};
ghost use Rattle.ad_schema.specs.Sound.{AreAdded};
ghost use Rattle.ad_schema.specs.Records.{is_memory, none_of, first_unknown, finished};
ghost use Rattle.ad_schema_classes.specs.Chains.{first_endless};
ghost use Rattle.ad_schema_classes.specs.Rows.{aboves};
ghost use Rattle.std.specs.Option.{option_and_then};

use crate::fault::SchemaFault;
use crate::line::SchemaRecord;
use crate::passes::{all_links, first_unknown};
use crate::schema::Schema;
use ad_bytes::Bytes;
use ad_schema_classes::{ClassLinks, Names, first_endless};
use std::alloc::Global;

/// Finds no attribute or class that is named and isn't there.
fn check_known(
    alloc: Global,
    attrs: &Names,
    classes: &Names,
    records: &[SchemaRecord],
) -> Result<(), SchemaFault>
    ensures { GivesUnless is_memory (λ _. tt) result (none_of Unknown
        (first_unknown attrs.now classes.now (lines_of Class records.now))) }
{
    if let Some(name) = first_unknown(attrs, classes, records) {
        return Err(SchemaFault::Unknown(Bytes::from_slice(alloc, name)?));
    }
    Ok(())
}

/// The place of the attribute `cn`.
#[tactic(auto, unfolding(crate::specs::Classes::cn_of))]
fn place_of_cn(alloc: Global, attrs: &Names) -> Result<u32, SchemaFault>
    ensures known { GivesUnless is_memory (λ _. tt) result
        (need (is_some (place_of attrs.now (codes "cn"))) (Unknown (codes "cn"))) }
    ensures place { IfOk result (λ cn. cn ≡ cn_of attrs.now) }
{
    match attrs.find(b"cn") {
        Some(cn) => Ok(cn),
        None => Err(SchemaFault::Unknown(Bytes::from_slice(alloc, b"cn")?)),
    }
}

/// The name at a place.
fn name_at(names: &Names, place: u32) -> &[u8]
    requires { place < length names.now }
    ensures { slice_get names.entry.now place ≡ Some result.now }
{
    names.as_slice()[place as usize].as_slice()
}

/// Finds no class whose chain never ends.
fn check_ends(alloc: Global, links: &[ClassLinks], classes: &Names) -> Result<(), SchemaFault>
    requires few { length links.now < 2 ^ 32 }
    requires long { length classes.now ≡ length links.now }
    ensures { GivesUnless is_memory (λ _. tt) result
        (none_of Loop (option_and_then (slice_get classes.now)
        (first_endless (aboves links.now)))) }
{
    let Some(class) = first_endless(alloc, links)? else {
        return Ok(());
    };
    let name = Bytes::from_slice(alloc, name_at(classes, class))?;
    Err(SchemaFault::Loop(name))
}

/// What the classes of a schema name, and the place of the attribute `cn`.
#[derive(Drop)]
struct NamedLinks {
    links: Vec<ClassLinks>,
    cn: u32,
}

// Judges what the records name.
fn links_if_sound(
    alloc: Global,
    attrs: &Names,
    classes: &Names,
    records: &[SchemaRecord],
) -> Result<NamedLinks, SchemaFault>
    requires attrs { attrs.now ≡ names_of Attribute records.now }
    requires classes { classes.now ≡ names_of Class records.now }
    ensures made { GivesUnless is_memory (λ _. records.now) result (finished records.now) }
    ensures links { IfOk result (λ j. j.links.items ≡ links_of records.now) }
    ensures few { IfOk result (λ j. length j.links.items < 2 ^ 32) }
    ensures cn { IfOk result (λ j. j.cn ≡ cn_of (names_of Attribute records.now)) }
{
    check_known(alloc, attrs, classes, records)?;
    let cn = place_of_cn(alloc, attrs)?;
    let links = all_links(alloc, attrs, classes, records)?;
    check_ends(alloc, links.as_slice(), classes)?;
    Ok(NamedLinks { links, cn })
}

/// The schema of records whose attributes and classes have these names, and whose rights these GUIDs.
pub fn schema_of(
    alloc: Global,
    records: Vec<SchemaRecord>,
    attrs: Names,
    classes: Names,
    rights: Names,
) -> Result<Schema, SchemaFault>
    requires attrs { attrs ≡ names_of Attribute records.items }
    requires classes { classes ≡ names_of Class records.items }
    requires rights { rights ≡ right_keys records.items }
    requires added { AreAdded records.items }
    ensures { GivesUnless is_memory (λ schema. schema) result (finished records.items) }
{
    let found = links_if_sound(alloc, &attrs, &classes, records.as_slice())?;
    let NamedLinks { links, cn } = found;
    Ok(Schema::over(alloc, records, attrs, classes, rights, links, cn)?)
}

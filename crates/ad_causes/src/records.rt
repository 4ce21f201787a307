//! What the rules read of a record of a schema.

ghost use Rattle.std.specs.Prelude.{◌≡◌, ◌++◌, ◌∷◌, [], ◌||◌, false, codes, find, map, unwrap_or, IfOk, OnOk};
ghost use Rattle.std.specs.List.{flat_map, list_any};
ghost use Rattle.std.specs.Option.{option_map};
ghost use Rattle.ad_schema_classes.specs.Names.{same_name as same_names};
ghost use Rattle.ad_schema.specs.declared.line.SchemaKind.TheVariants.{Attribute, Class, Right};
ghost use Rattle.ad_schema.specs.Fields.{name_of, fields};
ghost use Rattle.ad_schema.specs.Attributes.{right_guid as guid_of_right};
ghost use Rattle.ad_causes.specs.Extra.{texts};
ghost use Rattle.ad_causes.specs.Schema.{kind_code, name_field, record_name, record_key, sized};
ghost use Rattle.ad_causes.specs.Schema.{is_read, line_text, record_text};
ghost use Rattle.ad_causes.specs.Schema.{record_title};
ghost use Rattle.ad_causes.specs.Steps.{field_text};

use crate::pieces::put;
use ad_access_dir::is_title;
use ad_ids::Guid;
use ad_schema::{Line, SchemaKind, SchemaRecord};
use ad_schema_classes::same_name;
use std::alloc::{AllocError, Global};

// ---- lines that are read

// Whether the name is one of two, or it is known.
fn is_one(name: &[u8], first: &[u8], second: &[u8], known: bool) -> bool
    ensures { result ≡ (same_names name.now first.now || (same_names name.now second.now || known)) }
{
    same_name(name, first) || same_name(name, second) || known
}

// Whether the name is this one, or it is known.
fn is_either(name: &[u8], first: &[u8], known: bool) -> bool
    ensures { result ≡ (same_names name.now first.now || known) }
{
    same_name(name, first) || known
}

fn is_of_attribute(name: &[u8]) -> bool
    ensures { result ≡ list_any (λ f. same_names name.now (name_of f)) (fields Attribute) }
{
    let known = is_one(name, b"searchFlags", b"linkID", false);
    let known = is_one(name, b"isSingleValued", b"attributeSecurityGUID", known);
    let known = is_one(name, b"attributeSyntax", b"schemaIDGUID", known);
    is_either(name, b"lDAPDisplayName", known)
}

fn is_of_class(name: &[u8]) -> bool
    ensures { result ≡ list_any (λ f. same_names name.now (name_of f)) (fields Class) }
{
    let known = is_one(name, b"systemPossSuperiors", b"systemAuxiliaryClass", false);
    let known = is_one(name, b"systemMustContain", b"systemMayContain", known);
    let known = is_one(name, b"possSuperiors", b"auxiliaryClass", known);
    let known = is_one(name, b"mustContain", b"mayContain", known);
    let known = is_one(name, b"rDNAttID", b"defaultSecurityDescriptor", known);
    let known = is_one(name, b"subClassOf", b"objectClassCategory", known);
    is_one(name, b"lDAPDisplayName", b"schemaIDGUID", known)
}

fn is_of_right(name: &[u8]) -> bool
    ensures { result ≡ list_any (λ f. same_names name.now (name_of f)) (fields Right) }
{
    let known = is_one(name, b"validAccesses", b"appliesTo", false);
    is_one(name, b"cn", b"rightsGuid", known)
}

fn is_read(kind: SchemaKind, line: &Line) -> bool
    ensures { result ≡ is_read kind line.now }
{
    match kind {
        SchemaKind::Attribute => is_of_attribute(line.name.as_slice()),
        SchemaKind::Class => is_of_class(line.name.as_slice()),
        SchemaKind::Right => is_of_right(line.name.as_slice()),
    }
}

// ---- texts

fn put_sized(into: &mut Vec<u8>, text: &[u8]) -> Result<(), AllocError>
    ensures { OnOk result (into.new.items ≡ into.old.items ++ sized text.now) }
{
    put(into, itoa::Buffer::new().format(text.len()).as_bytes())?;
    put(into, b":")?;
    put(into, text)
}

fn put_line_text(into: &mut Vec<u8>, kind: SchemaKind, line: &Line) -> Result<(), AllocError>
    ensures { OnOk result (into.new.items ≡ into.old.items ++ line_text kind line.now) }
{
    if is_read(kind, line) {
        put_sized(into, line.name.as_slice())?;
        return put_sized(into, line.value.as_slice());
    }
    Ok(())
}

fn put_line_texts(into: &mut Vec<u8>, kind: SchemaKind, lines: &[Line]) -> Result<(), AllocError>
    ensures { OnOk result (into.new.items ≡ into.old.items ++ flat_map (line_text kind) lines.now) }
{
    for line in lines {
        put_line_text(into, kind, line)?;
    }
    Ok(())
}

fn kind_code(kind: SchemaKind) -> &'static [u8]
    ensures { result.now ≡ kind_code kind ∷ [] }
{
    match kind {
        SchemaKind::Attribute => b"A",
        SchemaKind::Class => b"C",
        SchemaKind::Right => b"R",
    }
}

/// Its kind, and all that the rules read of it.
///
/// # Errors
///
/// Out of memory.
#[tactic(auto, unfolding(crate::specs::Schema::record_text))]
pub(crate) fn record_text(alloc: Global, record: &SchemaRecord) -> Result<Vec<u8>, AllocError>
    ensures { IfOk result (λ text. text.items ≡ record_text record.now) }
{
    let mut text = Vec::new(alloc);
    put(&mut text, kind_code(record.kind))?;
    put_line_texts(&mut text, record.kind, record.lines.as_slice())?;
    Ok(text)
}

/// Those of all records.
///
/// # Errors
///
/// Out of memory.
pub(crate) fn record_texts(
    alloc: Global,
    records: &[SchemaRecord],
) -> Result<Vec<Vec<u8>>, AllocError>
    ensures { IfOk result (λ all. texts all.items ≡ map record_text records.now) }
{
    let mut all = Vec::new(alloc);
    for record in records {
        let text = record_text(alloc, record)?;
        all.push(text)?;
    }
    Ok(all)
}

// ---- names

// The value of the first line of a name; nothing where there is none.
fn text_in<'a>(lines: &'a [Line], name: &[u8]) -> &'a [u8]
    ensures { result.now ≡ field_text name.now lines.entry.now }
{
    for line in lines {
        if same_name(line.name.as_slice(), name) {
            return line.value.as_slice();
        }
    }
    b""
}

fn name_field(kind: SchemaKind) -> &'static [u8]
    ensures { result.now ≡ name_of (name_field kind) }
{
    match kind {
        SchemaKind::Attribute | SchemaKind::Class => b"lDAPDisplayName",
        SchemaKind::Right => b"cn",
    }
}

#[tactic(auto, unfolding(crate::specs::Schema::record_name, ad_schema::specs::Fields::value_of))]
fn record_name(record: &SchemaRecord) -> &[u8]
    ensures { result.now ≡ record_name record.entry.now }
{
    text_in(record.lines.as_slice(), name_field(record.kind))
}

/// Its kind and its name.
///
/// # Errors
///
/// Out of memory.
pub(crate) fn record_key(alloc: Global, record: &SchemaRecord) -> Result<Vec<u8>, AllocError>
    ensures { IfOk result (λ text. text.items ≡ record_key record.now) }
{
    let mut text = Vec::new(alloc);
    put(&mut text, kind_code(record.kind))?;
    put(&mut text, record_name(record))?;
    Ok(text)
}

/// Those of all records.
///
/// # Errors
///
/// Out of memory.
pub(crate) fn record_keys(
    alloc: Global,
    records: &[SchemaRecord],
) -> Result<Vec<Vec<u8>>, AllocError>
    ensures { IfOk result (λ all. texts all.items ≡ map record_key records.now) }
{
    let mut all = Vec::new(alloc);
    for record in records {
        let text = record_key(alloc, record)?;
        all.push(text)?;
    }
    Ok(all)
}

#[tactic(auto, unfolding(ad_schema::specs::Attributes::right_guid, ad_schema::specs::Fields::value_of))]
fn right_guid(record: &SchemaRecord) -> Guid
    ensures { result ≡ guid_of_right record.now.lines }
{
    match Guid::from_text(text_in(record.lines.as_slice(), b"rightsGuid")) {
        Some(guid) => guid,
        None => Guid { bytes: [0; 16] },
    }
}

/// How a line tells a record: by its name where that is a word, else by its GUID.
///
/// # Errors
///
/// Out of memory.
pub(crate) fn record_title(alloc: Global, record: &SchemaRecord) -> Result<Vec<u8>, AllocError>
    ensures { IfOk result (λ title. title.items ≡ record_title record.now) }
{
    let name = record_name(record);
    if is_title(name) {
        return Vec::from_slice(alloc, name);
    }
    let text = right_guid(record).text(alloc)?;
    Vec::from_slice(alloc, text.as_bytes())
}

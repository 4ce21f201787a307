//! The words of an entry of a list: its rights, its GUIDs and its identifier.

use crate::hint::{Hint, plain};
use crate::near::{Nearest, is_near, keep, names_of, nearest_to};
use crate::objects::unknown_name;
use ad_dir::{Dir, ROOT};
use ad_ids::{Guid, Sid};
use ad_principals::{NameFault, principal_named};
use ad_schema::Schema;
use ad_schema_classes::same_name;
use ad_sddl::{SddlFault, SddlKind};
use std::alloc::{AllocError, Global};

/// The rights of an entry.
static CODES: [&str; 17] = [
    "CC", "DC", "LC", "SW", "RP", "WP", "DT", "LO", "CR", "SD", "RC", "WD", "WO", "GA", "GX", "GW",
    "GR",
];

/// What is said of a right to which none is near.
const REMARK: &str =
    ": an entry's are CC, DC, LC, SW, RP, WP, DT, LO, CR, SD, RC, WD, WO, GA, GX, GW and GR, or 0x and digits";

/// What is said of rights with a name, as a question has them.
const NAMED: &str =
    ": an entry has the rights alone here, and the GUID of a name in the next field";

/// The fields of an entry that may name something.
#[derive(Clone, Copy)]
struct Fields<'a> {
    rights: &'a str,
    object: &'a str,
    inherited: &'a str,
    who: &'a str,
}

fn fields_of(entry: &str) -> Option<Fields<'_>> {
    let inner = entry.strip_prefix('(')?.strip_suffix(')')?;
    let (_, rest) = inner.split_once(';')?;
    let (_, rest) = rest.split_once(';')?;
    let (rights, rest) = rest.split_once(';')?;
    let (object, rest) = rest.split_once(';')?;
    let (inherited, who) = rest.split_once(';')?;
    Some(Fields {
        rights,
        object,
        inherited,
        who,
    })
}

// ---- rights

fn is_code(letters: &[u8]) -> bool {
    for i in 0..CODES.len() {
        let code = CODES[i];
        if same_name(letters, code.as_bytes()) {
            return true;
        }
    }
    false
}

// What is told of letters that are no right.
fn no_code<'a>(alloc: Global, letters: &'a str) -> Result<Hint<'a>, AllocError> {
    let mut nearest = nearest_to(alloc, letters.as_bytes())?;
    for i in 0..CODES.len() {
        let code = CODES[i];
        if is_near(alloc, &mut nearest, code.as_bytes())? {
            keep(&mut nearest, Vec::from_slice(alloc, code.as_bytes())?)?;
        }
    }
    Ok(Hint {
        what: "unknown right",
        word: letters,
        names: names_of(nearest),
        remark: REMARK,
    })
}

// The first two letters that are no right.
fn in_codes<'a>(alloc: Global, rights: &'a str) -> Result<Option<Hint<'a>>, AllocError> {
    for letters in rights.as_bytes().chunks(2) {
        if !is_code(letters) {
            return match str::from_utf8(letters) {
                Ok(word) => Ok(Some(no_code(alloc, word)?)),
                Err(_) => Ok(None),
            };
        }
    }
    Ok(None)
}

fn in_rights<'a>(alloc: Global, rights: &'a str) -> Result<Option<Hint<'a>>, AllocError> {
    if rights.starts_with("0x") || rights.starts_with("0X") {
        return Ok(None);
    }
    if rights.contains(':') {
        return Ok(Some(plain(alloc, "unknown right", rights, NAMED)));
    }
    in_codes(alloc, rights)
}

// ---- GUIDs

fn guid_of_attribute(schema: &Schema, name: &[u8]) -> Option<Guid> {
    for one in schema.attrs() {
        if same_name(one.name.as_slice(), name) {
            return Some(one.guid);
        }
    }
    None
}

fn guid_of_class(schema: &Schema, name: &[u8]) -> Option<Guid> {
    for one in schema.classes() {
        if same_name(one.name.as_slice(), name) {
            return Some(one.guid);
        }
    }
    None
}

fn guid_of_right(schema: &Schema, name: &[u8]) -> Option<Guid> {
    for one in schema.rights() {
        if same_name(one.name.as_slice(), name) {
            return Some(one.guid);
        }
    }
    None
}

fn guid_named(schema: &Schema, name: &[u8]) -> Option<Guid> {
    match guid_of_attribute(schema, name) {
        Some(guid) => Some(guid),
        None => match guid_of_class(schema, name) {
            Some(guid) => Some(guid),
            None => guid_of_right(schema, name),
        },
    }
}

fn offer(alloc: Global, nearest: &mut Nearest, name: &[u8]) -> Result<(), AllocError> {
    if is_near(alloc, nearest, name)? {
        keep(nearest, Vec::from_slice(alloc, name)?)?;
    }
    Ok(())
}

fn near_names(alloc: Global, schema: &Schema, word: &[u8]) -> Result<Vec<Vec<u8>>, AllocError> {
    let mut nearest = nearest_to(alloc, word)?;
    for one in schema.attrs() {
        offer(alloc, &mut nearest, one.name.as_slice())?;
    }
    for one in schema.classes() {
        offer(alloc, &mut nearest, one.name.as_slice())?;
    }
    for one in schema.rights() {
        offer(alloc, &mut nearest, one.name.as_slice())?;
    }
    Ok(names_of(nearest))
}

fn only(alloc: Global, text: &str) -> Result<Vec<Vec<u8>>, AllocError> {
    let mut names = Vec::new(alloc);
    names.push(Vec::from_slice(alloc, text.as_bytes())?)?;
    Ok(names)
}

fn no_guid<'a>(alloc: Global, schema: &Schema, word: &'a str) -> Result<Hint<'a>, AllocError> {
    match guid_named(schema, word.as_bytes()) {
        Some(guid) => {
            let text = guid.text(alloc)?;
            Ok(Hint {
                what: "no GUID:",
                word,
                names: only(alloc, text.as_str())?,
                remark: "",
            })
        }
        None => Ok(Hint {
            what: "unknown attribute, class or right",
            word,
            names: near_names(alloc, schema, word.as_bytes())?,
            remark: ": a GUID stands here",
        }),
    }
}

fn in_guid<'a>(
    alloc: Global,
    schema: &Schema,
    field: &'a str,
) -> Result<Option<Hint<'a>>, AllocError> {
    if field.is_empty() || Guid::from_text(field.as_bytes()).is_some() {
        return Ok(None);
    }
    Ok(Some(no_guid(alloc, schema, field)?))
}

// ---- the identifier

fn is_identifier(alloc: Global, dir: &Dir, text: &str) -> Result<bool, AllocError> {
    let mut owner = Vec::from_slice(alloc, b"O:")?;
    owner.extend_from_slice(text.as_bytes())?;
    match ad_sddl::read(alloc, &owner, dir.self_sid(ROOT)) {
        Ok(_) => Ok(true),
        Err(SddlFault::Bad { place: _, kind }) => Ok(kind == SddlKind::Domain),
        Err(SddlFault::Memory) => Err(AllocError),
    }
}

fn sid_named(alloc: Global, dir: &Dir, name: &str) -> Result<Option<Sid>, AllocError> {
    match principal_named(alloc, dir, name.as_bytes()) {
        Ok(number) => Ok(dir.self_sid(number).copied()),
        Err(NameFault::Memory) => Err(AllocError),
        Err(_) => Ok(None),
    }
}

/// What is told of a word that is to be an identifier, numeric or an alias: that of an account, where it names one.
pub(crate) fn in_identifier<'a>(
    alloc: Global,
    dir: &Dir,
    word: &'a str,
) -> Result<Option<Hint<'a>>, AllocError> {
    if word.is_empty() || is_identifier(alloc, dir, word)? {
        return Ok(None);
    }
    match sid_named(alloc, dir, word)? {
        Some(sid) => {
            let text = sid.text(alloc)?;
            Ok(Some(Hint {
                what: "no identifier:",
                word,
                names: only(alloc, text.as_str())?,
                remark: "",
            }))
        }
        None => unknown_name(alloc, dir, word, true),
    }
}

// ---- the entry

fn in_names<'a>(
    alloc: Global,
    dir: &Dir,
    fields: &Fields<'a>,
) -> Result<Option<Hint<'a>>, AllocError> {
    match in_guid(alloc, dir.schema(), fields.object)? {
        Some(hint) => Ok(Some(hint)),
        None => match in_guid(alloc, dir.schema(), fields.inherited)? {
            Some(hint) => Ok(Some(hint)),
            None => in_identifier(alloc, dir, fields.who),
        },
    }
}

/// What is told of the first word of an entry that names nothing.
pub(crate) fn in_entry<'a>(
    alloc: Global,
    dir: &Dir,
    entry: &'a str,
) -> Result<Option<Hint<'a>>, AllocError> {
    let Some(fields) = fields_of(entry) else {
        return Ok(None);
    };
    match in_rights(alloc, fields.rights)? {
        Some(hint) => Ok(Some(hint)),
        None => in_names(alloc, dir, &fields),
    }
}

//! The texts of rights, by their letters and by the names of the schema.

use crate::hint::Hint;
use crate::near::{Nearest, is_near, keep, names_of, nearest_to};
use ad_schema::Schema;
use ad_schema_classes::same_name;
use std::alloc::{AllocError, Global};

/// The rights that may be asked for.
static CODES: [&str; 13] = [
    "CC", "DC", "LC", "SW", "RP", "WP", "DT", "LO", "CR", "SD", "RC", "WD", "WO",
];

/// What is said where nothing is near.
const REMARK: &str = ": a right is CC, DC, LC, SW, RP, WP, DT, LO, CR, SD, RC, WD or WO; \
    after CC, DC, SW, RP, WP and CR may be a : and a name; and one may intend to see, read:ATTRIBUTE, write:ATTRIBUTE, \
    reset, join, add:CLASS, delete, dacl or owner";

/// What a name after a right's letters is of.
#[derive(Clone, Copy, PartialEq, Eq)]
enum Named {
    Attribute,
    Class,
    ExtendedRight,
    ValidatedWrite,
    Nothing,
}

fn named_after(code: &str) -> Named {
    if code == "RP" || code == "WP" {
        Named::Attribute
    } else if code == "CC" || code == "DC" {
        Named::Class
    } else if code == "CR" {
        Named::ExtendedRight
    } else if code == "SW" {
        Named::ValidatedWrite
    } else {
        Named::Nothing
    }
}

// The code that letters are, in whatever case.
fn code_of(letters: &str) -> Option<&'static str> {
    for i in 0..CODES.len() {
        let code = CODES[i];
        if same_name(letters.as_bytes(), code.as_bytes()) {
            return Some(code);
        }
    }
    None
}

fn is_code(letters: &str) -> bool {
    match code_of(letters) {
        Some(code) => code == letters,
        None => false,
    }
}

// The letters, and the name after a colon.
fn parted(text: &str) -> (&str, Option<&str>) {
    match text.split_once(':') {
        Some((letters, name)) => (letters, Some(name)),
        None => (text, None),
    }
}

// ---- names of the schema

// The text of a right on a path.
fn with_name(alloc: Global, code: &str, name: &[u8]) -> Result<Vec<u8>, AllocError> {
    let mut text = Vec::from_slice(alloc, code.as_bytes())?;
    text.push(b':')?;
    text.extend_from_slice(name)?;
    Ok(text)
}

fn offer(alloc: Global, nearest: &mut Nearest, code: &str, name: &[u8]) -> Result<(), AllocError> {
    if is_near(alloc, nearest, name)? {
        keep(nearest, with_name(alloc, code, name)?)?;
    }
    Ok(())
}

fn offer_attributes(
    alloc: Global,
    nearest: &mut Nearest,
    schema: &Schema,
    code: &str,
) -> Result<(), AllocError> {
    for one in schema.attrs() {
        offer(alloc, nearest, code, one.name.as_slice())?;
    }
    Ok(())
}

fn offer_classes(
    alloc: Global,
    nearest: &mut Nearest,
    schema: &Schema,
    code: &str,
) -> Result<(), AllocError> {
    for one in schema.classes() {
        offer(alloc, nearest, code, one.name.as_slice())?;
    }
    Ok(())
}

fn offer_rights(
    alloc: Global,
    nearest: &mut Nearest,
    schema: &Schema,
    code: &str,
    accesses: u32,
) -> Result<(), AllocError> {
    for one in schema.rights() {
        if one.accesses == accesses {
            offer(alloc, nearest, code, one.name.as_slice())?;
        }
    }
    Ok(())
}

fn offer_names(
    alloc: Global,
    nearest: &mut Nearest,
    schema: &Schema,
    code: &str,
) -> Result<(), AllocError> {
    match named_after(code) {
        Named::Attribute => offer_attributes(alloc, nearest, schema, code),
        Named::Class => offer_classes(alloc, nearest, schema, code),
        Named::ExtendedRight => offer_rights(alloc, nearest, schema, code, 256),
        Named::ValidatedWrite => offer_rights(alloc, nearest, schema, code, 8),
        Named::Nothing => Ok(()),
    }
}

fn has_right(schema: &Schema, accesses: u32, name: &[u8]) -> bool {
    for one in schema.rights() {
        if one.accesses == accesses && same_name(one.name.as_slice(), name) {
            return true;
        }
    }
    false
}

fn is_name(schema: &Schema, code: &str, name: &[u8]) -> bool {
    match named_after(code) {
        Named::Attribute => schema.attr(name).is_some(),
        Named::Class => schema.class(name).is_some(),
        Named::ExtendedRight => has_right(schema, 256, name),
        Named::ValidatedWrite => has_right(schema, 8, name),
        Named::Nothing => false,
    }
}

// ---- the text

fn is_known(schema: &Schema, text: &str) -> bool {
    match parted(text) {
        (letters, None) => is_code(letters),
        (letters, Some(name)) => is_code(letters) && is_name(schema, letters, name.as_bytes()),
    }
}

// The nearest codes, with what stands after the letters.
fn near_codes(
    alloc: Global,
    letters: &str,
    name: Option<&str>,
) -> Result<Vec<Vec<u8>>, AllocError> {
    let mut nearest = nearest_to(alloc, letters.as_bytes())?;
    for i in 0..CODES.len() {
        let code = CODES[i];
        if is_near(alloc, &mut nearest, code.as_bytes())? {
            let told = match name {
                Some(name) => with_name(alloc, code, name.as_bytes())?,
                None => Vec::from_slice(alloc, code.as_bytes())?,
            };
            keep(&mut nearest, told)?;
        }
    }
    Ok(names_of(nearest))
}

fn near_names(
    alloc: Global,
    schema: &Schema,
    code: &str,
    name: &str,
) -> Result<Vec<Vec<u8>>, AllocError> {
    let mut nearest = nearest_to(alloc, name.as_bytes())?;
    offer_names(alloc, &mut nearest, schema, code)?;
    Ok(names_of(nearest))
}

fn near_rights(alloc: Global, schema: &Schema, text: &str) -> Result<Vec<Vec<u8>>, AllocError> {
    match parted(text) {
        (letters, Some(name)) => match code_of(letters) {
            Some(code) => near_names(alloc, schema, code, name),
            None => near_codes(alloc, letters, Some(name)),
        },
        (letters, None) => near_codes(alloc, letters, None),
    }
}

/// What is told of the text of a right that is none, or that names what the schema hasn't.
///
/// # Errors
///
/// Memory ran out.
pub fn unknown_right<'a>(
    alloc: Global,
    schema: &Schema,
    text: &'a str,
) -> Result<Option<Hint<'a>>, AllocError> {
    if is_known(schema, text) {
        return Ok(None);
    }
    Ok(Some(Hint {
        what: "unknown right",
        word: text,
        names: near_rights(alloc, schema, text)?,
        remark: REMARK,
    }))
}

//! What an input looks like that `load` doesn't take. No contract speaks of what is told.

use std::alloc::{AllocError, Global};

/// What an input looks like that is no text for `load`.
#[derive(Clone, Copy, Debug, PartialEq, Eq)]
enum Look {
    // Records of LDIF without a schema before them, as `ldapsearch`, `ldifde` and others write them.
    Export,
    // Text of two bytes a letter.
    Utf16,
    Json,
}

fn is_utf16(text: &[u8]) -> bool {
    text.starts_with(b"\xff\xfe") || text.starts_with(b"\xfe\xff") || text.contains(&0)
}

fn is_blank(byte: u8) -> bool {
    byte == b' ' || byte == b'\t' || byte == b'\r' || byte == b'\n'
}

fn is_json(text: &[u8]) -> bool {
    for byte in text {
        if !is_blank(*byte) {
            return *byte == b'{' || *byte == b'[';
        }
    }
    false
}

// The text in small letters, without the CR that may stand before a line's end.
fn small(alloc: Global, text: &[u8]) -> Result<Vec<u8>, AllocError> {
    let mut small = Vec::new(alloc);
    for byte in text {
        if *byte != b'\r' {
            small.push(byte.to_ascii_lowercase())?;
        }
    }
    Ok(small)
}

// Whether a line says that its record is one of the schema.
fn is_of_schema(line: &[u8]) -> bool {
    line.starts_with(b"objectclass:")
        && (line.ends_with(b"attributeschema")
            || line.ends_with(b"classschema")
            || line.ends_with(b"controlaccessright"))
}

// Whether records of LDIF stand here, and none of the first ones is of the schema.
fn is_export(text: &[u8]) -> bool {
    let mut has_name = false;
    for line in text.split(|byte| *byte == b'\n') {
        if is_of_schema(line) {
            return false;
        }
        if line.starts_with(b"dn:") {
            has_name = true;
        }
    }
    has_name
}

fn look_of(alloc: Global, first: &[u8]) -> Result<Option<Look>, AllocError> {
    if is_utf16(first) {
        return Ok(Some(Look::Utf16));
    }
    if is_json(first) {
        return Ok(Some(Look::Json));
    }
    let text = small(alloc, first)?;
    Ok(if is_export(&text) {
        Some(Look::Export)
    } else {
        None
    })
}

/// Tells what makes a text for `load` of an input that begins so, where it looks like one of another program.
pub fn tell_look(rt: &HostRuntime, first: &[u8]) {
    let what = match look_of(rt.alloc(), first) {
        Ok(Some(Look::Export)) => "an export of a domain controller",
        Ok(Some(Look::Utf16)) => "text in UTF-16, as an export of a domain controller may be",
        Ok(Some(Look::Json)) => "JSON",
        _ => return,
    };
    let _ = eprintln!(rt;
        "adsd: this looks like {what}: adsd-import makes of an export in LDIF what load takes"
    );
}

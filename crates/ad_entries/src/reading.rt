//! What may be read of an object.

ghost use Rattle.std.specs.Prelude.{◌≡◌, ◌<◌, ◌&&◌, ◌||◌, not, nat_eq, nat_lt, bit_and, true, length, IfOk, option_map};
ghost use Rattle.ad_types.specs.Path.{guids_of};
ghost use Rattle.ad_schema.specs.Attributes.{attrs_of};
ghost use Rattle.ad_filter.specs.Given.{readable_seen};
ghost use Rattle.ad_dir_model.specs.Objects.{is_live};
ghost use Rattle.ad_access_dir.specs.Sight.{is_granted};
ghost use Rattle.ad_entries.specs.Seen.{is_never_read, is_readable, readable_of, seen_of, reads};

use ad_access_dir::granted;
use ad_acl::{CONTROL_ACCESS, READ_PROPERTY};
use ad_dir::{Dir, class_of};
use ad_filter::Readable;
use ad_ids::Token;
use ad_schema::{AttrId, AttrInfo};
use ad_schema_classes::same_name;
use ad_types::{Path, path};
use ad_value::{Syntax, Value};
use std::alloc::{AllocError, Global};

#[tactic(auto, unfolding(crate::specs::Seen::is_never_read))]
fn is_never_read(name: &[u8]) -> bool
    ensures { result ≡ is_never_read name.now }
{
    same_name(name, b"unicodePwd")
        || same_name(name, b"nTSecurityDescriptor")
        || same_name(name, b"allowedAttributesEffective")
        || same_name(name, b"allowedChildClassesEffective")
        || same_name(name, b"sDRightsEffective")
}

fn reads_plain(dir: &Dir, token: &Token, number: u32, path: &Path) -> bool
    requires { is_live dir.now.objects number ≡ true }
    ensures { result ≡ is_granted dir.now token.now number (guids_of path.now) 4 }
{
    granted(dir, token, number, path, READ_PROPERTY) & READ_PROPERTY != 0
}

// The two rights, asked for together.
fn read_rights(dir: &Dir, token: &Token, number: u32, path: &Path) -> u32
    requires { is_live dir.now.objects number ≡ true }
    ensures plain { not (nat_eq (bit_and result 16) 0) ≡ is_granted dir.now token.now number
        (guids_of path.now) 4 }
    ensures control { not (nat_eq (bit_and result 256) 0) ≡ is_granted dir.now token.now number
        (guids_of path.now) 8 }
{
    granted(dir, token, number, path, READ_PROPERTY | CONTROL_ACCESS)
}

fn reads_confidential(dir: &Dir, token: &Token, number: u32, path: &Path) -> bool
    requires { is_live dir.now.objects number ≡ true }
    ensures { result ≡ (is_granted dir.now token.now number (guids_of path.now) 4
        && is_granted dir.now token.now number (guids_of path.now) 8) }
{
    let rights = read_rights(dir, token, number, path);
    rights & READ_PROPERTY != 0 && rights & CONTROL_ACCESS != 0
}

fn reads_on(dir: &Dir, token: &Token, number: u32, path: &Path, confidential: bool) -> bool
    requires { is_live dir.now.objects number ≡ true }
    ensures { result
        ≡ (is_granted dir.now token.now number (guids_of path.now) 4
        && (not confidential || is_granted dir.now token.now number (guids_of path.now) 8)) }
{
    if confidential {
        reads_confidential(dir, token, number, path)
    } else {
        reads_plain(dir, token, number, path)
    }
}

/// Whether the token may read this attribute of an object.
pub fn is_readable(dir: &Dir, token: &Token, number: u32, attr: AttrId, info: &AttrInfo) -> bool
    requires live { is_live dir.now.objects number ≡ true }
    requires attr { attr.0 < length (attrs_of dir.now.schema) }
    ensures { result ≡ is_readable dir.now token.now number attr.0 info.now }
{
    if is_never_read(info.name.as_slice()) {
        return false;
    }
    let path = path(dir.schema(), class_of(dir, number), attr);
    reads_on(dir, token, number, &path, info.confidential)
}

// What may be read of an attribute of the schema.
fn values_at(
    alloc: Global,
    dir: &Dir,
    token: &Token,
    number: u32,
    attr: AttrId,
) -> Result<Option<(Syntax, Vec<Value>)>, AllocError>
    requires live { is_live dir.now.objects number ≡ true }
    requires attr { attr.0 < length (attrs_of dir.now.schema) }
    ensures { IfOk result (λ found. option_map readable_seen found ≡ readable_of dir.now.schema
        (seen_of dir.now token.now number) attr) }
{
    let info = dir.schema().attr_info(attr);
    if !is_readable(dir, token, number, attr, info) {
        return Ok(None);
    }
    let values = dir.shown(alloc, number, attr)?;
    Ok(Some((info.syntax, values)))
}

/// What may be read of an object, by the names of attributes.
#[tactic(auto, unfolding(crate::specs::Seen::reads))]
pub fn values_named(
    alloc: Global,
    dir: &Dir,
    token: &Token,
    number: u32,
    name: &[u8],
) -> Result<Option<(Syntax, Vec<Value>)>, AllocError>
    requires { is_live dir.now.objects number ≡ true }
    ensures { IfOk result (λ found. option_map readable_seen found
        ≡ reads dir.now.schema (seen_of dir.now token.now number) name.now) }
{
    match dir.schema().attr(name) {
        Some(attr) => values_at(alloc, dir, token, number, attr),
        None => Ok(None),
    }
}

fn is_of_schema(dir: &Dir, attr: AttrId) -> bool
    ensures { result ≡ nat_lt attr.0 (length (attrs_of dir.now.schema)) }
{
    (attr.0 as usize) < dir.schema().attrs().len()
}

/// An object as a token sees it.
#[derive(Drop)]
pub struct Sight<'a> {
    pub dir: &'a Dir,
    pub token: &'a Token,
    pub number: u32,
}

impl<'a> Readable for Sight<'a> {
    ghost use Rattle.ad_schema.specs.Attributes.{attr_named};
    ghost use Rattle.ad_entries.specs.Seen.{readable_of, seen_of};

    ghost named = { λ sight. attr_named sight.dir.now.schema };

    ghost shown = { λ sight. readable_of sight.dir.now.schema
        (seen_of sight.dir.now sight.token.now sight.number) };

    fn attr(&self, name: &[u8]) -> Option<AttrId> {
        self.dir.schema().attr(name)
    }

    fn values(
        &self,
        alloc: Global,
        attr: AttrId,
    ) -> Result<Option<(Syntax, Vec<Value>)>, AllocError> {
        if !self.dir.is_live(self.number) {
            return Ok(None);
        }
        if !is_of_schema(self.dir, attr) {
            return Ok(None);
        }
        values_at(alloc, self.dir, self.token, self.number, attr)
    }
}

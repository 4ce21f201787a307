//! What the names in a request represent.

ghost use Rattle.std.specs.Prelude.{◌≡◌, ◌<◌, ◌≤◌, if◌then◌else◌, true, length, drop, IfOk, IfSome};
ghost use Rattle.ad_dn.specs.Reading.{dn_of};
ghost use Rattle.ad_types.specs.Path.{guids_of};
ghost use Rattle.ad_schema.specs.Attributes.{attrs_of};
ghost use Rattle.ad_schema.specs.Classes.{classes_of};
ghost use Rattle.ad_dir_model.specs.Objects.{is_live};
ghost use Rattle.ad_access_dir.specs.Sight.{if_visible, visible_of, matched};
ghost use Rattle.ad_needs_rules.specs.Requests.{number_of_name, class_path, attr_path, is_descriptor};

use ad_access_dir::is_visible;
use ad_dir::{Dir, guid_of};
use ad_dn::{Dn, DnFault};
use ad_ids::Token;
use ad_schema::{AttrId, ClassId, Schema};
use ad_schema_classes::same_name;
use ad_types::{Path, path};
use std::alloc::{AllocError, Global};

// ---- names of objects

/// The name that a text encodes, and none where it encodes no name.
///
/// # Errors
///
/// Memory ran out.
pub fn read_name(alloc: Global, text: &[u8]) -> Result<Option<Dn>, AllocError>
    ensures { IfOk result (λ dn. dn ≡ dn_of text.now) }
{
    match ad_dn::read(alloc, text) {
        Ok(dn) => Ok(Some(dn)),
        Err(DnFault::Bad { .. }) => Ok(None),
        Err(DnFault::Memory) => Err(AllocError),
    }
}

/// The object that has the name of the text, whoever sees it: none where no object has it, and where the text is no
/// name's. It is live.
///
/// # Errors
///
/// Memory ran out.
pub fn number_of_name(alloc: Global, dir: &Dir, text: &[u8]) -> Result<Option<u32>, AllocError>
    ensures named { IfOk result (λ number. number ≡ number_of_name dir.now text.now) }
    ensures live { IfOk result (λ number. IfSome number (λ n. is_live dir.now.objects n ≡ true)) }
{
    match read_name(alloc, text)? {
        Some(dn) => dir.find(alloc, &dn),
        None => Ok(None),
    }
}

// A live object, where the token sees it.
fn if_visible(dir: &Dir, token: &Token, number: u32) -> Option<u32>
    requires { is_live dir.now.objects number ≡ true }
    ensures { result ≡ if_visible dir.now token.now number }
{
    if is_visible(dir, token, dir.list_mode(), number) {
        Some(number)
    } else {
        None
    }
}

/// The object of a name, where the token sees it. It is live.
///
/// # Errors
///
/// Memory ran out.
pub fn visible(alloc: Global, dir: &Dir, token: &Token, dn: &Dn) -> Result<Option<u32>, AllocError>
    ensures found { IfOk result (λ found. found ≡ visible_of dir.now token.now dn.now.rdns) }
    ensures live { IfOk result (λ found.
        IfSome found (λ number. is_live dir.now.objects number ≡ true)) }
{
    dir.invariants();
    match dir.find(alloc, dn)? {
        Some(number) => Ok(if_visible(dir, token, number)),
        None => Ok(None),
    }
}

fn nearer(seen: bool, levels: usize, nearest: usize) -> usize
    ensures { result ≡ (if seen then levels else nearest) }
{
    if seen { levels } else { nearest }
}

// How many levels above the name the nearest one stands whose object is visible: all of its parts where there is
// none. The root's name is the first that is tried, and below a name that leads nowhere none leads anywhere, so no
// more are than objects stand below one another.
fn levels_to_visible(alloc: Global, dir: &Dir, token: &Token, dn: &Dn) -> Result<usize, AllocError>
    ensures within { IfOk result (λ levels. levels ≤ length dn.now.rdns) }
    ensures nearest { IfOk result (λ levels. drop levels dn.now.rdns ≡ matched dir.now token.now
        dn.now.rdns) }
{
    dir.invariants();
    let parts = dn.rdns.len();
    let above_root = dir.meta().suffix.rdns.len();
    if parts <= above_root {
        return Ok(parts);
    }
    let list_mode = dir.list_mode();
    let mut nearest = parts;
    let mut levels = parts - above_root;
    'each: while levels > 1 {
        levels -= 1;
        let above = dn.ancestor(alloc, levels)?;
        let Some(number) = dir.find(alloc, &above)? else {
            return Ok(nearest);
        };
        let seen = is_visible(dir, token, list_mode, number);
        nearest = nearer(seen, levels, nearest);
    }
    Ok(nearest)
}

/// What is told of a name whose object isn't there or isn't visible: the nearest of the names above it whose object
/// is, and the name without parts where there is none.
///
/// # Errors
///
/// Memory ran out.
pub fn matched(alloc: Global, dir: &Dir, token: &Token, dn: &Dn) -> Result<Dn, AllocError>
    ensures { IfOk result (λ name. name ≡ record { rdns = matched dir.now token.now dn.now.rdns }) }
{
    let levels = levels_to_visible(alloc, dir, token, dn)?;
    dn.ancestor(alloc, levels)
}

// ---- names of attributes

/// Whether the attribute of a name is nTSecurityDescriptor.
pub fn is_descriptor(name: &[u8]) -> bool
    ensures { result ≡ is_descriptor name.now }
{
    same_name(name, b"nTSecurityDescriptor")
}

// ---- paths

/// The path of a child of this class.
pub(crate) fn class_path(schema: &Schema, class: ClassId) -> Path
    requires { class.0 < length (classes_of schema.now) }
    ensures { guids_of result ≡ class_path schema.now class.0 }
{
    Path::one(guid_of(schema, class))
}

/// The path of an attribute of an object of this class.
pub(crate) fn attr_path(schema: &Schema, class: ClassId, attr: AttrId) -> Path
    requires class { class.0 < length (classes_of schema.now) }
    requires attr { attr.0 < length (attrs_of schema.now) }
    ensures { guids_of result ≡ attr_path schema.now class.0 attr.0 }
{
    path(schema, class, attr)
}

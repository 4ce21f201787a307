//! The chain of superclasses, and what is asked along it.

ghost use Rattle.std.specs.Prelude.{◌≡◌, ◌<◌, ℕ, map, length, unwrap_or, IfSome};
ghost use Rattle.std.specs.List.{list_any};
ghost use Rattle.ad_schema_classes.specs.Chains.{option_at, chain, first_along, naming_by, has_guid, contains, list_at};
ghost use Rattle.ad_schema_classes.specs.Rows.{aboves, namings, superiors_of, guids_of};

use crate::links::ClassLinks;
use ad_ids::Guid;

/// The superclass of a class.
#[tactic(auto, unfolding(crate::specs::Chains::option_at))]
pub fn above_of(links: &[ClassLinks], class: u32) -> Option<u32>
    ensures { result ≡ option_at (aboves links.now) class }
{
    match links.get(class as usize) {
        Some(link) => link.above,
        None => None,
    }
}

/// The naming attribute that the record of a class names.
#[tactic(auto, unfolding(crate::specs::Chains::option_at))]
fn naming_in(links: &[ClassLinks], class: u32) -> Option<u32>
    ensures { result ≡ option_at (namings links.now) class }
{
    match links.get(class as usize) {
        Some(link) => link.naming,
        None => None,
    }
}

/// The possible superiors that the record of a class names.
#[tactic(auto, unfolding(crate::specs::Chains::list_at))]
fn superiors_in(links: &[ClassLinks], class: u32) -> &[u32]
    ensures { result.now ≡ list_at (superiors_of links.now) class }
{
    match links.get(class as usize) {
        Some(link) => link.superiors.as_slice(),
        None => &[],
    }
}

/// The naming attribute of a class: that of the first class of its chain that names one.
fn naming_along(links: &[ClassLinks], class: u32) -> Option<u32>
    ensures { result ≡ first_along (namings links.now)
        (chain (aboves links.now) class) }
{
    let mut at = class;
    let mut left = links.len();
    while left > 0 {
        left -= 1;
        if let Some(naming) = naming_in(links, at) {
            return Some(naming);
        }
        match above_of(links, at) {
            Some(above) => at = above,
            None => return None,
        }
    }
    None
}

/// The naming attribute of a class, where `cn` is that of a class that doesn't say.
#[tactic(auto, unfolding(crate::specs::Chains::naming_by))]
pub fn naming_of(links: &[ClassLinks], cn: u32, class: u32) -> u32
    ensures { result ≡ naming_by (aboves links.now) (namings links.now) cn class }
{
    match naming_along(links, class) {
        Some(naming) => naming,
        None => cn,
    }
}

/// Whether a class is in the chain of another.
pub fn is_above(links: &[ClassLinks], superior: u32, class: u32) -> bool
    ensures { result ≡ contains (chain (aboves links.now) class) superior }
{
    let mut at = class;
    let mut left = links.len();
    while left > 0 {
        left -= 1;
        if at == superior {
            return true;
        }
        match above_of(links, at) {
            Some(above) => at = above,
            None => return false,
        }
    }
    false
}

/// Whether one of these classes is in the chain of another.
fn any_above(links: &[ClassLinks], superiors: &[u32], class: u32) -> bool
    ensures { result ≡ list_any (contains (chain (aboves links.now) class)) superiors.now }
{
    superiors
        .iter()
        .any(|superior| is_above(links, *superior, class))
}

/// Whether a class of the child's chain names a class of the parent's chain as a possible superior.
pub fn is_under(links: &[ClassLinks], child: u32, parent: u32) -> bool
    ensures { let above = aboves links.now in
        result ≡ list_any (λ class. list_any (contains (chain above parent))
        (list_at (superiors_of links.now) class)) (chain above child) }
{
    let mut at = child;
    let mut left = links.len();
    while left > 0 {
        left -= 1;
        if any_above(links, superiors_in(links, at), parent) {
            return true;
        }
        match above_of(links, at) {
            Some(above) => at = above,
            None => return false,
        }
    }
    false
}

#[tactic(auto, unfolding(crate::specs::Chains::has_guid))]
fn has_guid(links: &[ClassLinks], guid: &Guid, class: u32) -> bool
    ensures { result ≡ has_guid (guids_of links.now) guid.now class }
{
    match links.get(class as usize) {
        Some(link) => link.guid.bytes == guid.bytes,
        None => false,
    }
}

/// Whether a class of the chain has the GUID.
pub fn is_a(links: &[ClassLinks], guid: &Guid, class: u32) -> bool
    ensures { result ≡ list_any (has_guid (guids_of links.now) guid.now)
        (chain (aboves links.now) class) }
{
    let mut at = class;
    let mut left = links.len();
    while left > 0 {
        left -= 1;
        if has_guid(links, guid, at) {
            return true;
        }
        match above_of(links, at) {
            Some(above) => at = above,
            None => return false,
        }
    }
    false
}

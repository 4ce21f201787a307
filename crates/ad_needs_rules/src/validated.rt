//! Validated writes: the right to do one stands beside that to write the attribute ([MS-ADTS] 3.1.1.5.3.1.1).

ghost use Rattle.std.specs.Prelude.{◌≡◌, ◌==◌, true, false, map, IfOk};
ghost use Rattle.std.specs.Option.{option_map_or};
ghost use Rattle.std.specs.List.{list_all};
ghost use Rattle.ad_dir_model.specs.Objects.{is_live};
ghost use Rattle.ad_dir_model.specs.Attributes.{member};
ghost use Rattle.ad_dir_model.specs.Identity.{is_sid, self_sid};
ghost use Rattle.ad_dir_model.specs.Names.{found};
ghost use Rattle.ad_needs_rules.specs.Validated.{names_user, is_computer, is_own_membership, is_own_service};
ghost use Rattle.ad_needs_rules.specs.Validated.{is_own_host_name, validated_write};
ghost use Rattle.ad_needs_rules.specs.OwnWrites.{is_valid, write_guid, is_of_computer, write_of, guid_if};

use crate::hosts::{are_own_services, is_full_name};
use crate::naming::read_name;
use ad_dir::{Dir, is_named, live_object};
use ad_dn::Dn;
use ad_ids::{Guid, Sid, Token};
use ad_ldap::{DELETE_VALUES, Item, REPLACE_VALUES};
use ad_schema::{AttrId, RuleAttr, Schema};
use std::alloc::{AllocError, Global};

/// A validated write.
#[derive(Clone, Copy)]
pub(crate) enum OwnWrite {
    /// Self-Membership: the caller's own account, in `member`.
    Membership,
    /// Validated-SPN: names of services on the computer, in `servicePrincipalName`.
    Service,
    /// Validated-DNS-Host-Name: the computer's name in its domain, in `dNSHostName`.
    HostName,
}

/// The GUID of the class computer.
const COMPUTER: Guid = Guid {
    bytes: [
        0x86, 0x7a, 0x96, 0xbf, 0xe6, 0x0d, 0xd0, 0x11, 0xa2, 0x85, 0x00, 0xaa, 0x00, 0x30, 0x49,
        0xe2,
    ],
};

// The GUID of the right, in packet order.
fn write_guid(write: OwnWrite) -> Guid
    ensures { result ≡ write_guid write }
{
    let bytes = match write {
        OwnWrite::Membership => [
            0xc0, 0x79, 0x96, 0xbf, 0xe6, 0x0d, 0xd0, 0x11, 0xa2, 0x85, 0x00, 0xaa, 0x00, 0x30,
            0x49, 0xe2,
        ],
        OwnWrite::Service => [
            0x88, 0x47, 0xa6, 0xf3, 0x06, 0x53, 0xd1, 0x11, 0xa9, 0xc5, 0x00, 0x00, 0xf8, 0x03,
            0x67, 0xc1,
        ],
        OwnWrite::HostName => [
            0x47, 0x95, 0xe3, 0x72, 0x18, 0x7b, 0xd1, 0x11, 0xad, 0xef, 0x00, 0xc0, 0x4f, 0xd8,
            0xd5, 0xcd,
        ],
    };
    Guid { bytes }
}

// ---- membership

// Whether the identifier is the object's.
fn has_sid(dir: &Dir, number: u32, sid: &Sid) -> bool
    ensures { result ≡ is_sid sid.now (self_sid dir.now number) }
{
    match dir.self_sid(number) {
        Some(own) => own == sid,
        None => false,
    }
}

fn is_of_user(alloc: Global, dir: &Dir, token: &Token, dn: &Dn) -> Result<bool, AllocError>
    ensures { IfOk result (λ is. is
        ≡ option_map_or (λ number. is_sid token.now.user (self_sid dir.now number))
        (found dir.now dn.now.rdns) false) }
{
    match dir.find(alloc, dn)? {
        Some(number) => Ok(has_sid(dir, number, &token.user)),
        None => Ok(false),
    }
}

// Whether a value names an object whose identifier is the user's.
fn names_user(alloc: Global, dir: &Dir, token: &Token, value: &[u8]) -> Result<bool, AllocError>
    ensures { IfOk result (λ is. is ≡ names_user dir.now token.now value.now) }
{
    match read_name(alloc, value)? {
        Some(dn) => is_of_user(alloc, dir, token, &dn),
        None => Ok(false),
    }
}

#[tactic(auto, unfolding(crate::specs::Validated::is_own_membership))]
fn is_own_membership(
    alloc: Global,
    dir: &Dir,
    token: &Token,
    item: &Item,
) -> Result<bool, AllocError>
    ensures { IfOk result (λ is. is ≡ is_own_membership dir.now token.now item.now) }
{
    if item.op == REPLACE_VALUES {
        return Ok(false);
    }
    match item.values.as_slice() {
        [value] => names_user(alloc, dir, token, value.as_slice()),
        _ => Ok(false),
    }
}

// ---- services and host names

#[tactic(auto, unfolding(crate::specs::Validated::is_own_service))]
fn is_own_service(dir: &Dir, number: u32, item: &Item) -> bool
    requires { is_live dir.now.objects number ≡ true }
    ensures { result ≡ is_own_service dir.now number item.now }
{
    if item.values.is_empty() {
        return false;
    }
    are_own_services(dir, number, item.values.as_slice())
}

#[tactic(auto, unfolding(crate::specs::Validated::is_own_host_name))]
fn is_own_host_name(alloc: Global, dir: &Dir, number: u32, item: &Item) -> Result<bool, AllocError>
    requires { is_live dir.now.objects number ≡ true }
    ensures { IfOk result (λ is. is ≡ is_own_host_name dir.now number item.now) }
{
    if item.op == DELETE_VALUES {
        return Ok(false);
    }
    match item.values.as_slice() {
        [value] => is_full_name(alloc, dir, number, value.as_slice()),
        _ => Ok(false),
    }
}

// ---- all items

fn is_valid(
    alloc: Global,
    dir: &Dir,
    token: &Token,
    number: u32,
    write: OwnWrite,
    item: &Item,
) -> Result<bool, AllocError>
    requires { is_live dir.now.objects number ≡ true }
    ensures { IfOk result (λ is. is ≡ is_valid dir.now token.now number write item.now) }
{
    match write {
        OwnWrite::Membership => is_own_membership(alloc, dir, token, item),
        OwnWrite::Service => Ok(is_own_service(dir, number, item)),
        OwnWrite::HostName => is_own_host_name(alloc, dir, number, item),
    }
}

fn all_valid(
    alloc: Global,
    dir: &Dir,
    token: &Token,
    number: u32,
    write: OwnWrite,
    items: &[&Item],
) -> Result<bool, AllocError>
    requires { is_live dir.now.objects number ≡ true }
    ensures { IfOk result (λ all. all ≡ list_all (is_valid dir.now token.now number write)
        (map (λ item. item.now) items.now)) }
{
    'each: for item in items {
        if !is_valid(alloc, dir, token, number, write, item)? {
            return Ok(false);
        }
    }
    Ok(true)
}

// ---- the write of an attribute

#[tactic(auto, unfolding(ad_dir_model::specs::Attributes::rule_place))]
fn is_member(schema: &Schema, attr: AttrId) -> bool
    ensures { result ≡ option_map_or (λ own. own == attr.0) (member schema.now) false }
{
    match schema.attr_of_rule(RuleAttr::Member) {
        Some(own) => own.0 == attr.0,
        None => false,
    }
}

fn is_computer(dir: &Dir, number: u32) -> bool
    requires { is_live dir.now.objects number ≡ true }
    ensures { result ≡ is_computer dir.now number }
{
    let class = live_object(dir, number).class;
    dir.schema().is_a(class, &COMPUTER)
}

fn is_of_computer(dir: &Dir, number: u32, name: &[u8], attr: AttrId) -> bool
    requires { is_live dir.now.objects number ≡ true }
    ensures { result ≡ is_of_computer dir.now number name.now attr.0 }
{
    is_named(dir.schema(), name, attr) && is_computer(dir, number)
}

#[tactic(auto, unfolding(crate::specs::OwnWrites::write_of))]
fn write_of(dir: &Dir, number: u32, attr: AttrId) -> Option<OwnWrite>
    requires { is_live dir.now.objects number ≡ true }
    ensures { result ≡ write_of dir.now number attr.0 }
{
    if is_member(dir.schema(), attr) {
        return Some(OwnWrite::Membership);
    }
    if is_of_computer(dir, number, b"servicePrincipalName", attr) {
        return Some(OwnWrite::Service);
    }
    if is_of_computer(dir, number, b"dNSHostName", attr) {
        return Some(OwnWrite::HostName);
    }
    None
}

// The GUID of a write, where all items are valid.
fn guid_if(
    alloc: Global,
    dir: &Dir,
    token: &Token,
    number: u32,
    items: &[&Item],
    write: OwnWrite,
) -> Result<Option<Guid>, AllocError>
    requires { is_live dir.now.objects number ≡ true }
    ensures { IfOk result (λ guid. guid ≡ guid_if dir.now token.now number
        (map (λ item. item.now) items.now) (Some write)) }
{
    if all_valid(alloc, dir, token, number, write, items)? {
        return Ok(Some(write_guid(write)));
    }
    Ok(None)
}

/// The right that stands beside that to write the attribute: that of its validated write, where it has one on the
/// object and all of these items are valid.
///
/// # Errors
///
/// Memory ran out.
pub fn validated_write(
    alloc: Global,
    dir: &Dir,
    token: &Token,
    number: u32,
    attr: AttrId,
    items: &[&Item],
) -> Result<Option<Guid>, AllocError>
    requires { is_live dir.now.objects number ≡ true }
    ensures { IfOk result (λ guid. guid ≡ validated_write dir.now token.now number attr.0
        (map (λ item. item.now) items.now)) }
{
    match write_of(dir, number, attr) {
        Some(write) => guid_if(alloc, dir, token, number, items, write),
        None => Ok(None),
    }
}

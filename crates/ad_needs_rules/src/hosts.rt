//! Host names: which are an object's own.

ghost use Rattle.std.specs.Prelude.{◌≡◌, ◌==◌, ◌||◌, ◌+◌, ◌<◌, ◌++◌, ◌∷◌, [], true, false, None, Some, if◌then◌else◌};
ghost use Rattle.std.specs.Prelude.{codes, length, drop, map, filter, position, option_map, IfOk, IfSome, OnOk};
ghost use Rattle.std.specs.Option.{option_map_or};
ghost use Rattle.std.specs.List.{list_any, list_all};
ghost use Rattle.std.specs.Str.{is_utf8};
ghost use Rattle.ad_dir_objects.specs.Seen.{stored_seen, held_seen};
ghost use Rattle.ad_dir_model.specs.Object.{stored_in};
ghost use Rattle.ad_dir_model.specs.Objects.{is_live, object_at};
ghost use Rattle.ad_dir_model.specs.Attributes.{attr_place};
ghost use Rattle.ad_dir_model.specs.Names.{same_folded};
ghost use Rattle.ad_needs_rules.specs.Validated.{equals_folded, host_in, is_own_host, is_domain_part, joined};
ghost use Rattle.ad_needs_rules.specs.Validated.{domain_name};
ghost use Rattle.ad_needs_rules.specs.OwnWrites.{shown_in, dotted_part, dotted};
ghost use Rattle.ad_needs_rules.specs.Validated.{slash, dot};

use ad_bytes::{Bytes, OneOrMany};
use ad_dir::{Dir, ROOT, Stored, live_object, stored_of};
use ad_dn::{Rdn, same_value};
use ad_schema::{AttrId, Schema};
use std::alloc::{AllocError, Global};
use std::str;

fn is_text(bytes: &[u8]) -> bool
    ensures { result ≡ is_utf8 bytes.now }
{
    match str::from_utf8(bytes) {
        Ok(_) => true,
        Err(_) => false,
    }
}

fn same_folded(a: &[u8], b: &[u8]) -> bool
    requires a { is_utf8 a.now ≡ true }
    requires b { is_utf8 b.now ≡ true }
    ensures { result ≡ same_folded a.now b.now }
{
    same_value(a, b)
}

/// Whether two texts are equal after folding. Bytes that aren't UTF-8 are equal to nothing.
fn equals_folded(a: &[u8], b: &[u8]) -> bool
    ensures { result ≡ equals_folded a.now b.now }
{
    if !is_text(a) {
        return false;
    }
    if !is_text(b) {
        return false;
    }
    same_folded(a, b)
}

// ---- what stands after the slash of `service/host`

fn slash_in(value: &[u8]) -> Option<usize>
    ensures place { result ≡ position (λ b. b == slash) value.now }
    ensures within { IfSome result (λ at. at < length value.now) }
{
    value.iter().position(|b| *b == b'/')
}

fn has_slash(bytes: &[u8]) -> bool
    ensures { result ≡ list_any (λ b. b == slash) bytes.now }
{
    bytes.contains(&b'/')
}

// What stands after a place, where neither part is empty and no slash follows.
fn host_behind(value: &[u8], at: usize) -> Option<&[u8]>
    requires { at < length value.now }
    ensures { option_map (λ host. host.now) result
        ≡ (if at == 0 || list_any (λ b. b == slash) (drop (at + 1) value.entry.now)
        || length (drop (at + 1) value.entry.now) == 0
        then None else Some (drop (at + 1) value.entry.now)) }
{
    let host = &value[at + 1..];
    if at == 0 {
        return None;
    }
    if has_slash(host) {
        return None;
    }
    if host.is_empty() {
        return None;
    }
    Some(host)
}

/// The host of `service/host`, where the value has this form.
#[tactic(auto, unfolding(crate::specs::Validated::host_in))]
fn host_in(value: &[u8]) -> Option<&[u8]>
    ensures { option_map (λ host. host.now) result ≡ host_in value.entry.now }
{
    match slash_in(value) {
        Some(at) => host_behind(value, at),
        None => None,
    }
}

// ---- the names of a host

fn shows(stored: &Stored, host: &[u8]) -> bool
    ensures { result ≡ list_any (equals_folded host.now) (shown_in (stored_seen stored.now ∷ [])) }
{
    match stored {
        Stored::Plain(value) => equals_folded(host, value.shown()),
        Stored::Link(_) => false,
    }
}

// Whether one of the values shows the host.
fn is_shown(stored: &[Stored], host: &[u8]) -> bool
    ensures { result ≡ list_any (equals_folded host.now) (shown_in (map stored_seen stored.now)) }
{
    'each: for value in stored {
        if shows(value, host) {
            return true;
        }
    }
    false
}

// Whether the host is one of the stored dNSHostName.
fn is_stored(schema: &Schema, values: &[(AttrId, OneOrMany<Stored>)], host: &[u8]) -> bool
    ensures { result ≡ list_any (equals_folded host.now)
        (option_map_or (λ attr. shown_in (stored_in (map held_seen values.now) attr))
        (attr_place schema.now (codes "dNSHostName")) []) }
{
    match schema.attr(b"dNSHostName") {
        Some(attr) => is_shown(stored_of(values, attr), host),
        None => false,
    }
}

/// Whether a host is the object's naming value, or one of its stored host names.
fn is_own_host(dir: &Dir, number: u32, host: &[u8]) -> bool
    requires { is_live dir.now.objects number ≡ true }
    ensures { result ≡ is_own_host dir.now number host.now }
{
    let object = live_object(dir, number);
    if equals_folded(host, object.name.as_slice()) {
        return true;
    }
    is_stored(dir.schema(), object.values.as_slice(), host)
}

/// Whether a value is `service/host` with a host that is the object's own.
fn is_own_service(dir: &Dir, number: u32, value: &[u8]) -> bool
    requires { is_live dir.now.objects number ≡ true }
    ensures { result ≡ option_map_or (is_own_host dir.now number) (host_in value.now) false }
{
    match host_in(value) {
        Some(host) => is_own_host(dir, number, host),
        None => false,
    }
}

/// Whether each of the values is.
pub(crate) fn are_own_services(dir: &Dir, number: u32, values: &[Bytes]) -> bool
    requires { is_live dir.now.objects number ≡ true }
    ensures { result ≡ list_all (λ value. option_map_or (is_own_host dir.now number) (host_in value)
        false) values.now }
{
    'each: for value in values {
        if !is_own_service(dir, number, value.as_slice()) {
            return false;
        }
    }
    true
}

// ---- the full name of a computer

// A dot and the value of a part, where it is one of the domain.
fn push_part(into: &mut Vec<u8>, rdn: &Rdn) -> Result<(), AllocError>
    ensures { OnOk result (into.new.items ≡ into.old.items ++ dotted_part rdn.now) }
{
    if rdn.kind.as_slice() == b"DC".as_slice() {
        into.push(b'.')?;
        into.extend_from_slice(rdn.value.as_slice())?;
        return Ok(());
    }
    Ok(())
}

fn push_parts(into: &mut Vec<u8>, rdns: &[Rdn]) -> Result<(), AllocError>
    ensures { OnOk result (into.new.items ≡ into.old.items ++ dotted rdns.now) }
{
    'each: for rdn in rdns {
        push_part(into, rdn)?;
    }
    Ok(())
}

// A name, a dot, and the values of the domain's parts joined by dots.
fn dotted_name(alloc: Global, name: &[u8], rdns: &[Rdn]) -> Result<Vec<u8>, AllocError>
    ensures { IfOk result (λ full. full.items ≡ name.now ++ dot
        ∷ joined (map (λ rdn. rdn.value) (filter is_domain_part rdns.now))) }
{
    let mut full = Vec::from_slice(alloc, name)?;
    push_parts(&mut full, rdns)?;
    if full.as_slice().len() == name.len() {
        full.push(b'.')?;
        return Ok(full);
    }
    Ok(full)
}

#[tactic(auto, unfolding(crate::specs::Validated::domain_name))]
fn full_name(alloc: Global, dir: &Dir, number: u32) -> Result<Vec<u8>, AllocError>
    requires { is_live dir.now.objects number ≡ true }
    ensures { IfOk result (λ full. full.items ≡ (object_at dir.now.objects number).name ++ dot
        ∷ domain_name dir.now) }
{
    dir.invariants();
    let root = dir.dn(alloc, ROOT)?;
    let object = live_object(dir, number);
    dotted_name(alloc, object.name.as_slice(), root.rdns.as_slice())
}

/// Whether a value is the object's naming value, a dot, and the name of the domain.
pub(crate) fn is_full_name(
    alloc: Global,
    dir: &Dir,
    number: u32,
    value: &[u8],
) -> Result<bool, AllocError>
    requires { is_live dir.now.objects number ≡ true }
    ensures { IfOk result (λ is. is ≡ equals_folded value.now
        ((object_at dir.now.objects number).name ++ dot ∷ domain_name dir.now)) }
{
    let full = full_name(alloc, dir, number)?;
    Ok(equals_folded(value, full.as_slice()))
}

//! What names are compared by.

ghost use Rattle.std.specs.Prelude.{◌≡◌, ◌++◌, ◌≤◌, true, length, take, drop, map, OnOk, IfOk};
ghost use Rattle.std.specs.Char.{to_ascii_lowercase};
ghost use Rattle.std.specs.List.{list_all};
ghost use Rattle.std.specs.Str.{IsUtf8};
ghost use Rattle.ad_dn.specs.Value.{IsRdn, AreRdns};
ghost use Rattle.ad_dn.specs.Fold.{folded};
ghost use Rattle.ad_dn.specs.NameKey.{is_bare, escaped, closed, rdn_key, rdns_key, name_key};

use crate::folding::fold_bytes;
use crate::rdn::{Dn, Rdn};
use std::alloc::{AllocError, Global};

fn push_escaped(key: &mut Vec<u8>, byte: u8) -> Result<(), AllocError>
    ensures { OnOk result (key.new.items ≡ key.old.items ++ escaped byte) }
{
    if byte == b',' || byte == b'\\' {
        key.push(b'\\')?;
        key.push(byte)?;
        return Ok(());
    }
    key.push(byte)?;
    Ok(())
}

fn push_closed(key: &mut Vec<u8>, value: &[u8]) -> Result<(), AllocError>
    ensures { OnOk result (key.new.items ≡ key.old.items ++ closed value.now) }
{
    for byte in value {
        push_escaped(key, *byte)?;
    }
    key.push(b',')?;
    Ok(())
}

// Whether the byte stands in a key as it is but for its case: ASCII, and neither a comma nor `\`.
fn is_bare(byte: u8) -> bool
    ensures { result ≡ is_bare byte }
{
    byte < 128 && byte != b',' && byte != b'\\'
}

fn are_bare(bytes: &[u8]) -> bool
    ensures { result ≡ list_all is_bare bytes.now }
{
    bytes.iter().all(|byte| is_bare(*byte))
}

// Makes the letters of ASCII from there on small ones.
fn lower_from(key: &mut Vec<u8>, start: usize)
    requires { start ≤ length key.old.items }
    ensures { key.new.items ≡ take start key.old.items ++ map to_ascii_lowercase
        (drop start key.old.items) }
{
    key.as_mut_slice()[start..].make_ascii_lowercase();
}

// Puts a value of such bytes at the end, all at once.
fn push_bare(key: &mut Vec<u8>, value: &[u8]) -> Result<(), AllocError>
    requires { list_all is_bare value.now ≡ true }
    ensures { OnOk result (key.new.items ≡ key.old.items ++ closed (folded value.now)) }
{
    let start = key.len();
    key.extend_from_slice(value)?;
    lower_from(key, start);
    key.push(b',')?;
    Ok(())
}

fn push_value(alloc: Global, key: &mut Vec<u8>, value: &[u8]) -> Result<(), AllocError>
    requires { IsUtf8 value.now }
    ensures { OnOk result (key.new.items ≡ key.old.items ++ closed (folded value.now)) }
{
    if are_bare(value) {
        return push_bare(key, value);
    }
    let folded = fold_bytes(alloc, value)?;
    push_closed(key, folded.as_slice())
}

fn push_rdn(alloc: Global, key: &mut Vec<u8>, rdn: &Rdn) -> Result<(), AllocError>
    requires { IsRdn rdn.now }
    ensures { OnOk result (key.new.items ≡ key.old.items ++ rdn_key rdn.now) }
{
    key.extend_from_slice(rdn.kind.as_slice())?;
    key.push(b'=')?;
    push_value(alloc, key, rdn.value.as_slice())
}

// About how many bytes the key has: no fewer where all values are such bytes.
fn room(rdns: &[Rdn]) -> usize {
    let mut room = 0usize;
    for rdn in rdns {
        let part = rdn.kind.len().saturating_add(rdn.value.len());
        room = room.saturating_add(part).saturating_add(2);
    }
    room
}

// The key of a name with these parts.
fn rdns_key(alloc: Global, rdns: &[Rdn]) -> Result<Vec<u8>, AllocError>
    requires { AreRdns rdns.now }
    ensures { IfOk result (λ key. key.items ≡ rdns_key rdns.now) }
{
    let mut key = Vec::with_capacity(alloc, room(rdns))?;
    for rdn in rdns {
        push_rdn(alloc, &mut key, rdn)?;
    }
    Ok(key)
}

/// The key of the name: bytes that two names have in common exactly where they are the same, whatever the case of
/// their texts. It is the type, `=` and the folded value of each part from the left, with `\` before each comma and
/// `\` of the value, and a comma after it. It is no text of the name.
pub fn key(alloc: Global, dn: &Dn) -> Result<Vec<u8>, AllocError>
    ensures { IfOk result (λ key. key.items ≡ name_key dn.now) }
{
    rdns_key(alloc, dn.rdns.as_slice())
}

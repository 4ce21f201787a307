//! When two names are the same.

ghost use Rattle.std.specs.Prelude.{◌≡◌, ◌↔◌, ◌<◌, length, IsTrue, IsOk, IfOk};
ghost use Rattle.std.specs.Str.{IsUtf8};
ghost use Rattle.ad_dn.specs.Value.{IsRdn, AreRdns};
ghost use Rattle.ad_dn.specs.Fold.{folded, IsSameRdn, AreSameRdns, IsSameDn};

use crate::rdn::{Dn, Rdn};
use ad_bytes::Bytes;
use caseless::{default_case_fold_str, default_caseless_match_str};
use std::alloc::{AllocError, Global};
use std::str;

fn text_of(value: &[u8]) -> &str
    requires { IsUtf8 value.now }
    ensures { result.now ≡ value.now }
{
    match str::from_utf8(value) {
        Ok(text) => text,
        Err(_) => unreachable!(),
    }
}

/// The value with full case folding applied (The Unicode Standard 3.13, with the toolchain's version of
/// Unicode), as UTF-8. Values that differ in case alone fold to the same bytes.
#[tactic(auto, unfolding(crate::specs::Fold::folded))]
pub fn fold(alloc: Global, value: &[u8]) -> Result<Vec<u8>, AllocError>
    requires { IsUtf8 value.now }
    ensures { IfOk result (λ bytes. bytes.items ≡ folded value.now) }
{
    if value.is_ascii() {
        return value.to_ascii_lowercase(alloc);
    }
    let text = default_case_fold_str(alloc, text_of(value))?;
    Ok(text.into_bytes())
}

/// The same, as a list of bytes.
pub fn fold_bytes(alloc: Global, value: &[u8]) -> Result<Bytes, AllocError>
    requires { IsUtf8 value.now }
    ensures { IfOk result (λ bytes. bytes ≡ folded value.now) }
{
    if value.is_ascii() {
        let mut bytes = Bytes::from_slice(alloc, value)?;
        bytes.make_ascii_lowercase();
        return Ok(bytes);
    }
    Ok(Bytes::from_vec(fold(alloc, value)?))
}

/// Whether two values are the same after full case folding, so that they differ in case at most: the naming values
/// of two siblings may not be (The Unicode Standard 3.13). It takes no memory.
pub fn same_value(a: &[u8], b: &[u8]) -> bool
    requires a { IsUtf8 a.now }
    requires b { IsUtf8 b.now }
    ensures { IsTrue result ↔ (folded a.now ≡ folded b.now) }
{
    default_caseless_match_str(text_of(a), text_of(b))
}

/// Whether two parts are the same: types without regard to ASCII case, and values after full case folding. It takes
/// no memory.
pub fn same_rdn(a: &Rdn, b: &Rdn) -> bool
    requires a { IsRdn a.now }
    requires b { IsRdn b.now }
    ensures { IsTrue result ↔ IsSameRdn a.now b.now }
{
    a.kind.as_slice() == b.kind.as_slice() && same_value(a.value.as_slice(), b.value.as_slice())
}

fn same_rdns(a: &[Rdn], b: &[Rdn]) -> bool
    requires a { AreRdns a.now }
    requires b { AreRdns b.now }
    ensures { IsTrue result ↔ AreSameRdns a.now b.now }
{
    if a.len() != b.len() {
        return false;
    }
    for i in 0..a.len() {
        if !same_rdn(&a[i], &b[i]) {
            return false;
        }
    }
    true
}

/// Whether two names are the same: as many parts, with types that are the same without regard to ASCII
/// case and values that are the same after full case folding. It takes no memory, so it never fails.
pub fn same(_alloc: Global, a: &Dn, b: &Dn) -> Result<bool, AllocError>
    ensures same { IfOk result (λ same. IsTrue same ↔ IsSameDn a.now b.now) }
    ensures succeeds { IsOk result }
{
    Ok(same_rdns(a.rdns.as_slice(), b.rdns.as_slice()))
}

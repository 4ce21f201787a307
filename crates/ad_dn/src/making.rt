//! Names made of others and of new parts.

ghost use Rattle.std.specs.Prelude.{◌≡◌, ◌↔◌, ◌≤◌, ◌++◌, ◌∷◌, [], length, drop, IsTrue, OnOk, IfOk};
ghost use Rattle.std.specs.Str.{str_to_ascii_uppercase};
ghost use Rattle.ad_dn.specs.AttributeType.{IsType};
ghost use Rattle.ad_dn.specs.Value.{IsValue, IsRdn, AreRdns};

use crate::rdn::{Dn, Rdn, Rdns};
use crate::utf8_state::MAX_VALUE_BYTES;
use ad_bytes::Bytes;
use std::alloc::{AllocError, Global};
use std::str;

/// Whether the bytes are a value of a relative distinguished name: 1 to 1,024 bytes of UTF-8. It takes no
/// memory.
pub fn is_value(bytes: &[u8]) -> bool
    ensures { IsTrue result ↔ IsValue bytes.now }
{
    if bytes.is_empty() || bytes.len() > MAX_VALUE_BYTES {
        return false;
    }
    str::from_utf8(bytes).is_ok()
}

// The bytes without lower-case letters.
pub fn upper(alloc: Global, bytes: &[u8]) -> Result<Bytes, AllocError>
    ensures { IfOk result (λ upper. upper ≡ str_to_ascii_uppercase bytes.now) }
{
    let mut upper = Bytes::new(alloc);
    for byte in bytes {
        upper.push(byte.to_ascii_uppercase())?;
    }
    Ok(upper)
}

impl Rdn {
    /// The part with this type, in either case, and this value.
    pub fn new(alloc: Global, kind: &[u8], value: &[u8]) -> Result<Rdn, AllocError>
        requires kind { IsType kind.now }
        requires value { IsValue value.now }
        ensures made { IfOk result (λ rdn. rdn
            ≡ record { kind = str_to_ascii_uppercase kind.now; value = value.now }) }
        ensures rdn { IfOk result IsRdn }
    {
        let kind = upper(alloc, kind)?;
        let value = Bytes::from_slice(alloc, value)?;
        Ok(Rdn { kind, value })
    }
}

// Puts copies of these parts at the end.
fn push_copies(alloc: Global, into: &mut Vec<Rdn>, rdns: &[Rdn]) -> Result<(), AllocError>
    ensures { OnOk result (into.new.items ≡ into.old.items ++ rdns.now) }
{
    for rdn in rdns {
        into.push(rdn.copy(alloc)?)?;
    }
    Ok(())
}

fn copies(alloc: Global, rdns: &[Rdn]) -> Result<Vec<Rdn>, AllocError>
    ensures { IfOk result (λ copies. copies.items ≡ rdns.now) }
{
    let mut copies = Vec::new(alloc);
    push_copies(alloc, &mut copies, rdns)?;
    Ok(copies)
}

fn copies_after(alloc: Global, first: Rdn, rdns: &[Rdn]) -> Result<Vec<Rdn>, AllocError>
    ensures { IfOk result (λ copies. copies.items ≡ first ∷ rdns.now) }
{
    let mut copies = Vec::new(alloc);
    copies.push(first)?;
    push_copies(alloc, &mut copies, rdns)?;
    Ok(copies)
}

impl Dn {
    /// The name of the root, without parts.
    pub fn root(alloc: Global) -> Dn
        ensures { result ≡ record { rdns = [] } }
    {
        Dn {
            rdns: Rdns::new(alloc),
        }
    }

    /// An equal name in memory of its own.
    pub fn copy(&self, alloc: Global) -> Result<Dn, AllocError>
        ensures { IfOk result (λ copy. copy ≡ self.now) }
    {
        let copies = copies(alloc, self.rdns.as_slice())?;
        Ok(Dn {
            rdns: Rdns::from_vec(copies),
        })
    }

    /// The name of an object with this part right below the one of this name: the part, and then those of this name.
    pub fn child(&self, alloc: Global, rdn: Rdn) -> Result<Dn, AllocError>
        requires { IsRdn rdn }
        ensures { IfOk result (λ dn. dn ≡ record { rdns = rdn ∷ self.now.rdns }) }
    {
        let copies = copies_after(alloc, rdn, self.rdns.as_slice())?;
        Ok(Dn {
            rdns: Rdns::from_vec(copies),
        })
    }

    /// The name of an object so many levels above the one of this name: without so many parts from the left.
    pub fn ancestor(&self, alloc: Global, levels: usize) -> Result<Dn, AllocError>
        requires { levels ≤ length self.now.rdns }
        ensures { IfOk result (λ dn. dn ≡ record { rdns = drop levels self.now.rdns }) }
    {
        let rdns = self.rdns.as_slice();
        let copies = copies(alloc, &rdns[levels..])?;
        Ok(Dn {
            rdns: Rdns::from_vec(copies),
        })
    }
}

//! A distinguished name and its parts as values.

ghost use Rattle.std.specs.Prelude.{◌≡◌, ◌==◌, [], ◌∷◌, ◌++◌, length, IfOk, OnOk, OnErr};
ghost use Rattle.ad_dn.specs.Value.{IsRdn, AreRdns};

use ad_bytes::Bytes;
use std::alloc::{AllocError, Global};
use std::marker::Model;

/// A relative distinguished name (RFC 4514 2.2) with one type and value, as `CN=ann`. In a name the type
/// is a letter and then letters, digits and hyphens, without lower-case letters, and the value has 1 to
/// 1,024 bytes of UTF-8.
#[derive(Debug, Drop)]
pub struct Rdn {
    pub kind: Bytes,
    pub value: Bytes,
}

impl Rdn {
    /// An equal one in memory of its own.
    pub fn copy(&self, alloc: Global) -> Result<Rdn, AllocError>
        ensures { IfOk result (λ copy. copy ≡ self.now) }
    {
        Ok(Rdn {
            kind: self.kind.copy(alloc)?,
            value: self.value.copy(alloc)?,
        })
    }
}

/// The parts of a name, which a contract sees as a list. Each has a type and a value of the form that
/// `Rdn` tells.
#[derive(Debug, Drop)]
pub struct Rdns {
    items: Vec<Rdn>,
}

impl Model for Rdns {
    ghost use Rattle.std.specs.Prelude.{List};
    ghost use Rattle.ad_dn.specs.declared.rdn.Rdn.{Rdn};
    ghost use Rattle.ad_dn.specs.Value.{AreRdns};

    ghost Value = { List Rdn };

    ghost view = { λ rdns. rdns.items.items };

    ghost invariant = { λ rdns. AreRdns rdns.items.items };
}

/// A distinguished name (RFC 4514 2): its parts from the left, so that the last is the one below the root.
#[derive(Debug, Drop)]
pub struct Dn {
    pub rdns: Rdns,
}

impl Rdns {
    /// The name of the root, without parts.
    pub fn new(alloc: Global) -> Rdns
        ensures { result ≡ [] }
    {
        Rdns {
            items: Vec::new(alloc),
        }
    }

    /// The list of these parts, in the memory that they have.
    pub fn from_vec(items: Vec<Rdn>) -> Rdns
        requires { AreRdns items.items }
        ensures { result ≡ items.items }
    {
        Rdns { items }
    }

    /// The parts, in the memory that they have.
    pub fn into_vec(self) -> Vec<Rdn>
        ensures same { result.items ≡ self }
        ensures rdns { AreRdns self }
    {
        self.items
    }

    /// The parts from the left.
    pub fn as_slice(&self) -> &[Rdn]
        ensures same { result.now ≡ self.now }
        ensures rdns { AreRdns self.now }
    {
        self.items.as_slice()
    }

    /// The number of parts.
    pub fn len(&self) -> usize
        ensures { result ≡ length self.now }
    {
        self.items.len()
    }

    /// Whether there is none.
    pub fn is_empty(&self) -> bool
        ensures { result ≡ (length self.now == 0) }
    {
        self.items.is_empty()
    }
}

impl Rdns {
    /// Puts a part at the end.
    pub fn push(&mut self, rdn: Rdn) -> Result<(), AllocError>
        requires { IsRdn rdn }
        ensures ok { OnOk result (self.new ≡ self.old ++ rdn ∷ []) }
        ensures err { OnErr result (self.new ≡ self.old) }
    {
        self.items.push(rdn)?;
        Ok(())
    }
}

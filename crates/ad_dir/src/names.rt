//! The names of objects, and the objects of names.

ghost use Rattle.std.specs.Prelude.{◌≡◌, ◌↔◌, ◌<◌, ◌∷◌, ◌++◌, true, false, Some, None, if◌then◌else◌, [], length};
ghost use Rattle.std.specs.Prelude.{reverse, drop, IsTrue, IsOk, IfOk, IfSome, OnOk, MatchOption};
ghost use Rattle.std.specs.Option.{option_map, option_and_then};
ghost use Rattle.std.specs.Str.{IsUtf8, str_to_ascii_uppercase};
ghost use Rattle.ad_dn.specs.AttributeType.{IsType};
ghost use Rattle.ad_dn.specs.Value.{IsValue, IsRdn, AreRdns};
ghost use Rattle.ad_dn.specs.declared.rdn.Rdn.{Rdn as RdnOf};
ghost use Rattle.ad_schema.specs.Classes.{classes_of, naming_of};
ghost use Rattle.ad_dir.specs.Kept.{found_from_root};
ghost use Rattle.ad_dir_model.specs.Objects.{is_live, object_at};
ghost use Rattle.ad_dir_model.specs.Attributes.{attr_name};
ghost use Rattle.ad_dir_model.specs.Names as names;

use crate::dir::Dir;
use crate::live::{live_object, parent_of};
use ad_dn::{Dn, Rdn, Rdns, same_rdn, same_value};
use ad_schema::{ClassId, Schema};
use std::alloc::{AllocError, Global};

/// The number of the root.
pub const ROOT: u32 = 1;

// As many parts as a name may have before the suffix: those of an object and of 64 above it.
const PARTS: u32 = 65;

// The name of the attribute that names the objects of a class, which is the type of their RDNs in some case.
fn naming_name(schema: &Schema, class: ClassId) -> &[u8]
    requires { class.0 < length (classes_of schema.now) }
    ensures name { result.now ≡ attr_name schema.now (naming_of schema.now class.0) }
    ensures form { IsType result.now }
{
    schema.make_schema();
    let naming = schema.class_info(class).naming;
    schema.attr_info(naming).name.as_slice()
}

// ---- the name of an object

// The first part of the name of an object of a class with a naming value.
fn rdn_of_class(
    alloc: Global,
    schema: &Schema,
    class: ClassId,
    name: &[u8],
) -> Result<Rdn, AllocError>
    requires class { class.0 < length (classes_of schema.now) }
    requires name { IsValue name.now }
    ensures made { IfOk result (λ rdn. rdn
        ≡ record {
          kind = str_to_ascii_uppercase
              (attr_name schema.now (naming_of schema.now class.0));
          value = name.now;
        }) }
    ensures rdn { IfOk result IsRdn }
{
    Rdn::new(alloc, naming_name(schema, class), name)
}

// The first part of the name of an object.
fn rdn_of(alloc: Global, dir: &Dir, number: u32) -> Result<Rdn, AllocError>
    requires { is_live dir.now.objects number ≡ true }
    ensures made { IfOk result (λ rdn. rdn ≡ names.rdn_of dir.now.schema
        (object_at dir.now.objects number)) }
    ensures rdn { IfOk result IsRdn }
{
    dir.invariants();
    let object = live_object(dir, number);
    rdn_of_class(alloc, dir.schema(), object.class, object.name.as_slice())
}

// Puts copies of parts at the end.
fn push_copies(alloc: Global, into: &mut Rdns, rdns: &[Rdn]) -> Result<(), AllocError>
    requires { AreRdns rdns.now }
    ensures { OnOk result (into.new ≡ into.old ++ rdns.now) }
{
    for rdn in rdns {
        into.push(rdn.copy(alloc)?)?;
    }
    Ok(())
}

// The name of these parts and then the suffix.
fn with_suffix(alloc: Global, mut rdns: Rdns, suffix: &Dn) -> Result<Dn, AllocError>
    ensures { IfOk result (λ dn. dn.rdns ≡ rdns ++ suffix.now.rdns) }
{
    push_copies(alloc, &mut rdns, suffix.rdns.as_slice())?;
    Ok(Dn { rdns })
}

/// The name of a live object: its part, and then those of the objects above it and of the suffix.
pub(crate) fn dn_of(alloc: Global, dir: &Dir, number: u32) -> Result<Dn, AllocError>
    requires { is_live dir.now.objects number ≡ true }
    ensures { IfOk result (λ dn. dn.rdns ≡ names.rdns_of dir.now number) }
{
    let mut rdns = Rdns::new(alloc);
    let mut at = number;
    let mut left = PARTS;
    while left > 0 {
        left -= 1;
        rdns.push(rdn_of(alloc, dir, at)?)?;
        if at == ROOT {
            return with_suffix(alloc, rdns, &dir.meta().suffix);
        }
        at = parent_of(dir, at);
    }
    Ok(Dn { rdns })
}

// ---- the object of a name

// Whether the first part of the name of an object of a class with a naming value has this type, in any case, and a
// value that is the same after folding.
fn is_of_rdn(schema: &Schema, class: ClassId, name: &[u8], kind: &[u8], value: &[u8]) -> bool
    requires class { class.0 < length (classes_of schema.now) }
    requires name { IsUtf8 name.now }
    requires value { IsUtf8 value.now }
    ensures { result ≡ names.same_rdn (record {
      kind = str_to_ascii_uppercase
          (attr_name schema.now (naming_of schema.now class.0));
      value = name.now;
    }) (record {
      kind = kind.now;
      value = value.now;
    }) }
{
    naming_name(schema, class).eq_ignore_ascii_case(kind) && same_value(name, value)
}

// The same of a live object.
fn has_rdn(dir: &Dir, number: u32, kind: &[u8], value: &[u8]) -> bool
    requires live { is_live dir.now.objects number ≡ true }
    requires value { IsUtf8 value.now }
    ensures { result ≡ names.same_rdn
        (names.rdn_of dir.now.schema (object_at dir.now.objects number))
        (record { kind = kind.now; value = value.now }) }
{
    dir.invariants();
    let object = live_object(dir, number);
    is_of_rdn(
        dir.schema(),
        object.class,
        object.name.as_slice(),
        kind,
        value,
    )
}

// The object, where it has this type and value.
fn if_rdn(dir: &Dir, number: u32, kind: &[u8], value: &[u8]) -> Option<u32>
    requires live { is_live dir.now.objects number ≡ true }
    requires value { IsUtf8 value.now }
    ensures { result ≡ (if names.same_rdn
        (names.rdn_of dir.now.schema (object_at dir.now.objects number))
        (record { kind = kind.now; value = value.now }) then Some number else None) }
{
    if has_rdn(dir, number, kind, value) {
        Some(number)
    } else {
        None
    }
}

// The child of this type and value.
pub(crate) fn typed_child(dir: &Dir, parent: u32, kind: &[u8], value: &[u8]) -> Option<u32>
    requires { IsUtf8 value.now }
    ensures { result ≡ names.child_of_rdn dir.now parent
        (record { kind = kind.now; value = value.now }) }
{
    dir.invariants();
    match dir.child_named(parent, value) {
        Some(child) => if_rdn(dir, child, kind, value),
        None => None,
    }
}

// The object below one by parts of its name, of which the last is that of the child.
fn found_below(dir: &Dir, number: u32, rdns: &[Rdn]) -> Option<u32>
    requires { AreRdns rdns.now }
    ensures { result ≡ names.found_below dir.now number (reverse rdns.now) }
{
    let mut at = number;
    for i in 0..rdns.len() {
        let rdn = &rdns[rdns.len() - 1 - i];
        match typed_child(dir, at, rdn.kind.as_slice(), rdn.value.as_slice()) {
            Some(child) => at = child,
            None => return None,
        }
    }
    Some(at)
}

// What stands before the suffix in a name, where the name ends so.
fn before<'a>(rdns: &'a [Rdn], suffix: &[Rdn]) -> Option<&'a [Rdn]>
    requires rdns { AreRdns rdns.now }
    requires suffix { AreRdns suffix.now }
    ensures { MatchOption result (names.begins_with (reverse rdns.entry.now) (reverse suffix.now)
        ≡ false)
        (λ front. (names.begins_with (reverse rdns.entry.now) (reverse suffix.now) ≡ true)
        × (reverse front.now ≡ drop (length suffix.now) (reverse rdns.entry.now))
        × AreRdns front.now) }
{
    for i in 0..suffix.len() {
        if i >= rdns.len() {
            return None;
        }
        if !same_rdn(&rdns[rdns.len() - 1 - i], &suffix[suffix.len() - 1 - i]) {
            return None;
        }
    }
    Some(&rdns[..rdns.len() - suffix.len()])
}

// The object by a name from the root's first part on, where the root is live.
fn found_from_root(dir: &Dir, rdns: &[Rdn]) -> Option<u32>
    requires rdns { AreRdns rdns.now }
    requires live { is_live dir.now.objects 1 ≡ true }
    ensures { result ≡ found_from_root dir.now (reverse rdns.now) }
{
    match rdns.split_last() {
        Some((top, below)) => {
            if has_rdn(dir, ROOT, top.kind.as_slice(), top.value.as_slice()) {
                found_below(dir, ROOT, below)
            } else {
                None
            }
        }
        None => None,
    }
}

/// The object of a name.
pub(crate) fn found(dir: &Dir, dn: &Dn) -> Option<u32>
    ensures { result ≡ names.found dir.now dn.now.rdns }
{
    if !dir.is_live(ROOT) {
        return None;
    }
    match before(dn.rdns.as_slice(), dir.meta().suffix.rdns.as_slice()) {
        Some(front) => found_from_root(dir, front),
        None => None,
    }
}

impl Dir {
    /// The object of a name: the root's name from its end, and then part by part the child of that type, in any case,
    /// and of that naming value after case folding. It is live.
    pub fn find(&self, _alloc: Global, dn: &Dn) -> Result<Option<u32>, AllocError>
        ensures found { IfOk result (λ found. found ≡ names.found self.now dn.now.rdns) }
        ensures live { IfOk result (λ found.
            IfSome found (λ number. is_live self.now.objects number ≡ true)) }
        ensures succeeds { IsOk result }
    {
        self.invariants();
        Ok(found(self, dn))
    }

    /// The name of a live object (RFC 4514): its naming attribute in upper case with its value, each above it so, the
    /// suffix.
    ///
    /// # Errors
    ///
    /// Out of memory.
    pub fn dn(&self, alloc: Global, number: u32) -> Result<Dn, AllocError>
        requires { is_live self.now.objects number ≡ true }
        ensures { IfOk result (λ dn. dn.rdns ≡ names.rdns_of self.now number) }
    {
        dn_of(alloc, self, number)
    }
}

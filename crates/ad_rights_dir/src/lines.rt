//! The lines.

ghost use Rattle.std.specs.Prelude.{◌≡◌, ◌++◌, Some, true, All, codes, decimal, slice_get, OnOk};
ghost use Rattle.std.specs.List.{flat_map};
ghost use Rattle.ad_bytes.specs.Puts.{spaced, ended};
ghost use Rattle.ad_dir_model.specs.Names.{name_text};
ghost use Rattle.ad_dir_model.specs.Objects.{is_live};
ghost use Rattle.ad_identities.specs.Identities.{IsIdentity};
ghost use Rattle.ad_rights_dir.specs.Rights.{number_name, identity_end, member_end, none_line, sign_text, fact_line};
ghost use Rattle.ad_rights_dir.specs.Kept.{IsOfLive};

use ad_dir::Dir;
use ad_identities::Identity;
use ad_principals::{put, put_ended, put_name, put_sid, put_spaced};
use ad_sets::{Fact, Sign};
use std::alloc::{AllocError, Global};

// An identity's object is live.
fn identity_lives(dir: &Dir, identity: &Identity, number: u32)
    requires identity { IsIdentity dir.now identity.now }
    requires number { identity.now.number ≡ Some number }
    ensures { is_live dir.now.objects number ≡ true }
{}

// The name of an identity's object.
fn put_number_name(
    alloc: Global,
    into: &mut Vec<u8>,
    dir: &Dir,
    identity: &Identity,
) -> Result<(), AllocError>
    requires { IsIdentity dir.now identity.now }
    ensures { OnOk result (into.new.items ≡ into.old.items
        ++ ended (number_name dir.now identity.now.number)) }
{
    match identity.number {
        Some(number) => {
            identity_lives(dir, identity, number);
            put_name(alloc, into, dir, number)
        }
        None => put_ended(into, b"-"),
    }
}

// An identity: its identifier and its name.
fn put_identity(
    alloc: Global,
    into: &mut Vec<u8>,
    dir: &Dir,
    identity: &Identity,
) -> Result<(), AllocError>
    requires { IsIdentity dir.now identity.now }
    ensures { OnOk result (into.new.items ≡ into.old.items ++ identity_end dir.now identity.now) }
{
    put_sid(alloc, into, &identity.sid)?;
    put_number_name(alloc, into, dir, identity)
}

fn put_none_line(
    alloc: Global,
    into: &mut Vec<u8>,
    dir: &Dir,
    identity: &Identity,
) -> Result<(), AllocError>
    requires { IsIdentity dir.now identity.now }
    ensures { OnOk result (into.new.items ≡ into.old.items ++ none_line dir.now identity.now) }
{
    put(into, b"none ")?;
    put_identity(alloc, into, dir, identity)
}

/// The lines of those who have no token.
///
/// # Errors
///
/// Out of memory.
pub(crate) fn put_none_lines(
    alloc: Global,
    into: &mut Vec<u8>,
    dir: &Dir,
    without: &[Identity],
) -> Result<(), AllocError>
    requires { All (IsIdentity dir.now) without.now }
    ensures { OnOk result (into.new.items ≡ into.old.items
        ++ flat_map (none_line dir.now) without.now) }
{
    for identity in without {
        put_none_line(alloc, into, dir, identity)?;
    }
    Ok(())
}

fn put_number(into: &mut Vec<u8>, number: usize) -> Result<(), AllocError>
    ensures { OnOk result (into.new.items ≡ into.old.items ++ spaced (decimal number)) }
{
    put_spaced(into, itoa::Buffer::new().format(number).as_bytes())
}

// A member of a set.
fn put_member(
    alloc: Global,
    into: &mut Vec<u8>,
    dir: &Dir,
    members: &[Identity],
    place: usize,
) -> Result<(), AllocError>
    requires { All (IsIdentity dir.now) members.now }
    ensures { OnOk result (into.new.items ≡ into.old.items
        ++ member_end dir.now (slice_get members.now place)) }
{
    match members.get(place) {
        Some(identity) => put_identity(alloc, into, dir, identity),
        None => Ok(()),
    }
}

fn put_in(
    alloc: Global,
    into: &mut Vec<u8>,
    dir: &Dir,
    members: &[Identity],
    number: usize,
    place: usize,
) -> Result<(), AllocError>
    requires { All (IsIdentity dir.now) members.now }
    ensures { OnOk result (into.new.items ≡ into.old.items ++ (codes "in "
        ++ (spaced (decimal number) ++ member_end dir.now (slice_get members.now place)))) }
{
    put(into, b"in ")?;
    put_number(into, number)?;
    put_member(alloc, into, dir, members, place)
}

fn put_sign(into: &mut Vec<u8>, sign: Sign) -> Result<(), AllocError>
    ensures { OnOk result (into.new.items ≡ into.old.items ++ sign_text sign) }
{
    match sign {
        Sign::Same => Ok(()),
        Sign::With => put(into, b"+ "),
        Sign::Without => put(into, b"- "),
    }
}

fn put_on(
    alloc: Global,
    into: &mut Vec<u8>,
    dir: &Dir,
    number: usize,
    sign: Sign,
    object: u32,
) -> Result<(), AllocError>
    requires { is_live dir.now.objects object ≡ true }
    ensures { OnOk result (into.new.items ≡ into.old.items ++ (codes "on " ++ (spaced (decimal number)
        ++ (sign_text sign ++ ended (name_text dir.now object))))) }
{
    put(into, b"on ")?;
    put_number(into, number)?;
    put_sign(into, sign)?;
    put_name(alloc, into, dir, object)
}

// The line of a fact.
fn put_fact(
    alloc: Global,
    into: &mut Vec<u8>,
    dir: &Dir,
    members: &[Identity],
    fact: Fact,
) -> Result<(), AllocError>
    requires members { All (IsIdentity dir.now) members.now }
    requires live { IsOfLive dir.now fact }
    ensures { OnOk result (into.new.items ≡ into.old.items ++ fact_line dir.now members.now fact) }
{
    match fact {
        Fact::In(number, place) => put_in(alloc, into, dir, members, number, place),
        Fact::On(number, sign, object) => put_on(alloc, into, dir, number, sign, object),
    }
}

/// The lines of facts.
///
/// # Errors
///
/// Out of memory.
pub(crate) fn put_facts(
    alloc: Global,
    into: &mut Vec<u8>,
    dir: &Dir,
    members: &[Identity],
    facts: &[Fact],
) -> Result<(), AllocError>
    requires members { All (IsIdentity dir.now) members.now }
    requires live { All (IsOfLive dir.now) facts.now }
    ensures { OnOk result (into.new.items ≡ into.old.items
        ++ flat_map (fact_line dir.now members.now) facts.now) }
{
    for fact in facts {
        put_fact(alloc, into, dir, members, *fact)?;
    }
    Ok(())
}

//! The object that a text names.

ghost use Rattle.std.specs.Prelude.{◌≡◌, ◌==◌, ◌<◌, true, Ok, Err, filter, length, position, IfOk, IfSome};
ghost use Rattle.std.specs.List.{list_any};
ghost use Rattle.std.specs.Option.{option_map, option_map_or};
ghost use Rattle.ad_bytes.specs.Reading.{GivesUnless};
ghost use Rattle.ad_ids.specs.SidFront.{sid_of_text};
ghost use Rattle.ad_value.specs.ValueOf.{normal_or_fault};
ghost use Rattle.ad_value.specs.declared.syntax.Syntax.TheVariants as syntax;
ghost use Rattle.ad_dir_model.specs.Objects.{is_live};
ghost use Rattle.ad_dir_model.specs.Identity.{with_sid};
ghost use Rattle.ad_principals.specs.declared.fault.NameFault.TheVariants as name_fault;
ghost use Rattle.ad_principals.specs.Named.{has_text, numbers_with, only_one, account_named, or_no_object, named};
ghost use Rattle.ad_principals.specs.Named.{is_root_name, names_root, is_domain_name, account_only, backslash};
ghost use Rattle.ad_principals.specs.Named.{account_at, any_account, is_memory};

use crate::fault::NameFault;
use crate::values::first_value;
use ad_dir::{Dir, ROOT};
use ad_dn::{DnFault, read};
use ad_ids::{Sid, what_a_sid_s_text_spells};
use ad_schema::AttrId;
use ad_value::{Syntax, Value, ValueFault, equal, normal};
use std::alloc::{AllocError, Global};

// ---- the name of an account

fn has_text(dir: &Dir, attr: Option<AttrId>, text: &Value, number: u32) -> bool
    ensures { result ≡ has_text dir.now (option_map (λ id. id.0) attr) text.now number }
{
    match first_value(dir, number, attr) {
        Some(value) => equal(value, text),
        None => false,
    }
}

// Those of these objects whose first value of the attribute is the text.
fn those_with(
    alloc: Global,
    dir: &Dir,
    attr: Option<AttrId>,
    text: &Value,
    numbers: &[u32],
) -> Result<Vec<u32>, AllocError>
    ensures { IfOk result (λ those. those.items
        ≡ filter (has_text dir.now (option_map (λ id. id.0) attr) text.now) numbers.now) }
{
    let mut those = Vec::new(alloc);
    for number in numbers {
        if has_text(dir, attr, text, *number) {
            those.push(*number)?;
        }
    }
    Ok(those)
}

#[tactic(auto, unfolding(crate::specs::Named::numbers_with))]
fn numbers_with(alloc: Global, dir: &Dir, name: &[u8], text: &Value) -> Result<Vec<u32>, AllocError>
    ensures { IfOk result (λ those. those.items ≡ numbers_with dir.now name.now text.now) }
{
    let numbers = dir.numbers(alloc)?;
    those_with(
        alloc,
        dir,
        dir.schema().attr(name),
        text,
        numbers.as_slice(),
    )
}

fn only_one(numbers: &[u32]) -> Result<u32, NameFault>
    ensures { result ≡ only_one numbers.now (Err name_fault.NoObject) }
{
    match numbers {
        [] => Err(NameFault::NoObject),
        [one] => Ok(*one),
        _ => Err(NameFault::Several),
    }
}

fn account_with(alloc: Global, dir: &Dir, text: &Value) -> Result<u32, NameFault>
    ensures { GivesUnless is_memory (λ number. number) result
        (account_named dir.now (Ok text.now)) }
{
    let by_account = numbers_with(alloc, dir, b"sAMAccountName", text)?;
    if by_account.as_slice().is_empty() {
        let by_user = numbers_with(alloc, dir, b"userPrincipalName", text)?;
        return only_one(by_user.as_slice());
    }
    only_one(by_account.as_slice())
}

fn account_named(alloc: Global, dir: &Dir, name: &[u8]) -> Result<u32, NameFault>
    ensures { GivesUnless is_memory (λ number. number) result
        (account_named dir.now (normal_or_fault syntax.Unicode name.now)) }
{
    match normal(alloc, Syntax::Unicode, name) {
        Ok(text) => account_with(alloc, dir, &text),
        Err(ValueFault::Memory) => Err(NameFault::Memory),
        Err(ValueFault::TooLong) => Err(NameFault::NoObject),
        Err(ValueFault::Syntax) => Err(NameFault::NoObject),
    }
}

// ---- the name of an account of the domain

// Whether the text of a value is the root's name.
fn is_root_name(alloc: Global, dir: &Dir, value: &Value) -> Result<bool, AllocError>
    ensures { IfOk result (λ is. is ≡ is_root_name dir.now value.now) }
{
    match read(alloc, value.shown()) {
        Ok(dn) => Ok(dir.find(alloc, &dn)? == Some(ROOT)),
        Err(DnFault::Memory) => Err(AllocError),
        Err(DnFault::Bad { place: _ }) => Ok(false),
    }
}

#[tactic(auto, unfolding(crate::specs::Named::names_root))]
fn names_root(alloc: Global, dir: &Dir, number: u32) -> Result<bool, AllocError>
    ensures { IfOk result (λ names. names ≡ names_root dir.now number) }
{
    match first_value(dir, number, dir.schema().attr(b"nCName")) {
        Some(value) => is_root_name(alloc, dir, value),
        None => Ok(false),
    }
}

// Whether one of these objects names the root.
fn one_names_root(alloc: Global, dir: &Dir, numbers: &[u32]) -> Result<bool, AllocError>
    ensures { IfOk result (λ one. one ≡ list_any (names_root dir.now) numbers.now) }
{
    for number in numbers {
        if names_root(alloc, dir, *number)? {
            return Ok(true);
        }
    }
    Ok(false)
}

fn is_domain_text(alloc: Global, dir: &Dir, text: &Value) -> Result<bool, AllocError>
    ensures { IfOk result (λ is. is ≡ is_domain_name dir.now (Ok text.now)) }
{
    let numbers = numbers_with(alloc, dir, b"nETBIOSName", text)?;
    one_names_root(alloc, dir, numbers.as_slice())
}

fn is_domain_name(alloc: Global, dir: &Dir, name: &[u8]) -> Result<bool, AllocError>
    ensures { IfOk result (λ is. is
        ≡ is_domain_name dir.now (normal_or_fault syntax.Unicode name.now)) }
{
    match normal(alloc, Syntax::Unicode, name) {
        Ok(text) => is_domain_text(alloc, dir, &text),
        Err(ValueFault::Memory) => Err(AllocError),
        Err(ValueFault::TooLong) => Ok(false),
        Err(ValueFault::Syntax) => Ok(false),
    }
}

fn account_only_with(alloc: Global, dir: &Dir, text: &Value) -> Result<u32, NameFault>
    ensures { GivesUnless is_memory (λ number. number) result
        (account_only dir.now (Ok text.now)) }
{
    let numbers = numbers_with(alloc, dir, b"sAMAccountName", text)?;
    only_one(numbers.as_slice())
}

fn account_only(alloc: Global, dir: &Dir, name: &[u8]) -> Result<u32, NameFault>
    ensures { GivesUnless is_memory (λ number. number) result
        (account_only dir.now (normal_or_fault syntax.Unicode name.now)) }
{
    match normal(alloc, Syntax::Unicode, name) {
        Ok(text) => account_only_with(alloc, dir, &text),
        Err(ValueFault::Memory) => Err(NameFault::Memory),
        Err(ValueFault::TooLong) => Err(NameFault::NoObject),
        Err(ValueFault::Syntax) => Err(NameFault::NoObject),
    }
}

fn backslash_in(text: &[u8]) -> Option<usize>
    ensures place { result ≡ position (λ b. b == backslash) text.now }
    ensures within { IfSome result (λ at. at < length text.now) }
{
    text.iter().position(|b| *b == b'\\')
}

// The account of a text with a backslash at this place.
fn account_at(alloc: Global, dir: &Dir, text: &[u8], place: usize) -> Result<u32, NameFault>
    requires { place < length text.now }
    ensures { GivesUnless is_memory (λ number. number) result (account_at dir.now text.now place) }
{
    if is_domain_name(alloc, dir, &text[..place])? {
        return account_only(alloc, dir, &text[place + 1..]);
    }
    account_named(alloc, dir, text)
}

#[tactic(auto, unfolding(crate::specs::Named::any_account))]
fn any_account(alloc: Global, dir: &Dir, text: &[u8]) -> Result<u32, NameFault>
    ensures { GivesUnless is_memory (λ number. number) result (any_account dir.now text.now) }
{
    match backslash_in(text) {
        Some(place) => account_at(alloc, dir, text, place),
        None => account_named(alloc, dir, text),
    }
}

// ---- any name

fn or_no_object(found: Option<u32>) -> Result<u32, NameFault>
    ensures { result ≡ or_no_object found }
{
    match found {
        Some(number) => Ok(number),
        None => Err(NameFault::NoObject),
    }
}

/// The identifier that a text encodes ([MS-DTYP] 2.4.2.1), and none where it is no identifier's. It takes no memory.
pub fn sid_of_text(text: &[u8]) -> Option<Sid>
    ensures { result ≡ sid_of_text text.now }
{
    what_a_sid_s_text_spells();
    match Sid::from_text(text) {
        Ok(sid) => Some(sid),
        Err(_) => None,
    }
}

// The object of an identifier's text, or of the name of an account.
fn sid_or_account(alloc: Global, dir: &Dir, name: &[u8]) -> Result<u32, NameFault>
    ensures { GivesUnless is_memory (λ number. number) result
        (option_map_or (λ sid. or_no_object (with_sid dir.now sid)) (sid_of_text name.now)
        (any_account dir.now name.now)) }
{
    match sid_of_text(name) {
        Some(sid) => or_no_object(dir.with_sid(&sid)),
        None => any_account(alloc, dir, name),
    }
}

// The object of any name.
#[tactic(auto, unfolding(crate::specs::Named::named))]
fn object_named(alloc: Global, dir: &Dir, name: &[u8]) -> Result<u32, NameFault>
    ensures { GivesUnless is_memory (λ number. number) result (named dir.now name.now) }
{
    match read(alloc, name) {
        Ok(dn) => or_no_object(dir.find(alloc, &dn)?),
        Err(DnFault::Memory) => Err(NameFault::Memory),
        Err(DnFault::Bad { place: _ }) => sid_or_account(alloc, dir, name),
    }
}

/// The object that a text names. A text that is a name's (RFC 4514) says the object of that name, one that is an
/// identifier's (`S-1-..`) the object of that identifier. One that has a backslash, and before it a NetBIOS name of
/// the domain, says the one object whose first sAMAccountName is what stands after it. Any other says the one object
/// whose first sAMAccountName, or where there is none the one whose first userPrincipalName, is the text. Texts are in
/// UTF-8, and compared after case folding.
///
/// Whether the object is a principal isn't asked: [`Members::token`](crate::Members::token) tells.
///
/// The time is about linear in the objects.
///
/// # Errors
///
/// `NoObject` where there is no such object, `Several` where several accounts have the name. `Memory` where memory
/// ran out.
pub fn principal_named(alloc: Global, dir: &Dir, name: &[u8]) -> Result<u32, NameFault>
    ensures named { GivesUnless is_memory (λ number. number) result (named dir.now name.now) }
    ensures live { IfOk result (λ number. is_live dir.now.objects number ≡ true) }
{
    dir.invariants();
    object_named(alloc, dir, name)
}

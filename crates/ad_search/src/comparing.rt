//! Compares.

ghost use Rattle.std.specs.Prelude.{◌≡◌, true, Some, Ok, IfOk};
ghost use Rattle.ad_value.specs.ValueOf.{normal_or_fault};
ghost use Rattle.ad_dir_model.specs.Objects.{is_live};
ghost use Rattle.ad_dir_model.specs.Directory.{Directory};
ghost use Rattle.ad_entries.specs.Seen.{seen_of, reads, view};
ghost use Rattle.ad_search.specs.Compare.{done, code_by, code_of, compare_at, compare_answer};

use crate::finding::{matched, seen_named};
use ad_bytes::Bytes;
use ad_dir::Dir;
use ad_dn::Dn;
use ad_entries::values_named;
use ad_filter::has_equal;
use ad_ids::Token;
use ad_ldap::result_code::{
    COMPARE_FALSE, COMPARE_TRUE, INVALID_ATTRIBUTE_SYNTAX, INVALID_DN_SYNTAX, NO_SUCH_ATTRIBUTE,
    NO_SUCH_OBJECT,
};
use ad_ldap::tags::COMPARE_RESPONSE;
use ad_ldap::{Compare, Reply, write_reply};
use ad_needs_rules::read_name;
use ad_value::{Syntax, Value, ValueFault, normal};
use std::alloc::{AllocError, Global};

fn done(alloc: Global, id: u32, code: u8, matched: Vec<u8>) -> Result<Vec<u8>, AllocError>
    ensures { IfOk result (λ bytes. bytes.items ≡ done id code matched.items) }
{
    let reply = Reply::Done {
        id,
        tag: COMPARE_RESPONSE,
        code,
        matched: Bytes::from_vec(matched),
        text: Bytes::new(alloc),
    };
    write_reply(alloc, &reply)
}

// Whether one of the values is equal to the one that was sent, as a code.
#[tactic(auto, unfolding(crate::specs::Compare::has_key))]
fn equal_code(
    alloc: Global,
    syntax: Syntax,
    values: &[Value],
    sent: &Value,
) -> Result<u8, AllocError>
    ensures { IfOk result (λ code. code ≡ code_by (record { syntax = syntax; values = values.now })
        (Ok sent.now)) }
{
    if has_equal(alloc, syntax, sent, values)? {
        return Ok(COMPARE_TRUE);
    }
    Ok(COMPARE_FALSE)
}

// The code for an attribute that may be read.
fn code_by(alloc: Global, syntax: Syntax, values: &[Value], sent: &[u8]) -> Result<u8, AllocError>
    ensures { IfOk result (λ code. code ≡ code_by (record { syntax = syntax; values = values.now })
        (normal_or_fault syntax sent.now)) }
{
    match normal(alloc, syntax, sent) {
        Ok(value) => equal_code(alloc, syntax, values, &value),
        Err(ValueFault::Memory) => Err(AllocError),
        Err(ValueFault::TooLong) => Ok(INVALID_ATTRIBUTE_SYNTAX),
        Err(ValueFault::Syntax) => Ok(INVALID_ATTRIBUTE_SYNTAX),
    }
}

fn code_of_values(
    alloc: Global,
    syntax: Syntax,
    values: &[Value],
    sent: &[u8],
) -> Result<u8, AllocError>
    ensures { IfOk result (λ code. code
        ≡ code_of sent.now (Some (record { syntax = syntax; values = values.now }))) }
{
    if values.is_empty() {
        return Ok(NO_SUCH_ATTRIBUTE);
    }
    code_by(alloc, syntax, values, sent)
}

// The code for an object that is seen.
fn code_of(
    alloc: Global,
    dir: &Dir,
    token: &Token,
    number: u32,
    request: &Compare,
) -> Result<u8, AllocError>
    requires { is_live dir.now.objects number ≡ true }
    ensures { IfOk result (λ code. code ≡ code_of request.now.value
        (reads dir.now.schema (seen_of dir.now token.now number) request.now.attr)) }
{
    match values_named(alloc, dir, token, number, request.attr.as_slice())? {
        Some((syntax, values)) => {
            code_of_values(alloc, syntax, values.as_slice(), request.value.as_slice())
        }
        None => Ok(NO_SUCH_ATTRIBUTE),
    }
}

// The answer where the name could be read.
fn compare_at(
    alloc: Global,
    dir: &Dir,
    token: &Token,
    id: u32,
    request: &Compare,
    name: &Dn,
) -> Result<Vec<u8>, AllocError>
    ensures { IfOk result (λ bytes. bytes.items ≡ compare_at dir.now.schema (view dir.now token.now)
        id request.now (Some name.now)) }
{
    match seen_named(alloc, dir, token, name)? {
        Some(number) => {
            let code = code_of(alloc, dir, token, number, request)?;
            done(alloc, id, code, Vec::new(alloc))
        }
        None => {
            let above = matched(alloc, dir, token, name)?;
            done(alloc, id, NO_SUCH_OBJECT, above)
        }
    }
}

// The answer.
#[tactic(auto, unfolding(crate::specs::Compare::compare_answer, crate::specs::Compare::compare_seen))]
fn compare_read(
    alloc: Global,
    dir: &Dir,
    token: &Token,
    id: u32,
    request: &Compare,
) -> Result<Vec<u8>, AllocError>
    ensures { IfOk result (λ bytes. bytes.items ≡ compare_answer dir.now token.now id request.now) }
{
    match read_name(alloc, request.dn.as_slice())? {
        Some(name) => compare_at(alloc, dir, token, id, request, &name),
        None => done(alloc, id, INVALID_DN_SYNTAX, Vec::new(alloc)),
    }
}

/// The answer to a compare, one message (RFC 4511 4.10). `id` is the request's message number.
///
/// Its code is 34 where the name can't be read, 32 where no object of the name is visible, 16 where the attribute is
/// unknown, may not be read, has no value or is nTSecurityDescriptor, 21 where the value isn't one of the attribute's
/// syntax, 6 where a value of the object is equal, and else 5.
///
/// # Errors
///
/// Out of memory.
pub fn compare(
    alloc: Global,
    dir: &Dir,
    token: &Token,
    id: u32,
    request: &Compare,
) -> Result<Vec<u8>, AllocError>
    // The answer is that of the rules.
    ensures answer { IfOk result (λ bytes. bytes.items ≡ compare_answer dir.now token.now id
        request.now) }
    // It is the answer in every directory of this schema of which the token sees the same.
    ensures two_worlds { IfOk result (λ bytes. (other : Directory) → other.schema ≡ dir.now.schema
        → view other token.now ≡ view dir.now token.now
        → bytes.items ≡ compare_answer other token.now id request.now) }
{
    compare_read(alloc, dir, token, id, request)
}

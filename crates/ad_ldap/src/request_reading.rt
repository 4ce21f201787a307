//! The operations of requests are read, one reader each.

ghost use Rattle.std.specs.Prelude.{◌≡◌, ◌<◌, ◌≤◌, length, IfOk, OnOk};
ghost use Rattle.ad_bytes.specs.Reading.{ReadsUnless, GivesUnless};
ghost use Rattle.ad_ldap.specs.MessageValue.{search_seen, op_seen};
ghost use Rattle.ad_ldap.specs.Limits.{most_int};
ghost use Rattle.ad_ldap.specs.Reading.{is_memory, inside_at, each_of, values_of};
ghost use Rattle.ad_ldap.specs.RequestReading.{search_of, attribute_of, item_of, modify_of, some_values_of};
ghost use Rattle.ad_ldap.specs.RequestReading.{new_of, add_of, rename_of, compare_of, op_by_tag, op_kind_at};
ghost use Rattle.ad_ldap.specs.RequestReading.{op_of, op_at};
ghost use Rattle.ad_ldap.specs.Tags.{sequence, set};

use crate::choices::{DEREF_ALWAYS, REPLACE_VALUES, WHOLE_SUBTREE};
use crate::elements::{
    body, boolean, end_of, ended, form, number, octets, option, small, some, values,
};
use crate::fault::LdapFault;
use crate::filter_reading::{assertion_inside, search_filter};
use crate::items::Item;
use crate::requests::{Add, Compare, Modify, Op, Rename, Search};
use crate::tags;
use ad_bytes::{Bytes, Input, List};
use std::alloc::Global;

const MAX_INT: u32 = 2_147_483_647;

#[derive(Clone, Copy)]
pub(crate) enum OpKind {
    Bind,
    Unbind,
    Search,
    Modify,
    Add,
    Delete,
    Rename,
    Compare,
    Abandon,
    Extended,
}

/// The greatest number of a message.
#[tactic(auto, unfolding(crate::specs::Limits::most_int))]
pub(crate) fn max_int() -> u32
    ensures { result ≡ most_int }
{
    MAX_INT
}

// Octet strings in an element of their own.
#[tactic(auto, unfolding(crate::specs::Reading::inside_at))]
fn values_inside(
    alloc: Global,
    input: &mut Input<'_>,
    end: usize,
    tag: u8,
) -> Result<List<Bytes>, LdapFault>
    ensures { ReadsUnless is_memory (λ values. values) result input.new
        (inside_at tag values_of end input.old) }
{
    let mut body = body(input, end, tag)?;
    let inner_end = end_of(input, end);
    values(alloc, &mut body, inner_end)
}

#[tactic(auto, unfolding(crate::specs::RequestReading::search_of))]
fn search(alloc: Global, input: &mut Input<'_>, end: usize) -> Result<Search, LdapFault>
    ensures { GivesUnless is_memory search_seen result (search_of end input.old) }
{
    let max = max_int();
    let base = octets(alloc, input, end, tags::OCTET_STRING)?;
    let scope = small(input, end, tags::ENUMERATED, WHOLE_SUBTREE)?;
    let _ = small(input, end, tags::ENUMERATED, DEREF_ALWAYS)?;
    let size = number(input, end, tags::INTEGER, max)?;
    let _ = number(input, end, tags::INTEGER, max)?;
    let types_only = boolean(input, end, tags::BOOLEAN)?;
    let filter = search_filter(alloc, input, end)?;
    let attrs = values_inside(alloc, input, end, tags::SEQUENCE)?;
    ended(input, end)?;
    Ok(Search {
        base,
        scope,
        size,
        types_only,
        filter,
        attrs,
    })
}

// An attribute with its values.
#[tactic(auto, unfolding(crate::specs::RequestReading::attribute_of))]
fn attribute(
    alloc: Global,
    input: &mut Input<'_>,
    end: usize,
) -> Result<(Bytes, List<Bytes>), LdapFault>
    ensures { GivesUnless is_memory (λ x. (x.0, x.1)) result (attribute_of end input.old) }
{
    let attr = octets(alloc, input, end, tags::OCTET_STRING)?;
    let values = values_inside(alloc, input, end, tags::SET)?;
    ended(input, end)?;
    Ok((attr, values))
}

#[tactic(auto, unfolding(crate::specs::Reading::inside_at))]
fn attribute_inside(
    alloc: Global,
    input: &mut Input<'_>,
    end: usize,
) -> Result<(Bytes, List<Bytes>), LdapFault>
    ensures { ReadsUnless is_memory (λ x. (x.0, x.1)) result input.new
        (inside_at sequence attribute_of end input.old) }
{
    let mut body = body(input, end, tags::SEQUENCE)?;
    let inner_end = end_of(input, end);
    attribute(alloc, &mut body, inner_end)
}

// One change.
#[tactic(auto, unfolding(crate::specs::RequestReading::item_of))]
fn item(alloc: Global, input: &mut Input<'_>, end: usize) -> Result<Item, LdapFault>
    ensures { GivesUnless is_memory (λ item. item) result (item_of end input.old) }
{
    let op = small(input, end, tags::ENUMERATED, REPLACE_VALUES)?;
    let (attr, values) = attribute_inside(alloc, input, end)?;
    ended(input, end)?;
    Ok(Item { op, attr, values })
}

#[tactic(auto, unfolding(crate::specs::Reading::inside_at))]
fn item_inside(alloc: Global, input: &mut Input<'_>, end: usize) -> Result<Item, LdapFault>
    ensures read { ReadsUnless is_memory (λ item. item) result input.new
        (inside_at sequence item_of end input.old) }
    ensures left { OnOk result (length input.new < length input.old) }
{
    let mut body = body(input, end, tags::SEQUENCE)?;
    let inner_end = end_of(input, end);
    item(alloc, &mut body, inner_end)
}

// The changes up to the end.
fn items(alloc: Global, input: &mut Input<'_>, end: usize) -> Result<List<Item>, LdapFault>
    ensures { GivesUnless is_memory (λ items. items) result
        (each_of (inside_at sequence item_of) end input.old) }
{
    let mut items = List::new(alloc);
    'each: while !input.is_empty() {
        let item = item_inside(alloc, input, end)?;
        items.push(item)?;
    }
    Ok(items)
}

#[tactic(auto, unfolding(crate::specs::Reading::inside_at))]
fn items_inside(alloc: Global, input: &mut Input<'_>, end: usize) -> Result<List<Item>, LdapFault>
    ensures { ReadsUnless is_memory (λ items. items) result input.new
        (inside_at sequence (each_of (inside_at sequence item_of)) end input.old) }
{
    let mut body = body(input, end, tags::SEQUENCE)?;
    let inner_end = end_of(input, end);
    items(alloc, &mut body, inner_end)
}

#[tactic(auto, unfolding(crate::specs::RequestReading::modify_of))]
fn modify(alloc: Global, input: &mut Input<'_>, end: usize) -> Result<Modify, LdapFault>
    ensures { GivesUnless is_memory (λ modify. modify) result (modify_of end input.old) }
{
    let dn = octets(alloc, input, end, tags::OCTET_STRING)?;
    let items = items_inside(alloc, input, end)?;
    ended(input, end)?;
    Ok(Modify { dn, items })
}

// Octet strings up to the end, one at least.
#[tactic(auto, unfolding(crate::specs::RequestReading::some_values_of))]
fn some_values(alloc: Global, input: &mut Input<'_>, end: usize) -> Result<List<Bytes>, LdapFault>
    ensures { GivesUnless is_memory (λ values. values) result (some_values_of end input.old) }
{
    some(input, end)?;
    values(alloc, input, end)
}

#[tactic(auto, unfolding(crate::specs::Reading::inside_at))]
fn some_values_inside(
    alloc: Global,
    input: &mut Input<'_>,
    end: usize,
) -> Result<List<Bytes>, LdapFault>
    ensures { ReadsUnless is_memory (λ values. values) result input.new
        (inside_at set some_values_of end input.old) }
{
    let mut body = body(input, end, tags::SET)?;
    let inner_end = end_of(input, end);
    some_values(alloc, &mut body, inner_end)
}

// An attribute of a new object with its values.
#[tactic(auto, unfolding(crate::specs::RequestReading::new_of))]
fn new_attribute(
    alloc: Global,
    input: &mut Input<'_>,
    end: usize,
) -> Result<(Bytes, List<Bytes>), LdapFault>
    ensures { GivesUnless is_memory (λ x. (x.0, x.1)) result (new_of end input.old) }
{
    let attr = octets(alloc, input, end, tags::OCTET_STRING)?;
    let values = some_values_inside(alloc, input, end)?;
    ended(input, end)?;
    Ok((attr, values))
}

#[tactic(auto, unfolding(crate::specs::Reading::inside_at))]
fn new_inside(
    alloc: Global,
    input: &mut Input<'_>,
    end: usize,
) -> Result<(Bytes, List<Bytes>), LdapFault>
    ensures read { ReadsUnless is_memory (λ x. (x.0, x.1)) result input.new
        (inside_at sequence new_of end input.old) }
    ensures left { OnOk result (length input.new < length input.old) }
{
    let mut body = body(input, end, tags::SEQUENCE)?;
    let inner_end = end_of(input, end);
    new_attribute(alloc, &mut body, inner_end)
}

// The attributes of a new object up to the end.
fn attrs(
    alloc: Global,
    input: &mut Input<'_>,
    end: usize,
) -> Result<List<(Bytes, List<Bytes>)>, LdapFault>
    ensures { GivesUnless is_memory (λ attrs. attrs) result
        (each_of (inside_at sequence new_of) end input.old) }
{
    let mut attrs = List::new(alloc);
    'each: while !input.is_empty() {
        let attr = new_inside(alloc, input, end)?;
        attrs.push(attr)?;
    }
    Ok(attrs)
}

#[tactic(auto, unfolding(crate::specs::Reading::inside_at))]
fn attrs_inside(
    alloc: Global,
    input: &mut Input<'_>,
    end: usize,
) -> Result<List<(Bytes, List<Bytes>)>, LdapFault>
    ensures { ReadsUnless is_memory (λ attrs. attrs) result input.new
        (inside_at sequence (each_of (inside_at sequence new_of)) end input.old) }
{
    let mut body = body(input, end, tags::SEQUENCE)?;
    let inner_end = end_of(input, end);
    attrs(alloc, &mut body, inner_end)
}

#[tactic(auto, unfolding(crate::specs::RequestReading::add_of))]
fn add(alloc: Global, input: &mut Input<'_>, end: usize) -> Result<Add, LdapFault>
    ensures { GivesUnless is_memory (λ add. add) result (add_of end input.old) }
{
    let dn = octets(alloc, input, end, tags::OCTET_STRING)?;
    let attrs = attrs_inside(alloc, input, end)?;
    ended(input, end)?;
    Ok(Add { dn, attrs })
}

#[tactic(auto, unfolding(crate::specs::RequestReading::rename_of))]
fn rename(alloc: Global, input: &mut Input<'_>, end: usize) -> Result<Rename, LdapFault>
    ensures { GivesUnless is_memory (λ rename. rename) result (rename_of end input.old) }
{
    let dn = octets(alloc, input, end, tags::OCTET_STRING)?;
    let rdn = octets(alloc, input, end, tags::OCTET_STRING)?;
    let delete = boolean(input, end, tags::BOOLEAN)?;
    let superior = option(alloc, input, end, tags::NEW_SUPERIOR)?;
    ended(input, end)?;
    Ok(Rename {
        dn,
        rdn,
        keep: !delete,
        superior,
    })
}

#[tactic(auto, unfolding(crate::specs::RequestReading::compare_of))]
fn compare(alloc: Global, input: &mut Input<'_>, end: usize) -> Result<Compare, LdapFault>
    ensures { GivesUnless is_memory (λ compare. compare) result (compare_of end input.old) }
{
    let dn = octets(alloc, input, end, tags::OCTET_STRING)?;
    let (attr, value) = assertion_inside(alloc, input, end, tags::SEQUENCE)?;
    ended(input, end)?;
    Ok(Compare { dn, attr, value })
}

// Which request begins with this tag.
fn op_kind_of(tag: u8) -> Option<OpKind>
    ensures { result ≡ op_by_tag tag }
{
    if tag == tags::BIND_REQUEST {
        Some(OpKind::Bind)
    } else if tag == tags::UNBIND_REQUEST {
        Some(OpKind::Unbind)
    } else if tag == tags::SEARCH_REQUEST {
        Some(OpKind::Search)
    } else if tag == tags::MODIFY_REQUEST {
        Some(OpKind::Modify)
    } else if tag == tags::ADD_REQUEST {
        Some(OpKind::Add)
    } else if tag == tags::DELETE_REQUEST {
        Some(OpKind::Delete)
    } else if tag == tags::RENAME_REQUEST {
        Some(OpKind::Rename)
    } else if tag == tags::COMPARE_REQUEST {
        Some(OpKind::Compare)
    } else if tag == tags::ABANDON_REQUEST {
        Some(OpKind::Abandon)
    } else if tag == tags::EXTENDED_REQUEST {
        Some(OpKind::Extended)
    } else {
        None
    }
}

#[tactic(auto, unfolding(crate::specs::RequestReading::op_kind_at))]
fn op_kind(input: &Input<'_>, end: usize) -> Result<OpKind, LdapFault>
    ensures { result ≡ op_kind_at end input.now }
{
    let [tag, ..] = input.rest() else {
        return Err(form(input, end));
    };
    match op_kind_of(*tag) {
        Some(kind) => Ok(kind),
        None => Err(form(input, end)),
    }
}

// The body of a request, whose tag says which it is.
#[tactic(auto, unfolding(crate::specs::RequestReading::op_of, crate::specs::Reading::inside_at))]
fn op_of_kind(
    alloc: Global,
    kind: OpKind,
    input: &mut Input<'_>,
    end: usize,
) -> Result<Op, LdapFault>
    ensures { ReadsUnless is_memory op_seen result input.new (op_of kind end input.old) }
{
    match kind {
        OpKind::Bind => {
            let _ = body(input, end, tags::BIND_REQUEST)?;
            Ok(Op::Bind)
        }
        OpKind::Unbind => {
            let _ = body(input, end, tags::UNBIND_REQUEST)?;
            Ok(Op::Unbind)
        }
        OpKind::Search => {
            let mut body = body(input, end, tags::SEARCH_REQUEST)?;
            let inner_end = end_of(input, end);
            let search = search(alloc, &mut body, inner_end)?;
            Ok(Op::Search(search))
        }
        OpKind::Modify => {
            let mut body = body(input, end, tags::MODIFY_REQUEST)?;
            let inner_end = end_of(input, end);
            let modify = modify(alloc, &mut body, inner_end)?;
            Ok(Op::Modify(modify))
        }
        OpKind::Add => {
            let mut body = body(input, end, tags::ADD_REQUEST)?;
            let inner_end = end_of(input, end);
            let add = add(alloc, &mut body, inner_end)?;
            Ok(Op::Add(add))
        }
        OpKind::Delete => {
            let dn = octets(alloc, input, end, tags::DELETE_REQUEST)?;
            Ok(Op::Delete(dn))
        }
        OpKind::Rename => {
            let mut body = body(input, end, tags::RENAME_REQUEST)?;
            let inner_end = end_of(input, end);
            let rename = rename(alloc, &mut body, inner_end)?;
            Ok(Op::Rename(rename))
        }
        OpKind::Compare => {
            let mut body = body(input, end, tags::COMPARE_REQUEST)?;
            let inner_end = end_of(input, end);
            let compare = compare(alloc, &mut body, inner_end)?;
            Ok(Op::Compare(compare))
        }
        OpKind::Abandon => {
            let _ = body(input, end, tags::ABANDON_REQUEST)?;
            Ok(Op::Abandon)
        }
        OpKind::Extended => {
            let _ = body(input, end, tags::EXTENDED_REQUEST)?;
            Ok(Op::Extended)
        }
    }
}

/// The request of a message.
#[tactic(auto, unfolding(crate::specs::RequestReading::op_at))]
pub(crate) fn op(alloc: Global, input: &mut Input<'_>, end: usize) -> Result<Op, LdapFault>
    ensures { ReadsUnless is_memory op_seen result input.new (op_at end input.old) }
{
    let kind = op_kind(input, end)?;
    op_of_kind(alloc, kind, input, end)
}

//! What is sought by the indexes of a value that an object has to show: the next object that may store it or be named
//! by it, so that the others aren't looked at.

ghost use Rattle.std.specs.Prelude.{◌≡◌, ◌<◌, ℕ, true, false, codes, IfOk, IfSome, IsTrue};
ghost use Rattle.ad_value.specs.declared.syntax.Syntax.TheVariants as syntax;
ghost use Rattle.ad_dir_model.specs.Attributes.{is_named, syntax_at};
ghost use Rattle.ad_search.specs.Indexed.{names_one, IsQueryFor, IsBefore, IsNextShown};

use crate::needles::Needle;
use ad_dir::{Dir, is_named};
use ad_schema::{AttrId, Schema};
use ad_value::{Key, Syntax};
use std::alloc::{AllocError, Global};

/// A value that an object has to show, of an attribute by which objects are found.
#[derive(Drop)]
pub(crate) struct IndexQuery {
    pub attr: AttrId,
    pub key: Key,
    // Whether objects are named by the attribute.
    pub by_name: bool,
    // Whether it is `name`, by which each object shows its naming value and none that is stored.
    pub is_name: bool,
}

// ---- what is sought

// Whether some class names its objects by the attribute.
fn names_one(schema: &Schema, attr: AttrId) -> bool
    ensures { result ≡ names_one schema.now attr.0 }
{
    schema.classes().iter().any(|info| info.naming.0 == attr.0)
}

#[tactic(auto, unfolding(ad_dir_model::specs::Attributes::syntax_at))]
fn is_text(schema: &Schema, attr: AttrId) -> bool
    ensures { IsTrue result → syntax_at schema.now attr.0 ≡ syntax.Unicode }
{
    match schema.attrs().get(attr.0 as usize) {
        Some(info) => matches!(info.syntax, Syntax::Unicode),
        None => false,
    }
}

// What is sought for a needle of `name`.
fn query_by_name(
    alloc: Global,
    dir: &Dir,
    needle: &Needle,
) -> Result<Option<IndexQuery>, AllocError>
    requires { is_named dir.now.schema (codes "name") needle.now.attr.0 ≡ true }
    ensures { IfOk result (λ found. IfSome found (IsQueryFor dir.now.schema needle.now)) }
{
    if !is_text(dir.schema(), needle.attr) {
        return Ok(None);
    }
    Ok(Some(IndexQuery {
        attr: needle.attr,
        key: needle.value.key(alloc)?,
        by_name: true,
        is_name: true,
    }))
}

// What is sought for a needle of any other attribute, where there is an index for it.
fn query_by_value(
    alloc: Global,
    dir: &Dir,
    needle: &Needle,
) -> Result<Option<IndexQuery>, AllocError>
    requires { is_named dir.now.schema (codes "name") needle.now.attr.0 ≡ false }
    ensures { IfOk result (λ found. IfSome found (IsQueryFor dir.now.schema needle.now)) }
{
    if !dir.is_indexed(needle.attr) {
        return Ok(None);
    }
    let by_name = names_one(dir.schema(), needle.attr);
    if by_name && !is_text(dir.schema(), needle.attr) {
        return Ok(None);
    }
    Ok(Some(IndexQuery {
        attr: needle.attr,
        key: needle.value.key(alloc)?,
        by_name,
        is_name: false,
    }))
}

// What is sought for a needle, where there is an index for it.
pub(crate) fn query_of(
    alloc: Global,
    dir: &Dir,
    needle: &Needle,
) -> Result<Option<IndexQuery>, AllocError>
    ensures { IfOk result (λ found. IfSome found (IsQueryFor dir.now.schema needle.now)) }
{
    if is_named(dir.schema(), b"name", needle.attr) {
        return query_by_name(alloc, dir, needle);
    }
    query_by_value(alloc, dir, needle)
}

// ---- the next object

// The lesser of two numbers, where there are any.
pub(crate) fn lesser(a: Option<u32>, b: Option<u32>) -> Option<u32>
    ensures above { (above : ℕ) → IfSome a (λ n. above < n) → IfSome b (λ n. above < n)
        → IfSome result (λ n. above < n) }
    ensures first { (number : ℕ) → IsBefore number result → IsBefore number a }
    ensures second { (number : ℕ) → IsBefore number result → IsBefore number b }
{
    match (a, b) {
        (Some(a), Some(b)) => Some(if a < b { a } else { b }),
        (Some(a), None) => Some(a),
        (None, other) => other,
    }
}

// The next object above a number that may show what is sought.
pub(crate) fn next_shown(dir: &Dir, query: &IndexQuery, above: u32) -> Option<u32>
    ensures { IsNextShown dir.now query.now above result }
{
    dir.invariants();
    if query.is_name {
        return dir.next_named(&query.key, above);
    }
    let stores = dir.next_with(query.attr, &query.key, above);
    if query.by_name {
        return lesser(stores, dir.next_named(&query.key, above));
    }
    stores
}

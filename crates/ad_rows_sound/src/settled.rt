//! Whether an object has what its parent passes down. Siblings mostly have the same descriptors, so the last object
//! that has it is kept, and what its like has isn't computed again.

ghost use Rattle.std.specs.Prelude.{◌≡◌, ◌↔◌, IsTrue, IfOk};
ghost use Rattle.ad_inherit.specs.Whole.{whole};
ghost use Rattle.ad_dir_model.specs.Inheritance.{guid_at};

use crate::finding::Entry;
use ad_dir::guid_of;
use ad_ids::Guid;
use ad_inherit::whole;
use ad_schema::Schema;
use ad_sd::{NormalSd, Sd, no_normal_bytes_begin_others};
use std::alloc::{AllocError, Global};

fn same_bytes(a: &[u8], b: &[u8]) -> bool
    ensures { IsTrue result ↔ (a.now ≡ b.now) }
{
    a == b
}

fn are_same(one: &NormalSd, other: &NormalSd) -> bool
    ensures { IsTrue result ↔ (one.now ≡ other.now) }
{
    no_normal_bytes_begin_others();
    same_bytes(one.as_bytes(), other.as_bytes())
}

/// Whether the descriptor is this one.
pub(crate) fn is_sd(alloc: Global, own: &NormalSd, sd: &Sd) -> Result<bool, AllocError>
    ensures { IfOk result (λ same. IsTrue same ↔ (own.now ≡ sd.now)) }
{
    let other = NormalSd::of(alloc, sd)?;
    Ok(are_same(own, &other))
}

/// The descriptors of a parent and of an object below it, of this class, that has what the parent passes down.
#[derive(Drop)]
pub(crate) struct Settled<'a> {
    parent: &'a NormalSd,
    own: &'a NormalSd,
    class: Guid,
    ghost settled: { own.now ≡ whole parent.now own.now class },
}

fn is_class(one: Guid, other: Guid) -> bool
    ensures { IsTrue result → one ≡ other }
{
    one == other
}

// Whether descriptors and a class are those of the last.
fn is_like(last: &Settled<'_>, parent: &NormalSd, own: &NormalSd, class: Guid) -> bool
    ensures { IsTrue result → own.now ≡ whole parent.now own.now class }
{
    if !is_class(last.class, class) {
        return false;
    }
    if !are_same(last.parent, parent) {
        return false;
    }
    are_same(last.own, own)
}

// The same, where there was one.
fn is_known(last: &Option<Settled<'_>>, parent: &NormalSd, own: &NormalSd, class: Guid) -> bool
    ensures { IsTrue result → own.now ≡ whole parent.now own.now class }
{
    match last {
        Some(last) => is_like(last, parent, own, class),
        None => false,
    }
}

/// Whether an object below the root has what its parent passes down. `last` is the last that has it.
pub(crate) fn is_settled<'a>(
    alloc: Global,
    schema: &Schema,
    last: &mut Option<Settled<'a>>,
    parent: &'a Entry,
    entry: &'a Entry,
) -> Result<bool, AllocError>
    ensures { IfOk result (λ is. IsTrue is
        ↔ (entry.now.1 ≡ whole parent.now.1 entry.now.1 (guid_at schema.now entry.now.0.class.0))) }
{
    let class = guid_of(schema, entry.0.class);
    if is_known(last, &parent.1, &entry.1, class) {
        return Ok(true);
    }
    let sd = whole(alloc, parent.1.view(), entry.1.view(), class)?;
    if !is_sd(alloc, &entry.1, &sd)? {
        return Ok(false);
    }
    *last = Some(Settled {
        parent: &parent.1,
        own: &entry.1,
        class,
    });
    Ok(true)
}

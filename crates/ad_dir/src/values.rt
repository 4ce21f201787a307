//! The objects that may store a value of an attribute.

ghost use Rattle.std.specs.Prelude.{◌≡◌, ◌<◌, ◌≤◌, ℕ, true, false, List, IsTrue, IfSome, IsSomeAnd};
ghost use Rattle.ad_schema.specs.Meaning.{attr_is_link};
ghost use Rattle.ad_dir_links.specs.Counted.{AreCounted};
ghost use Rattle.ad_dir_model.specs.Object.{Object as ObjectSeen};
ghost use Rattle.ad_dir.specs.Standing.{AreStanding};
ghost use Rattle.ad_dir.specs.Values.{IsNextWith, AreMarked};

use ad_dir_links::{Links, is_indexed, mark, next_holder};
use ad_schema::{AttrId, Schema};
use ad_value::Key;

/// Whether the values of an attribute are counted, of which none is a link.
pub(crate) fn is_counted(schema: &Schema, indexed: &[bool], attr: AttrId) -> bool
    ensures { IsTrue result → AreMarked schema.now indexed.now attr.0 }
{
    is_indexed(indexed, attr) && (attr.0 as usize) < schema.attrs().len() && !schema.is_link(attr)
}

// The number behind one.
fn behind(above: u32) -> Option<u32>
    ensures above { IfSome result (λ next. above < next) }
    ensures least { (number : ℕ) → number < 4294967295 → above < number
        → IsSomeAnd result (λ next. next ≤ number) }
{
    if above < u32::MAX {
        return Some(above + 1);
    }
    None
}

/// The next object above a number that may store a value of an attribute with a key, by what is counted. It takes no
/// memory.
pub(crate) fn next_with(
    schema: &Schema,
    indexed: &[bool],
    links: &Links,
    attr: AttrId,
    key: &Key,
    above: u32,
) -> Option<u32>
    ensures { (objects : List ObjectSeen) → AreStanding schema.now objects
        → AreCounted indexed.now links.now.entries objects
        → IsNextWith objects attr.0 key.now above result }
{
    if is_counted(schema, indexed, attr) {
        return next_holder(links, mark(attr.0, key), above);
    }
    behind(above)
}

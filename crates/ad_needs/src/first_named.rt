//! Which items of a Modify, and which attributes of an Add, name their attribute for the first time.

ghost use Rattle.std.specs.Prelude.{◌≡◌, ◌<◌, ◌++◌, ◌∷◌, [], not, false, true, length, slice_index_or, slice_set, IfOk};
ghost use Rattle.std.specs.List.{list_any};
ghost use Rattle.ad_needs_rules.specs.Modifying.{is_item_of};
ghost use Rattle.ad_needs.specs.ItemWords.{AreNamed, AreSent};
ghost use Rattle.ad_needs.specs.Decoding.{attr_of};

use crate::items::is_named_in;
use ad_ldap::Item;
use ad_schema::{AttrId, Schema};
use std::alloc::{AllocError, Global};

/// A flag for each attribute of the schema, none of which is set: those of no items, and of no attributes of an
/// addition.
///
/// # Errors
///
/// Memory ran out.
pub(crate) fn none_named(alloc: Global, schema: &Schema) -> Result<Vec<bool>, AllocError>
    ensures named { IfOk result (λ named. AreNamed schema.now named.items []) }
    ensures sent { IfOk result (λ named. AreSent schema.now named.items []) }
{
    let named = vec![in alloc; false; schema.attrs().len()]?;
    Ok(named)
}

/// Sets a flag, and says whether it wasn't set.
pub(crate) fn is_first_mark(named: &mut [bool], place: usize) -> bool
    requires { place < length named.old }
    ensures first { result ≡ not (slice_index_or named.old place false) }
    ensures marked { named.new ≡ slice_set named.old place true }
{
    let was = named[place];
    named[place] = true;
    !was
}

/// Whether an item after others names its attribute, which is given, for the first time. `named` has the flags of the
/// attributes that the others name, and then that of this one too.
pub(crate) fn is_first(
    schema: &Schema,
    named: &mut [bool],
    earlier: &[Item],
    item: &Item,
    attr: Option<AttrId>,
) -> bool
    requires named { AreNamed schema.now named.old earlier.now }
    requires attr { attr ≡ attr_of schema.now item.now }
    ensures first { result ≡ not (list_any (is_item_of item.now.attr) earlier.now) }
    ensures named { AreNamed schema.now named.new (earlier.now ++ item.now ∷ []) }
{
    match attr {
        Some(attr) => is_first_mark(named, attr.0 as usize),
        None => !is_named_in(earlier, item.attr.as_slice()),
    }
}

//! The explicit part of a descriptor, and the whole of it below a parent's.

ghost use Rattle.std.specs.Prelude.{◌≡◌, IfOk};
ghost use Rattle.ad_sd.specs.Seen.{seen};
ghost use Rattle.ad_inherit.specs.Whole.{explicit_part, whole};

use crate::copies::Heir;
use crate::lists::{explicit_of_view, whole_list};
use ad_ids::Guid;
use ad_sd::{AceList, Sd, SdView};
use std::alloc::{AllocError, Global};

/// The explicit part of a descriptor: the descriptor without the entries that carry the flag 0x10 (inherited,
/// [MS-DTYP] 2.4.4.1). It is the descriptor of an object without a parent.
///
/// # Errors
///
/// Memory ran out.
#[tactic(auto, unfolding(crate::specs::Whole::explicit_part))]
pub fn explicit(alloc: Global, own: SdView<'_>) -> Result<Sd, AllocError>
    ensures { IfOk result (λ sd. sd ≡ explicit_part (seen own.entry)) }
{
    let dacl = explicit_of_view(alloc, own.dacl())?;
    let sacl = explicit_of_view(alloc, own.sacl())?;
    Ok(Sd {
        owner: own.owner(),
        group: own.group(),
        dacl: AceList {
            protected: own.dacl_protected(),
            entries: dacl,
        },
        sacl: AceList {
            protected: own.sacl_protected(),
            entries: sacl,
        },
    })
}

/// The descriptor of an object of the class, from its own one and its parent's ([MS-DTYP] 2.5.3.4): the explicit part
/// of its own and, after it in each list that isn't protected, the copies of the parent's entries that pass down, in
/// their order. Inherited entries of the own one count for nothing.
///
/// # Errors
///
/// Memory ran out.
#[tactic(auto, unfolding(crate::specs::Whole::whole))]
pub fn whole(
    alloc: Global,
    parent: SdView<'_>,
    own: SdView<'_>,
    class: Guid,
) -> Result<Sd, AllocError>
    ensures { IfOk result (λ sd. sd ≡ whole (seen parent.entry) (seen own.entry) class) }
{
    let heir = Heir {
        class,
        owner: own.owner(),
        group: own.group(),
    };
    let dacl = explicit_of_view(alloc, own.dacl())?;
    let sacl = explicit_of_view(alloc, own.sacl())?;
    Ok(Sd {
        owner: heir.owner,
        group: heir.group,
        dacl: whole_list(dacl, own.dacl_protected(), parent.dacl(), &heir)?,
        sacl: whole_list(sacl, own.sacl_protected(), parent.sacl(), &heir)?,
    })
}

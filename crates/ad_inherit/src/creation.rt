//! The descriptor of a new object: of the parts that are given, else of the default ones, else of the token's.

ghost use Rattle.std.specs.Prelude.{◌≡◌, IfOk};
ghost use Rattle.std.specs.Option.{option_copied, option_or};
ghost use Rattle.ad_sd.specs.Sd.{list_or_empty};
ghost use Rattle.ad_sd.specs.Seen.{seen};
ghost use Rattle.ad_inherit.specs.Whole.{explicit_list, whole};
ghost use Rattle.ad_inherit.specs.Creation.{chosen};

use crate::copies::Heir;
use crate::lists::{explicit_of, whole_list};
use ad_acl::Aces;
use ad_ids::{Guid, Sid};
use ad_sd::{AceList, Sd, SdParts, SdView};
use std::alloc::{AllocError, Global};

// The explicit part of the first list, else of the second one, else the empty list.
fn explicit_or(
    alloc: Global,
    first: Option<&AceList>,
    second: Option<&AceList>,
) -> Result<AceList, AllocError>
    ensures { IfOk result (λ list. list
        ≡ explicit_list (list_or_empty
        (option_or (option_copied first.entry) (option_copied second.entry)))) }
{
    match first.or(second) {
        Some(list) => Ok(AceList {
            protected: list.protected,
            entries: explicit_of(alloc, list.entries.as_slice())?,
        }),
        None => Ok(AceList {
            protected: false,
            entries: Aces::new(alloc),
        }),
    }
}

/// The descriptor of a new object of the class below the parent ([MS-DTYP] 2.5.3.4): each part is the given one; else
/// a list is the default one, and else empty and not protected, and the owner and the group are these. What is
/// inherited is as in [`whole`](crate::whole): entries of the given and of the default lists that carry the flag of
/// inherited ones count for nothing.
///
/// # Errors
///
/// Memory ran out.
#[tactic(auto, unfolding(crate::specs::Whole::whole, crate::specs::Creation::chosen))]
pub fn create(
    alloc: Global,
    parent: SdView<'_>,
    given: Option<&SdParts>,
    default: &SdParts,
    class: Guid,
    owner: Sid,
    group: Sid,
) -> Result<Sd, AllocError>
    ensures { IfOk result (λ sd. sd ≡ whole (seen parent.entry)
        (chosen (option_copied given.entry) default.now owner group) class) }
{
    let heir = Heir {
        class,
        owner: given.and_then(|parts| parts.owner).unwrap_or(owner),
        group: given.and_then(|parts| parts.group).unwrap_or(group),
    };
    let given_dacl = given.and_then(|parts| parts.dacl.as_ref());
    let given_sacl = given.and_then(|parts| parts.sacl.as_ref());
    let dacl = explicit_or(alloc, given_dacl, default.dacl.as_ref())?;
    let sacl = explicit_or(alloc, given_sacl, default.sacl.as_ref())?;
    Ok(Sd {
        owner: heir.owner,
        group: heir.group,
        dacl: whole_list(dacl.entries, dacl.protected, parent.dacl(), &heir)?,
        sacl: whole_list(sacl.entries, sacl.protected, parent.sacl(), &heir)?,
    })
}

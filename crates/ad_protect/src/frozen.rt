//! The frozen descriptor of AdminSDHolder.

ghost use Rattle.std.specs.Prelude.{◌≡◌, true, map, IfOk};
ghost use Rattle.ad_sd.specs.Normal.{SpellsNormal};
ghost use Rattle.ad_sd.specs.View.{entries_left};
ghost use Rattle.ad_dir_model.specs.Objects.{sd_at, is_live};
ghost use Rattle.ad_dir_model.specs.Protection.{frozen_entry, frozen};

use ad_acl::{Ace, Aces};
use ad_dir::{Dir, live_sd};
use ad_sd::{AceList, Entries, Sd, normal};
use std::alloc::{AllocError, Global};

// All flags but that of inherited entries, and the one that no entry has.
const NOT_INHERITED: u8 = 0xcf;

fn frozen_entry(entry: &Ace) -> Ace
    ensures { result ≡ frozen_entry entry.now }
{
    Ace {
        kind: entry.kind,
        flags: entry.flags & NOT_INHERITED,
        mask: entry.mask,
        object: entry.object,
        inherited: entry.inherited,
        sid: entry.sid,
    }
}

fn frozen_list(alloc: Global, entries: Entries<'_>) -> Result<AceList, AllocError>
    ensures { IfOk result (λ list. list
        ≡ record { protected = true; entries = map frozen_entry (entries_left entries.entry) }) }
{
    let mut aces = Aces::new(alloc);
    for ace in entries {
        aces.push(frozen_entry(&ace))?;
    }
    Ok(AceList {
        protected: true,
        entries: aces,
    })
}

/// The normal bytes of the frozen descriptor of a live object.
#[tactic(auto, unfolding(ad_dir_model::specs::Protection::frozen))]
pub(crate) fn frozen(alloc: Global, dir: &Dir, number: u32) -> Result<Vec<u8>, AllocError>
    requires { is_live dir.now.objects number ≡ true }
    ensures { IfOk result (λ bytes. SpellsNormal (frozen (sd_at dir.now.objects number))
        bytes.items) }
{
    let own = live_sd(dir, number);
    let sd = Sd {
        owner: own.owner(),
        group: own.group(),
        dacl: frozen_list(alloc, own.dacl())?,
        sacl: frozen_list(alloc, own.sacl())?,
    };
    normal(alloc, &sd)
}

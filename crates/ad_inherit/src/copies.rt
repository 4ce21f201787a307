//! The copies of one entry.

ghost use Rattle.std.specs.Prelude.{◌≡◌, ◌++◌, bit_and, OnOk};
ghost use Rattle.ad_inherit.specs.Flags.{no_propagate, has};
ghost use Rattle.ad_inherit.specs.Copies.{passes, fits, is_creator, stands_for, copy_of, effective, down, both, copies};

use ad_acl::{
    Ace, Aces, CONTAINER_INHERIT, FAILED_ACCESS, INHERIT_ONLY, INHERITED, NO_PROPAGATE,
    SUCCESSFUL_ACCESS,
};
use ad_ids::{Guid, Sid};
use std::alloc::AllocError;

/// The object that inherits.
#[derive(Drop)]
pub(crate) struct Heir {
    pub class: Guid,
    pub owner: Sid,
    pub group: Sid,
}

const AUDIT_BITS: u8 = SUCCESSFUL_ACCESS | FAILED_ACCESS;

const DOWN: u8 = CONTAINER_INHERIT | INHERIT_ONLY | INHERITED;

const BOTH: u8 = CONTAINER_INHERIT | INHERITED;

/// Whether the entry passes down.
pub(crate) fn passes(entry: &Ace) -> bool
    ensures { result ≡ passes entry.now }
{
    entry.flags & CONTAINER_INHERIT != 0
}

fn propagates_no_further(entry: &Ace) -> bool
    ensures { result ≡ has entry.now no_propagate }
{
    entry.flags & NO_PROPAGATE != 0
}

fn fits(entry: &Ace, class: &Guid) -> bool
    ensures { result ≡ fits entry.now class.now }
{
    match entry.inherited {
        Some(only) => only == *class,
        None => true,
    }
}

fn is_creator(sid: &Sid) -> bool
    ensures { result ≡ is_creator sid.now }
{
    sid.is_well_known(3, 0) || sid.is_well_known(3, 1)
}

fn stands_for(sid: &Sid, heir: &Heir) -> Sid
    ensures { result ≡ stands_for sid.now heir.now.owner heir.now.group }
{
    if sid.is_well_known(3, 0) {
        return heir.owner;
    }
    if sid.is_well_known(3, 1) {
        return heir.group;
    }
    *sid
}

// A copy for the identifier, with these flags and the audit bits of the entry.
fn copy_of(entry: &Ace, flags: u8, sid: Sid) -> Ace
    requires { bit_and flags 32 ≡ 0 }
    ensures { result ≡ copy_of entry.now flags sid }
{
    Ace {
        kind: entry.kind,
        flags: entry.flags & AUDIT_BITS | flags,
        mask: entry.mask,
        object: entry.object,
        inherited: entry.inherited,
        sid,
    }
}

fn effective(entry: &Ace, heir: &Heir) -> Ace
    ensures { result ≡ effective entry.now heir.now.owner heir.now.group }
{
    copy_of(entry, INHERITED, stands_for(&entry.sid, heir))
}

fn down(entry: &Ace) -> Ace
    ensures { result ≡ down entry.now }
{
    copy_of(entry, DOWN, entry.sid)
}

fn both(entry: &Ace) -> Ace
    ensures { result ≡ both entry.now }
{
    copy_of(entry, BOTH, entry.sid)
}

/// Puts the copies of a passing entry at the end of the list.
#[tactic(auto, unfolding(crate::specs::Copies::copies))]
pub(crate) fn put_copies(aces: &mut Aces, entry: &Ace, heir: &Heir) -> Result<(), AllocError>
    ensures { OnOk result (aces.new ≡ aces.old ++ copies entry.now heir.now.class heir.now.owner
        heir.now.group) }
{
    if !fits(entry, &heir.class) {
        if propagates_no_further(entry) {
            return Ok(());
        }
        return aces.push(down(entry));
    }
    if propagates_no_further(entry) {
        return aces.push(effective(entry, heir));
    }
    if is_creator(&entry.sid) {
        aces.push(effective(entry, heir))?;
        return aces.push(down(entry));
    }
    aces.push(both(entry))
}

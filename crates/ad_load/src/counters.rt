//! The counters of a directory that is loaded, and the name above its root.

ghost use Rattle.std.specs.Prelude.{◌≡◌, ◌≤◌, ◌^◌, map, drop, IfOk};
ghost use Rattle.std.specs.Option.{option_copied, option_and_then};
ghost use Rattle.ad_load.specs.Links.{rid_if, rid_of, above, above_all, first_rid, next_rid, root_rdns};
ghost use Rattle.ad_ids.specs.SidChild.{child_of};
ghost use Rattle.ad_dir_model.specs.Identity.{is_sid};
ghost use Rattle.ad_load_objects.specs.Drafts.{draft_sid};
ghost use Rattle.ad_load_objects.specs.Seen.{draft_seen};

use ad_dir_objects::last_of;
use ad_dn::Dn;
use ad_ids::Sid;
use ad_load_objects::{Draft, draft_sid};
use ad_schema::Schema;
use std::alloc::{AllocError, Global};

// Whether an identifier is the domain's and this number more.
fn is_child(domain: &Sid, number: u32, sid: &Sid) -> bool
    ensures { result ≡ is_sid sid.now (child_of domain.now number) }
{
    match domain.child(number) {
        Some(child) => child == *sid,
        None => false,
    }
}

fn rid_if(domain: &Sid, sid: &Sid, number: u32) -> Option<u32>
    ensures { result ≡ rid_if domain.now sid.now number }
{
    if is_child(domain, number, sid) {
        return Some(number);
    }
    None
}

// The last number of an identifier that is the domain's and one number more.
#[tactic(auto, unfolding(crate::specs::Links::rid_of))]
fn rid_of(domain: &Sid, sid: &Sid) -> Option<u32>
    ensures { result ≡ rid_of domain.now sid.now }
{
    match last_of(sid.sub_authorities()) {
        Some(number) => rid_if(domain, sid, number),
        None => None,
    }
}

// The last number of the first identifier that a domain gives.
const FIRST_RID: u64 = 1000;

fn above(n: u64, rid: Option<u32>) -> u64
    requires { n ≤ 2 ^ 32 }
    ensures value { result ≡ above n rid }
    ensures small { result ≤ 2 ^ 32 }
{
    match rid {
        Some(rid) => {
            if u64::from(rid) < n {
                n
            } else {
                u64::from(rid) + 1
            }
        }
        None => n,
    }
}

// The last number of an object's identifier, where that is one of the domain's.
fn draft_rid(schema: &Schema, domain: &Sid, draft: &Draft) -> Option<u32>
    ensures { result ≡ option_and_then (rid_of domain.now)
        (draft_sid schema.now (draft_seen draft.now)) }
{
    match draft_sid(schema, draft) {
        Some(sid) => rid_of(domain, &sid),
        None => None,
    }
}

fn above_all(schema: &Schema, domain: &Sid, drafts: &[Draft]) -> u64
    ensures value { result ≡ above_all schema.now domain.now first_rid (map draft_seen drafts.now) }
    ensures small { result ≤ 2 ^ 32 }
{
    let mut n = FIRST_RID;
    for draft in drafts {
        n = above(n, draft_rid(schema, domain, draft));
    }
    n
}

/// The last number of the next identifier, which may be one too large.
#[tactic(auto, unfolding(crate::specs::Links::next_rid))]
pub(crate) fn next_rid(schema: &Schema, domain: Option<&Sid>, drafts: &[Draft]) -> u64
    ensures { result ≡ next_rid schema.now (option_copied domain.entry)
        (map draft_seen drafts.now) }
{
    match domain {
        Some(domain) => above_all(schema, domain, drafts),
        None => FIRST_RID,
    }
}

/// The name above the root.
pub(crate) fn suffix_of(alloc: Global, drafts: &[Draft]) -> Result<Dn, AllocError>
    ensures { IfOk result (λ dn. dn.rdns ≡ drop 1 (root_rdns (map draft_seen drafts.now))) }
{
    match drafts {
        [] => Ok(Dn::root(alloc)),
        [root, ..] => {
            if root.dn.rdns.is_empty() {
                return Ok(Dn::root(alloc));
            }
            root.dn.ancestor(alloc, 1)
        }
    }
}

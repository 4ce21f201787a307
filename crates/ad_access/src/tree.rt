//! The rights that are granted at each node of a type tree, by one sweep for each pass.

ghost use Rattle.std.specs.Prelude.{◌≡◌, ℕ, ◌<◌, ◌&&◌, ◌||◌, true, length, replicate, IfOk};
ghost use Rattle.std.specs.Option.{option_copied};
ghost use Rattle.ad_acl.specs.Mask.{has_bit, mapped_has};
ghost use Rattle.ad_sd.specs.Seen.{seen};
ghost use Rattle.ad_types.specs.Tree.{is_tree, path_at};
ghost use Rattle.ad_access.specs.Grant.{granted, granted_to, granted_to_holders};
ghost use Rattle.ad_access.specs.Found.{IsSwept, undecided};
ghost use Rattle.ad_access.specs.Rank.{holder_of};
ghost use Rattle.ad_access.specs.Rights.{right_at};
ghost use Rattle.ad_access.specs.Tree.{node_granted};

use crate::closing::close;
use crate::found::{Found, allowed_or, take, undecided};
use crate::holder::Rank;
use crate::matching::allows;
use crate::rights::{rights_as_owner, split_wanted};
use crate::sweep::{decided_for, left_by};
use ad_acl::map_generic;
use ad_ids::{Sid, Token};
use ad_sd::SdView;
use ad_types::{Node, TypeTree};
use std::alloc::{AllocError, Global};

// Sweeps over the entries, which decide the wanted rights at the nodes, of which nothing is decided yet. Answers
// what the principal has as the owner.
fn sweep(
    view: &SdView<'_>,
    token: &Token,
    rank: Rank,
    self_sid: Option<&Sid>,
    nodes: &[Node],
    want: u32,
    found: &mut [Found],
) -> u32
    requires tree { is_tree nodes.now ≡ true }
    requires none { found.old ≡ replicate (length nodes.now) (undecided want) }
    ensures { IsSwept (seen view.now) (holder_of token.now rank) (option_copied self_sid.entry)
        nodes.now want found.new result }
{
    let owner = view.owner();
    let mut owned = rights_as_owner(&owner, token, rank, want);
    let mut still = want;
    for ace in view.dacl_in() {
        // Nothing is open any more: no right is undecided at a node, and none is had as the owner.
        if still | owned == 0 {
            return owned;
        }
        owned = left_by(&ace, owned);
        let rights = decided_for(&ace, &owner, self_sid, token, rank, still);
        if rights == 0 {
            continue;
        }
        still = take(nodes, ace.object(), rights, allows(&ace), found);
    }
    owned
}

// The wanted rights that are granted to the principal on the path of each node.
fn granted_at(
    alloc: Global,
    view: &SdView<'_>,
    token: &Token,
    rank: Rank,
    self_sid: Option<&Sid>,
    nodes: &[Node],
    want: u32,
) -> Result<Vec<u32>, AllocError>
    requires { is_tree nodes.now ≡ true }
    ensures len { IfOk result (λ rights. length rights.items ≡ length nodes.now) }
    ensures granted { IfOk result (λ rights. (place bit : ℕ) → place < length nodes.now → bit < 32
        → right_at rights.items bit place
        ≡ (has_bit want bit
        && granted_to (seen view.now).owner (seen view.now).dacl.entries (holder_of token.now rank)
        (option_copied self_sid.entry) (path_at nodes.now place) bit)) }
{
    let mut found = undecided(alloc, nodes.len(), want)?;
    let owned = sweep(view, token, rank, self_sid, nodes, want, &mut found);
    allowed_or(alloc, &found, owned)
}

// What both principals have: of the first rights those that the second has too.
fn keep_both(first: &mut [u32], second: &[u32])
    requires { length first.old ≡ length second.now }
    ensures len { length first.new ≡ length first.old }
    ensures both { (place bit : ℕ) → place < length first.old → right_at first.new bit place
        ≡ (right_at first.old bit place && right_at second.now bit place) }
{
    for i in 0..second.len() {
        first[i] &= second[i];
    }
}

// These rights beside those at each node.
fn add(rights: &mut [u32], more: u32)
    ensures len { length rights.new ≡ length rights.old }
    ensures added { (place bit : ℕ) → place < length rights.old → right_at rights.new bit place
        ≡ (has_bit more bit || right_at rights.old bit place) }
{
    for i in 0..rights.len() {
        rights[i] |= more;
    }
}

// The wanted rights that are granted to each principal of the token on the path of each node.
fn granted_to_holders_at(
    alloc: Global,
    view: &SdView<'_>,
    token: &Token,
    self_sid: Option<&Sid>,
    nodes: &[Node],
    want: u32,
) -> Result<Vec<u32>, AllocError>
    requires { is_tree nodes.now ≡ true }
    ensures len { IfOk result (λ rights. length rights.items ≡ length nodes.now) }
    ensures granted { IfOk result (λ rights. (place bit : ℕ) → place < length nodes.now → bit < 32
        → right_at rights.items bit place
        ≡ (has_bit want bit
        && granted_to_holders (seen view.now).owner (seen view.now).dacl.entries token.now
        (option_copied self_sid.entry) (path_at nodes.now place) bit)) }
{
    let mut first = granted_at(alloc, view, token, Rank::First, self_sid, nodes, want)?;
    if token.restricting.is_empty() {
        return Ok(first);
    }
    let second = granted_at(alloc, view, token, Rank::Second, self_sid, nodes, want)?;
    keep_both(&mut first, &second);
    Ok(first)
}

// The wanted rights, after generic mapping, that are granted to the token on the path of each node.
fn granted_on_paths(
    alloc: Global,
    view: &SdView<'_>,
    token: &Token,
    self_sid: Option<&Sid>,
    nodes: &[Node],
    want: u32,
) -> Result<Vec<u32>, AllocError>
    requires { is_tree nodes.now ≡ true }
    ensures len { IfOk result (λ rights. length rights.items ≡ length nodes.now) }
    ensures granted { IfOk result (λ rights. (place bit : ℕ) → place < length nodes.now → bit < 32
        → right_at rights.items bit place
        ≡ (mapped_has want bit
        && granted (seen view.now).owner (seen view.now).dacl.entries token.now
        (option_copied self_sid.entry) (path_at nodes.now place) bit)) }
{
    let asked = split_wanted(token.privileges, want);
    let mut rights = granted_to_holders_at(alloc, view, token, self_sid, nodes, asked.others)?;
    add(&mut rights, asked.by_privilege);
    Ok(rights)
}

/// The rights of the wanted mask, after generic mapping, that the descriptor grants to the token at each node of
/// the tree, in the order of the nodes ([MS-DTYP] 2.5.3.2). A leaf has what [`granted`](crate::granted) answers for
/// the GUIDs from the root down to it, and any other node what all its children have. `self_sid` is the identifier
/// that the object has of its own, if it has one.
///
/// The entries are swept once for each principal of the token: each costs at most one pass over the nodes.
///
/// # Errors
///
/// Memory ran out.
pub fn check_tree(
    alloc: Global,
    view: SdView<'_>,
    token: &Token,
    self_sid: Option<&Sid>,
    tree: &TypeTree,
    want: u32,
) -> Result<Vec<u32>, AllocError>
    // One answer a node.
    ensures nodes { IfOk result (λ rights. length rights.items ≡ length tree.now) }
    // It is the wanted rights that are granted there.
    ensures granted { IfOk result (λ rights. (place bit : ℕ) → place < length tree.now → bit < 32
        → right_at rights.items bit place
        ≡ (mapped_has want bit && node_granted (seen view.entry) token.now
        (option_copied self_sid.entry) tree.now place bit)) }
{
    let nodes = tree.nodes();
    let mut rights = granted_on_paths(alloc, &view, token, self_sid, nodes, want)?;
    close(nodes, map_generic(want), &mut rights);
    Ok(rights)
}
